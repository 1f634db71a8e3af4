//! A core's seat at the pending words.
ghost use Rattle.std.specs.Prelude.{◌≡◌, ◌<◌};

use crate::view::View;
use atomic_table::Seat;
use std::marker::Model;

/// What a core raises and serves lines with. Contracts see the run of both cores that it has seen.
#[derive(Drop)]
pub struct IrqSeat {
    pub(crate) seat: Seat<(), View>,
    pub(crate) core: u8,
    pub(crate) made: [[u64; 32]; 2],
    pub(crate) raised: [[u64; 32]; 2],
    pub(crate) served: [[u64; 32]; 2],
}

impl Model for IrqSeat {
    ghost use Rattle.irq_lines.specs.Views.{Seated};
    ghost use Rattle.irq_lines.specs.Counts.{IsKept};

    ghost Value = { Seated };

    ghost view = { λ s. record { table = s.seat.table_id; number = s.seat.id; view = s.seat.me.0 } };

    ghost invariant = { λ s. IsKept s.seat.me s.core s.made s.raised s.served };
}

impl IrqSeat {
    /// 0 or 1.
    pub fn core(&self) -> u8
        ensures exact { result ≡ self.now.view.core }
        ensures within { result < 2 }
    {
        self.core
    }
}
