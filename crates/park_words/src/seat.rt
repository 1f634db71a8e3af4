//! A core's seat at the shared words.
ghost use Rattle.std.specs.Prelude.{◌≡◌, ◌<◌};

use crate::view::View;
use atomic_table::Seat;
use core_state::{Record, Records};
use duo_machine::Phase;
use std::marker::Model;

/// The number that a call read in its word, where it awaited another.
#[derive(Clone, Copy, Debug, PartialEq, Eq)]
pub struct Seen {
    pub word: u64,
}

/// What a core makes its steps with. Contracts also see what its core did to the value, and the
/// base.
#[derive(Drop)]
pub struct CoreSeat<V: Records> {
    pub(crate) seat: Seat<Option<V>, View<V::Base, V::Did>>,
    pub(crate) core: u8,
    pub(crate) phase: Phase,
    pub(crate) registers: Record,
    pub(crate) turn: bool,
    pub(crate) held: bool,
}

impl<V: Records> Model for CoreSeat<V> {
    ghost use Rattle.park_words.specs.Views.{Seated, IsKept};

    ghost Value = { Seated V.Base V.Did };

    ghost view = { λ s. record { table = s.seat.table_id; number = s.seat.id; view = s.seat.me.0 } };

    ghost invariant = { λ s. IsKept s.seat.me s.core s.phase s.registers s.turn s.held };
}

impl<V: Records> CoreSeat<V> {
    /// 0 or 1.
    pub fn core(&self) -> u8
        ensures exact { result ≡ self.now.view.core }
        ensures within { result < 2 }
    {
        self.core
    }

    /// What its core is doing.
    pub fn phase(&self) -> Phase
        ensures { result ≡ self.now.view.phase }
    {
        self.phase
    }

    /// Its core's registers, in force and saved.
    pub fn record(&self) -> Record
        ensures { result ≡ self.now.view.registers }
    {
        self.registers
    }

    /// Whether its core has the turn.
    pub fn has_turn(&self) -> bool
        ensures { result ≡ self.now.view.turn }
    {
        self.turn
    }
}
