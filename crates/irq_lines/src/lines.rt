//! The two pending words, raised and served.
//!
//! Word 0 has the pending lines of core 0 and word 1 those of core 1, one bit a line.
ghost use Rattle.std.specs.Prelude.{◌≡◌, ◌<◌, [], IfOk};
ghost use Rattle.irq_lines.specs.Views.{dealt, seat_saw, Seated};
ghost use Rattle.irq_lines.specs.Story.{made};
ghost use Rattle.irq_lines.specs.Told.{HasRaised, HasServed, RaisedOnce, RaisesAreKept};

use crate::counts::{add, bit_of, is_clear, no_counts, only_if};
use crate::plays::{Deal, Raise, Serve};
use crate::rule::Rule;
use crate::seat::IrqSeat;
use crate::view::View;
use atomic_table::{Seat, Table};
use std::alloc::{AllocError, Global};
use std::marker::Model;

/// The pending lines of both cores.
#[derive(Drop)]
pub struct Lines {
    pub(crate) table: Table<(), View, (), Rule, Global>,
}

impl Model for Lines {
    ghost use Rattle.irq_lines.specs.Views.{HasTwoWords};
    ghost use Rattle.atomic_table.specs.Seated.{TableId, table_id_coded};

    ghost Value = { TableId };

    ghost coded = { table_id_coded };

    ghost view = { λ w. w.table.shared.table_id };

    ghost invariant = { λ w. HasTwoWords w.table.shared.table_id };
}

/// Out of memory.
#[derive(Clone, Copy, Debug, PartialEq, Eq)]
pub struct NoLines;

impl From<AllocError> for NoLines {
    fn from(_failed: AllocError) -> NoLines {
        NoLines
    }
}

/// The seat of a core that has done nothing yet.
fn seated(seat: Seat<(), View>, core: u8, other: u8) -> IrqSeat
    requires core { core < 2 }
    requires first { seat.me ≡ (dealt core other, []) }
    ensures { (result.table ≡ seat.table_id) × (result.view ≡ dealt core other) }
{
    IrqSeat {
        seat,
        core,
        made: no_counts(),
        raised: no_counts(),
        served: no_counts(),
    }
}

impl Lines {
    /// No line is pending. The first seat is that of core 0.
    pub fn new(alloc: Global) -> Result<(Lines, IrqSeat, IrqSeat), NoLines>
        ensures tables { IfOk result (λ r. (r.1.table ≡ r.0) × (r.2.table ≡ r.0)) }
        ensures left { IfOk result (λ r. r.1.view ≡ dealt 0 1) }
        ensures right { IfOk result (λ r. r.2.view ≡ dealt 1 0) }
    {
        let Ok((table, mut seat)) = Table::of_words(alloc, &[0, 0], &()) else {
            return Err(NoLines);
        };
        let other = table.shared.split_seat::<Deal>(&mut seat);
        let left = seated(seat, 0, 1);
        let right = seated(other, 1, 0);
        Ok((Lines { table }, left, right))
    }

    /// A line of a core is pending. True exactly where it was not.
    pub fn raise(&self, seat: &mut IrqSeat, core: u8, line: u8) -> bool
        requires table { seat.old.table ≡ self.now }
        requires core { core < 2 }
        requires line { line < 32 }
        requires few { made seat.old.view.core seat.old.view.seen core line < 4294967295 }
        ensures ok { seat.new ≡ seat_saw seat.old seat.new.view.seen }
        ensures event { HasRaised core line result seat.old seat.new }
        ensures counted { RaisedOnce core line seat.old.view seat.new.view }
    {
        let bits = bit_of(line);
        let shared = &self.table.shared;
        let found = shared.fetch_or::<Raise>(&mut seat.seat, usize::from(core), u64::from(bits));
        let fresh = is_clear(found, line);
        add(&mut seat.made, core, bits);
        add(&mut seat.raised, core, only_if(fresh, bits));
        fresh
    }

    /// The own core's pending lines within the mask: they are cleared and answered.
    pub fn serve(&self, seat: &mut IrqSeat, mask: u32) -> u32
        requires { seat.old.table ≡ self.now }
        ensures ok { seat.new ≡ seat_saw seat.old seat.new.view.seen }
        ensures event { HasServed mask result seat.old seat.new }
        ensures same { RaisesAreKept seat.old.view seat.new.view }
    {
        let core = seat.core;
        let shared = &self.table.shared;
        let found = shared.fetch_and::<Serve>(&mut seat.seat, usize::from(core), u64::from(!mask));
        let served = (found & u64::from(mask)) as u32;
        add(&mut seat.served, core, served);
        served
    }
}
