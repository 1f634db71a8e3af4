//! The seats come back, and each core's lines are served once more.
ghost use Rattle.std.specs.Prelude.{◌≡◌, ◌<◌, ◌^◌, slice_index};
ghost use Rattle.irq_lines.specs.Views.{HasTwoWords, IsBoth};
ghost use Rattle.irq_lines.specs.Story.{IsRun, Apart, Story};
ghost use Rattle.irq_lines.specs.Counts.{IsEven};
ghost use Rattle.irq_lines.specs.Told.{LastServed, IsCounted, EndsIn};

use crate::counts::{Counts, add, sums};
use crate::lines::Lines;
use crate::plays::{Close, Serve};
use crate::rule::Rule;
use crate::seat::IrqSeat;
use crate::view::View;
use atomic_table::{Seat, Table};
use std::alloc::Global;

/// What became of each line of each core.
#[derive(Clone, Copy, Debug, PartialEq, Eq)]
pub struct Closed {
    /// What is still pending.
    pub pending: [u32; 2],
    /// The calls of `raise`.
    pub made: [[u64; 32]; 2],
    /// Those that answered true.
    pub raised: [[u64; 32]; 2],
    /// How often it was served.
    pub served: [[u64; 32]; 2],
}

/// A serve by the seat that took in the other one.
fn serve_last(
    table: &Table<(), View, (), Rule, Global>,
    seat: &mut Seat<(), View>,
    core: u8,
    mask: u32,
) -> u32
    requires table { seat.old.table_id ≡ table.now.shared.table_id }
    requires words { HasTwoWords table.now.shared.table_id }
    requires core { core < 2 }
    requires both { IsBoth seat.old.me.0 }
    requires run { IsRun seat.old.me.0.seen }
    ensures table { seat.new.table_id ≡ seat.old.table_id }
    ensures told { LastServed core mask result seat.old.me seat.new.me }
{
    let found = table
        .shared
        .fetch_and::<Serve>(seat, usize::from(core), u64::from(!mask));
    (found & u64::from(mask)) as u32
}

/// The words at the end.
fn last_words(table: Table<(), View, (), Rule, Global>, seat: Seat<(), View>) -> [u32; 2]
    requires table { seat.table_id ≡ table.shared.table_id }
    requires words { HasTwoWords table.shared.table_id }
    requires both { IsBoth seat.me.0 }
    ensures apart { Apart seat.me.0.core seat.me.0.other }
    ensures story { Story result seat.me.0.core seat.me.0.other seat.me.0.seen seat.me.0.other_seen }
{
    let closed = table.close_with(seat);
    let first = closed.word(0);
    let second = closed.word(1);
    closed.free();
    [first as u32, second as u32]
}

impl Lines {
    /// Both seats of these lines come back. Then each core's lines within its mask are served once
    /// more, so that none of them is pending.
    pub fn close(self, a: IrqSeat, b: IrqSeat, masks: [u32; 2]) -> Closed
        requires first { a.table ≡ self }
        requires second { b.table ≡ self }
        ensures counts { IsCounted a.view b.view result.made result.raised }
        ensures balance { IsEven result.pending result.made result.raised result.served }
        ensures run { EndsIn a.view b.view masks result.pending }
    {
        let IrqSeat {
            mut seat,
            made,
            raised,
            served,
            ..
        } = a;
        let IrqSeat {
            seat: other,
            made: other_made,
            raised: other_raised,
            served: other_served,
            ..
        } = b;
        let Lines { table } = self;
        table.shared.join_seat::<Close>(&mut seat, other);
        let [mask, other_mask] = masks;
        let first = serve_last(&table, &mut seat, 0, mask);
        let second = serve_last(&table, &mut seat, 1, other_mask);
        let pending = last_words(table, seat);
        let mut all_served = sums(&served, &other_served);
        add(&mut all_served, 0, first);
        add(&mut all_served, 1, second);
        Closed {
            pending,
            made: sums(&made, &other_made),
            raised: sums(&raised, &other_raised),
            served: all_served,
        }
    }
}
