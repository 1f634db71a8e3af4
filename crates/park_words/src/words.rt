//! The four words and the value, made and taken apart.
//!
//! Word 0 is the lock and word 1 the turn: 0 for nobody, else the core's number plus 1. Word 2 is
//! the gate of core 0 and word 3 that of core 1: 0 Rest, 1 Run, 2 Asked, 3 Parked, 4 Freed, 5 Held.
//! The one slot holds the value while the turn is nobody's.
ghost use Rattle.std.specs.Prelude.{◌≡◌, ◌<◌, [], Some, IfOk, IfErr};
ghost use Rattle.park_words.specs.Views.{fresh, dealt, IsIdle};
ghost use Rattle.park_words.specs.Story.{RanToRest};
ghost use Rattle.park_words.specs.Told.{IsOpening, IsLast};

use crate::rule::Rule;
use crate::seat::CoreSeat;
use crate::steps::{Close, Deal, Origin};
use crate::view::View;
use atomic_table::{Refused, Seat, Table};
use core_state::{Record, Records};
use duo_machine::Phase;
use std::alloc::{AllocFailed, Global};
use std::marker::{Brand, Model};
use std::snapshot::Snapshot;

/// The word of the lock.
pub(crate) const LOCK: usize = 0;
/// The word of the turn.
pub(crate) const TURN: usize = 1;
/// The number of the lock and of the turn that are nobody's.
pub(crate) const NOBODY: u64 = 0;

/// The shared words of the two cores, with the value that goes with the turn.
#[derive(Drop)]
pub struct Words<V: Records> {
    pub(crate) table: Table<Option<V>, View<V::Base, V::Did>, Snapshot<V>, Rule<V>, Global>,
}

impl<V: Records> Model for Words<V> {
    ghost use Rattle.park_words.specs.Views.{HasFourWords};
    ghost use Rattle.atomic_table.specs.Seated.{TableId, table_id_coded};

    ghost Value = { TableId };

    ghost coded = { table_id_coded };

    ghost view = { λ w. w.table.shared.table_id };

    ghost invariant = { λ w. HasFourWords w.table.shared.table_id };
}

/// Out of memory: the value comes back.
#[derive(Drop)]
pub struct NoWords<V> {
    pub value: V,
}

/// Two seats in place of the first one, one for each resting core.
fn deal<V: Records, O: Origin<V::Base>>(
    table: &Table<Option<V>, View<V::Base, V::Did>, Snapshot<V>, Rule<V>, Global>,
    seat: &mut Seat<Option<V>, View<V::Base, V::Did>>,
) -> Seat<Option<V>, View<V::Base, V::Did>>
    requires table { seat.old.table_id ≡ table.now.shared.table_id }
    requires words { 0 < table.now.shared.table_id.words }
    requires first { seat.old.me ≡ (fresh, []) }
    requires value { IsOpening V.records V.runs V.stands table.now.shared.key.value O.base }
    ensures tables { (seat.new.table_id ≡ seat.old.table_id) × (result.table_id ≡ seat.old.table_id) }
    ensures views { (seat.new.me ≡ (dealt 0 O.base, [])) × (result.me ≡ (dealt 1 O.base, [])) }
{
    table.shared.split_seat::<Deal<O>>(seat)
}

/// The seat of a resting core.
fn resting<V: Records>(seat: Seat<Option<V>, View<V::Base, V::Did>>, core: u8) -> CoreSeat<V>
    ghost base: { V.Base }
    requires { (core < 2) × (seat.me ≡ (dealt core (Some base), [])) }
    ensures { (result.table ≡ seat.table_id) × (result.view ≡ dealt core (Some base)) }
{
    CoreSeat {
        seat,
        core,
        phase: Phase::Resting,
        registers: Record::starting(),
        turn: false,
        held: false,
    }
}

impl<V: Records> Words<V> {
    /// Both cores at rest, nobody has the lock or the turn, and the value at home.
    pub fn new(alloc: Global, value: V) -> Result<(Words<V>, CoreSeat<V>, CoreSeat<V>), NoWords<V>>
        ghost base: { V.Base }
        requires { IsOpening V.records V.runs V.stands value (Some base) }
        ensures tables { IfOk result (λ r. (r.1.table ≡ r.0) × (r.2.table ≡ r.0)) }
        ensures left { IfOk result (λ r. r.1.view ≡ dealt 0 (Some base)) }
        ensures right { IfOk result (λ r. r.2.view ≡ dealt 1 (Some base)) }
        ensures err { IfErr result (λ e. e.value ≡ value) }
    {
        let about = Snapshot::of(&value);
        let mut slots = Vec::new(alloc);
        if let Err(AllocFailed { value }) = slots.push(Some(value)) {
            slots.destroy_empty();
            let Some(value) = value else { unreachable!() };
            return Err(NoWords { value });
        }
        match Table::new(alloc, &[NOBODY, NOBODY, 0, 0], slots, &about) {
            Ok((table, mut seat)) => {
                let other = deal::<V, Brand>(&table, &mut seat);
                let left = resting(seat, 0);
                let right = resting(other, 1);
                Ok((Words { table }, left, right))
            }
            Err(Refused { mut slots }) => {
                let slot = slots.pop();
                slots.destroy_empty();
                let Some(Some(value)) = slot else {
                    unreachable!()
                };
                Err(NoWords { value })
            }
        }
    }

    /// The value, once both cores rest and neither has the turn.
    pub fn close(self, a: CoreSeat<V>, b: CoreSeat<V>) -> V
        requires first { IsIdle self a }
        requires second { IsIdle self b }
        ensures value { IsLast V.records V.runs V.stands result a.view b.view }
        ensures run { RanToRest a.view b.view }
    {
        let CoreSeat { mut seat, .. } = a;
        let CoreSeat { seat: other, .. } = b;
        let Words { table } = self;
        table.shared.join_seat::<Close>(&mut seat, other);
        let mut closed = table.close_with(seat);
        let slot = closed.take(0);
        closed.free();
        let Some(value) = slot else { unreachable!() };
        value
    }
}
