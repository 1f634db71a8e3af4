//! Every step on the table, as a type that says what the step tells.
ghost use Rattle.std.specs.Prelude.{Bool, true, false, List, [], Option, None};
ghost use Rattle.duo_machine.specs.declared.machine.Phase.{Phase};
ghost use Rattle.duo_machine.specs.declared.machine.Phase.TheVariants.{Resting, Running, Owning, Asking, Quiet, Parked};
ghost use Rattle.duo_machine.specs.declared.events.Kind.{Kind};
ghost use Rattle.duo_machine.specs.declared.events.Kind.TheVariants.{Start, Rest, Take, Give, Hold, Ask, Park, See, End, Leave};
ghost use Rattle.park_words.specs.Views.{dealt, both_of, spent};
ghost use Rattle.park_words.specs.Told.{Work, TellsTaken, TellsGiven, TellsExchange, Tells, TellsLoad};

use crate::view::View;
use atomic_table::{Join, Play, Split};
use core_state::Records;
use std::marker::{Brand, PhantomData};

/// What is fixed when the words are made.
pub(crate) trait Origin<B> {
    ghost base: { Option B };
}

impl<B> Origin<B> for Brand {
    ghost base = { None };
}

/// Two resting cores in place of one view.
pub(crate) struct Deal<O> {
    origin: PhantomData<O>,
}

impl<B, D, O: Origin<B>> Split<View<B, D>> for Deal<O> {
    ghost left = { λ _. dealt 0 O.base };

    ghost right = { λ _. dealt 1 O.base };
}

/// One view in place of two resting cores.
pub(crate) struct Close;

impl<B, D> Join<View<B, D>> for Close {
    ghost both = { both_of };

    ghost spent = { spent };
}

/// The turn is taken, where it is free.
pub(crate) struct TakeTurn;

impl<V: Records> Play<Option<V>, View<V::Base, V::Did>> for TakeTurn {
    ghost then = { TellsTaken V.records V.runs V.stands };
}

/// What a core did while it had the turn.
pub(crate) trait Worked<D> {
    ghost work: { Work D };
}

impl<D> Worked<D> for Brand {
    ghost work = { record { event = None; items = [] } };
}

/// The turn is given back, with this work.
pub(crate) struct GiveTurn<J> {
    work: PhantomData<J>,
}

impl<V: Records, J: Worked<V::Did>> Play<Option<V>, View<V::Base, V::Did>> for GiveTurn<J> {
    ghost then = { TellsGiven V.records V.runs V.stands J.work };
}

/// An event that a step on a word makes.
pub(crate) trait GateEvent {
    ghost kind: { Kind };
    /// The phase that its core is in then.
    ghost phase: { Phase };
    /// Whether its core holds the other one at rest then.
    ghost held: { Bool };
}

/// An exchange that makes this event.
pub(crate) struct Exchange<E> {
    event: PhantomData<E>,
}

impl<V: Records, E: GateEvent> Play<Option<V>, View<V::Base, V::Did>> for Exchange<E> {
    ghost then = { TellsExchange E.kind E.phase E.held };
}

/// A load of the other gate, which makes the event See where it finds Parked.
pub(crate) struct Look;

impl<V: Records> Play<Option<V>, View<V::Base, V::Did>> for Look {
    ghost then = { Tells See Quiet false 3 };
}

/// A load that makes no event.
pub(crate) struct Load;

impl<V: Records> Play<Option<V>, View<V::Base, V::Did>> for Load {
    ghost then = { TellsLoad };
}

/// The lock is taken.
pub(crate) struct TakeLock;

impl GateEvent for TakeLock {
    ghost kind = { Take };

    ghost phase = { Owning };

    ghost held = { false };
}

/// The lock is given back.
pub(crate) struct GiveLock;

impl GateEvent for GiveLock {
    ghost kind = { Give };

    ghost phase = { Running };

    ghost held = { false };
}

/// The core starts.
pub(crate) struct StartCore;

impl GateEvent for StartCore {
    ghost kind = { Start };

    ghost phase = { Running };

    ghost held = { false };
}

/// The core goes to rest.
pub(crate) struct RestCore;

impl GateEvent for RestCore {
    ghost kind = { Rest };

    ghost phase = { Resting };

    ghost held = { false };
}

/// The core parks.
pub(crate) struct ParkCore;

impl GateEvent for ParkCore {
    ghost kind = { Park };

    ghost phase = { Parked };

    ghost held = { false };
}

/// The freed core runs again.
pub(crate) struct LeaveGate;

impl GateEvent for LeaveGate {
    ghost kind = { Leave };

    ghost phase = { Running };

    ghost held = { false };
}

/// The other core is asked to park.
pub(crate) struct AskOther;

impl GateEvent for AskOther {
    ghost kind = { Ask };

    ghost phase = { Asking };

    ghost held = { false };
}

/// The other core is held at rest.
pub(crate) struct HoldOther;

impl GateEvent for HoldOther {
    ghost kind = { Hold };

    ghost phase = { Quiet };

    ghost held = { true };
}

/// The other core is let go.
pub(crate) struct EndQuiet;

impl GateEvent for EndQuiet {
    ghost kind = { End };

    ghost phase = { Owning };

    ghost held = { false };
}
