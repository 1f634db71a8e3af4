//! Loops that wait for one word, and the walks that are made of them and of turns.

ghost use Rattle.std.specs.Prelude.{◌≡◌, ◌⊎◌, false, [], ◌∷◌, IsNone, IsSome};
ghost use Rattle.core_state.specs.Registers.{saved_and_masked, restored};
ghost use Rattle.duo_machine.specs.declared.machine.Phase.TheVariants.{Resting, Running, Owning, Asking, Quiet, Parked};
ghost use Rattle.duo_machine.specs.declared.events.Kind.TheVariants as kinds;
ghost use Rattle.park_words.specs.Views.{in_phase, in_phase_holding, seat_saw};
ghost use Rattle.cache_gate.specs.Works.{Worked};
ghost use Rattle.cache_gate.specs.Own.{held_of, kept, to_phase, later_on};

use crate::parked::{NoTurn, Parked};
use crate::turns::{back, save};
use bus_hub::{Bus, Duty};
use crash_images::Crash;
use park_words::{CoreSeat, Words};
use std::sync::Wait;
use std::thread;

/// The resting core runs, once nobody holds its gate. It is still masked.
#[tactic(auto, using(crate::proofs::Walks::looked, crate::proofs::Walks::by_start, crate::proofs::Walks::works_none))]
fn start<R: Wait, D: Crash, K: Duty>(
    rt: &R,
    words: &Words<Bus<D, K>>,
    seat: &mut CoreSeat<Bus<D, K>>,
)
    requires table { seat.old.table ≡ words.now }
    requires resting { seat.old.view.phase ≡ Resting }
    ensures exact { seat.new ≡ in_phase seat.old Running seat.new.view.seen }
    ensures works { Worked [] seat.old.view seat.new.view }
{
    for _ in rt.forever() {
        if let Ok(()) = words.start(seat) {
            return;
        }
        thread::yield_now();
    }
}

/// The parked core runs again, once it is freed. Meanwhile it takes its turns, one at the least.
#[tactic(auto, using(crate::proofs::Walks::looked, crate::proofs::Walks::by_leave, crate::proofs::Walks::works_none))]
fn leave<R: Wait, D: Crash, K: Duty, H: Parked>(
    rt: &R,
    words: &Words<Bus<D, K>>,
    seat: &mut CoreSeat<Bus<D, K>>,
    parked: &mut H,
)
    requires table { seat.old.table ≡ words.now }
    requires parked { seat.old.view.phase ≡ Parked }
    requires saved { IsSome seat.old.view.registers.saved }
    ensures exact { seat.new ≡ in_phase seat.old Running seat.new.view.seen }
    ensures works { Worked [] seat.old.view seat.new.view }
    ensures turns { H.kept parked.new ≡ H.kept parked.old }
{
    for _ in rt.forever() {
        parked.turn(&seat.record());
        if let Ok(()) = words.leave(seat) {
            return;
        }
        thread::yield_now();
    }
}

/// The core that asked is quiet, once the other one is parked.
#[tactic(auto, using(crate::proofs::Walks::looked, crate::proofs::Walks::by_see, crate::proofs::Walks::works_none))]
fn look<R: Wait, D: Crash, K: Duty>(
    rt: &R,
    words: &Words<Bus<D, K>>,
    seat: &mut CoreSeat<Bus<D, K>>,
)
    requires table { seat.old.table ≡ words.now }
    requires asking { seat.old.view.phase ≡ Asking }
    ensures exact { seat.new ≡ in_phase seat.old Quiet seat.new.view.seen }
    ensures works { Worked [] seat.old.view seat.new.view }
{
    for _ in rt.forever() {
        if let Ok(()) = words.look(seat) {
            return;
        }
        thread::yield_now();
    }
}

/// The masked core parks where it is asked to, until it is freed. Meanwhile it takes its turns.
#[tactic(auto, using(crate::proofs::Walks::looked, crate::proofs::Walks::by_park, crate::proofs::Walks::works_first, crate::proofs::Walks::works_none))]
fn park<R: Wait, D: Crash, K: Duty, H: Parked>(
    rt: &R,
    words: &Words<Bus<D, K>>,
    seat: &mut CoreSeat<Bus<D, K>>,
    parked: &mut H,
)
    requires table { seat.old.table ≡ words.now }
    requires running { seat.old.view.phase ≡ Running }
    requires saved { IsSome seat.old.view.registers.saved }
    ensures exact { (seat.new ≡ seat_saw seat.old seat.new.view.seen)
        ⊎ (seat.new ≡ in_phase seat.old Running seat.new.view.seen) }
    ensures works { Worked [] seat.old.view seat.new.view }
    ensures turns { H.kept parked.new ≡ H.kept parked.old }
{
    if let Ok(()) = words.park(seat) {
        leave(rt, words, seat, parked);
        // Where both share a processor, the other core, which may be waiting to ask again, goes first.
        thread::yield_now();
    }
}

/// The masked owner of the lock is quiet, once the other core is held at rest or parked.
#[tactic(auto, using(crate::proofs::Walks::looked, crate::proofs::Walks::by_hold, crate::proofs::Walks::by_ask, crate::proofs::Walks::works_first, crate::proofs::Walks::works_none))]
fn hush<R: Wait, D: Crash, K: Duty>(
    rt: &R,
    words: &Words<Bus<D, K>>,
    seat: &mut CoreSeat<Bus<D, K>>,
)
    requires table { seat.old.table ≡ words.now }
    requires owning { seat.old.view.phase ≡ Owning }
    requires saved { IsSome seat.old.view.registers.saved }
    ensures exact { (seat.new ≡ in_phase seat.old Quiet seat.new.view.seen)
        ⊎ (seat.new ≡ in_phase_holding seat.old Quiet seat.new.view.seen) }
    ensures works { Worked [] seat.old.view seat.new.view }
{
    for _ in rt.forever() {
        if let Ok(()) = words.hold(seat) {
            return;
        }
        if let Ok(()) = words.ask(seat) {
            look(rt, words, seat);
            return;
        }
        thread::yield_now();
    }
}

/// The masked core rests, once nobody asks it to park.
#[tactic(auto, using(crate::proofs::Walks::looked, crate::proofs::Walks::by_rest, crate::proofs::Walks::works_first, crate::proofs::Walks::works_none))]
fn settle<R: Wait, D: Crash, K: Duty>(
    rt: &R,
    words: &Words<Bus<D, K>>,
    seat: &mut CoreSeat<Bus<D, K>>,
)
    requires table { seat.old.table ≡ words.now }
    requires running { seat.old.view.phase ≡ Running }
    requires saved { IsSome seat.old.view.registers.saved }
    ensures exact { seat.new ≡ in_phase seat.old Resting seat.new.view.seen }
    ensures works { Worked [] seat.old.view seat.new.view }
{
    for _ in rt.forever() {
        if let Ok(()) = words.rest(seat) {
            return;
        }
        park(rt, words, seat, &mut NoTurn);
        thread::yield_now();
    }
}

/// Where the core is asked to park, it does so, and gets its own registers back.
#[tactic(auto, using(crate::proofs::Walks::looked, crate::proofs::Walks::works_first, crate::proofs::Walks::works_none))]
pub(crate) fn serve<R: Wait, D: Crash, K: Duty, H: Parked>(
    rt: &R,
    words: &Words<Bus<D, K>>,
    seat: &mut CoreSeat<Bus<D, K>>,
    parked: &mut H,
)
    requires table { seat.old.table ≡ words.now }
    requires running { seat.old.view.phase ≡ Running }
    requires unsaved { IsNone seat.old.view.registers.saved }
    requires rested { (seat.old.view.turn ≡ false) × (seat.old.view.stepping ≡ false) }
    ensures exact { held_of seat.new ≡ later_on (held_of seat.old) seat.new.view.seen }
    ensures works { Worked [] seat.old.view seat.new.view }
    ensures turns { H.kept parked.new ≡ H.kept parked.old }
{
    if words.asked(seat) {
        pass_by(rt, words, seat, parked);
    }
}

/// The core parks, where it is still asked to, and gets its own registers back.
#[tactic(auto, using(crate::proofs::Walks::works_first))]
fn pass_by<R: Wait, D: Crash, K: Duty, H: Parked>(
    rt: &R,
    words: &Words<Bus<D, K>>,
    seat: &mut CoreSeat<Bus<D, K>>,
    parked: &mut H,
)
    requires table { seat.old.table ≡ words.now }
    requires running { seat.old.view.phase ≡ Running }
    requires unsaved { IsNone seat.old.view.registers.saved }
    requires rested { (seat.old.view.turn ≡ false) × (seat.old.view.stepping ≡ false) }
    ensures exact { held_of seat.new ≡ later_on (held_of seat.old) seat.new.view.seen }
    ensures works { Worked [] seat.old.view seat.new.view }
    ensures turns { H.kept parked.new ≡ H.kept parked.old }
{
    save(rt, words, seat);
    park(rt, words, seat, parked);
    back(rt, words, seat);
}

/// The lock, once it is free. Meanwhile the core parks where it is asked to.
#[tactic(auto, using(crate::proofs::Walks::looked, crate::proofs::Walks::by_take, crate::proofs::Walks::works_first, crate::proofs::Walks::works_none))]
fn lock<R: Wait, D: Crash, K: Duty, H: Parked>(
    rt: &R,
    words: &Words<Bus<D, K>>,
    seat: &mut CoreSeat<Bus<D, K>>,
    parked: &mut H,
)
    requires table { seat.old.table ≡ words.now }
    requires running { seat.old.view.phase ≡ Running }
    requires unsaved { IsNone seat.old.view.registers.saved }
    requires rested { (seat.old.view.turn ≡ false) × (seat.old.view.stepping ≡ false) }
    ensures exact { held_of seat.new ≡ to_phase (held_of seat.old) Owning seat.new.view.seen }
    ensures works { Worked (kinds.Take ∷ []) seat.old.view seat.new.view }
    ensures turns { H.kept parked.new ≡ H.kept parked.old }
{
    for _ in rt.forever() {
        if let Ok(()) = words.take_lock(seat) {
            return;
        }
        serve(rt, words, seat, parked);
        thread::yield_now();
    }
}

/// The core takes the lock, masks itself, and is quiet once the other one is out of the way.
pub(crate) fn enter<R: Wait, D: Crash, K: Duty, H: Parked>(
    rt: &R,
    words: &Words<Bus<D, K>>,
    seat: &mut CoreSeat<Bus<D, K>>,
    parked: &mut H,
)
    requires table { seat.old.table ≡ words.now }
    requires running { seat.old.view.phase ≡ Running }
    requires unsaved { IsNone seat.old.view.registers.saved }
    requires rested { (seat.old.view.turn ≡ false) × (seat.old.view.stepping ≡ false) }
    ensures exact { held_of seat.new ≡ to_phase (kept (held_of seat.old)
        (saved_and_masked seat.old.view.registers) seat.new.view.seen) Quiet seat.new.view.seen }
    ensures works { Worked (kinds.Take ∷ []) seat.old.view seat.new.view }
    ensures turns { H.kept parked.new ≡ H.kept parked.old }
{
    lock(rt, words, seat, parked);
    save(rt, words, seat);
    hush(rt, words, seat);
}

/// The quiet core lets the other one go, gets its own registers back, and gives the lock back.
#[tactic(auto, using(crate::proofs::Walks::by_end, crate::proofs::Walks::by_give, crate::proofs::Walks::works_first, crate::proofs::Walks::works_none))]
pub(crate) fn calm<R: Wait, D: Crash, K: Duty>(
    rt: &R,
    words: &Words<Bus<D, K>>,
    seat: &mut CoreSeat<Bus<D, K>>,
)
    requires table { seat.old.table ≡ words.now }
    requires quiet { seat.old.view.phase ≡ Quiet }
    requires saved { IsSome seat.old.view.registers.saved }
    requires rested { (seat.old.view.turn ≡ false) × (seat.old.view.stepping ≡ false) }
    ensures exact { held_of seat.new ≡ to_phase (kept (held_of seat.old)
        (restored seat.old.view.registers) seat.new.view.seen) Running seat.new.view.seen }
    ensures works { Worked (kinds.Give ∷ []) seat.old.view seat.new.view }
{
    words.end(seat);
    back(rt, words, seat);
    words.give_lock(seat);
}

/// The resting core runs, once nobody holds its gate, with its own registers.
#[tactic(auto, using(crate::proofs::Walks::works_first))]
pub(crate) fn wake<R: Wait, D: Crash, K: Duty>(
    rt: &R,
    words: &Words<Bus<D, K>>,
    seat: &mut CoreSeat<Bus<D, K>>,
)
    requires table { seat.old.table ≡ words.now }
    requires resting { seat.old.view.phase ≡ Resting }
    requires saved { IsSome seat.old.view.registers.saved }
    requires rested { (seat.old.view.turn ≡ false) × (seat.old.view.stepping ≡ false) }
    ensures exact { held_of seat.new ≡ to_phase (kept (held_of seat.old)
        (restored seat.old.view.registers) seat.new.view.seen) Running seat.new.view.seen }
    ensures works { Worked [] seat.old.view seat.new.view }
{
    start(rt, words, seat);
    back(rt, words, seat);
}

/// The running core masks itself and rests, once nobody asks it to park.
#[tactic(auto, using(crate::proofs::Walks::works_first))]
pub(crate) fn retire<R: Wait, D: Crash, K: Duty>(
    rt: &R,
    words: &Words<Bus<D, K>>,
    seat: &mut CoreSeat<Bus<D, K>>,
)
    requires table { seat.old.table ≡ words.now }
    requires running { seat.old.view.phase ≡ Running }
    requires unsaved { IsNone seat.old.view.registers.saved }
    requires rested { (seat.old.view.turn ≡ false) × (seat.old.view.stepping ≡ false) }
    ensures exact { held_of seat.new ≡ to_phase (kept (held_of seat.old)
        (saved_and_masked seat.old.view.registers) seat.new.view.seen) Resting seat.new.view.seen }
    ensures works { Worked [] seat.old.view seat.new.view }
{
    save(rt, words, seat);
    settle(rt, words, seat);
}
