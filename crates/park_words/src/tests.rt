//! Rows of steps on one thread, and two threads that take turns.
ghost use Rattle.std.specs.Prelude.{◌≡◌, ◌+◌, ◌<◌, true, false, [], ◌∷◌, sum, slice_index_or, replicate, None, Some, ◌-◌, IsSome, IfSome, OnSome, ⊤};
ghost use Rattle.std.specs.Thread.{IsSync};
ghost use Rattle.core_state.specs.Registers.{starting, restored};
ghost use Rattle.core_state.specs.Sharing.{GoesOn};
ghost use Rattle.duo_machine.specs.declared.machine.Phase.TheVariants.{Resting, Running, Owning};
ghost use Rattle.duo_machine.specs.declared.events.Kind.TheVariants.{Start};
ghost use Rattle.park_words.specs.declared.view.Act.TheVariants.{Made};
ghost use Rattle.park_words.specs.Views.{IsIdle, in_phase};
ghost use Rattle.park_words.specs.Story.{entry, Ran};
ghost use Rattle.park_words.specs.Told.{Known, Gives, HasGiven, no_work, event_alone, items_alone};

use crate::{CoreSeat, Seen, Words};
use core_state::{Record, Records, Regs, restore};
use duo_machine::{Kind, Phase};
use std::alloc::Global;
use std::sync::Wait;
use std::thread;
use std::thread::{Threads, join};

/// What both cores added up.
#[derive(Drop)]
struct Tally {
    registers: [Record; 2],
    running: Option<u8>,
    total: u64,
}

impl Tally {
    /// Both cores at rest, and nothing added.
    fn new() -> Tally
        ensures registers { result.registers ≡ replicate 2 starting }
        ensures rest { (result.running ≡ None) × (result.total ≡ 0) }
    {
        Tally {
            registers: [Record::starting(); 2],
            running: None,
            total: 0,
        }
    }

    /// The core's own registers in force again.
    fn put_back(&mut self, core: u8)
        requires core { core < 2 }
        requires saved { IsSome (slice_index_or self.old.registers core starting).saved }
        ensures own { slice_index_or self.new.registers core starting ≡
            restored (slice_index_or self.old.registers core starting) }
        ensures other { slice_index_or self.new.registers (1 - core) starting ≡
            slice_index_or self.old.registers (1 - core) starting }
        ensures rest { (self.new.running ≡ self.old.running) × (self.new.total ≡ self.old.total) }
    {
        restore(&mut self.registers[usize::from(core)]);
    }

    /// One more, where there is room: what was added.
    fn add_one(&mut self, _core: u8) -> u64
        requires core { _core < 2 }
        ensures goes_on { GoesOn ⟦<Tally as Records>⟧.stands (λ b c items. ⊤)
            self.old self.new _core (result ∷ []) }
        ensures rest { (self.new.registers ≡ self.old.registers) × (self.new.running ≡ self.old.running) }
    {
        let Some(total) = self.total.checked_add(1) else {
            return 0;
        };
        self.total = total;
        1
    }
}

impl Records for Tally {
    type Base = u64;

    type Did = u64;

    ghost records = { λ t c. slice_index_or t.registers c starting };

    ghost runs = { λ t. t.running };

    ghost stands = { λ t b left right. t.total ≡ b + sum left + sum right };

    fn record(&self, core: u8) -> Record {
        self.registers[usize::from(core)]
    }

    fn running(&self) -> Option<u8> {
        self.running
    }
}

/// Gives the value back, with no event done to it and nothing new in the share.
fn give_nothing<V: Records>(words: &Words<V>, seat: &mut CoreSeat<V>, value: V)
    requires table { seat.old.table ≡ words.now }
    requires turn { seat.old.view.turn ≡ true }
    requires value { Gives V.records V.runs V.stands seat.old.view value no_work }
    ensures { HasGiven V.records V.runs value no_work seat.old seat.new }
{
    words.give_turn(seat, value);
}

/// Gives the value back as it was taken.
fn give_back<V: Records>(words: &Words<V>, seat: &mut CoreSeat<V>, value: V)
    requires table { seat.old.table ≡ words.now }
    requires turn { seat.old.view.turn ≡ true }
    requires same { Known V.records V.runs V.stands value seat.old.view }
    ensures { HasGiven V.records V.runs value no_work seat.old seat.new }
{
    give_nothing(words, seat, value);
}

/// Gives the value back with this event done to it.
fn give_event<V: Records>(words: &Words<V>, seat: &mut CoreSeat<V>, value: V, event: Kind)
    requires table { seat.old.table ≡ words.now }
    requires turn { seat.old.view.turn ≡ true }
    requires value { Gives V.records V.runs V.stands seat.old.view value (event_alone event) }
    ensures { HasGiven V.records V.runs value (event_alone event) seat.old seat.new }
{
    words.give_said(seat, value, &event);
}

/// Gives the sum back with this added to it.
fn give_added(words: &Words<Tally>, seat: &mut CoreSeat<Tally>, tally: Tally, amount: u64)
    requires table { seat.old.table ≡ words.now }
    requires turn { seat.old.view.turn ≡ true }
    requires value { Gives ⟦<Tally as Records>⟧.records ⟦<Tally as Records>⟧.runs ⟦<Tally as Records>⟧.stands
        seat.old.view tally (items_alone (amount ∷ [])) }
    ensures { HasGiven ⟦<Tally as Records>⟧.records ⟦<Tally as Records>⟧.runs
        tally (items_alone (amount ∷ [])) seat.old seat.new }
{
    words.give_said(seat, tally, &amount);
}

/// Puts the core's own registers back in force, where the turn is free.
fn restore_own(words: &Words<Tally>, seat: &mut CoreSeat<Tally>) -> Option<Record>
    requires table { seat.old.table ≡ words.now }
    requires owning { seat.old.view.phase ≡ Owning }
    requires saved { IsSome seat.old.view.registers.saved }
    ensures table { seat.new.table ≡ seat.old.table }
    ensures owning { seat.new.view.phase ≡ Owning }
    ensures own { IfSome result (λ r.
        (r ≡ restored seat.old.view.registers) × (seat.new.view.registers ≡ r)) }
{
    let Ok(mut tally) = words.take_turn(seat) else {
        return None;
    };
    tally.put_back(seat.core());
    let own = tally.record(seat.core());
    give_event(words, seat, tally, Kind::Back);
    Some(own)
}

/// The turn of one core at a time: the number that a refused core read, and whether core 1 had the
/// turn then and later.
fn turns(alloc: Global) -> Option<(u64, bool, bool)> {
    let Ok((words, mut zero, mut one)) = Words::new(alloc, Tally::new()) else {
        return None;
    };
    let Ok(tally) = words.take_turn(&mut zero) else {
        return None;
    };
    let Err(Seen { word }) = words.take_turn(&mut one) else {
        return None;
    };
    give_back(&words, &mut zero, tally);
    let refused = one.has_turn();
    let Ok(tally) = words.take_turn(&mut one) else {
        return None;
    };
    let taken = one.has_turn();
    give_back(&words, &mut one, tally);
    let _tally = words.close(zero, one);
    Some((word, refused, taken))
}

/// Core 1 has the lock: the number that core 0 read, the registers that core 1 got back, its phase
/// at the end.
fn lock_and_back(alloc: Global) -> Option<(u64, [Record; 2], Phase)> {
    let Ok((words, mut zero, mut one)) = Words::new(alloc, Tally::new()) else {
        return None;
    };
    let Ok(()) = words.start(&mut zero) else {
        return None;
    };
    let Ok(()) = words.start(&mut one) else {
        return None;
    };
    let Ok(()) = words.take_lock(&mut one) else {
        return None;
    };
    let Err(taken) = words.take_lock(&mut zero) else {
        return None;
    };
    let Ok(()) = words.rest(&mut zero) else {
        return None;
    };
    let Some(own) = restore_own(&words, &mut one) else {
        return None;
    };
    words.give_lock(&mut one);
    Some((taken.word, [own, one.record()], one.phase()))
}

/// Core 0 holds core 1 at rest: the numbers that a refused ask and a refused start read.
fn held_at_rest(alloc: Global) -> Option<(u64, u64)> {
    let Ok((words, mut zero, mut one)) = Words::new(alloc, Tally::new()) else {
        return None;
    };
    let Ok(()) = words.start(&mut zero) else {
        return None;
    };
    let Ok(()) = words.take_lock(&mut zero) else {
        return None;
    };
    let Err(asked) = words.ask(&mut zero) else {
        return None;
    };
    let Ok(()) = words.hold(&mut zero) else {
        return None;
    };
    let Err(held) = words.start(&mut one) else {
        return None;
    };
    words.end(&mut zero);
    let Ok(()) = words.start(&mut one) else {
        return None;
    };
    Some((asked.word, held.word))
}

/// Core 0 parks core 1: the numbers that refused calls read, and whether core 1 was asked.
fn parked(alloc: Global) -> Option<([u64; 4], bool)> {
    let Ok((words, mut zero, mut one)) = Words::new(alloc, Tally::new()) else {
        return None;
    };
    let Ok(()) = words.start(&mut zero) else {
        return None;
    };
    let Ok(()) = words.start(&mut one) else {
        return None;
    };
    let Ok(()) = words.take_lock(&mut zero) else {
        return None;
    };
    let Err(lock) = words.take_lock(&mut one) else {
        return None;
    };
    let Err(running) = words.hold(&mut zero) else {
        return None;
    };
    let Ok(()) = words.ask(&mut zero) else {
        return None;
    };
    let Err(unparked) = words.look(&mut zero) else {
        return None;
    };
    let asked = words.asked(&mut one);
    let Ok(()) = words.park(&mut one) else {
        return None;
    };
    let Ok(()) = words.look(&mut zero) else {
        return None;
    };
    let Err(parked) = words.leave(&mut one) else {
        return None;
    };
    words.end(&mut zero);
    let Ok(()) = words.leave(&mut one) else {
        return None;
    };
    Some(([lock.word, running.word, unparked.word, parked.word], asked))
}

/// Tries until the core runs. Of the core's own entries the run gains Start alone.
#[tactic(auto, using(crate::proofs::Stories::ran_looks, crate::proofs::Stories::ran_step, crate::proofs::Stories::ran_none))]
fn start_waiting<R: Wait, V: Records>(rt: &R, words: &Words<V>, seat: &mut CoreSeat<V>)
    requires table { seat.old.table ≡ words.now }
    requires resting { seat.old.view.phase ≡ Resting }
    ensures exact { seat.new ≡ in_phase seat.old Running seat.new.view.seen }
    ensures ran { Ran (entry seat.old.view.core (Made Start) ∷ []) seat.old.view seat.new.view }
{
    for _ in rt.forever() {
        if words.start(seat).is_ok() {
            return;
        }
        thread::yield_now();
    }
}

/// Core 0 waits until it runs: its phase then.
fn waits<R: Wait>(rt: &R, alloc: Global) -> Option<Phase> {
    let Ok((words, mut zero, _one)) = Words::new(alloc, Tally::new()) else {
        return None;
    };
    start_waiting(rt, &words, &mut zero);
    Some(zero.phase())
}

#[test]
fn rows_of_steps(rt: HostRuntime) {
    assert_eq!(rt;
        turns(rt.alloc()),
        Some((1, false, true)),
        "turn of 0, turn of 1, back, turn of 1"
    );
    assert_eq!(rt;
        lock_and_back(rt.alloc()),
        Some((
            2,
            [Record {
                regs: Regs { mask: 3, irq: 1 },
                saved: None,
            }; 2],
            Phase::Running
        )),
        "core 1 takes the lock, gets its registers back and gives the lock back"
    );
    assert_eq!(rt;
        held_at_rest(rt.alloc()),
        Some((0, 5)),
        "core 1 is held at rest"
    );
    assert_eq!(rt;
        parked(rt.alloc()),
        Some(([1, 1, 2, 3], true)),
        "core 1 parks and leaves"
    );
    assert_eq!(rt;
        waits(&rt, rt.alloc()),
        Some(Phase::Running),
        "core 0 waits until it runs"
    );
}

/// One turn, in which this core adds one, once the turn is free.
fn take_and_add<R: Wait>(rt: &R, words: &Words<Tally>, seat: &mut CoreSeat<Tally>)
    requires table { seat.old.table ≡ words.now }
    requires idle { seat.old.view.turn ≡ false }
    ensures table { seat.new.table ≡ seat.old.table }
    ensures phase { seat.new.view.phase ≡ seat.old.view.phase }
    ensures idle { seat.new.view.turn ≡ false }
{
    for _ in rt.forever() {
        if let Ok(mut tally) = words.take_turn(seat) {
            let amount = tally.add_one(seat.core());
            give_added(words, seat, tally, amount);
            return;
        }
        thread::yield_now();
    }
}

/// So many turns, in each of which this core adds one.
fn take_turns<R: Wait>(
    rt: &R,
    words: &Words<Tally>,
    mut seat: CoreSeat<Tally>,
    rounds: u32,
) -> CoreSeat<Tally>
    requires table { seat.table ≡ words.now }
    requires idle { seat.view.turn ≡ false }
    ensures table { result.table ≡ words.now }
    ensures phase { result.view.phase ≡ seat.view.phase }
    ensures idle { result.view.turn ≡ false }
{
    for _ in 0..rounds {
        take_and_add(rt, words, &mut seat);
    }
    seat
}

/// Two threads with 3,000 turns each: what they added up.
fn two_threads<R: Threads + Wait + Sync>(rt: &R, alloc: Global) -> Option<u64> {
    let Ok((words, zero, one)) = Words::new(alloc, Tally::new()) else {
        return None;
    };
    let shared = &words;
    let (zero, one) = join(
        rt,
        move || -> CoreSeat<Tally>
            requires { IsSync R.row × IsIdle shared.now zero }
            ensures { IsIdle shared.entry.now result }
        { take_turns(rt, shared, zero, 3000) },
        move || -> CoreSeat<Tally>
            requires { IsSync R.row × IsIdle shared.now one }
            ensures { IsIdle shared.entry.now result }
        { take_turns(rt, shared, one, 3000) },
    );
    let tally = words.close(zero, one);
    Some(tally.total)
}

#[test]
fn two_threads_take_turns(rt: HostRuntime) {
    assert_eq!(rt; two_threads(&rt, rt.alloc()), Some(6000));
}
