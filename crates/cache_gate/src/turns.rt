//! One turn each: the bus is taken, one call of it is made, and it goes back.

ghost use Rattle.std.specs.Prelude.{◌≡◌, ◌≢◌, ◌↔◌, ℕ, ◌+◌, ◌<◌, ◌≤◌, ◌^◌, true, false, [], ◌∷◌, length, None, IsNone, IsSome, IfSome, OnOk, Err};
ghost use Rattle.core_state.specs.Registers.{saved_and_masked, restored};
ghost use Rattle.duo_machine.specs.declared.machine.Phase.TheVariants.{Running, Quiet};
ghost use Rattle.duo_machine.specs.Table.{IsAwake};
ghost use Rattle.duo_machine.specs.declared.events.Kind.TheVariants as kinds;
ghost use Rattle.nor_device.specs.Flash.{end_of, IsInOnePage};
ghost use Rattle.park_words.specs.Told.{HasTaken, Known};
ghost use Rattle.bus_hub.specs.declared.did.Did.TheVariants.{Noted, Mapping, Unmapping};
ghost use Rattle.bus_hub.specs.declared.entry.Act.TheVariants.{Set};
ghost use Rattle.bus_hub.specs.declared.reads.FetchNo.TheVariants as refusals;
ghost use Rattle.bus_hub.specs.Fetch.{IsServed, IsFixed};
ghost use Rattle.bus_hub.specs.Log.{IsNote};
ghost use Rattle.bus_hub.specs.Told.{asked, started};
ghost use Rattle.cache_gate.specs.Works.{Worked, told_in, events_in};
ghost use Rattle.cache_gate.specs.Own.{OnBase, held_of, behind, kept, HasRoom, IsInside, MayMake, IsPartOf};
ghost use Rattle.cache_gate.specs.Said.{HasPolled, HasRead, GivesRoom, is_begun, number_of_open, fetch_event, begin_event, done_event};
ghost use Rattle.bus_hub.specs.Hub.{Fits};
ghost use Rattle.bus_hub.specs.Shares.{open_from, own_begun, made, moved_by};

use crate::said::{Said, give};
use bus_hub::{Act, Bus, Duty, FetchNo};
use core_state::{Records, Regs};
use crash_images::Crash;
use image_layout::Space;
use mmu_map::{NoPages, NotMapped};
use nor_device::{NorFault, Ready, Step};
use park_words::{CoreSeat, Words};
use std::sync::Wait;
use std::thread;

/// What a core knows of the bus that it took, by its own share alone: that this share fits its room, what room
/// the journal has for it, its part of the duty, which step of its own runs, how long the flash is,
/// and which ranges stay fixed.
fn known<D: Crash, K: Duty>(bus: &Bus<D, K>, seat: &CoreSeat<Bus<D, K>>)
    requires { Known ⟦<Bus<D, K> as Records>⟧.records ⟦<Bus<D, K> as Records>⟧.runs
        ⟦<Bus<D, K> as Records>⟧.stands bus.now seat.now.view }
    ensures fits { IfSome seat.now.view.base
        (λ b. Fits b seat.now.view.core seat.now.view.share) }
    ensures room { IfSome seat.now.view.base
        (λ b. GivesRoom b seat.now.view.core seat.now.view.share bus.now) }
    ensures part { IfSome seat.now.view.base (λ b. K.part bus.now.duty seat.now.view.core
        ≡ moved_by K.moved (K.part b.duty seat.now.view.core) (made seat.now.view.share)) }
    ensures step { IfSome seat.now.view.base (λ _. own_begun seat.now.view.core bus.now.running
        ≡ open_from None seat.now.view.share) }
    ensures size { IfSome seat.now.view.base (λ b. length b.flash ≡ D.size bus.now.dev) }
    ensures range { IfSome seat.now.view.base (λ b. (at len : ℕ)
        → IsFixed b.map (length b.flash) at len
        → IsFixed bus.now.map (D.size bus.now.dev) at len) }
{
    let _core = seat.core();
    bus.known();
    bus.lasting();
    bus.fixed();
}

/// The bus, once the turn is free.
#[tactic(auto, using(crate::proofs::Walks::looked, crate::proofs::Walks::took, crate::proofs::Walks::works_none))]
pub(crate) fn take<R: Wait, D: Crash, K: Duty>(
    rt: &R,
    words: &Words<Bus<D, K>>,
    seat: &mut CoreSeat<Bus<D, K>>,
) -> Bus<D, K>
    requires table { seat.old.table ≡ words.now }
    ensures taken { HasTaken seat.old seat.new }
    ensures value { Known ⟦<Bus<D, K> as Records>⟧.records ⟦<Bus<D, K> as Records>⟧.runs
        ⟦<Bus<D, K> as Records>⟧.stands result seat.new.view }
    ensures works { Worked [] seat.old.view seat.new.view }
{
    for _ in rt.forever() {
        if let Ok(bus) = words.take_turn(seat) {
            return bus;
        }
        thread::yield_now();
    }
    unreachable!()
}

/// The registers are saved and cleared.
#[tactic(auto, using(crate::proofs::Walks::works_first))]
pub(crate) fn save<R: Wait, D: Crash, K: Duty>(
    rt: &R,
    words: &Words<Bus<D, K>>,
    seat: &mut CoreSeat<Bus<D, K>>,
)
    requires table { seat.old.table ≡ words.now }
    requires awake { IsAwake seat.old.view.phase }
    requires unsaved { IsNone seat.old.view.registers.saved }
    ensures exact { held_of seat.new ≡ kept (held_of seat.old)
        (saved_and_masked seat.old.view.registers) seat.new.view.seen }
    ensures works { Worked [] seat.old.view seat.new.view }
{
    let mut bus = take(rt, words, seat);
    known(&bus, seat);
    bus.save(seat.core());
    give(words, seat, bus, &Said::Saved);
}

/// The saved registers are in force again.
#[tactic(auto, using(crate::proofs::Walks::works_first))]
pub(crate) fn back<R: Wait, D: Crash, K: Duty>(
    rt: &R,
    words: &Words<Bus<D, K>>,
    seat: &mut CoreSeat<Bus<D, K>>,
)
    requires table { seat.old.table ≡ words.now }
    requires awake { IsAwake seat.old.view.phase }
    requires saved { IsSome seat.old.view.registers.saved }
    ensures exact { held_of seat.new ≡ kept (held_of seat.old)
        (restored seat.old.view.registers) seat.new.view.seen }
    ensures works { Worked [] seat.old.view seat.new.view }
{
    let mut bus = take(rt, words, seat);
    known(&bus, seat);
    bus.back(seat.core());
    give(words, seat, bus, &Said::Restored);
}

/// An entry is noted.
#[tactic(auto, using(crate::proofs::Walks::works_first))]
pub(crate) fn note<R: Wait, D: Crash, K: Duty>(
    rt: &R,
    words: &Words<Bus<D, K>>,
    seat: &mut CoreSeat<Bus<D, K>>,
    k: u32,
    act: Act,
)
    requires table { seat.old.table ≡ words.now }
    requires running { seat.old.view.phase ≡ Running }
    requires unsaved { IsNone seat.old.view.registers.saved }
    requires note { IsNote act }
    requires room { HasRoom seat.old.view.base seat.old.view.core seat.old.view.share 1 0 }
    ensures exact { held_of seat.new ≡ behind (held_of seat.old) seat.old.view.registers false
        (Noted k seat.old.view.registers.regs act ∷ []) seat.new.view.seen }
    ensures works { Worked (events_in (Noted k seat.old.view.registers.regs act ∷ []))
        seat.old.view seat.new.view }
{
    let mut bus = take(rt, words, seat);
    known(&bus, seat);
    let regs = seat.record().regs;
    bus.note(seat.core(), k, act);
    give(words, seat, bus, &Said::Noting { k, regs, act });
}

/// The registers are set.
#[tactic(auto, using(crate::proofs::Walks::works_first))]
pub(crate) fn set<R: Wait, D: Crash, K: Duty>(
    rt: &R,
    words: &Words<Bus<D, K>>,
    seat: &mut CoreSeat<Bus<D, K>>,
    k: u32,
    regs: Regs,
)
    requires table { seat.old.table ≡ words.now }
    requires running { seat.old.view.phase ≡ Running }
    requires unsaved { IsNone seat.old.view.registers.saved }
    requires mask { regs.mask ≤ 3 }
    requires room { HasRoom seat.old.view.base seat.old.view.core seat.old.view.share 1 0 }
    ensures exact { held_of seat.new ≡ behind (held_of seat.old)
        (record seat.old.view.registers { regs = regs }) false (Noted k regs Set ∷ []) seat.new.view.seen }
    ensures works { Worked (kinds.Set regs ∷ []) seat.old.view seat.new.view }
{
    let mut bus = take(rt, words, seat);
    known(&bus, seat);
    bus.set(seat.core(), k, regs);
    give(words, seat, bus, &Said::Set { k, regs });
}

/// Bytes are fetched.
#[tactic(auto, using(crate::proofs::Walks::works_first))]
pub(crate) fn fetch<R: Wait, D: Crash, K: Duty>(
    rt: &R,
    words: &Words<Bus<D, K>>,
    seat: &mut CoreSeat<Bus<D, K>>,
    k: u32,
    at: u32,
    len: u32,
) -> Result<(), FetchNo>
    requires table { seat.old.table ≡ words.now }
    requires running { seat.old.view.phase ≡ Running }
    requires unsaved { IsNone seat.old.view.registers.saved }
    requires some { 1 ≤ len }
    requires most { len ≤ 256 }
    requires room { HasRoom seat.old.view.base seat.old.view.core seat.old.view.share 1 len }
    ensures exact { HasRead k at len result (held_of seat.old) (held_of seat.new) }
    ensures works { Worked (told_in (fetch_event at result)) seat.old.view seat.new.view }
    ensures masked { result ≢ Err refusals.Unmapped
        → result ≡ Err refusals.Masked ↔ (¬ IsServed seat.old.view.registers.regs.mask at) }
    ensures fixed { OnBase seat.old.view.base (λ b. IsFixed b.map (length b.flash) at len)
        → result ≢ Err refusals.Unmapped }
{
    let mut bus = take(rt, words, seat);
    known(&bus, seat);
    let regs = seat.record().regs;
    let answer = bus.fetch(seat.core(), k, at, len);
    let said = Said::Fetched {
        k,
        regs,
        at,
        len,
        answer,
    };
    give(words, seat, bus, &said);
    answer
}

/// A step is begun.
#[tactic(auto, using(crate::proofs::Walks::works_first))]
pub(crate) fn begin<R: Wait, D: Crash, K: Duty>(
    rt: &R,
    words: &Words<Bus<D, K>>,
    seat: &mut CoreSeat<Bus<D, K>>,
    k: u32,
    step: &Step,
) -> Result<(), NorFault>
    requires table { seat.old.table ≡ words.now }
    requires quiet { seat.old.view.phase ≡ Quiet }
    requires idle { seat.old.view.stepping ≡ false }
    requires paged { IsInOnePage step.now }
    requires small { end_of step.now ≤ 2 ^ 32 }
    requires inside { IsInside seat.old.view.base (end_of step.now) }
    requires may { MayMake K.part K.grants K.moved seat.old.view.base seat.old.view.core seat.old.view.share step.now }
    requires room { HasRoom seat.old.view.base seat.old.view.core seat.old.view.share 2 0 }
    ensures exact { held_of seat.new ≡ behind (held_of seat.old) seat.old.view.registers (is_begun result)
        (started k seat.old.view.registers.regs step.now result) seat.new.view.seen }
    ensures works { Worked (told_in (begin_event result)) seat.old.view seat.new.view }
{
    let mut bus = take(rt, words, seat);
    known(&bus, seat);
    let regs = seat.record().regs;
    let answer = bus.start(seat.core(), k, step);
    give(words, seat, bus, &Said::Starting { regs, answer });
    answer
}

/// The step of the core is polled.
#[tactic(auto, using(crate::proofs::Walks::works_first))]
pub(crate) fn poll<R: Wait, D: Crash, K: Duty>(
    rt: &R,
    words: &Words<Bus<D, K>>,
    seat: &mut CoreSeat<Bus<D, K>>,
    k: u32,
) -> Result<Ready, NorFault>
    requires table { seat.old.table ≡ words.now }
    requires quiet { seat.old.view.phase ≡ Quiet }
    requires stepping { seat.old.view.stepping ≡ true }
    requires base { IsSome seat.old.view.base }
    requires begun { number_of_open (open_from None seat.old.view.share) ≡ k }
    ensures exact { HasPolled k result (held_of seat.old) (held_of seat.new) }
    ensures works { Worked (told_in (done_event result)) seat.old.view seat.new.view }
{
    let mut bus = take(rt, words, seat);
    known(&bus, seat);
    let regs = seat.record().regs;
    let answer = bus.poll(seat.core());
    give(words, seat, bus, &Said::Polled { k, regs, answer });
    answer
}

/// The device is read.
#[tactic(auto, using(crate::proofs::Walks::works_first))]
pub(crate) fn read<R: Wait, D: Crash, K: Duty>(
    rt: &R,
    words: &Words<Bus<D, K>>,
    seat: &mut CoreSeat<Bus<D, K>>,
    at: u32,
    out: &mut [u8],
) -> Result<(), NorFault>
    requires table { seat.old.table ≡ words.now }
    requires quiet { seat.old.view.phase ≡ Quiet }
    requires idle { seat.old.view.stepping ≡ false }
    requires inside { IsInside seat.old.view.base (at + length out.old) }
    ensures exact { held_of seat.new ≡ behind (held_of seat.old) seat.old.view.registers false (asked result)
        seat.new.view.seen }
    ensures length { length out.new ≡ length out.old }
    ensures bytes { OnOk result (IfSome seat.old.view.base (λ b. IsPartOf
        ⟦<Bus<D, K> as Records>⟧.stands (λ h. D.bytes h.dev) b seat.old.view.core
        seat.old.view.share at out.new)) }
    ensures works { Worked (events_in (asked result)) seat.old.view seat.new.view }
{
    let mut bus = take(rt, words, seat);
    known(&bus, seat);
    let answer = bus.read(seat.core(), at, out);
    give(words, seat, bus, &Said::Looked { answer });
    answer
}

/// Pages are mapped.
#[tactic(auto, using(crate::proofs::Walks::works_first))]
pub(crate) fn map<R: Wait, D: Crash, K: Duty>(
    rt: &R,
    words: &Words<Bus<D, K>>,
    seat: &mut CoreSeat<Bus<D, K>>,
    flash_page: u32,
    n: u8,
    space: Space,
) -> Result<u32, NoPages>
    requires table { seat.old.table ≡ words.now }
    requires running { seat.old.view.phase ≡ Running }
    requires unsaved { IsNone seat.old.view.registers.saved }
    requires some { 1 ≤ n }
    requires flash { flash_page + n ≤ 256 }
    ensures exact { held_of seat.new ≡ behind (held_of seat.old) seat.old.view.registers false
        (Mapping flash_page n space result ∷ []) seat.new.view.seen }
    ensures works { Worked [] seat.old.view seat.new.view }
{
    let mut bus = take(rt, words, seat);
    known(&bus, seat);
    let answer = bus.map(seat.core(), flash_page, n, space);
    let said = Said::Mapped {
        flash_page,
        n,
        space,
        answer,
    };
    give(words, seat, bus, &said);
    answer
}

/// A run of pages is freed.
#[tactic(auto, using(crate::proofs::Walks::works_first))]
pub(crate) fn unmap<R: Wait, D: Crash, K: Duty>(
    rt: &R,
    words: &Words<Bus<D, K>>,
    seat: &mut CoreSeat<Bus<D, K>>,
    at: u32,
) -> Result<(), NotMapped>
    requires table { seat.old.table ≡ words.now }
    requires running { seat.old.view.phase ≡ Running }
    requires unsaved { IsNone seat.old.view.registers.saved }
    ensures exact { held_of seat.new ≡ behind (held_of seat.old) seat.old.view.registers false
        (Unmapping at result ∷ []) seat.new.view.seen }
    ensures works { Worked [] seat.old.view seat.new.view }
{
    let mut bus = take(rt, words, seat);
    known(&bus, seat);
    let answer = bus.unmap(seat.core(), at);
    give(words, seat, bus, &Said::Freed { at, answer });
    answer
}
