//! The states of a core.

ghost use Rattle.std.specs.Prelude.{◌≡◌, ◌≢◌, ◌↔◌, ◌+◌, ◌<◌, ◌≤◌, ◌^◌, [], ◌∷◌, length, IfSome, OnOk, Err};
ghost use Rattle.duo_machine.specs.declared.events.Kind.TheVariants as kinds;
ghost use Rattle.nor_device.specs.Flash.{end_of, IsInOnePage};
ghost use Rattle.bus_hub.specs.declared.did.Base.{Base};
ghost use Rattle.bus_hub.specs.declared.did.Did.{Did};
ghost use Rattle.bus_hub.specs.declared.did.Did.TheVariants.{Noted, Mapping, Unmapping};
ghost use Rattle.bus_hub.specs.declared.entry.Act.TheVariants.{Set};
ghost use Rattle.bus_hub.specs.declared.reads.FetchNo.TheVariants as refusals;
ghost use Rattle.bus_hub.specs.Fetch.{IsServed, IsFixed};
ghost use Rattle.bus_hub.specs.Log.{IsNote};
ghost use Rattle.bus_hub.specs.Told.{asked};
ghost use Rattle.cache_gate.specs.Own.{OnBase, HasRoom, IsInside, MayMake, Keeps, HasShown, HasShownStep, Adds, HasFetched, HasStepped, IsPartOf, set_to};

use crate::parked::{NoTurn, Parked};
use crate::{steps, turns, waits};
use bus_hub::{Act, Bus, Duty, FetchNo};
use core_state::{Records, Regs};
use crash_images::Crash;
use image_layout::Space;
use mmu_map::{NoPages, NotMapped};
use nor_device::{NorFault, Step};
use park_words::{CoreSeat, Words};
use std::marker::Model;
use std::sync::Wait;

/// A core at rest at the words of both. It borrows nothing, and goes back to the gates.
#[must_use]
#[derive(Drop)]
pub struct Ended<D: Crash, K: Duty> {
    pub(crate) seat: CoreSeat<Bus<D, K>>,
}

/// A core at rest: its own registers are saved. Start it by `start`, or end it by `ended`.
#[must_use]
#[derive(Drop)]
pub struct RestCore<'w, D: Crash, K: Duty> {
    pub(crate) words: &'w Words<Bus<D, K>>,
    pub(crate) seat: CoreSeat<Bus<D, K>>,
}

/// A core that runs: nothing is saved. It may fetch, and it makes no step. End it by `rest`.
#[must_use]
#[derive(Drop)]
pub struct Core<'w, D: Crash, K: Duty> {
    words: &'w Words<Bus<D, K>>,
    seat: CoreSeat<Bus<D, K>>,
}

/// A core that knows that the other one is parked or held at rest: its own registers are saved. It
/// may make steps, and it does not fetch. End it by `leave`.
#[must_use]
#[derive(Drop)]
pub struct Quiet<'w, D: Crash, K: Duty> {
    words: &'w Words<Bus<D, K>>,
    seat: CoreSeat<Bus<D, K>>,
}

// Clauses see the core that it is.
impl<D: Crash, K: Duty> Model for Ended<D, K> {
    ghost use Rattle.bus_hub.specs.declared.did.Base.{Base};
    ghost use Rattle.bus_hub.specs.declared.did.Did.{Did};
    ghost use Rattle.cache_gate.specs.Own.{Own};

    ghost Value = { Own (Base D.Setting K) Did };

    ghost use Rattle.duo_machine.specs.declared.machine.Phase.TheVariants.{Resting};
    ghost use Rattle.cache_gate.specs.Own.{own_of, held_of, IsMaskedIn};

    ghost view = { λ x. own_of (held_of x.seat) };

    ghost invariant = { λ x. IsMaskedIn Resting x.seat.table (held_of x.seat) };
}

impl<'w, D: Crash, K: Duty> Model for RestCore<'w, D, K> {
    ghost use Rattle.bus_hub.specs.declared.did.Base.{Base};
    ghost use Rattle.bus_hub.specs.declared.did.Did.{Did};
    ghost use Rattle.cache_gate.specs.Own.{Own};

    ghost Value = { Own (Base D.Setting K) Did };

    ghost use Rattle.duo_machine.specs.declared.machine.Phase.TheVariants.{Resting};
    ghost use Rattle.cache_gate.specs.Own.{own_of, held_of, IsMaskedIn};

    ghost view = { λ x. own_of (held_of x.seat) };

    ghost invariant = { λ x. IsMaskedIn Resting x.words.now (held_of x.seat) };
}

impl<'w, D: Crash, K: Duty> Model for Core<'w, D, K> {
    ghost use Rattle.bus_hub.specs.declared.did.Base.{Base};
    ghost use Rattle.bus_hub.specs.declared.did.Did.{Did};
    ghost use Rattle.cache_gate.specs.Own.{Own};

    ghost Value = { Own (Base D.Setting K) Did };

    ghost use Rattle.cache_gate.specs.Own.{own_of, held_of, IsRunning};

    ghost view = { λ x. own_of (held_of x.seat) };

    ghost invariant = { λ x. IsRunning x.words.now (held_of x.seat) };
}

impl<'w, D: Crash, K: Duty> Model for Quiet<'w, D, K> {
    ghost use Rattle.bus_hub.specs.declared.did.Base.{Base};
    ghost use Rattle.bus_hub.specs.declared.did.Did.{Did};
    ghost use Rattle.cache_gate.specs.Own.{Own};

    ghost Value = { Own (Base D.Setting K) Did };

    ghost use Rattle.duo_machine.specs.declared.machine.Phase.TheVariants.{Quiet as AtQuiet};
    ghost use Rattle.cache_gate.specs.Own.{own_of, held_of, IsMaskedIn};

    ghost view = { λ x. own_of (held_of x.seat) };

    ghost invariant = { λ x. IsMaskedIn AtQuiet x.words.now (held_of x.seat) };
}

impl<'w, D: Crash, K: Duty> RestCore<'w, D, K> {
    /// The core runs, once the other one does not hold it at rest.
    #[tactic(auto, using(crate::proofs::Walks::works_kept, crate::proofs::Walks::shows_kept))]
    pub fn start<R: Wait>(mut self, rt: &R) -> Core<'w, D, K>
        ensures keeps { Keeps self.entry result }
        ensures shows { HasShown [] self.entry result }
    {
        waits::wake(rt, self.words, &mut self.seat);
        Core {
            words: self.words,
            seat: self.seat,
        }
    }

    /// The core goes back to the gates.
    pub fn ended(self) -> Ended<D, K>
        ensures { result ≡ self.entry }
    {
        Ended { seat: self.seat }
    }
}

impl<'w, D: Crash, K: Duty> Core<'w, D, K> {
    /// The core rests, once the other one does not ask it to park.
    #[tactic(auto, using(crate::proofs::Walks::works_kept, crate::proofs::Walks::shows_kept))]
    pub fn rest<R: Wait>(mut self, rt: &R) -> RestCore<'w, D, K>
        ensures keeps { Keeps self.entry result }
        ensures shows { HasShown [] self.entry result }
    {
        waits::retire(rt, self.words, &mut self.seat);
        RestCore {
            words: self.words,
            seat: self.seat,
        }
    }

    /// The core has the lock and is masked, and the other one is parked or held at rest. While it waits for
    /// the lock it parks where it is asked to.
    pub fn enter<R: Wait>(self, rt: &R) -> Quiet<'w, D, K>
        ensures keeps { Keeps self.entry result }
        ensures shows { HasShown (kinds.Take ∷ []) self.entry result }
    {
        self.enter_with(rt, &mut NoTurn)
    }

    /// The same. Wherever it parks, it takes these turns.
    #[tactic(auto, using(crate::proofs::Walks::works_taken, crate::proofs::Walks::shows_taken))]
    pub fn enter_with<R: Wait, H: Parked>(mut self, rt: &R, parked: &mut H) -> Quiet<'w, D, K>
        ensures keeps { Keeps self.entry result }
        ensures shows { HasShown (kinds.Take ∷ []) self.entry result }
        ensures turns { H.kept parked.new ≡ H.kept parked.old }
    {
        waits::enter(rt, self.words, &mut self.seat, parked);
        Quiet {
            words: self.words,
            seat: self.seat,
        }
    }

    /// Where the core is asked to park, it does so, until it is freed.
    pub fn serve_gate<R: Wait>(&mut self, rt: &R)
        ensures keeps { Keeps self.old self.new }
        ensures shows { HasShown [] self.old self.new }
    {
        self.serve_gate_with(rt, &mut NoTurn);
    }

    /// The same. While it is parked, it takes these turns.
    #[tactic(auto, using(crate::proofs::Walks::works_kept, crate::proofs::Walks::shows_kept))]
    pub fn serve_gate_with<R: Wait, H: Parked>(&mut self, rt: &R, parked: &mut H)
        ensures keeps { Keeps self.old self.new }
        ensures shows { HasShown [] self.old self.new }
        ensures turns { H.kept parked.new ≡ H.kept parked.old }
    {
        waits::serve(rt, self.words, &mut self.seat, parked);
    }

    /// Its registers in force.
    pub fn regs(&self) -> Regs
        ensures { result ≡ self.now.regs }
    {
        self.seat.record().regs
    }

    /// Reads 1 to 256 bytes through the cache, and notes them under the number of the action.
    pub fn fetch<R: Wait>(&mut self, rt: &R, k: u32, at: u32, len: u32) -> Result<(), FetchNo>
        requires some { 1 ≤ len }
        requires most { len ≤ 256 }
        requires room { HasRoom self.old.base self.old.core self.old.share 1 len }
        ensures adds { HasFetched k at len result self.old self.new }
        ensures shows { HasShown [] self.old self.new }
        ensures masked { result ≢ Err refusals.Unmapped
            → result ≡ Err refusals.Masked ↔ (¬ IsServed self.old.regs.mask at) }
        ensures fixed { OnBase self.old.base (λ b. IsFixed b.map (length b.flash) at len)
            → result ≢ Err refusals.Unmapped }
    {
        turns::fetch(rt, self.words, &mut self.seat, k, at, len)
    }

    /// Sets its registers.
    #[tactic(auto, using(crate::proofs::Walks::works_set))]
    pub fn set<R: Wait>(&mut self, rt: &R, k: u32, regs: Regs)
        requires mask { regs.mask ≤ 3 }
        requires room { HasRoom self.old.base self.old.core self.old.share 1 0 }
        ensures adds { Adds (Noted k regs Set ∷ []) (set_to self.old regs) self.new }
        ensures shows { HasShown [] self.old self.new }
    {
        turns::set(rt, self.words, &mut self.seat, k, regs);
    }

    /// Notes an act: pages that it mapped or freed, a write that it made, or a refusal.
    pub fn note<R: Wait>(&mut self, rt: &R, k: u32, act: Act)
        requires plain { IsNote act }
        requires room { HasRoom self.old.base self.old.core self.old.share 1 0 }
        ensures adds { Adds (Noted k self.old.regs act ∷ []) self.old self.new }
        ensures shows { HasShown [] self.old self.new }
    {
        turns::note(rt, self.words, &mut self.seat, k, act);
    }

    /// Maps the lowest `n` free pages of the space to the flash pages from `flash_page` on. Answers the
    /// address of the first one.
    #[tactic(auto, using(crate::proofs::Walks::works_kept, crate::proofs::Walks::shows_kept))]
    pub fn map<R: Wait>(
        &mut self,
        rt: &R,
        flash_page: u32,
        n: u8,
        space: Space,
    ) -> Result<u32, NoPages>
        requires some { 1 ≤ n }
        requires flash { flash_page + n ≤ 256 }
        ensures adds { Adds (Mapping flash_page n space result ∷ []) self.old self.new }
        ensures shows { HasShown [] self.old self.new }
    {
        turns::map(rt, self.words, &mut self.seat, flash_page, n, space)
    }

    /// Frees the run of pages that was mapped from the address on.
    #[tactic(auto, using(crate::proofs::Walks::works_kept, crate::proofs::Walks::shows_kept))]
    pub fn unmap<R: Wait>(&mut self, rt: &R, at: u32) -> Result<(), NotMapped>
        ensures adds { Adds (Unmapping at result ∷ []) self.old self.new }
        ensures shows { HasShown [] self.old self.new }
    {
        turns::unmap(rt, self.words, &mut self.seat, at)
    }
}

impl<'w, D: Crash, K: Duty> Quiet<'w, D, K> {
    /// The other core goes on, this one gets its own registers back, and the lock is free.
    #[tactic(auto, using(crate::proofs::Walks::works_given, crate::proofs::Walks::shows_given))]
    pub fn leave<R: Wait>(mut self, rt: &R) -> Core<'w, D, K>
        ensures keeps { Keeps self.entry result }
        ensures shows { HasShown (kinds.Give ∷ []) self.entry result }
    {
        waits::calm(rt, self.words, &mut self.seat);
        Core {
            words: self.words,
            seat: self.seat,
        }
    }

    /// Makes the step, from its begin to its end, under the number of the action.
    #[tactic(auto, using(crate::proofs::States::quiet_shown))]
    pub fn step<R: Wait>(&mut self, rt: &R, k: u32, step: &Step) -> Result<(), NorFault>
        requires paged { IsInOnePage step.now }
        requires small { end_of step.now ≤ 2 ^ 32 }
        requires inside { IsInside self.old.base (end_of step.now) }
        requires may { MayMake K.part K.grants K.moved self.old.base self.old.core self.old.share step.now }
        requires room { HasRoom self.old.base self.old.core self.old.share 2 0 }
        ensures adds { HasStepped k step.now result self.old self.new }
        ensures shows { HasShownStep result self.old self.new }
    {
        steps::make(rt, self.words, &mut self.seat, k, step)
    }

    /// The bytes of the flash from the address on, as many as `out` has.
    #[tactic(auto, using(crate::proofs::Walks::works_added))]
    pub fn read<R: Wait>(&mut self, rt: &R, at: u32, out: &mut [u8]) -> Result<(), NorFault>
        requires inside { IsInside self.old.base (at + length out.old) }
        ensures adds { Adds (asked result) self.old self.new }
        ensures shows { HasShown [] self.old self.new }
        ensures length { length out.new ≡ length out.old }
        ensures bytes { OnOk result (IfSome self.old.base (λ b. IsPartOf
            ⟦<Bus<D, K> as Records>⟧.stands (λ h. D.bytes h.dev) b self.old.core
            self.old.share at out.new)) }
    {
        turns::read(rt, self.words, &mut self.seat, at, out)
    }
}
