//! Calls that touch no device: the registers of a core, and entries of the journal.

ghost use Rattle.std.specs.Prelude.{◌≡◌, ◌<◌, ◌≤◌, [], ◌∷◌, None, IsNone, IsSome};
ghost use Rattle.core_state.specs.Registers.{saved_and_masked, restored};
ghost use Rattle.core_state.specs.Sharing.{GoesOn};
ghost use Rattle.bus_hub.specs.declared.did.Did.TheVariants.{Noted};
ghost use Rattle.bus_hub.specs.declared.entry.Act.TheVariants.{Set};
ghost use Rattle.bus_hub.specs.Room.{HasRoom, with_entry};
ghost use Rattle.bus_hub.specs.Log.{IsNote};
ghost use Rattle.bus_hub.specs.Told.{IsSafe};
ghost use Rattle.bus_hub.specs.Hub.{Fits, record_of, with_record, noted};
ghost use Rattle.bus_hub.specs.Told.{set_to};

use crate::bus::Bus;
use crate::duty::Duty;
use crate::entry::{Act, Entry};
use core_state::{Record, Records, Regs, restore, save_and_mask};
use crash_images::Crash;

impl<D: Crash, K: Duty> Bus<D, K> {
    /// Puts an entry into the journal.
    fn put(&mut self, c: u8, k: u32, regs: Regs, act: Act)
        requires idle { self.old.running ≡ None }
        requires room { HasRoom self.old.journal 1 0 }
        ensures exact { self.new ≡ noted self.old c k regs act }
    {
        self.journal.add(Entry {
            core: c,
            k,
            regs,
            act,
        });
    }

    /// Notes an act of the core: pages that it mapped or freed, a write that it made, or a refusal.
    #[tactic(auto, using(crate::proofs::Quiet::notes))]
    pub fn note(&mut self, c: u8, k: u32, act: Act)
        requires core { c < 2 }
        requires idle { self.old.running ≡ None }
        requires saved { IsNone (record_of self.old c).saved }
        requires plain { IsNote act }
        requires room { HasRoom self.old.journal 1 0 }
        ensures stands { GoesOn ⟦<Bus<D, K> as Records>⟧.stands Fits self.old self.new c
            (Noted k (record_of self.old c).regs act ∷ []) }
        ensures exact { self.new ≡ noted self.old c k (record_of self.old c).regs act }
        ensures leaves { IsSafe ⟦<Bus<D, K> as Records>⟧.stands D.may_leave K.good self.new }
    {
        let regs = self.record(c).regs;
        self.put(c, k, regs, act);
        self.safe();
    }

    /// Keeps other registers of a core.
    fn keep_record(&mut self, c: u8, r: Record)
        ensures exact { self.new ≡ with_record self.old c r }
    {
        if c == 0 {
            self.left = r;
        } else {
            self.right = r;
        }
    }

    /// Sets the registers in force of a core.
    #[tactic(auto, using(crate::proofs::Quiet::sets))]
    pub fn set(&mut self, c: u8, k: u32, regs: Regs)
        requires core { c < 2 }
        requires idle { self.old.running ≡ None }
        requires saved { IsNone (record_of self.old c).saved }
        requires mask { regs.mask ≤ 3 }
        requires room { HasRoom self.old.journal 1 0 }
        ensures stands { GoesOn ⟦<Bus<D, K> as Records>⟧.stands Fits self.old self.new c
            (Noted k regs Set ∷ []) }
        ensures exact { self.new ≡ set_to (noted self.old c k regs Set) c regs }
        ensures leaves { IsSafe ⟦<Bus<D, K> as Records>⟧.stands D.may_leave K.good self.new }
    {
        let saved = self.record(c).saved;
        self.put(c, k, regs, Act::Set);
        self.keep_record(c, Record { regs, saved });
        self.safe();
    }

    /// Keeps the registers of a core and clears those in force.
    #[tactic(auto, using(crate::proofs::Quiet::registers_stay))]
    pub fn save(&mut self, c: u8)
        requires core { c < 2 }
        requires saved { IsNone (record_of self.old c).saved }
        ensures stands { GoesOn ⟦<Bus<D, K> as Records>⟧.stands Fits self.old self.new c [] }
        ensures exact { self.new
            ≡ with_record self.old c (saved_and_masked (record_of self.old c)) }
        ensures leaves { IsSafe ⟦<Bus<D, K> as Records>⟧.stands D.may_leave K.good self.new }
    {
        let mut r = self.record(c);
        save_and_mask(&mut r);
        self.keep_record(c, r);
        self.safe();
    }

    /// Puts the saved registers of a core back in force.
    #[tactic(auto, using(crate::proofs::Quiet::registers_stay))]
    pub fn back(&mut self, c: u8)
        requires core { c < 2 }
        requires saved { IsSome (record_of self.old c).saved }
        ensures stands { GoesOn ⟦<Bus<D, K> as Records>⟧.stands Fits self.old self.new c [] }
        ensures exact { self.new ≡ with_record self.old c (restored (record_of self.old c)) }
        ensures leaves { IsSafe ⟦<Bus<D, K> as Records>⟧.stands D.may_leave K.good self.new }
    {
        let mut r = self.record(c);
        restore(&mut r);
        self.keep_record(c, r);
        self.safe();
    }
}
