//! A flash in memory: each step is made in its last poll.

ghost use Rattle.std.specs.Prelude.{◌≡◌, ◌≤◌, ◌+◌, None, IsOk, length};
ghost use Rattle.nor_device.specs.Flash.{end_of};
ghost use Rattle.nor_device.specs.Marks.{AreErased, no_marks, marked_count};
ghost use Rattle.nor_device.specs.Nor.{part_of};
ghost use Rattle.nor_device.specs.FlashSize.{IsFlashSize};
ghost use Rattle.nor_device.specs.Ram.{begun, polled, poll_answer};

use crate::begun_step::BegunStep;
use crate::marked_flash::MarkedFlash;
use crate::nor::{Nor, NorFault, Ready};
use crate::step::Step;
use std::marker::Model;

/// A device that keeps its bytes in memory and erases by marking. It refuses nothing and answers `Busy` a fixed number of times a step.
#[derive(Drop)]
pub struct RamNor {
    flash: MarkedFlash,
    polls: u32,
    running: BegunStep,
    left: u32,
    steps: u64,
}

// Clauses see the bytes as they read, the marks, the polls of each step, what runs, the polls that are left, and the number of steps.
impl Model for RamNor {
    ghost use Rattle.nor_device.specs.Ram.{Ram};

    ghost Value = { Ram };

    ghost use Rattle.nor_device.specs.RamView.{ram_of, IsRam};

    ghost view = { ram_of };

    ghost invariant = { IsRam };
}

impl RamNor {
    /// A device over these bytes, as many as a flash may have. It is idle and on.
    pub fn of_bytes(bytes: Vec<u8>, polls: u32) -> RamNor
        requires size { IsFlashSize (length bytes.items) }
        ensures bytes { result.bytes ≡ bytes.items }
        ensures polls { result.polls ≡ polls }
        ensures idle { result.running ≡ None }
        ensures steps { result.steps ≡ 0 }
        ensures marks { result.marks ≡ no_marks }
    {
        RamNor {
            flash: MarkedFlash::of_bytes(bytes),
            polls,
            running: BegunStep::none(),
            left: 0,
            steps: 0,
        }
    }

    /// Gives the bytes back.
    pub fn into_bytes(self) -> Vec<u8>
        requires idle { self.running ≡ None }
        ensures exact { result.items ≡ self.bytes }
    {
        self.flash.into_bytes()
    }

    /// How many sectors are marked: erased, and not yet programmed since. They read as 0xFF.
    pub fn marked(&self) -> u32
        ensures exact { result ≡ marked_count self.now.marks }
        ensures erased { AreErased self.now.marks self.now.bytes }
    {
        self.flash.marked()
    }
}

impl Nor for RamNor {
    type Setting = ();

    ghost use Rattle.std.specs.Prelude.{◌≡◌, Some, false, length};
    ghost use Rattle.nor_device.specs.declared.nor.StepEnd.TheVariants as ends;
    ghost use Rattle.nor_device.specs.RamView.{ram_sized};

    ghost bytes = { λ d. Some d.bytes };

    ghost size = { λ d. length d.bytes };

    ghost running = { λ d. d.running };

    ghost left = { λ d. d.left };

    ghost off = { λ d. false };

    ghost steps = { λ d. d.steps };

    ghost faults = { λ d. 0 };

    ghost setting = { λ d. tt };

    ghost may_end = { λ set n end. end ≡ ends.Done };

    ghost may_tear = { λ set n old step new. ⊥ };

    ghost may_refuse = { λ set n why. ⊥ };

    ghost must_refuse = { λ set n. ⊥ };

    ghost sized = { ram_sized };

    fn size(&self) -> u32 {
        self.flash.len() as u32
    }

    fn read(&mut self, at: u32, out: &mut [u8]) -> Result<(), NorFault>
        requires inside { at + length out.old ≤ length self.old.bytes }
        ensures ok { IsOk result }
        ensures bytes { out.new ≡ part_of self.old.bytes at (length out.old) }
        ensures same { self.new ≡ self.old }
    {
        self.flash.read(at as usize, out);
        Ok(())
    }

    fn start(&mut self, step: &Step) -> Result<(), NorFault>
        requires inside { end_of step.now ≤ length self.old.bytes }
        ensures ok { IsOk result }
        ensures begun { self.new ≡ begun self.old step.now }
    {
        self.running.begin(step);
        self.left = self.polls;
        self.steps = self.steps.saturating_add(1);
        Ok(())
    }

    fn poll(&mut self) -> Result<Ready, NorFault>
        ensures answer { result ≡ Ok (poll_answer self.old) }
        ensures after { self.new ≡ polled self.old }
        ensures size { length self.new.bytes ≡ length self.old.bytes }
    {
        if self.left > 0 {
            self.left -= 1;
            return Ok(Ready::Busy);
        }
        self.running.make_on(&mut self.flash);
        self.running.end();
        Ok(Ready::Ready)
    }
}
