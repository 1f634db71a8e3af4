//! The step that a device in memory has begun. The data of a program keep one place, which neither the next step nor the
//! end of one clears: most steps are programs of a page, and so each is copied once.

ghost use Rattle.std.specs.Prelude.{◌≡◌, ◌≤◌, None, Some, length};
ghost use Rattle.nor_device.specs.declared.step.Step.{Step};
ghost use Rattle.nor_device.specs.Flash.{end_of};
ghost use Rattle.nor_device.specs.Ram.{ended_bytes, ended_marks};

use crate::marked_flash::MarkedFlash;
use crate::page::Page;
use crate::step::Step;
use std::marker::Model;

/// What was begun.
#[derive(Clone, Copy)]
enum Kind {
    Nothing,
    Erase,
    Program,
    Block,
}

/// The kind of the step, its sector, address or block, and the data of the last program.
#[derive(Drop)]
pub(crate) struct BegunStep {
    kind: Kind,
    number: u32,
    page: Page,
}

// Clauses see the step, or none.
impl Model for BegunStep {
    ghost use Rattle.std.specs.Prelude.{Option};
    ghost use Rattle.nor_device.specs.declared.step.Step.{Step};
    ghost use Rattle.nor_device.specs.BegunView.{begun_of};

    ghost Value = { Option Step };

    ghost view = { begun_of };
}

impl BegunStep {
    /// No step was begun.
    pub(crate) fn none() -> BegunStep
        ensures none { result ≡ None }
    {
        BegunStep {
            kind: Kind::Nothing,
            number: 0,
            page: Page::blank(),
        }
    }

    /// Begins the step in place of what there was.
    pub(crate) fn begin(&mut self, step: &Step)
        ensures exact { self.new ≡ Some step.now }
    {
        match step {
            Step::Erase { sector } => {
                self.kind = Kind::Erase;
                self.number = *sector;
            }
            Step::Program { at, bytes } => {
                self.kind = Kind::Program;
                self.number = *at;
                self.page.take_over(bytes);
            }
            Step::Block { block } => {
                self.kind = Kind::Block;
                self.number = *block;
            }
        }
    }

    /// Makes the step on the flash, if there is one.
    pub(crate) fn make_on(&self, flash: &mut MarkedFlash)
        requires inside { (step : Step) → self.now ≡ Some step → end_of step ≤ length flash.old.bytes }
        ensures bytes { flash.new.bytes ≡ ended_bytes self.now flash.old.bytes }
        ensures marks { flash.new.marks ≡ ended_marks self.now flash.old.marks }
        ensures size { length flash.new.bytes ≡ length flash.old.bytes }
    {
        match self.kind {
            Kind::Nothing => {}
            Kind::Erase => flash.erase_sector(self.number),
            Kind::Program => flash.program(self.number, self.page.bytes()),
            Kind::Block => flash.erase_block(self.number),
        }
    }

    /// Ends the step.
    pub(crate) fn end(&mut self)
        ensures none { self.new ≡ None }
    {
        self.kind = Kind::Nothing;
    }
}
