//! The duty of an update: what both cores may do while one of them installs or confirms an
//! application.

ghost use Rattle.std.specs.Prelude.{◌≡◌, ◌↔◌, ◌<◌, IsOk, IsTrue, Ok, length};
ghost use Rattle.partition_table.specs.Layout.{Places, layout_of};
ghost use Rattle.ota_session.specs.Course.{Confirm, Install, IsNext, course_from};

use crate::part::UpdatePart;
use crate::task::{Task, is_step};
use boot_run::Aim;
use bus_hub::Duty;
use flash_steps::is_open;
use nor_device::Step;
use partition_table::{Layout, Table};
use rollback::Rewrite;
use std::marker::Model;

/// Allows the driver the steps of an update or of a confirmation, one after the other, and the other
/// core every step in the partitions that it may write.
#[derive(Drop)]
pub struct UpdateDuty<'a> {
    driver: u8,
    table: &'a Table,
    layout: Layout,
    task: Task<'a>,
    done: u32,
}

// Clauses see the driver's steps as those that are made and those to come.
impl<'a> Model for UpdateDuty<'a> {
    ghost use Rattle.ota_session.specs.Course.{Course};
    ghost use Rattle.ota_session.specs.DutyView.{IsTask, course_by};

    ghost Value = { Course };

    ghost view = { λ d. course_by d.driver d.table.now d.layout d.task d.done };

    ghost invariant = { λ d. IsTask d.layout d.task };
}

impl<'a> UpdateDuty<'a> {
    /// The duty of a session that installs the image by its aim.
    pub fn for_session(
        aim: &'a Aim,
        table: &'a Table,
        image: &'a [u8],
        driver: u8,
    ) -> UpdateDuty<'a>
        requires core { driver < 2 }
        requires layout { IsOk (layout_of table.now) }
        requires long { length image.now ≡ aim.now.length }
        ensures exact { (layout : Places) → layout_of table.now ≡ Ok layout
            → result ≡ course_from driver table.now layout (Install aim.now image.now) }
    {
        let layout = match table.layout() {
            Ok(layout) => layout,
            Err(_) => unreachable!(),
        };
        // No image is longer than a number of 32 bits tells.
        let _length = aim.length;
        UpdateDuty {
            driver,
            table,
            layout,
            task: Task::Install { aim, image },
            done: 0,
        }
    }

    /// The duty of a confirmation by this rewrite.
    pub fn for_confirm(rewrite: &'a Rewrite, table: &'a Table, driver: u8) -> UpdateDuty<'a>
        requires core { driver < 2 }
        requires layout { IsOk (layout_of table.now) }
        ensures exact { (layout : Places) → layout_of table.now ≡ Ok layout
            → result ≡ course_from driver table.now layout (Confirm rewrite.now) }
    {
        let layout = match table.layout() {
            Ok(layout) => layout,
            Err(_) => unreachable!(),
        };
        UpdateDuty {
            driver,
            table,
            layout,
            task: Task::Confirm { rewrite },
            done: 0,
        }
    }
}

impl<'a> UpdateDuty<'a> {
    /// Whether a step is the driver's next one.
    fn is_next(&self, step: &Step) -> bool
        ensures exact { IsTrue result ↔ IsNext self.now.rest step.now }
    {
        is_step(&self.task, &self.layout, self.done, step)
    }
}

impl<'a> Duty for UpdateDuty<'a> {
    type Part = UpdatePart;

    ghost use Rattle.ota_session.specs.Course.{Grants, IsGood, course_after, part_after, part_of};
    ghost use Rattle.ota_session.specs.DutyLaws.{made_good, other_stays, own_moves, torn_good};

    ghost part = { part_of };

    ghost grants = { Grants };

    ghost moved = { part_after };

    ghost after = { course_after };

    ghost good = { IsGood };

    fn allows(&self, core: u8, step: &Step) -> bool {
        if core == self.driver {
            self.is_next(step)
        } else {
            is_open(self.table.rows(), step)
        }
    }

    fn made(&mut self, core: u8, _step: &Step) {
        if core == self.driver {
            self.done += 1;
        }
    }

    ghost own = { own_moves };

    ghost other = { other_stays };

    ghost torn_good = { torn_good };

    ghost made_good = { made_good };
}
