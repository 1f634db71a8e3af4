//! What a duty keeps of what the driver's steps are for.

ghost use Rattle.std.specs.Prelude.{◌≡◌, ◌↔◌, IsTrue, Some, slice_get};
ghost use Rattle.ota_session.specs.Course.{steps_for};
ghost use Rattle.ota_session.specs.DutyView.{IsTask, purpose_of};

use crate::next::{is_entry_step, is_image_step, row_of};
use boot_run::Aim;
use nor_device::Step;
use partition_table::Layout;
use rollback::Rewrite;

/// What the driver's steps are for.
#[derive(Drop)]
pub(crate) enum Task<'a> {
    /// An image is installed.
    Install { aim: &'a Aim, image: &'a [u8] },
    /// The application that runs is confirmed.
    Confirm { rewrite: &'a Rewrite },
}

/// Whether a step has this number among the steps of a task.
pub(crate) fn is_step(task: &Task<'_>, layout: &Layout, number: u32, step: &Step) -> bool
    requires known { IsTask layout.now task.now }
    ensures exact { IsTrue result
        ↔ (slice_get (steps_for layout.now (purpose_of task.now)) number ≡ Some step.now) }
{
    match task {
        Task::Install { aim, image } => match row_of(layout, aim.slot) {
            Some(row) => is_image_step(layout.otadata, &row, aim, image, number, step),
            None => false,
        },
        Task::Confirm { rewrite } => is_entry_step(layout.otadata, rewrite, number, step),
    }
}
