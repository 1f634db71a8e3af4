//! What the core that drives is to do.

ghost use Rattle.std.specs.Prelude.{◌≡◌, ◌≤◌, ◌<◌, ◌^◌, IfOk, IsOk, Ok};
ghost use Rattle.bus_hub.specs.declared.did.Base.{Base};
ghost use Rattle.partition_table.specs.Layout.{Places, layout_of};
ghost use Rattle.ota_session.specs.Course.{course_from};
ghost use Rattle.flash_ops.specs.Told.{ToldOf, count_behind};
ghost use Rattle.duo_run.specs.Paced.{TellsOps, ops_for};
ghost use Rattle.duo_run.specs.Jobs.{CanDrive, HasDriven, IsAsLong, driver_room, length_for, purpose_of};

use crate::driver::{affirm, install};
use boot_run::Aim;
use bus_hub::Room;
use cache_gate::{Core, Ended, RestCore};
use crash_images::Crash;
use flash_ops::{Beat, Pace, StepNo};
use ota_session::UpdateDuty;
use partition_table::{Layout, Table};
use power_cut::LegEnd;
use rollback::Rewrite;
use std::sync::Wait;

/// What the driver is to do.
#[derive(Drop)]
pub(crate) enum Job<'a> {
    /// It installs an image.
    Install { aim: &'a Aim, image: &'a [u8] },
    /// It confirms the application that runs.
    Confirm { write: &'a Rewrite },
}

/// The duty of both cores meanwhile.
pub(crate) fn duty_for<'a>(job: &Job<'a>, table: &'a Table, driver: u8) -> UpdateDuty<'a>
    requires core { driver < 2 }
    requires layout { IsOk (layout_of table.now) }
    requires long { IsAsLong (purpose_of job.now) }
    ensures exact { (layout : Places) → layout_of table.now ≡ Ok layout
        → result ≡ course_from driver table.now layout (purpose_of job.now) }
{
    match *job {
        Job::Install { aim, image } => UpdateDuty::for_session(aim, table, image, driver),
        Job::Confirm { write } => UpdateDuty::for_confirm(write, table, driver),
    }
}

/// The room in the journal that the driver needs.
pub(crate) fn room_for(job: &Job<'_>) -> Room
    requires small { length_for (purpose_of job.now) ≤ 2 ^ 24 }
    ensures exact { result ≡ driver_room (length_for (purpose_of job.now)) }
{
    let len = match job {
        Job::Install { aim: _, image } => image.len() as u32,
        Job::Confirm { write: _ } => 0,
    };
    let sectors = len.div_ceil(4096);
    Room {
        entries: 4 * sectors + 2 * len.div_ceil(256) + 6,
        bytes: 8 * sectors + 8,
    }
}

/// Does the job. Answers how it ended, where the device refused nothing.
fn drive<'w, 'a, R: Wait, D: Crash, P: Pace>(
    rt: &R,
    core: Core<'w, D, UpdateDuty<'a>>,
    beat: &mut Beat<'_, P>,
    layout: &Layout,
    job: &Job<'_>,
) -> (Core<'w, D, UpdateDuty<'a>>, Result<LegEnd, StepNo>)
    requires can { CanDrive layout.now (purpose_of job.now) beat.old.probe core }
    ensures driven { HasDriven layout.now (purpose_of job.now) beat.old.probe result.1
        core.entry result.0 }
    ensures ops { IfOk result.1 (λ end.
        beat.new.ops ≡ count_behind beat.old.ops (ops_for layout.now (purpose_of job.now))) }
    ensures told { ToldOf (P.told beat.old.pace.now) beat.old.ops beat.new.ops }
{
    match job {
        Job::Install { aim, image } => install(rt, core, beat, layout, aim, image),
        Job::Confirm { write } => affirm(rt, core, beat, layout, write),
    }
}

/// The same from rest to rest, with a look at the probe behind each quiet period.
pub(crate) fn run_driver<'w, 'a, R: Wait, D: Crash, P: Pace>(
    rt: &R,
    core: RestCore<'w, D, UpdateDuty<'a>>,
    layout: &Layout,
    job: &Job<'_>,
    probe: Option<u32>,
    pace: &P,
) -> (Ended<D, UpdateDuty<'a>>, Result<LegEnd, StepNo>)
    requires can { CanDrive layout.now (purpose_of job.now) probe core }
    ensures driven { HasDriven layout.now (purpose_of job.now) probe result.1 core.entry result.0 }
    ensures told { TellsOps (P.told pace.now) (ops_for layout.now (purpose_of job.now)) result.1 }
{
    let mut beat = Beat {
        pace,
        probe,
        ops: 0,
    };
    let (core, end) = drive(rt, core.start(rt), &mut beat, layout, job);
    (core.rest(rt).ended(), end)
}
