//! The command `sweep FLASH IMAGE SCRIPT`: its files, and the update of them, cut at each of its
//! steps in turn.

ghost use Rattle.std.specs.Prelude.{◌≡◌, ◌≤◌};
ghost use Rattle.update_run.specs.Sweeping.{IsRefusedEnd};
ghost use Rattle.flash_cli.specs.SweepWords.{shown_sweep};
ghost use Rattle.flash_cli.specs.Sweeping.{IsSweepEnd, SweepOf};
ghost use Rattle.flash_cli.specs.Unbegun.{sweep_opening_or_refusal};
ghost use Rattle.flash_cli.specs.Updating.{status_by};

use crate::error::{CommandError, Failure};
use crate::files::needed_file;
use crate::status::Status;
use crate::sweep_words::Sweep;
use crate::unbegun::error_of;
use flash_ops::Pace;
use flash_text::Refusal;
use pipe_ends::Store;
use power_cut::{LegEnd, Sweep as Swept, SweepNo};
use std::alloc::Global;
use std::sync::Wait;
use std::thread::Threads;
use update_run::{make_sweep, open_sweep};

/// Reads the files of a sweep and makes it, or tells why it was not made.
pub(crate) fn run_sweep<S: Store, P: Pace + Sync, R: Threads + Wait + Sync>(
    rt: &R,
    alloc: Global,
    store: &mut S,
    sweep: &Sweep<'_>,
    pace: &P,
) -> Result<Swept, CommandError>
    ensures exact { IsSweepEnd (S.files store.old) (shown_sweep sweep.now)
        (S.faults store.old) (S.faults store.new) result }
    ensures same { S.files store.new ≡ S.files store.old }
    ensures later { S.faults store.old ≤ S.faults store.new }
{
    let flash = needed_file(alloc, store, 0, sweep.flash)?;
    let image = needed_file(alloc, store, 1, sweep.image)?;
    let text = needed_file(alloc, store, 2, sweep.script)?;
    sweep_of(rt, alloc, flash, &image, &text, sweep.tear, pace)
}

/// Makes a sweep of these files, or tells why it may not begin or was refused.
fn sweep_of<P: Pace + Sync, R: Threads + Wait + Sync>(
    rt: &R,
    alloc: Global,
    flash: Vec<u8>,
    image: &[u8],
    text: &[u8],
    tear: u64,
    pace: &P,
) -> Result<Swept, CommandError>
    ensures exact { SweepOf tear (sweep_opening_or_refusal flash.items image.now text.now) result }
{
    let opening = match open_sweep(alloc, flash, image, text) {
        Ok(opening) => opening,
        Err(no) => return Err(error_of(no)),
    };
    match make_sweep(rt, alloc, &opening, image, tear, pace) {
        Ok(swept) => Ok(swept),
        Err(SweepNo::Refused(end)) => Err(CommandError::Refused(refusal_by(end))),
        Err(SweepNo::Memory) => Err(CommandError::Failed(Failure::Memory)),
    }
}

/// The refusal of a session that ended so.
fn refusal_by(end: LegEnd) -> Refusal
    requires refused { IsRefusedEnd end }
    ensures exact { status_by end ≡ Status.Refused result }
{
    match end {
        LegEnd::FirstByte { byte } => Refusal::FirstByte { byte },
        LegEnd::Empty => Refusal::Empty,
        LegEnd::Bad(why) => Refusal::Image(why),
        LegEnd::Done => unreachable!(),
        LegEnd::Device { .. } => unreachable!(),
        LegEnd::Cut { .. } => unreachable!(),
    }
}
