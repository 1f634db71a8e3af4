//! The command `reject FLASH OUT`.

ghost use Rattle.std.specs.Prelude.{◌≡◌, ◌≤◌, ◌<◌, ◌^◌, None, Ok, Err, IfOk, IfErr, IfSome, length};
ghost use Rattle.nor_device.specs.FlashSize.{IsFlashSize};
ghost use Rattle.partition_table.specs.Layout.{IsPlaced};
ghost use Rattle.boot_select.specs.Boots.{entries_in};
ghost use Rattle.boot_run.specs.Read.{whole_in};
ghost use Rattle.boot_run.specs.Verdict.{rejection};
ghost use Rattle.flash_cli.specs.Command.{Reject};
ghost use Rattle.flash_cli.specs.Reject.{reject_answer, reject_refusal, rejected_in};
ghost use Rattle.update_run.specs.Device.{IsSure};
ghost use Rattle.flash_cli.specs.Verdict.{VerdictEnds, shown_judged};
ghost use Rattle.flash_cli.specs.Report.{IsEnd, IsWorkedOut, reading_of};

use crate::answer::Answer;
use crate::error::CommandError;
use crate::files::needed_file;
use crate::laid::layout_of;
use crate::verdict::Judged;
use boot_run::{RejectFault, Told, reject};
use flash_text::{Refusal, put_rejected};
use nor_device::Nor;
use partition_table::{App, Layout};
use pipe_ends::Store;
use std::alloc::Global;
use update_run::{bytes_of, device_of};

/// Carries out `reject`: the file with the flash once the active entry is INVALID, and the
/// application of its slot; or that there is none, or no other one that would boot.
pub(crate) fn run_reject<S: Store>(
    alloc: Global,
    store: &mut S,
    flash: &str,
    out: &str,
) -> Result<Answer, CommandError>
    ensures exact { IsEnd (S.files store.old) 0 (reading_of (Reject flash.now out.now))
        (S.faults store.old) (S.faults store.new) result }
    ensures same { S.files store.new ≡ S.files store.old }
    ensures later { S.faults store.old ≤ S.faults store.new }
{
    let flash = needed_file(alloc, store, 0, flash)?;
    reject_file(alloc, flash, out)
}

/// The flash after a rejection as the file that is put, and what was rejected.
fn reject_file(alloc: Global, flash: Vec<u8>, out: &str) -> Result<Answer, CommandError>
    ensures exact { IsWorkedOut (reject_answer flash.items out.now) result }
{
    let layout = layout_of(&flash)?;
    let judged = reject_flash(flash, &layout)?;
    let mut text = Vec::new(alloc);
    put_rejected(&mut text, judged.app, u64::from(judged.steps))?;
    Answer::with_file(alloc, text, out, judged.flash)
}

/// Rejects the application that the active entry of a flash names.
fn reject_flash(flash: Vec<u8>, layout: &Layout) -> Result<Judged, Refusal>
    requires size { IsFlashSize (length flash.items) }
    requires small { length flash.items < 2 ^ 32 }
    requires some { 0 < length layout.now.slots }
    requires placed { IsPlaced layout.now (length flash.items) }
    ensures ok { IfOk result
        (λ judged. rejected_in flash.items layout.now ≡ Ok (shown_judged judged)) }
    ensures err { IfErr result (λ why. rejected_in flash.items layout.now ≡ Err why) }
{
    let mut device = device_of(flash);
    match reject_sure(&mut device, layout) {
        Ok(told) => Ok(Judged {
            app: App::Ota(told.slot),
            steps: told.steps,
            flash: bytes_of(device),
        }),
        Err(why) => Err(why),
    }
}

/// Rejects on a device that refuses nothing.
fn reject_sure<D: Nor>(device: &mut D, layout: &Layout) -> Result<Told, Refusal>
    requires idle { D.running device.old ≡ None }
    requires placed { IsPlaced layout.now (D.size device.old) }
    requires small { D.size device.old < 2 ^ 32 }
    requires some { 0 < length layout.now.slots }
    requires sure { IsSure D.may_end D.may_refuse (D.setting device.old) }
    ensures idle { D.running device.new ≡ None }
    ensures exact { IfSome (D.bytes device.old) (λ flash.
        VerdictEnds reject_refusal layout.now flash (D.bytes device.new)
        (rejection layout.now (whole_in layout.now flash) (entries_in layout.now flash)) result) }
{
    match reject(device, layout) {
        Ok(told) => Ok(told),
        Err(RejectFault::NoOtaApp) => Err(Refusal::NoOtaApp),
        Err(RejectFault::NothingElse) => Err(Refusal::NothingElse),
        Err(RejectFault::Device) => unreachable!(),
        Err(RejectFault::Cut) => unreachable!(),
    }
}
