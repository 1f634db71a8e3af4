//! The command `confirm FLASH OUT`.

ghost use Rattle.std.specs.Prelude.{◌≡◌, ◌≤◌, ◌<◌, ◌^◌, None, Ok, Err, IfOk, IfErr, IfSome, length};
ghost use Rattle.nor_device.specs.FlashSize.{IsFlashSize};
ghost use Rattle.partition_table.specs.Layout.{IsPlaced};
ghost use Rattle.boot_select.specs.Boots.{entries_in};
ghost use Rattle.boot_run.specs.Verdict.{confirmation};
ghost use Rattle.flash_cli.specs.Command.{Confirm};
ghost use Rattle.flash_cli.specs.Confirm.{confirm_answer, confirm_refusal, confirmed_in};
ghost use Rattle.update_run.specs.Device.{IsSure};
ghost use Rattle.flash_cli.specs.Verdict.{VerdictEnds, shown_judged};
ghost use Rattle.flash_cli.specs.Report.{IsEnd, IsWorkedOut, reading_of};

use crate::answer::Answer;
use crate::error::CommandError;
use crate::files::needed_file;
use crate::laid::layout_of;
use crate::verdict::Judged;
use boot_run::{ConfirmFault, Told, confirm};
use flash_text::{Refusal, put_confirmed};
use nor_device::Nor;
use partition_table::{App, Layout};
use pipe_ends::Store;
use std::alloc::Global;
use update_run::{bytes_of, device_of};

/// Carries out `confirm`: the file with the flash once the active entry is VALID, and the
/// application of its slot; or that there is none.
pub(crate) fn run_confirm<S: Store>(
    alloc: Global,
    store: &mut S,
    flash: &str,
    out: &str,
) -> Result<Answer, CommandError>
    ensures exact { IsEnd (S.files store.old) 0 (reading_of (Confirm flash.now out.now))
        (S.faults store.old) (S.faults store.new) result }
    ensures same { S.files store.new ≡ S.files store.old }
    ensures later { S.faults store.old ≤ S.faults store.new }
{
    let flash = needed_file(alloc, store, 0, flash)?;
    confirm_file(alloc, flash, out)
}

/// The flash after a confirmation as the file that is put, and what was confirmed.
fn confirm_file(alloc: Global, flash: Vec<u8>, out: &str) -> Result<Answer, CommandError>
    ensures exact { IsWorkedOut (confirm_answer flash.items out.now) result }
{
    let layout = layout_of(&flash)?;
    let judged = confirm_flash(flash, &layout)?;
    let mut text = Vec::new(alloc);
    put_confirmed(&mut text, judged.app, u64::from(judged.steps))?;
    Answer::with_file(alloc, text, out, judged.flash)
}

/// Confirms the application that the active entry of a flash names.
fn confirm_flash(flash: Vec<u8>, layout: &Layout) -> Result<Judged, Refusal>
    requires size { IsFlashSize (length flash.items) }
    requires small { length flash.items < 2 ^ 32 }
    requires placed { IsPlaced layout.now (length flash.items) }
    ensures ok { IfOk result
        (λ judged. confirmed_in flash.items layout.now ≡ Ok (shown_judged judged)) }
    ensures err { IfErr result (λ why. confirmed_in flash.items layout.now ≡ Err why) }
{
    let mut device = device_of(flash);
    match confirm_sure(&mut device, layout) {
        Ok(told) => Ok(Judged {
            app: App::Ota(told.slot),
            steps: told.steps,
            flash: bytes_of(device),
        }),
        Err(why) => Err(why),
    }
}

/// Confirms on a device that refuses nothing.
fn confirm_sure<D: Nor>(device: &mut D, layout: &Layout) -> Result<Told, Refusal>
    requires idle { D.running device.old ≡ None }
    requires placed { IsPlaced layout.now (D.size device.old) }
    requires small { D.size device.old < 2 ^ 32 }
    requires sure { IsSure D.may_end D.may_refuse (D.setting device.old) }
    ensures idle { D.running device.new ≡ None }
    ensures exact { IfSome (D.bytes device.old) (λ flash.
        VerdictEnds confirm_refusal layout.now flash (D.bytes device.new)
        (confirmation (entries_in layout.now flash)) result) }
{
    match confirm(device, layout) {
        Ok(told) => Ok(told),
        Err(ConfirmFault::NoOtaApp) => Err(Refusal::NoOtaApp),
        Err(ConfirmFault::Device) => unreachable!(),
        Err(ConfirmFault::Cut) => unreachable!(),
    }
}
