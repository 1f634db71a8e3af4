//! What follows from the clauses of the top call, over every call.

ghost use Rattle.flash_cli.specs.Laws.{UsageIsOfNoCommand, NoCommandIsUsage, ToldFilesDetermine, RefusedPutsNothing, FaultlessIsWork, MadeIsWhole, MadeIsFactoryFlash};
ghost use Rattle.update_run.specs.CutLaws.{CutUpdatesAreByFiles, SilentSweepsAreByFiles};
ghost use Rattle.flash_cli.specs.Installs.{FaultlessSweepIsMade, FaultlessUpdateInstalls, RefusedSweepIsRefused, RefusedUpdateIsRefused};
ghost use Rattle.flash_cli.specs.StatusLaws.{DeviceFaultIsReached, DoneLeavesOneFlash, ElseStatusIsByImage, PowerCutIsReached, PowerCutLeavesCutFlash, SilentSweepsHaveOneText};

use image_maker::made_images_are_whole;
use image_verify::whole_images_show_no_fault;

/// The status `Usage` is that of words that are no command, and of no others.
pub(crate) fn usage_is_of_no_command()
    ensures only { UsageIsOfNoCommand }
    ensures always { NoCommandIsUsage }
{}

/// In a store that tells its files the words and the files determine how a call ends whole, so a
/// refusal comes exactly where its case is the first that holds.
pub(crate) fn told_files_determine_a_call()
    ensures exact { ToldFilesDetermine }
{}

/// A refused command puts nothing.
pub(crate) fn a_refused_command_puts_nothing()
    ensures none { RefusedPutsNothing }
{}

/// Without a fault of the store or the sink the work comes to its end, unless memory runs out.
pub(crate) fn a_call_without_a_fault_is_carried_out()
    ensures ok { FaultlessIsWork }
{}

/// What `image-make` puts, `image-check` finds whole.
pub(crate) fn what_is_made_is_found_whole()
    ensures whole { MadeIsWhole }
{
    made_images_are_whole();
    whole_images_show_no_fault();
}

/// A bootloader finds a layout in the flash that `flash-make` puts, the image in factory, and
/// factory named; and it boots that image from there.
pub(crate) fn a_made_flash_is_as_written_at_a_factory()
    ensures whole { MadeIsFactoryFlash }
{
    whole_images_show_no_fault();
}

/// The status of an update is a loss of power, or a failure of the device, exactly where the step
/// that was chosen for it is one of those that the files and the words give; else it is by the bytes
/// of the image: done, or refused.
pub(crate) fn statuses_tell_the_chosen_step()
    ensures cut { PowerCutIsReached }
    ensures failure { DeviceFaultIsReached }
    ensures image { ElseStatusIsByImage }
{}

/// An update whose files refuse nothing, whose image is whole and fits, and of which no step was
/// chosen to end badly installs its image, where neither the store nor the sink failed, unless
/// memory runs out: the status is done, and the flash that the files and the words give is put.
pub(crate) fn an_update_without_a_fault_installs_its_image()
    ensures installed { FaultlessUpdateInstalls }
{}

/// A sweep whose files refuse nothing and whose image is whole within its slot is carried out, where
/// neither the store nor the sink failed, unless memory runs out: the status is done, and its lines
/// are pushed.
pub(crate) fn a_sweep_without_a_fault_is_made()
    ensures made { FaultlessSweepIsMade }
{}

/// An update whose files refuse it, or are not there, is refused for that reason, where neither the
/// store nor the sink failed, unless memory runs out: no file is put, and the line of the refusal is
/// pushed. So is a sweep.
pub(crate) fn what_may_not_begin_is_refused()
    ensures update { RefusedUpdateIsRefused }
    ensures sweep { RefusedSweepIsRefused }
{}

/// Two updates of the same files that go as far and are done leave one and the same flash, whichever
/// cores drive and in whichever order the turns came.
pub(crate) fn done_updates_leave_one_flash()
    ensures flash { DoneLeavesOneFlash }
{}

/// Where the script makes no step, the flash that a loss of power leaves is a function of the files, the
/// tear number and the chosen step, and two sweeps of one flash and one image by one tear number have
/// one text.
pub(crate) fn silent_scripts_give_one_flash_and_one_text()
    ensures flash { PowerCutLeavesCutFlash }
    ensures text { SilentSweepsHaveOneText }
{
    whole_images_show_no_fault();
}
