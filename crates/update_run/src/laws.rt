//! What follows of every update and of every sweep.

ghost use Rattle.update_run.specs.CutLaws.{CutUpdatesAreByFiles, SilentSweepsAreByFiles, SilentSweepsAreOne};
ghost use Rattle.update_run.specs.Moments.{PutFlashesKeepBooting, PutFlashesMayBeLeft, SweepsBootNew, SweepsKeepBooting, SweptFlashesMayBeLeft, UpdatesBootNew, UpdatesKeepBooting};
ghost use Rattle.update_run.specs.UpdateLaws.{AimsAreOne, CutIsReached, DoneUpdatesLeaveOneFlash, ElseByImage, FailureIsReached};

use image_verify::whole_images_show_no_fault;

/// The last leg of an update ends with a loss of power, or with a failure of the device, exactly where
/// the step that was chosen for it is one of those that the flash, the image, the script and the options
/// give; else as the bytes of the image show: done, or refused.
pub fn updates_end_in_their_chosen_step()
    ensures cut { CutIsReached }
    ensures failure { FailureIsReached }
    ensures image { ElseByImage }
{}

/// Every flash that a loss of power may leave, at any moment of an update's session, its boot or its
/// confirmation, has the layout of the first flash by its own table. Of it the application boots that
/// ran, or the new one, whole, unless the entry that is found matches by chance; and some application
/// boots in every case. So of each update of a sweep.
pub fn power_lost_at_any_moment_leaves_old_or_new()
    ensures update { UpdatesKeepBooting }
    ensures sweep { SweepsKeepBooting }
{}

/// The flash that an update leaves is one that a loss of power may leave at some moment of it, and so
/// is that which each update of a sweep leaves; so it has the layout of the first flash, and boots.
pub fn the_flash_that_is_left_may_be_left()
    ensures update { PutFlashesMayBeLeft }
    ensures sweep { SweptFlashesMayBeLeft }
    ensures keeps { PutFlashesKeepBooting }
{}

/// Once both steps of a confirmation are made, of every flash that a loss of power may leave the new
/// application boots, whatever the other core does behind them; and so in a session, once all steps
/// of an image are made that is whole. So in each update of a sweep.
pub fn once_confirmed_the_new_application_boots()
    ensures update { UpdatesBootNew }
    ensures sweep { SweepsBootNew }
{}

/// What an update aims at is one and the same for one opening. Two updates of one opening that go as
/// far and are done leave one and the same flash, whichever cores drive and in whichever order the
/// turns came.
pub fn an_update_leaves_one_flash()
    ensures aim { AimsAreOne }
    ensures flash { DoneUpdatesLeaveOneFlash }
{}

/// Where the script makes no step, the flash that a cut leaves is a function of the flash, the image,
/// the tear number and the chosen step: that of the update's steps in one list, of which those before
/// the chosen one are made and this one is torn. So is what boots behind each cut of a sweep, and two
/// sweeps of one flash and one image by one tear number tell the same.
pub fn cuts_beside_silent_scripts_are_functions()
    ensures flash { CutUpdatesAreByFiles }
    ensures cuts { SilentSweepsAreByFiles }
    ensures same { SilentSweepsAreOne }
{
    whole_images_show_no_fault();
}
