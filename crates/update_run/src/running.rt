//! An update that began, with both cores at work.

ghost use Rattle.std.specs.Prelude.{◌≡◌, ◌≢◌, ◌<◌, Some, Ok, IfOk, length};
ghost use Rattle.nor_device.specs.FlashSize.{IsFlashSize};
ghost use Rattle.partition_table.specs.Layout.{Places, layout_of};
ghost use Rattle.boot_select.specs.Boots.{entries_in, images_in};
ghost use Rattle.image_verify.specs.Held.{held};
ghost use Rattle.boot_run.specs.Booted.{IsBoot};
ghost use Rattle.power_cut.specs.Device.{IsReady};
ghost use Rattle.power_cut.specs.Update.{BootsEither, Opens};
ghost use Rattle.power_cut.specs.Whole.{AreDone, BootsNew, IsTrial};
ghost use Rattle.duo_run.specs.Both.{HasTable};
ghost use Rattle.duo_run.specs.Paced.{IsToldLeg, session_ops};
ghost use Rattle.duo_run.specs.Legs.{IsDuoConfirm, IsDuoSession, MayAffirm, MayInstall};
ghost use Rattle.update_run.specs.Options.{AreOptions, IsChosenDevice};
ghost use Rattle.update_run.specs.Opening.{IsBegun, opening_with};
ghost use Rattle.update_run.specs.Updating.{IsUpdate};
ghost use Rattle.update_run.specs.Paced.{IsPaced};

use crate::device::POLLS;
use crate::opening::Opening;
use crate::options::Options;
use boot_run::{Aim, Booted};
use bus_hub::Memory;
use crash_images::CutNor;
use duo_run::Duo;
use flash_ops::Pace;
use image_verify::whole_images_show_no_fault;
use nor_device::RamNor;
use partition_table::Layout;
use power_cut::{Legs, Ran, Trial, Upto, trial};
use rollback::Rewrite;
use std::alloc::Global;
use std::sync::Wait;
use std::thread::Threads;

/// Makes an update that began: the driver writes the image, the other core makes the script.
pub fn make_update<P: Pace + Sync, R: Threads + Wait + Sync>(
    rt: &R,
    alloc: Global,
    opening: Opening,
    image: &[u8],
    options: &Options,
    pace: &P,
) -> Result<Trial, Memory>
    requires options { AreOptions options.now }
    requires begun { IsBegun image.now opening }
    ensures update { IfOk result (IsUpdate options.now (opening_with image.now opening)) }
    ensures told { IfOk result
        (IsPaced (P.told pace.now) options.now (opening_with image.now opening)) }
{
    let Opening {
        flash,
        script,
        table,
        layout,
        aim,
    } = opening;
    // What the clauses rest on: an image shows no fault exactly where it is whole, and a script has
    // so few actions that its steps can be counted.
    whole_images_show_no_fault();
    let _few = script.len();
    let device = chosen_device(flash, options);
    let duo = Duo {
        table: &table,
        script: &script,
        driver: options.driver,
        pace,
    };
    run_legs(rt, alloc, device, &duo, &layout, &aim, image, options.upto)
}

/// Makes the legs of an update on a device, by two cores.
fn run_legs<P: Pace + Sync, R: Threads + Wait + Sync>(
    rt: &R,
    alloc: Global,
    device: CutNor<RamNor>,
    duo: &Duo<'_, P>,
    layout: &Layout,
    aim: &Aim,
    image: &[u8],
    upto: Upto,
) -> Result<Trial, Memory>
    requires core { duo.now.driver < 2 }
    requires ready { IsReady device }
    requires table { HasTable duo.now.table.now layout.now device.inner.bytes }
    requires opens { Opens layout.now device.inner.bytes aim.now image.now }
    ensures trial { IfOk result (λ t. IsTrial
        (λ ran. IsDuoSession duo.now.table.now duo.now.script.now duo.now.driver layout.now aim.now
        image.now device ran)
        (λ d at write ran. IsDuoConfirm duo.now.table.now duo.now.script.now duo.now.driver
        layout.now at.now write.now d ran)
        layout.now device.inner.bytes aim.now image.now upto t) }
    ensures boots { IfOk result (λ t.
        BootsEither layout.now device.inner.bytes aim.now image.now t.flash.items) }
    ensures after { IfOk result (λ t. IsBoot layout.now (images_in held layout.now t.flash.items)
        (entries_in layout.now t.flash.items) (Some t.after)) }
    ensures installed { IfOk result (λ t. upto ≢ Upto.Boot → AreDone t.legs.items
        → BootsNew layout.now aim.now image.now t.flash.items) }
    ensures told { IfOk result (λ t. IsTrial
        (λ ran. IsToldLeg (P.told duo.now.pace.now)
        (session_ops layout.now aim.now image.now) (length duo.now.script.now) ran)
        (λ d at write ran. IsToldLeg (P.told duo.now.pace.now) 2 (length duo.now.script.now) ran)
        layout.now device.inner.bytes aim.now image.now upto t) }
{
    let session = |dev: CutNor<RamNor>, aim: &Aim, image: &[u8]| -> Result<Ran, Memory>
        requires core { duo.now.driver < 2 }
        requires layout { (layout : Places) × (layout_of duo.now.table.now ≡ Ok layout)
            × MayInstall duo.now.table.now layout aim.now image.now dev }
        ensures leg { IfOk result (λ ran. (layout : Places)
            → layout_of duo.entry.now.table.now ≡ Ok layout
            → IsDuoSession duo.entry.now.table.now duo.entry.now.script.now
            duo.entry.now.driver layout aim.now image.now dev ran) }
        ensures told { IfOk result (λ ran. (layout : Places)
            → layout_of duo.entry.now.table.now ≡ Ok layout
            → IsToldLeg (P.told duo.entry.now.pace.now) (session_ops layout aim.now image.now)
            (length duo.entry.now.script.now) ran) }
    { duo.session(rt, alloc, dev, aim, image) };
    let confirm = |dev: CutNor<RamNor>, at: &Booted, write: &Rewrite| -> Result<Ran, Memory>
        requires core { duo.now.driver < 2 }
        requires layout { (layout : Places) × (layout_of duo.now.table.now ≡ Ok layout)
            × MayAffirm duo.now.table.now layout at.now write.now dev }
        ensures leg { IfOk result (λ ran. (layout : Places)
            → layout_of duo.entry.now.table.now ≡ Ok layout
            → IsDuoConfirm duo.entry.now.table.now duo.entry.now.script.now
            duo.entry.now.driver layout at.now write.now dev ran) }
        ensures told { IfOk result
            (IsToldLeg (P.told duo.entry.now.pace.now) 2 (length duo.entry.now.script.now)) }
    { duo.confirm(rt, alloc, dev, at, write) };
    trial(device, layout, aim, image, upto, &Legs { session, confirm })
}

/// The device over the bytes of a flash, which are not copied, with the chosen step. It is idle,
/// and made no step.
fn chosen_device(flash: Vec<u8>, options: &Options) -> CutNor<RamNor>
    requires size { IsFlashSize (length flash.items) }
    requires options { AreOptions options.now }
    ensures fresh { IsChosenDevice options.now flash.items result }
{
    CutNor::new(
        RamNor::of_bytes(flash, POLLS),
        options.cut,
        options.tear,
        options.fail,
    )
}
