//! A sweep: an update that is cut at each of its steps in turn.

ghost use Rattle.std.specs.Prelude.{◌≡◌, ◌≤◌, ◌<◌, IfOk, IfErr, Ok, length};
ghost use Rattle.partition_table.specs.Layout.{Places, layout_of};
ghost use Rattle.power_cut.specs.declared.legs.LegEnd.TheVariants.{Done};
ghost use Rattle.power_cut.specs.Sweep.{IsRefusedBy, IsSweep};
ghost use Rattle.power_cut.specs.Update.{Opens, session_end, slot_size};
ghost use Rattle.duo_run.specs.Both.{HasTable};
ghost use Rattle.duo_run.specs.Legs.{IsDuoConfirm, IsDuoSession, MayAffirm, MayInstall};
ghost use Rattle.update_run.specs.Opening.{IsBegun, opening_with};
ghost use Rattle.update_run.specs.Sweeping.{IsSwept, IsUnsweptBy, OpensSweep};

use crate::opening::{Opening, open_update};
use crate::refusal::{OpeningNo, UpdateNo};
use boot_run::{Aim, Booted};
use bus_hub::Memory;
use crash_images::CutNor;
use duo_run::Duo;
use flash_ops::Pace;
use image_verify::whole_images_show_no_fault;
use nor_device::RamNor;
use partition_table::Layout;
use power_cut::{Legs, Ran, Sweep as Swept, SweepNo, sweep};
use rollback::Rewrite;
use std::alloc::Global;
use std::sync::Wait;
use std::thread::Threads;

/// The most bytes that the image of a sweep has.
const LIMIT: u32 = 262_144;

/// What a sweep of a flash by an image and the text of a script begins with, or the first reason why
/// it may not begin: those of an update, and then that the image is too long.
pub fn open_sweep(
    alloc: Global,
    flash: Vec<u8>,
    image: &[u8],
    text: &[u8],
) -> Result<Opening, OpeningNo>
    ensures exact { OpensSweep flash.items image.now text.now result }
    ensures few { IfOk result (λ o. length image.now ≤ 262144) }
{
    match open_update(alloc, flash, image, text) {
        Ok(opening) => {
            if image.len() > LIMIT as usize {
                Err(OpeningNo::Refused(UpdateNo::SweepLimit {
                    length: image.len() as u64,
                    limit: LIMIT,
                }))
            } else {
                Ok(opening)
            }
        }
        Err(error) => Err(error),
    }
}

/// Cuts an update that began so in each of its steps in turn, with core 0 as the driver.
pub fn make_sweep<P: Pace + Sync, R: Threads + Wait + Sync>(
    rt: &R,
    alloc: Global,
    opening: &Opening,
    image: &[u8],
    tear: u64,
    pace: &P,
) -> Result<Swept, SweepNo>
    requires begun { IsBegun image.now opening.now }
    requires few { length image.now ≤ 262144 }
    ensures swept { IfOk result (IsSwept tear (opening_with image.now opening.now)) }
    ensures refused { IfErr result (IsUnsweptBy tear (opening_with image.now opening.now)) }
{
    // What the clause on a sweep rests on: an image shows no fault exactly where it is whole, and a
    // script has so few actions that its steps can be counted.
    whole_images_show_no_fault();
    let _few = opening.script.len();
    let duo = Duo {
        table: &opening.table,
        script: &opening.script,
        driver: 0,
        pace,
    };
    cut_legs(
        rt,
        alloc,
        &opening.flash,
        tear,
        &duo,
        &opening.layout,
        &opening.aim,
        image,
    )
}

/// Makes the legs of the updates of a sweep, by two cores.
fn cut_legs<P: Pace + Sync, R: Threads + Wait + Sync>(
    rt: &R,
    alloc: Global,
    flash: &[u8],
    tear: u64,
    duo: &Duo<'_, P>,
    layout: &Layout,
    aim: &Aim,
    image: &[u8],
) -> Result<Swept, SweepNo>
    requires core { duo.now.driver < 2 }
    requires few { length image.now ≤ 262144 }
    requires table { HasTable duo.now.table.now layout.now flash.now }
    requires opens { Opens layout.now flash.now aim.now image.now }
    ensures sweep { IfOk result (IsSweep
        (λ dev ran. IsDuoSession duo.now.table.now duo.now.script.now duo.now.driver layout.now
        aim.now image.now dev ran)
        (λ dev at write ran. IsDuoConfirm duo.now.table.now duo.now.script.now duo.now.driver
        layout.now at.now write.now dev ran)
        layout.now flash.now tear aim.now image.now) }
    ensures whole { IfOk result (λ s.
        session_end (slot_size layout.now aim.now.slot) image.now ≡ Done) }
    ensures refused { IfErr result (IsRefusedBy
        (λ dev ran. IsDuoSession duo.now.table.now duo.now.script.now duo.now.driver layout.now
        aim.now image.now dev ran)
        (λ dev at write ran. IsDuoConfirm duo.now.table.now duo.now.script.now duo.now.driver
        layout.now at.now write.now dev ran)
        layout.now flash.now tear aim.now image.now) }
{
    let session = |dev: CutNor<RamNor>, aim: &Aim, image: &[u8]| -> Result<Ran, Memory>
        requires core { duo.now.driver < 2 }
        requires layout { (layout : Places) × (layout_of duo.now.table.now ≡ Ok layout)
            × MayInstall duo.now.table.now layout aim.now image.now dev }
        ensures leg { IfOk result (λ ran. (layout : Places)
            → layout_of duo.entry.now.table.now ≡ Ok layout
            → IsDuoSession duo.entry.now.table.now duo.entry.now.script.now
            duo.entry.now.driver layout aim.now image.now dev ran) }
    { duo.session(rt, alloc, dev, aim, image) };
    let confirm = |dev: CutNor<RamNor>, at: &Booted, write: &Rewrite| -> Result<Ran, Memory>
        requires core { duo.now.driver < 2 }
        requires layout { (layout : Places) × (layout_of duo.now.table.now ≡ Ok layout)
            × MayAffirm duo.now.table.now layout at.now write.now dev }
        ensures leg { IfOk result (λ ran. (layout : Places)
            → layout_of duo.entry.now.table.now ≡ Ok layout
            → IsDuoConfirm duo.entry.now.table.now duo.entry.now.script.now
            duo.entry.now.driver layout at.now write.now dev ran) }
    { duo.confirm(rt, alloc, dev, at, write) };
    sweep(
        alloc,
        flash,
        tear,
        layout,
        duo.table.rows(),
        aim,
        image,
        &Legs { session, confirm },
    )
}
