//! An update whose power is cut at each of its steps in turn.

ghost use Rattle.std.specs.Prelude.{◌≡◌, ◌≤◌, ◌<◌, IfOk, IfErr, Ok, Some, length};
ghost use Rattle.nor_device.specs.FlashSize.{IsFlashSize};
ghost use Rattle.crash_images.specs.Agrees.{Agrees};
ghost use Rattle.crash_images.specs.Cut.{IsAhead};
ghost use Rattle.boot_select.specs.Boots.{entries_in, images_in};
ghost use Rattle.image_verify.specs.Held.{held};
ghost use Rattle.flash_steps.specs.Parts.{open_addresses};
ghost use Rattle.boot_run.specs.Booted.{IsBoot};
ghost use Rattle.power_cut.specs.declared.legs.LegEnd.TheVariants.{Done};
ghost use Rattle.power_cut.specs.Update.{BootsEither, Opens, session_end, slot_size};
ghost use Rattle.power_cut.specs.Whole.{AreDone, BootsNew, total_steps};
ghost use Rattle.power_cut.specs.Sweep.{AreCutFrom, IsCutAt, IsRefusedBy, IsSweep, IsUntouched, IsUpdateOf, MaySweep, refusal_in};

use crate::legs::{Leg, LegEnd, Upto};
use crate::outcome::Trial;
use crate::restoring::{copy_part, restore_rows};
use crate::run::trial;
use crate::runner::Runner;
use crate::swept::{Sweep, SweepNo};
use boot_run::{Aim, Booted};
use bus_hub::Memory;
use crash_images::CutNor;
use nor_device::RamNor;
use partition_table::{App, Layout, Row};
use std::alloc::Global;

/// Runs an update of a flash whole, and then once for each of its steps, with the power cut in that
/// step by the tear number; each time on a device made anew over the bytes of the flash. Between two
/// runs the bytes that an update may change are copied back, and the rows tell which partitions the
/// other core may write to.
///
/// Refused exactly where the session of the whole update is not made whole by what its bytes show.
pub fn sweep<U: Runner>(
    alloc: Global,
    flash: &[u8],
    tear: u64,
    layout: &Layout,
    rows: &[Row],
    aim: &Aim,
    image: &[u8],
    runner: &U,
) -> Result<Sweep, SweepNo>
    requires size { IsFlashSize (length flash.now) }
    requires few { length image.now ≤ 262144 }
    requires opens { Opens layout.now flash.now aim.now image.now }
    requires runner { MaySweep (λ dev. U.may_write runner.now dev aim image)
        (λ dev ran. U.has_written runner.now dev aim image (Ok ran))
        (λ dev at write. U.may_confirm runner.now dev at write)
        (λ dev at write ran. U.has_confirmed runner.now dev at write (Ok ran))
        layout.now flash.now tear aim.now image.now (open_addresses rows.now) }
    ensures sweep { IfOk result (IsSweep
        (λ dev ran. U.has_written runner.now dev aim.entry image.entry (Ok ran))
        (λ dev at write ran. U.has_confirmed runner.now dev at write (Ok ran))
        layout.now flash.now tear aim.now image.now) }
    ensures whole { IfOk result (λ s.
        session_end (slot_size layout.now aim.now.slot) image.now ≡ Done) }
    ensures refused { IfErr result (IsRefusedBy
        (λ dev ran. U.has_written runner.now dev aim.entry image.entry (Ok ran))
        (λ dev at write ran. U.has_confirmed runner.now dev at write (Ok ran))
        layout.now flash.now tear aim.now image.now) }
{
    let updates = Updates {
        flash,
        tear,
        layout,
        rows,
        aim,
        image,
        runner,
    };
    let whole = updates.update(copied(alloc, flash)?, None)?;
    if let Some(end) = refusal(whole.legs.as_slice()) {
        return Err(SweepNo::Refused(end));
    }
    let steps = count(whole.legs.as_slice())?;
    let after = updates.cuts(alloc, whole.flash, steps)?;
    Ok(Sweep { steps, after })
}

/// What the updates of a sweep have in common.
#[derive(Drop)]
struct Updates<'a, U: Runner> {
    flash: &'a [u8],
    tear: u64,
    layout: &'a Layout,
    rows: &'a [Row],
    aim: &'a Aim,
    image: &'a [u8],
    runner: &'a U,
}

impl<U: Runner> Updates<'_, U> {
    /// What boots behind a cut in each of so many steps, in order.
    fn cuts(&self, alloc: Global, room: Vec<u8>, steps: u64) -> Result<Vec<Booted>, Memory>
        requires room { Agrees
            (IsUntouched self.now.layout.now self.now.aim.now (open_addresses self.now.rows.now))
            self.now.flash.now room.items }
        requires size { IsFlashSize (length self.now.flash.now) }
        requires opens { Opens self.now.layout.now self.now.flash.now self.now.aim.now
            self.now.image.now }
        requires runner { MaySweep
            (λ dev. U.may_write self.now.runner.now dev self.now.aim self.now.image)
            (λ dev ran. U.has_written self.now.runner.now dev self.now.aim self.now.image (Ok ran))
            (λ dev at write. U.may_confirm self.now.runner.now dev at write)
            (λ dev at write ran. U.has_confirmed self.now.runner.now dev at write (Ok ran))
            self.now.layout.now self.now.flash.now self.now.tear self.now.aim.now
            self.now.image.now (open_addresses self.now.rows.now) }
        ensures places { IfOk result (λ after. length after.items ≡ steps) }
        ensures cuts { IfOk result (λ after. AreCutFrom
            (λ dev ran. U.has_written self.now.runner.now dev self.now.aim self.now.image (Ok ran))
            (λ dev at write ran. U.has_confirmed self.now.runner.now dev at write (Ok ran))
            self.now.layout.now self.now.flash.now self.now.tear self.now.aim.now
            self.now.image.now 1 after.items) }
    {
        let mut bytes = room;
        let mut after = Vec::new(alloc);
        for made in 0..steps {
            let (left, booted) = self.cut(bytes, made + 1)?;
            bytes = left;
            if after.push(booted).is_err() {
                return Err(Memory);
            }
        }
        Ok(after)
    }

    /// What boots behind a cut in this step, and the bytes that are left, as room for the next
    /// flash.
    fn cut(&self, room: Vec<u8>, step: u64) -> Result<(Vec<u8>, Booted), Memory>
        requires room { Agrees
            (IsUntouched self.now.layout.now self.now.aim.now (open_addresses self.now.rows.now))
            self.now.flash.now room.items }
        requires step { 0 < step }
        requires size { IsFlashSize (length self.now.flash.now) }
        requires opens { Opens self.now.layout.now self.now.flash.now self.now.aim.now
            self.now.image.now }
        requires runner { MaySweep
            (λ dev. U.may_write self.now.runner.now dev self.now.aim self.now.image)
            (λ dev ran. U.has_written self.now.runner.now dev self.now.aim self.now.image (Ok ran))
            (λ dev at write. U.may_confirm self.now.runner.now dev at write)
            (λ dev at write ran. U.has_confirmed self.now.runner.now dev at write (Ok ran))
            self.now.layout.now self.now.flash.now self.now.tear self.now.aim.now
            self.now.image.now (open_addresses self.now.rows.now) }
        ensures room { IfOk result (λ r. Agrees
            (IsUntouched self.now.layout.now self.now.aim.now (open_addresses self.now.rows.now))
            self.now.flash.now r.0.items) }
        ensures cut { IfOk result (λ r. IsCutAt
            (λ dev ran. U.has_written self.now.runner.now dev self.now.aim self.now.image (Ok ran))
            (λ dev at write ran. U.has_confirmed self.now.runner.now dev at write (Ok ran))
            self.now.layout.now self.now.flash.now self.now.tear self.now.aim.now
            self.now.image.now step r.1) }
    {
        let Trial {
            flash,
            legs: _,
            session: _,
            confirm: _,
            after,
        } = self.update(room, Some(step))?;
        Ok((flash, after))
    }

    /// Runs an update of the flash, in room for its bytes, with the power cut in a step, where one
    /// is given.
    fn update(&self, room: Vec<u8>, cut: Option<u64>) -> Result<Trial, Memory>
        requires room { Agrees
            (IsUntouched self.now.layout.now self.now.aim.now (open_addresses self.now.rows.now))
            self.now.flash.now room.items }
        requires ahead { IsAhead cut 0 }
        requires size { IsFlashSize (length self.now.flash.now) }
        requires opens { Opens self.now.layout.now self.now.flash.now self.now.aim.now
            self.now.image.now }
        requires runner { MaySweep
            (λ dev. U.may_write self.now.runner.now dev self.now.aim self.now.image)
            (λ dev ran. U.has_written self.now.runner.now dev self.now.aim self.now.image (Ok ran))
            (λ dev at write. U.may_confirm self.now.runner.now dev at write)
            (λ dev at write ran. U.has_confirmed self.now.runner.now dev at write (Ok ran))
            self.now.layout.now self.now.flash.now self.now.tear self.now.aim.now
            self.now.image.now (open_addresses self.now.rows.now) }
        ensures update { IfOk result (IsUpdateOf
            (λ dev ran. U.has_written self.now.runner.now dev self.now.aim self.now.image (Ok ran))
            (λ dev at write ran. U.has_confirmed self.now.runner.now dev at write (Ok ran))
            self.now.layout.now self.now.flash.now self.now.tear self.now.aim.now
            self.now.image.now cut) }
        ensures boots { IfOk result (λ t. BootsEither self.now.layout.now self.now.flash.now
            self.now.aim.now self.now.image.now t.flash.items) }
        ensures after { IfOk result (λ t. IsBoot self.now.layout.now
            (images_in held self.now.layout.now t.flash.items)
            (entries_in self.now.layout.now t.flash.items) (Some t.after)) }
        ensures installed { IfOk result (λ t. AreDone t.legs.items
            → BootsNew self.now.layout.now self.now.aim.now self.now.image.now t.flash.items) }
        ensures beside { IfOk result (λ t. Agrees
            (IsUntouched self.now.layout.now self.now.aim.now (open_addresses self.now.rows.now))
            self.now.flash.now t.flash.items) }
    {
        let bytes = self.restored(room);
        let dev = CutNor::new(RamNor::of_bytes(bytes, 0), cut, self.tear, None);
        trial(
            dev,
            self.layout,
            self.aim,
            self.image,
            Upto::Confirm,
            self.runner,
        )
    }

    /// The bytes of the flash, in room for them.
    fn restored(&self, room: Vec<u8>) -> Vec<u8>
        requires opens { Opens self.now.layout.now self.now.flash.now self.now.aim.now
            self.now.image.now }
        requires kept { Agrees
            (IsUntouched self.now.layout.now self.now.aim.now (open_addresses self.now.rows.now))
            self.now.flash.now room.items }
        ensures exact { result.items ≡ self.now.flash.now }
    {
        let mut bytes = room;
        self.restore(&mut bytes);
        bytes
    }

    /// Makes the bytes those of the flash again, where an update has changed no others.
    fn restore(&self, bytes: &mut [u8])
        requires opens { Opens self.now.layout.now self.now.flash.now self.now.aim.now
            self.now.image.now }
        requires kept { Agrees
            (IsUntouched self.now.layout.now self.now.aim.now (open_addresses self.now.rows.now))
            self.now.flash.now bytes.old }
        ensures exact { bytes.new ≡ self.now.flash.now }
    {
        let layout = self.layout;
        let slot = layout.place(App::Ota(self.aim.slot));
        let sectors = (self.aim.length as usize + 4095) / 4096;
        copy_part(self.flash, bytes, slot.offset as usize, 4096 * sectors);
        copy_part(self.flash, bytes, layout.otadata as usize, 0x2000);
        restore_rows(self.flash, bytes, self.rows);
    }
}

/// The same bytes.
fn copied(alloc: Global, bytes: &[u8]) -> Result<Vec<u8>, Memory>
    ensures exact { IfOk result (λ copy. copy.items ≡ bytes.now) }
{
    Ok(Vec::from_slice(alloc, bytes)?)
}

/// The end of the session, where it was not made whole.
fn refusal(legs: &[Leg]) -> Option<LegEnd>
    ensures exact { result ≡ refusal_in legs.now }
{
    match legs.first() {
        Some(session) if !session.end.is_done() => Some(session.end),
        _ => None,
    }
}

/// The steps of all legs. No memory has a place for each where they are 2^64 and more.
fn count(legs: &[Leg]) -> Result<u64, Memory>
    ensures exact { IfOk result (λ steps. steps ≡ total_steps legs.now) }
{
    let mut steps: u64 = 0;
    for i in 0..legs.len() {
        steps = steps.checked_add(legs[i].steps).ok_or(Memory)?;
    }
    Ok(steps)
}
