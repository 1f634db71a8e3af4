//! An update and a sweep in which the runner writes nothing, a sweep whose runner finds no memory,
//! and the leg of a device that failed.

ghost use Rattle.std.specs.Prelude.{◌≡◌, ◌<◌, ◌≤◌, ◌+◌, ◌^◌, [], Err, IfOk, length};
ghost use Rattle.nor_device.specs.FlashSize.{IsFlashSize};
ghost use Rattle.power_cut.specs.declared.legs.LegEnd.TheVariants.{Empty};
ghost use Rattle.power_cut.specs.Device.{IsReady};
ghost use Rattle.power_cut.specs.Update.{Opens};

use crate::*;
use boot_run::{Aim, Booted, aim};
use bus_hub::{Journal, Memory, Room};
use crash_images::CutNor;
use nor_device::{Nor, RamNor, Step};
use partition_table::{App, Layout, Row, Table, layout_in};
use rollback::Rewrite;
use std::alloc::{AllocError, Global};
use std::test::Fail;
use update_steps::tables_open_updates;

/// A session of an image without a byte: nothing is written.
fn untouched(alloc: Global, dev: CutNor<RamNor>) -> Result<Ran, Memory>
    ensures dev { IfOk result (λ ran. ran.dev ≡ dev) }
    ensures leg { IfOk result (λ ran. ran.leg ≡ record { steps = 0; end = Empty }) }
{
    let room = Room {
        entries: 0,
        bytes: 0,
    };
    let leg = Leg {
        steps: 0,
        end: LegEnd::Empty,
    };
    Ok(Ran {
        dev,
        journal: Journal::with_room(alloc, [room, room])?,
        leg,
    })
}

/// A leg that finds no memory.
fn unmade(_dev: CutNor<RamNor>) -> Result<Ran, Memory>
    ensures { result ≡ Err (record {}) }
{
    Err(Memory)
}

/// An update of an image without a byte.
#[tactic(auto, using(crate::proofs::EmptyLemmas::nothing_keeps))]
fn update_of_nothing(
    alloc: Global,
    dev: CutNor<RamNor>,
    layout: &Layout,
    aim: &Aim,
) -> Result<Trial, Memory>
    requires ready { IsReady dev }
    requires small { length dev.inner.bytes < 2 ^ 32 }
    requires opens { Opens layout.now dev.inner.bytes aim.now [] }
{
    let legs = Legs {
        session: |dev: CutNor<RamNor>, _aim: &Aim, _image: &[u8]| untouched(alloc, dev),
        confirm: |dev: CutNor<RamNor>, _at: &Booted, _write: &Rewrite| unmade(dev),
    };
    trial(dev, layout, aim, &[], Upto::Confirm, &legs)
}

/// A sweep of an image without a byte.
fn sweep_of_nothing(
    alloc: Global,
    flash: &[u8],
    layout: &Layout,
    aim: &Aim,
) -> Result<Sweep, SweepNo>
    requires size { IsFlashSize (length flash.now) }
    requires opens { Opens layout.now flash.now aim.now [] }
{
    let legs = Legs {
        session: |dev: CutNor<RamNor>, _aim: &Aim, _image: &[u8]| untouched(alloc, dev),
        confirm: |dev: CutNor<RamNor>, _at: &Booted, _write: &Rewrite| unmade(dev),
    };
    sweep(alloc, flash, 0, layout, &[], aim, &[], &legs)
}

/// A sweep whose first session finds no memory.
fn sweep_without_memory(
    alloc: Global,
    flash: &[u8],
    layout: &Layout,
    aim: &Aim,
) -> Result<Sweep, SweepNo>
    requires size { IsFlashSize (length flash.now) }
    requires opens { Opens layout.now flash.now aim.now [] }
{
    let legs = Legs {
        session: |dev: CutNor<RamNor>, _aim: &Aim, _image: &[u8]| unmade(dev),
        confirm: |dev: CutNor<RamNor>, _at: &Booted, _write: &Rewrite| unmade(dev),
    };
    sweep(alloc, flash, 0, layout, &[], aim, &[], &legs)
}

/// A flash of 1 MiB.
const SIZE: usize = 0x10_0000;

/// The image that esptool's rules give for the four bytes 01 02 03 04 at 0x3F400020.
const IMAGE: [u8; 80] = [
    0xE9, 0x01, 0x02, 0x20, 0x00, 0x04, 0x08, 0x40, 0xEE, 0x00, 0x00, 0x00, 0x00, 0x00, 0x00, 0x00,
    0x00, 0x00, 0x00, 0x00, 0x00, 0x00, 0x00, 0x01, 0x20, 0x00, 0x40, 0x3F, 0x04, 0x00, 0x00, 0x00,
    0x01, 0x02, 0x03, 0x04, 0x00, 0x00, 0x00, 0x00, 0x00, 0x00, 0x00, 0x00, 0x00, 0x00, 0x00, 0xEB,
    0xAC, 0x8D, 0x70, 0x32, 0x6E, 0xE8, 0xA1, 0xD1, 0x93, 0x08, 0x6C, 0x8B, 0x06, 0xC5, 0xEB, 0x67,
    0x2E, 0xE9, 0x1A, 0x20, 0xC3, 0xE4, 0xB3, 0xD6, 0x2D, 0xBD, 0x7D, 0xAC, 0x93, 0xA8, 0xA6, 0xEB,
];

/// A partition.
fn row(kind: u8, subtype: u8, offset: u32, size: u32) -> Row {
    Row {
        kind,
        subtype,
        offset,
        size,
        label: [0; 16],
        flags: 0,
    }
}

/// As many bytes of one value.
fn filled(alloc: Global, byte: u8, size: usize) -> Result<Vec<u8>, AllocError>
    ensures length { IfOk result (λ bytes. length bytes.items ≡ size) }
{
    Ok(vec![in alloc; byte; size]?)
}

/// Puts bytes at a place.
fn put_at(bytes: &mut [u8], at: usize, part: &[u8])
    requires { at + length part.now ≤ length bytes.old }
    ensures { length bytes.new ≡ length bytes.old }
{
    bytes[at..at + part.len()].copy_from_slice(part);
}

/// A flash with a table of two slots, and the image in factory.
fn flash_of(alloc: Global) -> Result<Vec<u8>, AllocError>
    ensures length { IfOk result (λ flash. length flash.items ≡ 0x100000) }
{
    let rows = [
        row(1, 0x00, 0xD000, 0x2000),
        row(0, 0x00, 0x10000, 0x10000),
        row(0, 0x10, 0x20000, 0x10000),
        row(0, 0x11, 0x30000, 0x10000),
    ];
    let mut text = [0xFF; 3072];
    if let Ok(table) = Table::of_rows(&rows, 0x10_0000) {
        table.put(&mut text);
    }
    let mut flash = filled(alloc, 0xFF, SIZE)?;
    put_at(&mut flash, 0x8000, &text);
    put_at(&mut flash, 0x1_0000, &IMAGE);
    Ok(flash)
}

/// An update of an image without a byte, of a flash on which an update may begin.
fn after_nothing(alloc: Global, flash: Vec<u8>) -> Option<Trial>
    requires size { IsFlashSize (length flash.items) }
{
    tables_open_updates();
    let Ok(layout) = layout_in(&flash) else {
        return None;
    };
    let mut dev = CutNor::new(RamNor::of_bytes(flash, 2), None, 0, None);
    let Ok(aim) = aim(&mut dev, &layout, 0) else {
        return None;
    };
    update_of_nothing(alloc, dev, &layout, &aim).ok()
}

/// How many legs there were, the last one, what boots, and the length of its image.
fn told(left: &Option<Trial>) -> Option<(usize, Leg, App, u32)> {
    let left = left.as_ref()?;
    let leg = *left.legs.as_slice().last()?;
    Some((left.legs.len(), leg, left.after.app, left.after.info.length))
}

#[test]
fn an_update_of_nothing_boots_what_ran(rt: HostRuntime) -> Result<(), Fail> {
    let alloc = rt.alloc();
    let flash = flash_of(alloc)?;
    let leg = Leg {
        steps: 0,
        end: LegEnd::Empty,
    };
    assert_eq!(rt;
        told(&after_nothing(alloc, flash)),
        Some((1, leg, App::Factory, 80))
    );
    Ok(())
}

/// Why an image without a byte is not swept: by a runner that writes nothing, and by one that finds
/// no memory.
fn refusals(alloc: Global, flash: &[u8], layout: &Layout, aim: &Aim) -> Option<(SweepNo, SweepNo)>
    requires size { IsFlashSize (length flash.now) }
    requires opens { Opens layout.now flash.now aim.now [] }
{
    let nothing = sweep_of_nothing(alloc, flash, layout, aim).err()?;
    let memory = sweep_without_memory(alloc, flash, layout, aim).err()?;
    Some((nothing, memory))
}

/// The same, of a flash on which an update may begin.
fn unswept(alloc: Global, flash: &[u8]) -> Option<(SweepNo, SweepNo)>
    requires size { IsFlashSize (length flash.now) }
{
    tables_open_updates();
    let Ok(layout) = layout_in(flash) else {
        return None;
    };
    let mut bytes = filled(alloc, 0, flash.len()).ok()?;
    bytes.copy_from_slice(flash);
    let mut dev = CutNor::new(RamNor::of_bytes(bytes, 2), None, 0, None);
    let Ok(aim) = aim(&mut dev, &layout, 0) else {
        return None;
    };
    refusals(alloc, flash, &layout, &aim)
}

#[test]
fn a_sweep_of_nothing_is_refused(rt: HostRuntime) -> Result<(), Fail> {
    let alloc = rt.alloc();
    let flash = flash_of(alloc)?;
    assert_eq!(rt;
        unswept(alloc, &flash),
        Some((SweepNo::Refused(LegEnd::Empty), SweepNo::Memory))
    );
    Ok(())
}

/// The leg of a device that fails in its first step, an erase.
fn failed_leg(flash: Vec<u8>) -> Option<Leg>
    requires size { length flash.items ≡ 0x100000 }
{
    let mut dev = CutNor::new(RamNor::of_bytes(flash, 2), None, 0, Some(1));
    if dev.start(&Step::Erase { sector: 32 }).is_err() {
        return None;
    }
    match dev.poll() {
        Ok(_) => None,
        Err(_) => Some(leg_behind(&mut dev, 0, LegEnd::Done)),
    }
}

#[test]
fn a_leg_is_told_by_its_device(rt: HostRuntime) -> Result<(), Fail> {
    let alloc = rt.alloc();
    let want = Leg {
        steps: 1,
        end: LegEnd::Device { step: 1 },
    };
    assert_eq!(rt; failed_leg(filled(alloc, 0xFF, SIZE)?), Some(want));
    Ok(())
}
