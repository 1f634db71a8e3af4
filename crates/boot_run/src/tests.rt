//! Rows from outside, on the program's own device: what no clause says is that they come out so.

ghost use Rattle.std.specs.Prelude.{◌≡◌, ◌≤◌, ◌+◌, None, IfOk, IfSome, length};
ghost use Rattle.crash_images.specs.Cut.{IsAhead};
ghost use Rattle.partition_table.specs.Layout.{IsPlaced};

use crate::*;
use boot_select::Unsettled;
use crash_images::{CutNor, FlakyNor};
use nor_device::{Nor, RamNor};
use otadata::Entry;
use partition_table::{App, Layout, Row, Table};
use std::alloc::{AllocError, Global};
use std::test::Fail;

/// A flash of 1 MiB.
pub(crate) const SIZE: usize = 0x10_0000;

/// Where the OTA data, the factory application and the update slots begin; each partition of an
/// application has 0x10000 bytes.
pub(crate) const OTADATA: usize = 0xD000;

pub(crate) const FACTORY: usize = 0x1_0000;

/// The states of an entry, as ESP-IDF numbers them.
const NEW: u32 = 0;

pub(crate) const PENDING_VERIFY: u32 = 1;

pub(crate) const VALID: u32 = 2;

const INVALID: u32 = 3;

const ABORTED: u32 = 4;

/// The image that esptool's rules give for the four bytes 01 02 03 04 at 0x3F400020.
const IMAGE: [u8; 80] = [
    0xE9, 0x01, 0x02, 0x20, 0x00, 0x04, 0x08, 0x40, 0xEE, 0x00, 0x00, 0x00, 0x00, 0x00, 0x00, 0x00,
    0x00, 0x00, 0x00, 0x00, 0x00, 0x00, 0x00, 0x01, 0x20, 0x00, 0x40, 0x3F, 0x04, 0x00, 0x00, 0x00,
    0x01, 0x02, 0x03, 0x04, 0x00, 0x00, 0x00, 0x00, 0x00, 0x00, 0x00, 0x00, 0x00, 0x00, 0x00, 0xEB,
    0xAC, 0x8D, 0x70, 0x32, 0x6E, 0xE8, 0xA1, 0xD1, 0x93, 0x08, 0x6C, 0x8B, 0x06, 0xC5, 0xEB, 0x67,
    0x2E, 0xE9, 0x1A, 0x20, 0xC3, 0xE4, 0xB3, 0xD6, 0x2D, 0xBD, 0x7D, 0xAC, 0x93, 0xA8, 0xA6, 0xEB,
];

/// What is compared of a boot: the application, the length of its image, the steps.
pub(crate) type Start = (App, u32, u32);

/// An entry of this sequence, state and CRC.
fn entry(seq: u32, state: u32, crc: u32) -> Entry {
    Entry {
        seq,
        label: [0xFF; 20],
        state,
        crc,
    }
}

/// An entry of sequence 1, which names the first slot.
pub(crate) fn one(state: u32) -> Entry {
    entry(1, state, 0x4743_989A)
}

/// The entry of an erased sector.
pub(crate) fn blank() -> Entry {
    entry(0xFFFF_FFFF, 0xFFFF_FFFF, 0xFFFF_FFFF)
}

/// A partition.
fn row(kind: u8, subtype: u8, offset: u32, size: u32) -> Row {
    Row {
        kind,
        subtype,
        offset,
        size,
        label: [0; 16],
        flags: 0,
    }
}

/// A layout of so many slots.
pub(crate) fn layout_of(slots: usize) -> Option<Layout>
    requires { slots ≤ 3 }
    ensures placed { IfSome result (λ layout. IsPlaced layout 0x100000) }
{
    flagged_layout(slots, 0)
}

/// A layout of so many slots, the first of them with these flags.
fn flagged_layout(slots: usize, flags: u32) -> Option<Layout>
    ensures placed { IfSome result (λ layout. IsPlaced layout 0x100000) }
{
    if slots > 3 {
        return None;
    }
    let first = row(0, 0x10, 0x20000, 0x10000);
    let rows = [
        row(1, 0x00, 0xD000, 0x2000),
        row(0, 0x00, 0x10000, 0x10000),
        Row { flags, ..first },
        row(0, 0x11, 0x30000, 0x10000),
        row(0, 0x12, 0x40000, 0x10000),
    ];
    match Table::of_rows(&rows[..2 + slots], 0x10_0000) {
        Ok(table) => table.layout().ok(),
        Err(_) => None,
    }
}

/// As many bytes of one value.
pub(crate) fn filled(alloc: Global, byte: u8, size: usize) -> Result<Vec<u8>, AllocError>
    ensures length { IfOk result (λ bytes. length bytes.items ≡ size) }
{
    Ok(vec![in alloc; byte; size]?)
}

/// Puts bytes at a place, where they are wanted.
pub(crate) fn put_at(bytes: &mut [u8], at: usize, part: &[u8], wanted: bool)
    requires { at + length part.now ≤ length bytes.old }
{
    if wanted {
        bytes[at..at + part.len()].copy_from_slice(part);
    }
}

/// Puts the entries, and the image in factory and in as many slots as is told.
fn fill(bytes: &mut [u8], first: &Entry, second: &Entry, whole: [bool; 3])
    requires { 0x100000 ≤ length bytes.old }
{
    let mut text = [0; 32];
    first.put(&mut text);
    put_at(bytes, OTADATA, &text, true);
    second.put(&mut text);
    put_at(bytes, OTADATA + 4096, &text, true);
    put_at(bytes, FACTORY, &IMAGE, whole[0]);
    put_at(bytes, FACTORY + 0x1_0000, &IMAGE, whole[1]);
    put_at(bytes, FACTORY + 0x2_0000, &IMAGE, whole[2]);
}

/// A device with 2 polls a step over a flash of these entries and images, which is cut in this
/// step.
fn device_of(
    alloc: Global,
    first: &Entry,
    second: &Entry,
    whole: [bool; 3],
    cut: Option<u64>,
    tear: u64,
) -> Result<CutNor<RamNor>, AllocError>
    requires ahead { IsAhead cut 0 }
    ensures idle { IfOk result (λ device. ⟦<CutNor<RamNor> as Nor>⟧.running device ≡ None) }
    ensures size { IfOk result (λ device. ⟦<CutNor<RamNor> as Nor>⟧.size device ≡ 0x100000) }
{
    let mut bytes = filled(alloc, 0xFF, SIZE)?;
    fill(&mut bytes, first, second, whole);
    Ok(CutNor::new(RamNor::of_bytes(bytes, 2), cut, tear, None))
}

/// A boot.
fn booted<D: Nor>(device: &mut D, layout: &Layout) -> Result<Start, BootFault>
    requires idle { D.running device.old ≡ None }
    requires placed { IsPlaced layout.now 0x100000 }
    requires size { D.size device.old ≡ 0x100000 }
    ensures idle { D.running device.new ≡ None }
    ensures size { D.size device.new ≡ 0x100000 }
{
    match boot(device, layout) {
        Ok(it) => Ok((it.app, it.info.length, it.steps)),
        Err(why) => Err(why),
    }
}

/// A confirmation.
fn confirmed<D: Nor>(device: &mut D, layout: &Layout) -> Result<Told, ConfirmFault>
    requires idle { D.running device.old ≡ None }
    requires placed { IsPlaced layout.now 0x100000 }
    requires size { D.size device.old ≡ 0x100000 }
    ensures idle { D.running device.new ≡ None }
    ensures size { D.size device.new ≡ 0x100000 }
{
    confirm(device, layout)
}

/// A rejection.
pub(crate) fn rejected<D: Nor>(device: &mut D, layout: &Layout) -> Result<Told, RejectFault>
    requires idle { D.running device.old ≡ None }
    requires placed { IsPlaced layout.now 0x100000 }
    requires size { D.size device.old ≡ 0x100000 }
    ensures idle { D.running device.new ≡ None }
    ensures size { D.size device.new ≡ 0x100000 }
{
    reject(device, layout)
}

/// A preview.
fn seen(flash: &[u8], layout: &Layout) -> Result<Start, NoApp>
    requires placed { IsPlaced layout.now 0x100000 }
    requires size { length flash.now ≡ 0x100000 }
{
    match preview(flash, layout) {
        Ok(it) => Ok((it.app, it.info.length, it.steps)),
        Err(why) => Err(why),
    }
}

/// A look for an update of so many bytes: the application that runs, the slot, the sector, the
/// sequence.
fn aimed<D: Nor>(device: &mut D, layout: &Layout, length: u32) -> Result<(App, u8, u8, u32), AimNo>
    requires idle { D.running device.old ≡ None }
    requires placed { IsPlaced layout.now 0x100000 }
    requires size { D.size device.old ≡ 0x100000 }
    ensures idle { D.running device.new ≡ None }
    ensures size { D.size device.new ≡ 0x100000 }
{
    match aim(device, layout, length) {
        Ok(it) => Ok((it.running, it.slot, it.next.sector, it.next.entry.seq)),
        Err(why) => Err(why),
    }
}

#[test]
fn a_new_application_is_tried_once(rt: HostRuntime) -> Result<(), Fail> {
    let layout = layout_of(2).ok_or("a layout of two slots")?;
    let whole = [true, true, false];
    let mut device = device_of(rt.alloc(), &one(NEW), &blank(), whole, None, 0)?;
    assert_eq!(rt;
        booted(&mut device, &layout),
        Ok((App::Ota(0), 80, 2)),
        "the first boot"
    );
    assert_eq!(rt;
        aimed(&mut device, &layout, 80),
        Err(AimNo::NotSettled(Unsettled::Waiting {
            entry: 0,
            state: PENDING_VERIFY
        })),
        "an update of what waits"
    );
    assert_eq!(rt;
        booted(&mut device, &layout),
        Ok((App::Factory, 80, 2)),
        "the second boot"
    );
    let bytes = device.into_inner().into_bytes();
    assert_eq!(rt; bytes.get(OTADATA + 24), Some(&4), "the state is ABORTED");
    Ok(())
}

#[test]
fn a_flash_without_update_starts_factory(rt: HostRuntime) -> Result<(), Fail> {
    let layout = layout_of(2).ok_or("a layout of two slots")?;
    let whole = [true, false, false];
    let mut device = device_of(rt.alloc(), &blank(), &blank(), whole, None, 0)?;
    assert_eq!(rt;
        booted(&mut device, &layout),
        Ok((App::Factory, 80, 0)),
        "a boot"
    );
    assert_eq!(rt;
        confirmed(&mut device, &layout),
        Err(ConfirmFault::NoOtaApp),
        "a confirmation"
    );
    assert_eq!(rt;
        rejected(&mut device, &layout),
        Err(RejectFault::NoOtaApp),
        "a rejection"
    );
    let none = [false, false, false];
    let mut device = device_of(rt.alloc(), &blank(), &blank(), none, None, 0)?;
    assert_eq!(rt;
        booted(&mut device, &layout),
        Err(BootFault::NoApp),
        "nothing whole"
    );
    Ok(())
}

#[test]
fn the_application_that_runs_confirms_or_rejects_itself(rt: HostRuntime) -> Result<(), Fail> {
    let layout = layout_of(2).ok_or("a layout of two slots")?;
    let whole = [true, true, false];
    let waits = one(PENDING_VERIFY);
    let mut device = device_of(rt.alloc(), &waits, &blank(), whole, None, 0)?;
    assert_eq!(rt;
        confirmed(&mut device, &layout),
        Ok(Told { slot: 0, steps: 2 }),
        "a confirmation"
    );
    assert_eq!(rt;
        confirmed(&mut device, &layout),
        Ok(Told { slot: 0, steps: 0 }),
        "again"
    );
    assert_eq!(rt;
        rejected(&mut device, &layout),
        Ok(Told { slot: 0, steps: 2 }),
        "a rejection"
    );
    assert_eq!(rt;
        booted(&mut device, &layout),
        Ok((App::Factory, 80, 0)),
        "a boot"
    );
    let alone = [false, true, false];
    let mut device = device_of(rt.alloc(), &one(VALID), &blank(), alone, None, 0)?;
    assert_eq!(rt;
        rejected(&mut device, &layout),
        Err(RejectFault::NothingElse),
        "without a factory application"
    );
    Ok(())
}

#[test]
fn a_confirmation_rewrites_the_first_sector_on_a_tie(rt: HostRuntime) -> Result<(), Fail> {
    let layout = layout_of(2).ok_or("a layout of two slots")?;
    let whole = [true, true, false];
    let mut device = device_of(rt.alloc(), &one(NEW), &one(NEW), whole, None, 0)?;
    assert_eq!(rt;
        confirmed(&mut device, &layout),
        Ok(Told { slot: 0, steps: 2 }),
        "a tie"
    );
    let bytes = device.into_inner().into_bytes();
    assert_eq!(rt;
        bytes.get(OTADATA + 24),
        Some(&2),
        "the first state is VALID"
    );
    assert_eq!(rt;
        bytes.get(OTADATA + 4096 + 24),
        Some(&0),
        "the second is NEW"
    );
    Ok(())
}

#[test]
fn an_update_aims_at_a_slot_and_an_entry(rt: HostRuntime) -> Result<(), Fail> {
    let three = layout_of(3).ok_or("a layout of three slots")?;
    let whole = [true, false, true];
    let (first, second) = (
        entry(3, INVALID, 0xED4A_5011),
        entry(2, INVALID, 0x55F6_3774),
    );
    let mut device = device_of(rt.alloc(), &first, &second, whole, None, 0)?;
    assert_eq!(rt;
        aimed(&mut device, &three, 80),
        Ok((App::Factory, 2, 0, 3)),
        "the slot of the rejected entry that would win"
    );
    assert_eq!(rt;
        aimed(&mut device, &three, 0x10001),
        Err(AimNo::TooLarge {
            need: 0x10001,
            limit: 0x10000
        }),
        "an image that is too large"
    );
    let mut device = device_of(rt.alloc(), &blank(), &blank(), whole, None, 0)?;
    assert_eq!(rt;
        aimed(&mut device, &three, 80),
        Ok((App::Factory, 0, 0, 1)),
        "the first update"
    );
    let two = layout_of(2).ok_or("a layout of two slots")?;
    let last = entry(0xFFFF_FFFE, VALID, 0x99F8_B879);
    let mut device = device_of(rt.alloc(), &last, &blank(), whole, None, 0)?;
    assert_eq!(rt;
        aimed(&mut device, &two, 80),
        Err(AimNo::SeqSpent { seq: 4_294_967_294 }),
        "the last sequence"
    );
    let single = layout_of(1).ok_or("a layout of one slot")?;
    let mut device = device_of(
        rt.alloc(),
        &one(VALID),
        &blank(),
        [true, true, false],
        None,
        0,
    )?;
    assert_eq!(rt;
        aimed(&mut device, &single, 80),
        Err(AimNo::Conflict { slot: 0 }),
        "the only slot runs"
    );
    Ok(())
}

#[test]
fn an_update_is_refused_for_its_first_reason(rt: HostRuntime) -> Result<(), Fail> {
    let waits = AimNo::NotSettled(Unsettled::Waiting {
        entry: 0,
        state: PENDING_VERIFY,
    });
    let large = AimNo::TooLarge {
        need: 0x10001,
        limit: 0x10000,
    };
    let last = entry(0xFFFF_FFFE, VALID, 0x99F8_B879);
    for (slots, flags, first, want, why) in [
        (1, 3, one(PENDING_VERIFY), waits, "before the only slot"),
        (
            1,
            3,
            one(VALID),
            AimNo::Conflict { slot: 0 },
            "before its flags",
        ),
        (
            2,
            5,
            last,
            AimNo::SlotFlags { slot: 0, flags: 5 },
            "encrypted, before the sequence",
        ),
        (
            2,
            2,
            blank(),
            AimNo::SlotFlags { slot: 0, flags: 2 },
            "readonly, before the length",
        ),
        (
            2,
            4,
            last,
            AimNo::SeqSpent { seq: 4_294_967_294 },
            "before the length",
        ),
        (2, 4, blank(), large, "at last"),
    ] {
        let layout = flagged_layout(slots, flags).ok_or("a layout")?;
        let whole = [true, true, true];
        let mut device = device_of(rt.alloc(), &first, &blank(), whole, None, 0)?;
        assert_eq!(rt; aimed(&mut device, &layout, 0x10001), Err(want), "{why}");
    }
    Ok(())
}

#[test]
fn a_boot_is_cut_in_its_second_step(rt: HostRuntime) -> Result<(), Fail> {
    let layout = layout_of(2).ok_or("a layout of two slots")?;
    let whole = [true, true, false];
    for (tear, want, why) in [
        (0, (App::Factory, 80, 2), "the entry waits"),
        (0xFFFF, (App::Factory, 80, 0), "the sector is erased"),
    ] {
        let mut device = device_of(rt.alloc(), &one(NEW), &blank(), whole, Some(2), tear)?;
        assert_eq!(rt;
            booted(&mut device, &layout),
            Err(BootFault::Cut),
            "{why}: the cut"
        );
        assert_eq!(rt; device.steps(), 2, "{why}: the steps");
        let mut device = device.restart();
        assert_eq!(rt; booted(&mut device, &layout), Ok(want), "{why}");
    }
    Ok(())
}

#[test]
fn a_preview_writes_nothing(rt: HostRuntime) -> Result<(), Fail> {
    let layout = layout_of(2).ok_or("a layout of two slots")?;
    let mut bytes = filled(rt.alloc(), 0xFF, SIZE)?;
    fill(&mut bytes, &one(NEW), &blank(), [true, true, false]);
    assert_eq!(rt;
        seen(&bytes, &layout),
        Ok((App::Ota(0), 80, 2)),
        "a new application"
    );
    Ok(())
}

#[test]
fn a_boot_in_which_one_call_fails_leaves_what_boots(rt: HostRuntime) -> Result<(), Fail> {
    let layout = layout_of(2).ok_or("a layout of two slots")?;
    let whole = [true, true, false];
    for at in 1..1_000 {
        let inner = device_of(rt.alloc(), &one(NEW), &blank(), whole, None, 0)?;
        let mut device = FlakyNor::new(inner, at);
        let answer = booted(&mut device, &layout);
        let faults = device.faults();
        let flash = device.into_inner().into_inner().into_bytes();
        let starts = matches!(
            seen(&flash, &layout),
            Ok((App::Ota(0) | App::Factory, 80, _))
        );
        if faults == 0 {
            assert_eq!(rt; answer, Ok((App::Ota(0), 80, 2)), "no call fails");
            return Ok(());
        }
        assert_eq!(rt; answer, Err(BootFault::Device), "call {at} fails");
        assert!(rt; starts, "call {at} fails: what boots");
    }
    Err("each call failed".into())
}
