//! Anti-rollback on the program's own device and fuses: rows from outside, and each call that fails.

ghost use Rattle.std.specs.Prelude.{◌≡◌, None, IfOk};
ghost use Rattle.crash_images.specs.Cut.{IsAhead};
ghost use Rattle.partition_table.specs.Layout.{IsPlaced};

use crate::tests::{
    FACTORY, OTADATA, PENDING_VERIFY, SIZE, Start, VALID, blank, filled, layout_of, one, put_at,
    rejected,
};
use crate::*;
use crash_images::{CutNor, FlakyNor};
use nor_device::{Nor, RamNor};
use otadata::Entry;
use partition_table::{App, Layout};
use secure_fuse::{Fuses, RamFuse};
use std::alloc::{AllocError, Global};
use std::test::Fail;

/// The header, the head of the only segment and the mark of a description.
const FRONT: [u8; 36] = [
    0xE9, 0x01, 0x02, 0x20, 0x00, 0x04, 0x08, 0x40, 0xEE, 0x00, 0x00, 0x00, 0x00, 0x00, 0x00, 0x00,
    0x00, 0x00, 0x00, 0x00, 0x00, 0x00, 0x00, 0x00, 0x20, 0x00, 0x40, 0x3F, 0x50, 0x00, 0x00, 0x00,
    0x32, 0x54, 0xCD, 0xAB,
];

/// An image of 128 bytes, without a digest, whose description has this secure version.
fn versioned(secure: u8) -> [u8; 128] {
    let mut bytes = [0; 128];
    bytes[..36].copy_from_slice(&FRONT);
    bytes[36] = secure;
    bytes[127] = 0xEF ^ secure;
    bytes
}

/// A device over a flash with this first entry, factory of version 1 and the first slot of this one,
/// or with no whole image there. It is cut in this step.
fn device_of(
    alloc: Global,
    first: &Entry,
    version: Option<u8>,
    cut: Option<u64>,
) -> Result<CutNor<RamNor>, AllocError>
    requires ahead { IsAhead cut 0 }
    ensures idle { IfOk result (λ device. ⟦<CutNor<RamNor> as Nor>⟧.running device ≡ None) }
    ensures size { IfOk result (λ device. ⟦<CutNor<RamNor> as Nor>⟧.size device ≡ 0x100000) }
{
    let mut bytes = filled(alloc, 0xFF, SIZE)?;
    let mut text = [0; 32];
    first.put(&mut text);
    put_at(&mut bytes, OTADATA, &text, true);
    put_at(&mut bytes, FACTORY, &versioned(1), true);
    let image = versioned(version.unwrap_or(0));
    put_at(&mut bytes, FACTORY + 0x1_0000, &image, version.is_some());
    Ok(CutNor::new(RamNor::of_bytes(bytes, 2), cut, 0, None))
}

/// Fuses with these bits, one of whose calls fails.
fn failing_at(alloc: Global, bits: u32, call: u64) -> Result<RamFuse, AllocError> {
    Ok(RamFuse::new(bits, vec![in alloc; call]?))
}

/// A boot above a level.
fn booted<D: Nor>(device: &mut D, layout: &Layout, level: u32) -> Result<Start, BootFault>
    requires idle { D.running device.old ≡ None }
    requires placed { IsPlaced layout.now 0x100000 }
    requires size { D.size device.old ≡ 0x100000 }
    ensures idle { D.running device.new ≡ None }
    ensures size { D.size device.new ≡ 0x100000 }
{
    match boot_above(device, layout, level) {
        Ok(it) => Ok((it.app, it.info.length, it.steps)),
        Err(why) => Err(why),
    }
}

/// A confirmation under anti-rollback.
fn raised<D: Nor>(
    device: &mut D,
    fuse: &mut RamFuse,
    layout: &Layout,
) -> Result<Told, FuseConfirmNo>
    requires idle { D.running device.old ≡ None }
    requires placed { IsPlaced layout.now 0x100000 }
    requires size { D.size device.old ≡ 0x100000 }
    ensures idle { D.running device.new ≡ None }
    ensures size { D.size device.new ≡ 0x100000 }
{
    confirm_fuse(device, fuse, layout)
}

#[test]
fn a_boot_starts_nothing_that_is_older(rt: HostRuntime) -> Result<(), Fail> {
    let layout = layout_of(1).ok_or("a layout of one slot")?;
    for (level, want, why) in [
        (0, Ok((App::Factory, 128, 2)), "no level"),
        (1, Ok((App::Factory, 128, 2)), "factory is as old"),
        (2, Ok((App::Ota(0), 128, 2)), "factory is older"),
        (3, Err(BootFault::NoApp), "all are older"),
    ] {
        let mut device = device_of(rt.alloc(), &one(PENDING_VERIFY), Some(2), None)?;
        assert_eq!(rt; booted(&mut device, &layout, level), want, "{why}");
    }
    Ok(())
}

#[test]
fn a_confirmation_raises_the_level_or_says_why_not(rt: HostRuntime) -> Result<(), Fail> {
    let layout = layout_of(1).ok_or("a layout of one slot")?;
    let made = Ok(Told { slot: 0, steps: 2 });
    let high = Err(FuseConfirmNo::High { secure: 33 });
    let old = Err(FuseConfirmNo::Old {
        secure: 2,
        level: 3,
    });
    for (first, version, bits, failing, want, left, why) in [
        (one(PENDING_VERIFY), Some(2), 1, 2, made, 3, "from 1 to 2"),
        (
            one(VALID),
            Some(2),
            1,
            2,
            Ok(Told { slot: 0, steps: 0 }),
            3,
            "VALID",
        ),
        (one(PENDING_VERIFY), Some(2), 3, 1, made, 3, "high enough"),
        (
            blank(),
            Some(2),
            1,
            1,
            Err(FuseConfirmNo::NoOtaApp),
            1,
            "none is active",
        ),
        (
            one(VALID),
            None,
            1,
            1,
            Err(FuseConfirmNo::NotWhole { slot: 0 }),
            1,
            "not whole",
        ),
        (one(VALID), Some(33), 1, 1, high, 1, "above 32"),
        (one(PENDING_VERIFY), Some(2), 7, 1, old, 7, "older"),
        (
            one(PENDING_VERIFY),
            Some(2),
            1,
            1,
            Err(FuseConfirmNo::Fuse),
            1,
            "the first call",
        ),
        (
            one(PENDING_VERIFY),
            Some(3),
            1,
            2,
            Err(FuseConfirmNo::Fuse),
            3,
            "the second call",
        ),
    ] {
        let mut device = device_of(rt.alloc(), &first, version, None)?;
        let mut fuse = failing_at(rt.alloc(), bits, failing)?;
        assert_eq!(rt; raised(&mut device, &mut fuse, &layout), want, "{why}");
        assert_eq!(rt; fuse.bits(), left, "{why}: the bits");
        let written = matches!(want, Ok(_) | Err(FuseConfirmNo::Fuse)) && first.state != VALID;
        assert_eq!(rt; device.steps() == 2, written, "{why}: the steps");
    }
    Ok(())
}

#[test]
fn what_is_confirmed_boots_even_once_it_is_rejected(rt: HostRuntime) -> Result<(), Fail> {
    let layout = layout_of(1).ok_or("a layout of one slot")?;
    for failing in [1, 2] {
        let mut device = device_of(rt.alloc(), &one(PENDING_VERIFY), Some(2), None)?;
        let mut fuse = failing_at(rt.alloc(), 1, failing)?;
        let answer = raised(&mut device, &mut fuse, &layout);
        assert_eq!(rt; answer.is_ok(), failing == 2, "call {failing} fails");
        let again = raised(&mut device, &mut fuse, &layout);
        assert_eq!(rt; again, Ok(Told { slot: 0, steps: 0 }), "a second try");
        assert_eq!(rt; fuse.bits(), 3, "the bits");
        assert_eq!(rt;
            rejected(&mut device, &layout),
            Ok(Told { slot: 0, steps: 2 }),
            "the rejection"
        );
        assert_eq!(rt;
            booted(&mut device, &layout, 2),
            Ok((App::Ota(0), 128, 0)),
            "factory is older than the level"
        );
    }
    Ok(())
}

#[test]
fn a_cut_confirmation_burns_nothing(rt: HostRuntime) -> Result<(), Fail> {
    let layout = layout_of(1).ok_or("a layout of one slot")?;
    for cut in [1, 2] {
        let mut device = device_of(rt.alloc(), &one(PENDING_VERIFY), Some(2), Some(cut))?;
        let mut fuse = failing_at(rt.alloc(), 1, 1)?;
        let answer = raised(&mut device, &mut fuse, &layout);
        assert_eq!(rt; answer, Err(FuseConfirmNo::Cut), "step {cut}");
        assert_eq!(rt; fuse.bits(), 1, "the bits after step {cut}");
        let mut device = device.restart();
        let starts = booted(&mut device, &layout, 1).is_ok();
        assert!(rt; starts, "what boots after step {cut}");
    }
    Ok(())
}

#[test]
fn a_confirmation_in_which_a_call_of_the_device_fails_burns_nothing(
    rt: HostRuntime,
) -> Result<(), Fail> {
    let layout = layout_of(1).ok_or("a layout of one slot")?;
    for at in 1..1_000 {
        let inner = device_of(rt.alloc(), &one(PENDING_VERIFY), Some(2), None)?;
        let mut device = FlakyNor::new(inner, at);
        let mut fuse = failing_at(rt.alloc(), 1, 2)?;
        let answer = raised(&mut device, &mut fuse, &layout);
        if device.faults() == 0 {
            assert_eq!(rt; answer, Ok(Told { slot: 0, steps: 2 }), "no call fails");
            return Ok(());
        }
        assert_eq!(rt; answer, Err(FuseConfirmNo::Device), "call {at} fails");
        assert_eq!(rt; fuse.bits(), 1, "the bits where call {at} fails");
    }
    Err("each call failed".into())
}
