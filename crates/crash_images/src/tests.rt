//! What no clause says: that the rows come out at a real size, and each generic call at a concrete device.

ghost use Rattle.std.specs.Prelude.{◌≡◌, ◌≤◌, ◌^◌, ◌∷◌, [], None, IfOk, OnOk, OnErr, length};
ghost use Rattle.nor_device.specs.Flash.{end_of, IsInOnePage};
ghost use Rattle.nor_device.specs.Nor.{KeepsSetting};
ghost use Rattle.crash_images.specs.Crash.{IsAfterAll, IsLeftOf};

use crate::*;
use nor_device::{Nor, NorFault, Page, RamNor, Step, make_step};
use std::alloc::{AllocError, Global};
use std::test::Fail;

const SIZE: usize = 1_048_576;

/// A tear number with the mask F0 in the bytes 2 to 5 of the range, and 0F in all others.
const WINDOW: u64 = 0x0006_0002_0FF0;

/// A tear number with the mask F0 from the last byte of the range's first sector to the first byte of its third, and 0F in all others.
const WIDE_WINDOW: u64 = 0x2001_0FFF_0FF0;

/// As many bytes of one value.
fn filled(alloc: Global, byte: u8, size: usize) -> Result<Vec<u8>, AllocError>
    ensures length { IfOk result (λ bytes. length bytes.items ≡ size) }
{
    Ok(vec![in alloc; byte; size]?)
}

/// Erases a sector and programs a page: both are made, or a loss of power left them at some moment.
#[tactic(auto, using(nor_device::proofs::Missed::missed_torn, crate::proofs::LeftOf::left_of_torn, crate::proofs::LeftOf::left_of_more, crate::proofs::LeftOf::after_more, crate::proofs::LeftOf::after_none))]
fn rewrite<D: Nor>(device: &mut D, erase: &Step, program: &Step) -> Result<(), NorFault>
    requires idle { D.running device.old ≡ None }
    requires erase_paged { IsInOnePage erase.now }
    requires erase_small { end_of erase.now ≤ 2 ^ 32 }
    requires erase_inside { end_of erase.now ≤ D.size device.old }
    requires program_paged { IsInOnePage program.now }
    requires program_small { end_of program.now ≤ 2 ^ 32 }
    requires program_inside { end_of program.now ≤ D.size device.old }
    ensures idle { D.running device.new ≡ None }
    ensures made { OnOk result
        (IsAfterAll (erase.now ∷ program.now ∷ []) (D.bytes device.old) (D.bytes device.new)) }
    ensures left { OnErr result
        (IsLeftOf (erase.now ∷ program.now ∷ []) (D.bytes device.old) (D.bytes device.new)) }
    ensures setting { KeepsSetting D.size D.setting device.old device.new }
{
    make_step(device, erase)?;
    make_step(device, program)
}

#[test]
fn a_torn_byte_is_that_of_its_tear_number(rt: HostRuntime) {
    for (old, new, erase, tear, want) in [
        (0x3C, 0x0F, false, 0, 0x0C),
        (0x3C, 0x0F, false, 0x1000, 0x1C),
        (0x3C, 0x0F, false, 0xFFFF, 0x3C),
        (0x5A, 0xFF, true, 0, 0x5A),
        (0x5A, 0xFF, true, 0xFFFF, 0xFF),
    ] {
        assert_eq!(rt;
            torn_byte(old, new, erase, tear, 0),
            want,
            "{old} {new} {erase} {tear}"
        );
    }
    for (i, want) in [(1, 0x0F), (2, 0xF0), (5, 0xF0), (6, 0x0F)] {
        assert_eq!(rt; torn_byte(0xFF, 0x00, false, WINDOW, i), want, "byte {i}");
    }
}

#[test]
fn a_cut_tears_its_step_and_a_restart_reads_it(rt: HostRuntime) -> Result<(), Fail> {
    let inner = RamNor::of_bytes(filled(rt.alloc(), 0, SIZE)?, 0);
    let mut device = CutNor::new(inner, Some(2), 0xFFFF, None);
    let erase = Step::Erase { sector: 0 };
    let bytes = Page::of(&[12]).ok_or("one byte is a page")?;
    let program = Step::Program { at: 0, bytes };
    assert_eq!(rt;
        rewrite(&mut device, &erase, &program),
        Err(NorFault::Off),
        "the second step"
    );
    let mut byte = [0];
    assert_eq!(rt;
        device.read(0, &mut byte),
        Err(NorFault::Off),
        "a read after it"
    );
    let mut device = device.restart();
    device.read(0, &mut byte)?;
    assert_eq!(rt; byte, [0xFF], "the byte that was to be programmed");
    assert_eq!(rt; device.steps(), 2, "the steps");
    power_loss_leaves(&device);
    device_goes_on(&device);
    Ok(())
}

#[test]
fn a_failure_is_counted_in_each_call(rt: HostRuntime) -> Result<(), Fail> {
    let inner = RamNor::of_bytes(filled(rt.alloc(), 0, SIZE)?, 0);
    let mut device = CutNor::new(inner, None, 0, Some(1));
    device.start(&Step::Erase { sector: 0 })?;
    assert_eq!(rt; device.poll(), Err(NorFault::Failed), "the first poll");
    assert_eq!(rt; device.faults(), 1, "after the poll");
    let mut byte = [7];
    assert_eq!(rt;
        device.read(0, &mut byte),
        Err(NorFault::Failed),
        "a read after it"
    );
    assert_eq!(rt; device.faults(), 2, "after the read");
    Ok(())
}

#[test]
fn a_torn_erase_has_the_masks_of_its_tear_number(rt: HostRuntime) -> Result<(), Fail> {
    let inner = RamNor::of_bytes(filled(rt.alloc(), 0, SIZE)?, 3);
    let mut device = CutNor::new(inner, Some(1), WINDOW, None);
    device.start(&Step::Erase { sector: 1 })?;
    assert_eq!(rt; device.poll(), Err(NorFault::Off), "the first poll");
    let bytes = device.restart().into_inner().into_bytes();
    for (at, want) in [
        (4095, 0),
        (4096, 0x0F),
        (4098, 0xF0),
        (4101, 0xF0),
        (8191, 0x0F),
        (8192, 0),
    ] {
        assert_eq!(rt; bytes.get(at), Some(&want), "at {at}");
    }
    Ok(())
}

#[test]
fn what_the_device_inside_refuses_is_handed_on(rt: HostRuntime) -> Result<(), Fail> {
    let inner = RamNor::of_bytes(filled(rt.alloc(), 0, SIZE)?, 0);
    let mut device = CutNor::new(CutNor::new(inner, Some(1), 0, None), None, 0, None);
    device.start(&Step::Erase { sector: 0 })?;
    assert_eq!(rt;
        device.poll(),
        Err(NorFault::Off),
        "the power goes off inside"
    );
    Ok(())
}

/// Which byte of block 1 is the first that is not 0 with the bits of its mask set.
fn first_wrong(bytes: &[u8], tear: u64) -> Option<usize> {
    let (window_start, window_end) = (tear / 65_536 % 65_536, tear / 4_294_967_296 % 65_536);
    for i in 0..65_536_usize {
        let in_window = window_start <= i as u64 && (i as u64) < window_end;
        let mask = if in_window {
            tear % 256
        } else {
            tear / 256 % 256
        };
        if bytes.get(65_536 + i) != Some(&(mask as u8)) {
            return Some(i);
        }
    }
    None
}

/// A flash of 00 whose block 1 is torn so; no bytes where its first poll is not refused.
fn torn_block(alloc: Global, tear: u64) -> Result<Vec<u8>, Fail> {
    let inner = RamNor::of_bytes(filled(alloc, 0, SIZE)?, 0);
    let mut device = CutNor::new(inner, Some(1), tear, None);
    device.start(&Step::Block { block: 1 })?;
    match device.poll() {
        Ok(_) => Ok(Vec::new(alloc)),
        Err(_) => Ok(device.restart().into_inner().into_bytes()),
    }
}

#[test]
fn a_torn_block_has_the_masks_of_its_tear_number(rt: HostRuntime) -> Result<(), Fail> {
    for tear in [0, 0xFFFF, 0x1000, WIDE_WINDOW] {
        let bytes = torn_block(rt.alloc(), tear)?;
        assert_eq!(rt; first_wrong(&bytes, tear), None, "the block, tear {tear}");
        for at in [65_535, 131_072] {
            assert_eq!(rt;
                bytes.get(at),
                Some(&0),
                "beside the block at {at}, tear {tear}"
            );
        }
    }
    Ok(())
}

#[test]
fn a_torn_byte_of_a_block_has_its_place_in_the_block(rt: HostRuntime) {
    for (i, want) in [
        (4094, 0x0F),
        (4095, 0xF0),
        (8192, 0xF0),
        (8193, 0x0F),
        (65_535, 0x0F),
    ] {
        assert_eq!(rt; torn_byte(0, 0xFF, true, WIDE_WINDOW, i), want, "byte {i}");
    }
}

/// A flash of 00 whose block 1 is torn, where the call of this number fails inside; no bytes where the first poll is not refused.
fn block_refused_inside(alloc: Global, call: u64) -> Result<Vec<u8>, Fail> {
    let inner = FlakyNor::new(RamNor::of_bytes(filled(alloc, 0, SIZE)?, 0), call);
    let mut device = CutNor::new(inner, Some(1), 0x0F0F, None);
    device.start(&Step::Block { block: 1 })?;
    match device.poll() {
        Err(NorFault::Failed) => Ok(device.into_inner().into_inner().into_bytes()),
        _ => Ok(Vec::new(alloc)),
    }
}

#[test]
fn what_is_refused_between_two_sectors_is_handed_on(rt: HostRuntime) -> Result<(), Fail> {
    // A read as the step begins, and 35 calls a sector: a read, an erase and 16 programs. Call 38 begins the second erase.
    let bytes = block_refused_inside(rt.alloc(), 38)?;
    for (at, want) in [(65_536, 0x0F), (69_631, 0x0F), (69_632, 0), (131_071, 0)] {
        assert_eq!(rt; bytes.get(at), Some(&want), "at {at}");
    }
    Ok(())
}

#[test]
fn one_chosen_call_fails_and_all_later_ones_work(rt: HostRuntime) -> Result<(), Fail> {
    // A read, a start, a poll that answers Busy and one that answers Ready.
    let failed = Err(NorFault::Failed);
    for (at, read, erased, faults, byte) in [
        (1, failed, Ok(()), 1, 0xFF),
        (2, Ok(()), failed, 1, 0),
        (3, Ok(()), failed, 1, 0xFF),
        (4, Ok(()), failed, 1, 0xFF),
        (5, Ok(()), Ok(()), 0, 0xFF),
    ] {
        let inner = RamNor::of_bytes(filled(rt.alloc(), 0, SIZE)?, 1);
        let mut device = FlakyNor::new(inner, at);
        let mut found = [7];
        assert_eq!(rt;
            device.read(0, &mut found),
            read,
            "the read, call {at} fails"
        );
        let step = Step::Erase { sector: 0 };
        assert_eq!(rt;
            make_step(&mut device, &step),
            erased,
            "the erase, call {at} fails"
        );
        assert_eq!(rt; device.faults(), faults, "the faults, call {at} fails");
        let bytes = device.into_inner().into_bytes();
        assert_eq!(rt; bytes.get(0), Some(&byte), "the byte, call {at} fails");
    }
    Ok(())
}

#[test]
fn after_a_loss_of_power_each_call_of_a_flaky_device_is_off(rt: HostRuntime) -> Result<(), Fail> {
    let ram = RamNor::of_bytes(filled(rt.alloc(), 0, SIZE)?, 0);
    let mut device = FlakyNor::new(CutNor::new(ram, Some(1), 0, None), 4);
    let erase = Step::Erase { sector: 0 };
    device.start(&erase)?;
    assert_eq!(rt; device.poll(), Err(NorFault::Off), "the poll");
    let mut byte = [7];
    assert_eq!(rt;
        device.read(0, &mut byte),
        Err(NorFault::Off),
        "the read after it"
    );
    assert_eq!(rt;
        device.start(&erase),
        Err(NorFault::Off),
        "the call that was to fail"
    );
    assert_eq!(rt;
        device.read(0, &mut byte),
        Err(NorFault::Off),
        "the read after that"
    );
    assert_eq!(rt; device.faults(), 0, "the faults");
    assert_eq!(rt; device.calls(), 5, "the calls");
    power_loss_leaves(&device);
    Ok(())
}
