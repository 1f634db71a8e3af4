//! What no clause says: that the rows come out at a real size, and each generic call at a concrete device.

ghost use Rattle.std.specs.Prelude.{◌≡◌, ◌⊎◌, ◌+◌, ◌≤◌, ◌^◌, None, Some, IfSome, IfOk, IfErr, OnOk, length};
ghost use Rattle.nor_device.specs.declared.nor.StepEnd.{StepEnd};
ghost use Rattle.nor_device.specs.Flash.{len_of, end_of, applied, IsInOnePage};
ghost use Rattle.nor_device.specs.Nor.{one_more, HasCause, KeepsSetting};
ghost use Rattle.nor_device.specs.Make.{IsMissed};

use crate::*;
use std::alloc::{AllocError, Global};
use std::test::Fail;

const SIZE: usize = 1_048_576;

/// As many bytes of one value.
fn filled(alloc: Global, byte: u8, size: usize) -> Result<Vec<u8>, AllocError>
    ensures length { IfOk result (λ bytes. length bytes.items ≡ size) }
{
    Ok(vec![in alloc; byte; size]?)
}

/// The byte at an address.
fn byte_at<D: Nor>(device: &mut D, at: u32) -> Result<u8, NorFault>
    requires idle { D.running device.old ≡ None }
    requires inside { at + 1 ≤ D.size device.old }
    ensures idle { D.running device.new ≡ None }
    ensures size { D.size device.new ≡ D.size device.old }
{
    let mut byte = [0];
    device.read(at, &mut byte)?;
    Ok(byte[0])
}

/// Makes a step, and tells the byte at its first address.
fn byte_after<D: Nor>(device: &mut D, step: &Step) -> Result<u8, NorFault>
    requires idle { D.running device.old ≡ None }
    requires paged { IsInOnePage step.now }
    requires small { end_of step.now ≤ 2 ^ 32 }
    requires inside { end_of step.now ≤ D.size device.old }
    requires some { 1 ≤ len_of step.now }
    ensures idle { D.running device.new ≡ None }
    ensures size { D.size device.new ≡ D.size device.old }
{
    make_step(device, step)?;
    let (first, _) = step.range();
    byte_at(device, first)
}

/// Makes two steps in a row: both are whole and counted, or one of them was missed.
fn make_two<D: Nor>(device: &mut D, first: &Step, second: &Step) -> Result<(), NorFault>
    requires idle { D.running device.old ≡ None }
    requires first_paged { IsInOnePage first.now }
    requires first_small { end_of first.now ≤ 2 ^ 32 }
    requires first_inside { end_of first.now ≤ D.size device.old }
    requires second_paged { IsInOnePage second.now }
    requires second_small { end_of second.now ≤ 2 ^ 32 }
    requires second_inside { end_of second.now ≤ D.size device.old }
    ensures idle { D.running device.new ≡ None }
    ensures counted { OnOk result (D.steps device.new ≡ one_more (one_more (D.steps device.old))) }
    ensures made { OnOk result (IfSome (D.bytes device.old) (λ flash.
        D.bytes device.new ≡ Some (applied (applied flash first.now) second.now))) }
    ensures first_done { OnOk result
        (D.may_end (D.setting device.old) (one_more (D.steps device.old)) StepEnd.Done) }
    ensures second_done { OnOk result
        (D.may_end (D.setting device.old) (one_more (one_more (D.steps device.old))) StepEnd.Done) }
    ensures missed { IfErr result (λ why.
        IsMissed D.may_end D.may_tear D.may_refuse D.must_refuse
        (D.setting device.old) first.now (D.steps device.old) (D.steps device.new)
        (D.bytes device.old) (D.bytes device.new) why
        ⊎ IfSome (D.bytes device.old) (λ flash.
        IsMissed D.may_end D.may_tear D.may_refuse D.must_refuse
        (D.setting device.old) second.now (one_more (D.steps device.old)) (D.steps device.new)
        (Some (applied flash first.now)) (D.bytes device.new) why)) }
    ensures setting { KeepsSetting D.size D.setting device.old device.new }
    ensures cause { HasCause
        (D.faults device.old) (D.faults device.new) (D.off device.new) result }
{
    make_step(device, first)?;
    make_step(device, second)
}

#[test]
fn a_program_clears_bits_and_an_erase_sets_them(rt: HostRuntime) -> Result<(), Fail> {
    let mut device = RamNor::of_bytes(filled(rt.alloc(), 0x3C, SIZE)?, 2);
    let program = Step::Program {
        at: 0,
        bytes: Page::of(&[0x0F]).ok_or("one byte is a page")?,
    };
    assert_eq!(rt; byte_after(&mut device, &program), Ok(0x0C), "a program");
    let erase = Step::Erase { sector: 0 };
    assert_eq!(rt; byte_after(&mut device, &erase), Ok(0xFF), "an erase");
    assert_eq!(rt;
        make_two(&mut device, &program, &erase),
        Ok(()),
        "both in a row"
    );
    let bytes = device.into_bytes();
    assert_eq!(rt; bytes[4095], 0xFF, "the last byte of the sector");
    assert_eq!(rt; bytes[4096], 0x3C, "the first byte of the next sector");
    Ok(())
}

#[test]
fn a_block_erase_sets_65536_bytes(rt: HostRuntime) -> Result<(), Fail> {
    let mut device = RamNor::of_bytes(filled(rt.alloc(), 0x3C, SIZE)?, 0);
    assert_eq!(rt;
        byte_after(&mut device, &Step::Block { block: 1 }),
        Ok(0xFF),
        "the first byte"
    );
    let bytes = device.into_bytes();
    assert_eq!(rt; bytes[65_535], 0x3C, "the byte before the block");
    assert_eq!(rt; bytes[131_071], 0xFF, "the last byte of the block");
    assert_eq!(rt; bytes[131_072], 0x3C, "the byte after the block");
    Ok(())
}

#[test]
fn an_erase_marks_a_sector_and_the_first_program_fills_it(rt: HostRuntime) -> Result<(), Fail> {
    let mut device = RamNor::of_bytes(filled(rt.alloc(), 0, SIZE)?, 0);
    assert_eq!(rt; device.marked(), 0, "as it is made");
    assert_eq!(rt;
        byte_after(&mut device, &Step::Erase { sector: 0 }),
        Ok(0xFF),
        "an erase"
    );
    assert_eq!(rt; device.marked(), 1, "after the erase");
    let program = Step::Program {
        at: 5,
        bytes: Page::of(&[0x12]).ok_or("one byte is a page")?,
    };
    assert_eq!(rt; byte_after(&mut device, &program), Ok(0x12), "a program");
    assert_eq!(rt; device.marked(), 0, "after the program");
    assert_eq!(rt;
        byte_at(&mut device, 6),
        Ok(0xFF),
        "the byte after the program"
    );
    assert_eq!(rt; byte_at(&mut device, 4096), Ok(0), "the next sector");
    Ok(())
}

#[test]
fn a_block_erase_marks_sixteen_sectors(rt: HostRuntime) -> Result<(), Fail> {
    let mut device = RamNor::of_bytes(filled(rt.alloc(), 0, SIZE)?, 0);
    assert_eq!(rt;
        byte_after(&mut device, &Step::Block { block: 1 }),
        Ok(0xFF),
        "a block erase"
    );
    assert_eq!(rt; device.marked(), 16, "after the block erase");
    assert_eq!(rt;
        byte_after(&mut device, &Step::Erase { sector: 16 }),
        Ok(0xFF),
        "an erase"
    );
    assert_eq!(rt;
        device.marked(),
        16,
        "after the erase of one of its sectors"
    );
    let bytes = device.into_bytes();
    assert_eq!(rt; bytes[65_535], 0, "before the block");
    assert_eq!(rt; bytes[65_536], 0xFF, "the first byte of the block");
    assert_eq!(rt; bytes[131_071], 0xFF, "the last byte of the block");
    assert_eq!(rt; bytes[131_072], 0, "after the block");
    Ok(())
}

#[test]
fn a_read_meets_sectors_with_and_without_a_mark(rt: HostRuntime) -> Result<(), Fail> {
    let mut device = RamNor::of_bytes(filled(rt.alloc(), 0, SIZE)?, 0);
    assert_eq!(rt;
        byte_after(&mut device, &Step::Erase { sector: 1 }),
        Ok(0xFF),
        "an erase"
    );
    let mut across = [7; 4];
    device.read(4094, &mut across)?;
    assert_eq!(rt; across, [0, 0, 0xFF, 0xFF], "up to the marked sector");
    device.read(8190, &mut across)?;
    assert_eq!(rt; across, [0xFF, 0xFF, 0, 0], "from the marked sector on");
    Ok(())
}

#[test]
fn a_step_answers_busy_as_often_as_was_said(rt: HostRuntime) -> Result<(), Fail> {
    let mut device = RamNor::of_bytes(filled(rt.alloc(), 0, SIZE)?, 2);
    device.start(&Step::Erase { sector: 1 })?;
    assert_eq!(rt; device.poll(), Ok(Ready::Busy), "the first poll");
    assert_eq!(rt; device.poll(), Ok(Ready::Busy), "the second poll");
    assert_eq!(rt; device.poll(), Ok(Ready::Ready), "the third poll");
    Ok(())
}

#[test]
fn a_page_has_1_to_256_bytes_and_a_flash_a_size_of_the_list(rt: HostRuntime) {
    let bytes = [7; 257];
    for (len, page) in [(0, false), (1, true), (256, true), (257, false)] {
        assert_eq!(rt; Page::of(&bytes[..len]).is_some(), page, "a page of {len}");
    }
    for (size, flash) in [
        (0, false),
        (1_048_576, true),
        (3_145_728, false),
        (16_777_216, true),
        (33_554_432, true),
        (67_108_864, false),
    ] {
        assert_eq!(rt; is_flash_size(size), flash, "a flash of {size}");
    }
}
