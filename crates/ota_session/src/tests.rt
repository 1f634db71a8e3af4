//! What no clause says: the steps of small updates, as literals.

ghost use Rattle.std.specs.Prelude.{◌≡◌, ◌+◌, ◌<◌, ◌≤◌, ◌^◌, All, IfOk, IsOk, length};
ghost use Rattle.nor_device.specs.Flash.{end_of};
ghost use Rattle.partition_table.specs.Layout.{layout_of};

use crate::UpdateDuty;
use arrayvec::ArrayVec;
use boot_run::Aim;
use bus_hub::Duty;
use image_verify::ImageInfo;
use nor_device::{Page, Step};
use otadata::{Entry, NextEntry};
use partition_table::{App, Row, Table, padded_label};
use rollback::Rewrite;
use std::test::Fail;

/// The image that esptool's rules give for the four bytes 01 02 03 04 at 0x3F400020: header, one
/// segment, checksum and SHA-256.
const IMAGE: [u8; 80] = [
    0xE9, 0x01, 0x02, 0x20, 0x00, 0x04, 0x08, 0x40, 0xEE, 0x00, 0x00, 0x00, 0x00, 0x00, 0x00, 0x00,
    0x00, 0x00, 0x00, 0x00, 0x00, 0x00, 0x00, 0x01, 0x20, 0x00, 0x40, 0x3F, 0x04, 0x00, 0x00, 0x00,
    0x01, 0x02, 0x03, 0x04, 0x00, 0x00, 0x00, 0x00, 0x00, 0x00, 0x00, 0x00, 0x00, 0x00, 0x00, 0xEB,
    0xAC, 0x8D, 0x70, 0x32, 0x6E, 0xE8, 0xA1, 0xD1, 0x93, 0x08, 0x6C, 0x8B, 0x06, 0xC5, 0xEB, 0x67,
    0x2E, 0xE9, 0x1A, 0x20, 0xC3, 0xE4, 0xB3, 0xD6, 0x2D, 0xBD, 0x7D, 0xAC, 0x93, 0xA8, 0xA6, 0xEB,
];

/// The 32 bytes of an entry that is new and names slot 0: its CRC is that of the sequence 1.
const NEW: [u8; 32] = [
    0x01, 0x00, 0x00, 0x00, 0xFF, 0xFF, 0xFF, 0xFF, 0xFF, 0xFF, 0xFF, 0xFF, 0xFF, 0xFF, 0xFF, 0xFF,
    0xFF, 0xFF, 0xFF, 0xFF, 0xFF, 0xFF, 0xFF, 0xFF, 0x00, 0x00, 0x00, 0x00, 0x9A, 0x98, 0x43, 0x47,
];

/// A row with a label of at most 16 bytes.
fn row(kind: u8, subtype: u8, offset: u32, size: u32, label: &[u8], flags: u32) -> Row {
    let label = if label.len() <= 16 {
        padded_label(label)
    } else {
        [0; 16]
    };
    Row {
        kind,
        subtype,
        offset,
        size,
        label,
        flags,
    }
}

/// Two update slots, and partitions that are flagged.
fn table() -> Result<Table, Fail>
    ensures laid { IfOk result (λ table. IsOk (layout_of table)) }
{
    let rows = [
        row(1, 2, 0x9000, 0x4000, b"nvs", 0),
        row(1, 0, 0xD000, 0x2000, b"otadata", 0),
        row(1, 1, 0xF000, 0x1000, b"phy_init", 0),
        row(1, 2, 0x10000, 0x1000, b"cfg", 2),
        row(1, 2, 0x11000, 0x1000, b"key", 1),
        row(0, 0x00, 0x20000, 0x100000, b"factory", 0),
        row(0, 0x10, 0x120000, 0x100000, b"ota_0", 0),
        row(0, 0x11, 0x220000, 0x100000, b"ota_1", 0),
    ];
    let Ok(table) = Table::of_rows(&rows, 0x400000) else {
        return Err(Fail::from("these rows are a table"));
    };
    if table.layout().is_err() {
        return Err(Fail::from("these rows have a layout"));
    }
    Ok(table)
}

/// An update of so many bytes beside the factory application.
fn aim(length: u32) -> Aim
    ensures long { result.length ≡ length }
{
    Aim {
        running: App::Factory,
        info: ImageInfo {
            length: 80,
            entry: 0x4008_0400,
            flagged: true,
            segments: ArrayVec::new(),
            desc: None,
        },
        slot: 0,
        next: NextEntry {
            sector: 0,
            entry: Entry::read(&NEW),
        },
        length,
    }
}

/// The erase of a sector.
fn erase(sector: u32) -> Step
    requires { sector < 2 ^ 20 }
    ensures { end_of result ≤ 2 ^ 32 }
{
    Step::Erase { sector }
}

/// The program of 1 to 256 bytes.
fn program(at: u32, bytes: &[u8]) -> Result<Step, Fail>
    requires { at + length bytes.now ≤ 2 ^ 32 }
    ensures { IfOk result (λ step. end_of step ≤ 2 ^ 32) }
{
    match Page::of(bytes) {
        Some(bytes) => Ok(Step::Program { at, bytes }),
        None => Err(Fail::from("a program has 1 to 256 bytes")),
    }
}

/// Makes a step, if the core may.
fn make(duty: &mut UpdateDuty<'_>, core: u8, step: &Step) -> bool
    requires core { core < 2 }
    requires small { end_of step.now ≤ 2 ^ 32 }
{
    let may = duty.allows(core, step);
    if may {
        duty.made(core, step);
    }
    may
}

/// Makes each of the steps, of which core 0 may make none but the next one; and behind them no more
/// of them.
fn walk(duty: &mut UpdateDuty<'_>, steps: &[Step]) -> Result<(), Fail>
    requires { All (λ step. end_of step ≤ 2 ^ 32) steps.now }
{
    for made in 0..steps.len() {
        for other in 0..steps.len() {
            if other != made && duty.allows(0, &steps[other]) {
                return Err(Fail::from("a step is allowed before its turn"));
            }
        }
        if !make(duty, 0, &steps[made]) {
            return Err(Fail::from("the next step is not allowed"));
        }
    }
    for step in steps {
        if duty.allows(0, step) {
            return Err(Fail::from("a step is allowed again"));
        }
    }
    Ok(())
}

#[test]
fn a_whole_image_is_written_and_then_announced() -> Result<(), Fail> {
    let table = table()?;
    let aim = aim(80);
    let mut duty = UpdateDuty::for_session(&aim, &table, &IMAGE, 0);
    let steps = [
        erase(0x120),
        program(0x120000, &IMAGE)?,
        erase(0xD),
        program(0xD000, &NEW)?,
    ];
    walk(&mut duty, &steps)
}

#[test]
fn an_image_with_a_fault_is_written_and_not_announced() -> Result<(), Fail> {
    let table = table()?;
    let aim = aim(4400);
    let mut image = [0xA5; 4400];
    image[0] = 0xE9;
    let mut duty = UpdateDuty::for_session(&aim, &table, &image, 0);
    let mut steps = [
        erase(0x120),
        erase(0x121),
        program(0x120000, &image[..256])?,
        program(0x120100, &image[256..512])?,
    ];
    for step in &steps {
        if !make(&mut duty, 0, step) {
            return Err(Fail::from("the next step is not allowed"));
        }
    }
    for page in 2..17 {
        let at = 256 * page;
        let step = program(0x120000 + at as u32, &image[at..at + 256])?;
        if !make(&mut duty, 0, &step) {
            return Err(Fail::from("the next page is not allowed"));
        }
    }
    steps[2] = program(0x121100, &image[4352..])?;
    if !make(&mut duty, 0, &steps[2]) || duty.allows(0, &erase(0xD)) {
        return Err(Fail::from("the last page is not the last step"));
    }
    Ok(())
}

#[test]
fn bytes_of_no_image_are_not_written() -> Result<(), Fail> {
    let table = table()?;
    let aim = aim(3);
    let mut duty = UpdateDuty::for_session(&aim, &table, &[0xE8, 1, 2], 1);
    if duty.allows(0, &erase(0x120)) || !make(&mut duty, 1, &erase(0x120)) {
        return Err(Fail::from("the driver alone erases the slot"));
    }
    if duty.allows(1, &program(0x120000, &[0xE8, 1, 2])?) || duty.allows(1, &erase(0xD)) {
        return Err(Fail::from("nothing follows the erases"));
    }
    Ok(())
}

#[test]
fn a_confirmation_rewrites_its_entry_alone() -> Result<(), Fail> {
    let table = table()?;
    let rewrite = Rewrite {
        sector: 1,
        entry: Entry::read(&NEW),
    };
    let mut duty = UpdateDuty::for_confirm(&rewrite, &table, 0);
    let steps = [erase(0xE), program(0xE000, &NEW)?];
    if duty.allows(0, &erase(0x120)) || duty.allows(0, &erase(0xD)) {
        return Err(Fail::from("another sector may be erased"));
    }
    walk(&mut duty, &steps)
}

#[test]
fn the_other_core_changes_its_own_partitions_alone(rt: HostRuntime) -> Result<(), Fail> {
    let table = table()?;
    let aim = aim(80);
    let duty = UpdateDuty::for_session(&aim, &table, &IMAGE, 0);
    for (sector, want) in [
        (8, false),
        (9, true),
        (0xC, true),
        (0xD, false),
        (0xE, false),
        (0xF, true),
        (0x10, false),
        (0x11, false),
        (0x12, false),
        (0x20, false),
        (0x120, false),
        (0x400, false),
        (0xF_FFFF, false),
    ] {
        if sector < 0x10_0000 {
            assert_eq!(rt; duty.allows(1, &erase(sector)), want, "sector {sector}");
        }
    }
    for (at, want) in [
        (0x8FFF, false),
        (0x9000, true),
        (0xCFFE, true),
        (0xCFFF, false),
        (0xEFFF, false),
        (0xF000, true),
        (0xFFFF, false),
        (0xFFFF_FFFE, false),
    ] {
        if at < 0xFFFF_FFFF {
            assert_eq!(rt;
                duty.allows(1, &program(at, &[1, 2])?),
                want,
                "two bytes at {at}"
            );
        }
    }
    Ok(())
}
