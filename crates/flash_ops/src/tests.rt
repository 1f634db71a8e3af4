//! What no clause says: the journal of a driver beside a resting core, and when its pace is called:
//! before the first step of a period is made, and behind the last one.

ghost use Rattle.std.specs.Prelude.{◌≡◌, ◌≤◌, ◌<◌, ◌^◌, IfOk, IfSome, Some, length};
ghost use Rattle.partition_table.specs.Rules.{FitsFlash};
ghost use Rattle.cache_gate.specs.Own.{HasRoom, IsInside};
ghost use Rattle.cache_gate.specs.Rounds.{IsReadyFor, Spends};
ghost use Rattle.flash_ops.specs.Asked.{CanLook};

use crate::{Beat, OpNo, Pace, Point, erase, part_erase, part_write, read, write};
use bus_hub::{Act, AnyPart, Bus, Duty, Entry, Journal, Room};
use cache_gate::{Core, Ended, Gates, open};
use core_state::Regs;
use crash_images::Crash;
use flash_steps::PartNo;
use mmu_map::Pages;
use nor_device::{RamNor, Step, StepEnd};
use partition_table::{Row, Table, padded_label};
use std::alloc::{AllocError, Global};
use std::cell::Cell;
use std::sync::Wait;
use std::test::Fail;

const SIZE: usize = 1_048_576;

/// The first address of the data space.
const DATA: u32 = 0x3F40_0000;

/// One digit more at the end of a number.
fn note(digits: &Cell<u64>, digit: u64) {
    digits.set(digits.get().saturating_mul(10).saturating_add(digit));
}

/// Keeps the points as the digits of a number: n before the n-th period, n + 5 behind it.
#[derive(Drop)]
struct Trace<'a> {
    digits: &'a Cell<u64>,
}

impl<'a> Pace for Trace<'a> {
    ghost told = { λ pace point. Unit {0} };

    fn at(&self, point: Point) {
        let digit = match point {
            Point::DriverOp(n) => u64::from(n),
            Point::DriverOpDone(n) => u64::from(n).saturating_add(5),
            Point::WorkerAct(_) => 0,
            Point::WorkerActDone(_) => 0,
        };
        note(self.digits, digit);
    }
}

/// A duty that allows every step, and notes each one that is made behind the points of the pace, as
/// the digit 9.
#[derive(Drop)]
struct Heard<'a> {
    digits: &'a Cell<u64>,
}

impl<'a> Duty for Heard<'a> {
    type Part = AnyPart;

    ghost use Rattle.std.specs.Prelude.{refl};

    ghost part = { λ duty c. record {} };

    ghost grants = { λ part step. Unit {0} };

    ghost moved = { λ part step. part };

    ghost after = { λ duty c step. duty };

    ghost good = { λ first duty flash. Unit {0} };

    fn allows(&self, _core: u8, _step: &Step) -> bool {
        true
    }

    fn made(&mut self, _core: u8, _step: &Step) {
        note(self.digits, 9);
    }

    ghost own = { λ duty c step. refl };

    ghost other = { λ duty c o step apart. refl };

    ghost torn_good = { λ first duty c step flash left is may torn. tt };

    ghost made_good = { λ first duty c step flash is may. tt };
}

/// As many bytes of one value.
fn filled(alloc: Global, byte: u8, size: usize) -> Result<Vec<u8>, AllocError>
    ensures length { IfOk result (λ bytes. length bytes.items ≡ size) }
{
    Ok(vec![in alloc; byte; size]?)
}

/// Gates over a device in memory of zeros, whose first page is that of the data space. Core 0 has room
/// for this; core 1 has none.
fn gates<'a>(
    alloc: Global,
    room: Room,
    digits: &'a Cell<u64>,
) -> Option<
    (
        Gates<RamNor, Heard<'a>>,
        Ended<RamNor, Heard<'a>>,
        Ended<RamNor, Heard<'a>>,
    ),
>
    ensures left { IfSome result
        (λ r. IsReadyFor r.0 0 1 room.entries room.bytes 1048576 r.1) }
    ensures look { IfSome result (λ r. CanLook r.1.base r.1.regs (Some 0x3F400000)) }
    ensures right { IfSome result (λ r. (r.2.table ≡ r.0) × (r.2.core ≡ 1)) }
{
    let none = Room {
        entries: 0,
        bytes: 0,
    };
    let Ok(bytes) = filled(alloc, 0, SIZE) else {
        return None;
    };
    let Ok(journal) = Journal::with_room(alloc, [room, none]) else {
        return None;
    };
    let mut pages = Pages::new();
    pages.fix(DATA, 0, 1);
    let bus = Bus::new(RamNor::of_bytes(bytes, 2), pages, journal, Heard { digits });
    match open(alloc, bus) {
        Ok(opened) => Some(opened),
        Err(_refused) => None,
    }
}

/// The sector from 0x10000 on is erased.
fn erase_one<'w, 'a, R: Wait, D: Crash, P: Pace>(
    rt: &R,
    core: Core<'w, D, Heard<'a>>,
    beat: &mut Beat<'_, P>,
) -> (Core<'w, D, Heard<'a>>, bool)
    requires room { HasRoom core.base core.core core.share 3 4 }
    requires inside { IsInside core.base 1048576 }
    requires look { CanLook core.base core.regs beat.old.probe }
    ensures spends { Spends 3 4 core.entry result.0 }
    ensures regs { result.0.regs ≡ core.entry.regs }
    ensures probe { beat.new.probe ≡ beat.old.probe }
{
    let (core, erased) = erase(rt, core, beat, 0, 0x10000, 4096);
    (core, erased.is_ok())
}

/// Three bytes are written across the end of a page.
fn write_three<'w, 'a, R: Wait, D: Crash, P: Pace>(
    rt: &R,
    core: Core<'w, D, Heard<'a>>,
    beat: &mut Beat<'_, P>,
) -> (Core<'w, D, Heard<'a>>, bool)
    requires room { HasRoom core.base core.core core.share 5 4 }
    requires inside { IsInside core.base 1048576 }
    requires look { CanLook core.base core.regs beat.old.probe }
    ensures spends { Spends 5 4 core.entry result.0 }
{
    let (core, written) = write(rt, core, beat, 0, 0x100FE, &[0x12, 0x34, 0x56]);
    (core, written.is_ok())
}

/// The sector is erased, the bytes are written, and four are read from the one before them on.
fn drive<'w, 'a, R: Wait, D: Crash, P: Pace>(
    rt: &R,
    core: Core<'w, D, Heard<'a>>,
    beat: &mut Beat<'_, P>,
    out: &mut [u8; 4],
) -> (Core<'w, D, Heard<'a>>, bool)
    requires room { HasRoom core.base core.core core.share 8 8 }
    requires inside { IsInside core.base 1048576 }
    requires look { CanLook core.base core.regs beat.old.probe }
    ensures table { result.0.table ≡ core.entry.table }
    ensures core { result.0.core ≡ core.entry.core }
    ensures base { result.0.base ≡ core.entry.base }
{
    let (core, erased) = erase_one(rt, core, beat);
    let (core, written) = write_three(rt, core, beat);
    let (core, asked) = read(rt, core, 0x100FD, out);
    (core, erased && written && asked.is_ok())
}

/// Core 0 drives while core 1 rests: the journal, and the points of the pace.
fn driven<R: Wait>(rt: &R, alloc: Global, out: &mut [u8; 4]) -> Option<(Journal, u64, u32)> {
    let room = Room {
        entries: 8,
        bytes: 8,
    };
    let digits = Cell::new(0);
    let (gates, left, right) = gates(alloc, room, &digits)?;
    let pace = Trace { digits: &digits };
    let mut beat = Beat {
        pace: &pace,
        probe: Some(DATA),
        ops: 0,
    };
    let (core, done) = drive(rt, gates.core(left).start(rt), &mut beat, out);
    let left = core.rest(rt).ended();
    let ops = beat.ops;
    let (_dev, journal, _duty) = gates.close(left, right).into_parts();
    if done {
        Some((journal, digits.get(), ops))
    } else {
        None
    }
}

/// Begin and end of a step of core 0 in its quiet period.
fn step_of(erase: bool, at: u32, len: u32) -> [Entry; 2] {
    let regs = Regs { mask: 0, irq: 0 };
    let open = Act::Open { erase, at, len };
    let close = Act::Close { end: StepEnd::Done };
    [
        Entry {
            core: 0,
            k: 0,
            regs,
            act: open,
        },
        Entry {
            core: 0,
            k: 0,
            regs,
            act: close,
        },
    ]
}

/// A look of core 0, whose bytes begin here.
fn look_at(start: u32) -> Entry {
    Entry {
        core: 0,
        k: 0,
        regs: Regs { mask: 3, irq: 1 },
        act: Act::Fetch {
            at: DATA,
            start,
            len: 4,
        },
    }
}

#[test]
fn a_driver_beside_a_resting_core(rt: HostRuntime) -> Result<(), Fail> {
    let mut out = [0; 4];
    let (journal, points, ops) = driven(&rt, rt.alloc(), &mut out).ok_or("driven")?;
    let entries = journal.entries();
    assert_eq!(rt; entries.len(), 8, "entries");
    assert_eq!(rt;
        &entries[0..2],
        step_of(true, 0x10000, 4096).as_slice(),
        "the erase"
    );
    assert_eq!(rt; entries[2], look_at(0), "a look");
    assert_eq!(rt;
        &entries[3..5],
        step_of(false, 0x100FE, 2).as_slice(),
        "up to the page's end"
    );
    assert_eq!(rt;
        &entries[5..7],
        step_of(false, 0x10100, 1).as_slice(),
        "and behind it"
    );
    assert_eq!(rt; entries[7], look_at(4), "a look");
    assert_eq!(rt; out, [0xFF, 0x12, 0x34, 0x56], "read back");
    assert_eq!(rt;
        (points, ops),
        (1962997, 2),
        "points and steps, and periods"
    );
    Ok(())
}

/// A row with a label of at most 16 bytes.
fn row(kind: u8, subtype: u8, offset: u32, size: u32, label: &[u8]) -> Row {
    let label = if label.len() <= 16 {
        padded_label(label)
    } else {
        [0; 16]
    };
    Row {
        kind,
        subtype,
        offset,
        size,
        label,
        flags: 0,
    }
}

/// An update slot, and data.
fn table() -> Result<Table, Fail>
    ensures fits { IfOk result (FitsFlash 1048576) }
{
    let rows = [
        row(1, 2, 0x9000, 0x4000, b"nvs"),
        row(1, 0, 0xD000, 0x2000, b"otadata"),
        row(0, 0x00, 0x10000, 0x10000, b"factory"),
        row(0, 0x10, 0x20000, 0x10000, b"ota_0"),
    ];
    match Table::of_rows(&rows, 1_048_576) {
        Ok(table) => Ok(table),
        Err(_) => Err(Fail::from("these rows are a table")),
    }
}

/// A sector of a partition is erased.
fn erase_in<'w, 'a, R: Wait, D: Crash>(
    rt: &R,
    core: Core<'w, D, Heard<'a>>,
    table: &Table,
    label: &[u8],
) -> (Core<'w, D, Heard<'a>>, Result<(), OpNo>)
    requires room { HasRoom core.base core.core core.share 2 0 }
    requires inside { IsInside core.base 1048576 }
    requires fits { FitsFlash 1048576 table.now }
    ensures { Spends 2 0 core.entry result.0 }
{
    part_erase(rt, core, 7, table, label, 0x1000, 0x1000)
}

/// Two bytes are written where it begins.
fn write_in<'w, 'a, R: Wait, D: Crash>(
    rt: &R,
    core: Core<'w, D, Heard<'a>>,
    table: &Table,
    label: &[u8],
) -> (Core<'w, D, Heard<'a>>, Result<(), OpNo>)
    requires room { HasRoom core.base core.core core.share 4 0 }
    requires inside { IsInside core.base 1048576 }
    requires fits { FitsFlash 1048576 table.now }
    ensures { Spends 4 0 core.entry result.0 }
{
    part_write(rt, core, 8, table, label, 0x1000, &[0x12, 0x34])
}

/// Core 0 changes two partitions: the journal, and its answers.
fn changed<R: Wait>(
    rt: &R,
    alloc: Global,
    table: &Table,
) -> Option<(Journal, [Result<(), OpNo>; 4])>
    requires fits { FitsFlash 1048576 table.now }
{
    let room = Room {
        entries: 12,
        bytes: 0,
    };
    let digits = Cell::new(0);
    let (gates, left, right) = gates(alloc, room, &digits)?;
    let core = gates.core(left).start(rt);
    let (core, erased) = erase_in(rt, core, table, b"nvs");
    let (core, written) = write_in(rt, core, table, b"nvs");
    let (core, not_erased) = erase_in(rt, core, table, b"ota_0");
    let (core, not_written) = write_in(rt, core, table, b"data");
    let left = core.rest(rt).ended();
    let (_dev, journal, _duty) = gates.close(left, right).into_parts();
    Some((journal, [erased, written, not_erased, not_written]))
}

#[test]
fn partitions_are_changed_or_refused(rt: HostRuntime) -> Result<(), Fail> {
    let table = table()?;
    let (journal, answers) = changed(&rt, rt.alloc(), &table).ok_or("changed")?;
    let want = [
        Ok(()),
        Ok(()),
        Err(OpNo::Barred(PartNo::Dangerous)),
        Err(OpNo::Barred(PartNo::NoLabel)),
    ];
    assert_eq!(rt; answers, want, "answers");
    assert_eq!(rt; journal.entries().len(), 4, "begin and end of two steps");
    Ok(())
}
