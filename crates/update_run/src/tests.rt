//! Whole updates and sweeps of a flash of 4 MiB: their legs, what they leave, and why they may not
//! begin. Bytes stand as hex text.

ghost use Rattle.crash_images.specs.Cut.{IsAhead};
ghost use Rattle.update_run.specs.Options.{AreOptions};

use crate::*;
use boot_select::Unsettled;
use core_script::ScriptWhy;
use flash_ops::{NoPace, Pace, Point};
use image_verify::BadImage;
use partition_table::App;
use power_cut::{LegEnd, Sweep, SweepNo, Trial, Upto};
use std::alloc::{AllocError, Global};
use std::sync::Wait;
use std::sync::atomic::{AtomicBool, AtomicU64, Ordering};
use std::test::Fail;
use std::thread::Threads;

/// The rows of a table with factory and two slots of 1 MiB, and their digest by Python's
/// `hashlib.md5`.
const TABLE: &str = "AA50010200900000004000006E76730000000000000000000000000000000000\
    AA50010000D00000002000006F74616461746100000000000000000000000000\
    AA50010100F00000001000007068795F696E6974000000000000000000000000\
    AA5000000000010000001000666163746F727900000000000000000000000000\
    AA50001000001100000010006F74615F30000000000000000000000000000000\
    AA50001100002100000010006F74615F31000000000000000000000000000000\
    EBEBFFFFFFFFFFFFFFFFFFFFFFFFFFFFBF25822C0FA6D8641BD930251E06B4C4";

/// The same without the second slot.
const SINGLE: &str = "AA50010200900000004000006E76730000000000000000000000000000000000\
    AA50010000D00000002000006F74616461746100000000000000000000000000\
    AA50010100F00000001000007068795F696E6974000000000000000000000000\
    AA5000000000010000001000666163746F727900000000000000000000000000\
    AA50001000001100000010006F74615F30000000000000000000000000000000\
    EBEBFFFFFFFFFFFFFFFFFFFFFFFFFFFFAC950A2294E1AE635BA3678A758F8A18";

/// What stands behind its digest.
const BLANK: &str = "FFFFFFFFFFFFFFFFFFFFFFFFFFFFFFFFFFFFFFFFFFFFFFFFFFFFFFFFFFFFFFFF";

/// The images of four bytes of data, by the format and Python's `hashlib.sha256`: 01 02 03 04 and
/// 05 06 07 08.
const OLD: &str = "E901022000040840EE0000000000000000000000000000012000403F0400000001020304\
    0000000000000000000000EBAC8D70326EE8A1D193086C8B06C5EB672EE91A20C3E4B3D62DBD7DAC93A8A6EB";

const NEW: &str = "E901022000040840EE0000000000000000000000000000012000403F0400000005060708\
    0000000000000000000000E39319650085A37228E4DFA3416066A4B06FD9F7F70A5EB37A3893DAE5FE6F0911";

/// The first one with a byte more.
const LONG: &str = "E901022000040840EE0000000000000000000000000000012000403F0400000001020304\
    0000000000000000000000EBAC8D70326EE8A1D193086C8B06C5EB672EE91A20C3E4B3D62DBD7DAC93A8A6EB00";

/// The entries of sequence 1 that are new, that wait, that are confirmed and that are rejected; the CRC
/// is that of Python's `zlib.crc32`, inverted at the start.
const ENTRY_NEW: &str = "01000000FFFFFFFFFFFFFFFFFFFFFFFFFFFFFFFFFFFFFFFF000000009A984347";

const ENTRY_WAITS: &str = "01000000FFFFFFFFFFFFFFFFFFFFFFFFFFFFFFFFFFFFFFFF010000009A984347";

const ENTRY_VALID: &str = "01000000FFFFFFFFFFFFFFFFFFFFFFFFFFFFFFFFFFFFFFFF020000009A984347";

const ENTRY_INVALID: &str = "01000000FFFFFFFFFFFFFFFFFFFFFFFFFFFFFFFFFFFFFFFF030000009A984347";

/// That of sequence 2 which was given up, and of the last sequence but one.
const ENTRY_ABORTED: &str = "02000000FFFFFFFFFFFFFFFFFFFFFFFFFFFFFFFFFFFFFFFF040000007437F655";

const ENTRY_LAST: &str = "FEFFFFFFFFFFFFFFFFFFFFFFFFFFFFFFFFFFFFFFFFFFFFFF0200000079B8F899";

/// Where the table, the two entries, factory and the slots begin.
const TABLE_AT: usize = 0x8000;

const OTADATA: usize = 0xD000;

const SECOND: usize = 0xE000;

const FACTORY: usize = 0x1_0000;

const SLOT: usize = 0x11_0000;

const OTHER_SLOT: usize = 0x21_0000;

/// Bytes at places, as hex text.
type Changes<'a> = &'a [(usize, &'a str)];

/// The first flash, and those that it becomes.
const FIRST: [(usize, &str); 2] = [(TABLE_AT, TABLE), (FACTORY, OLD)];

const UPDATED: [(usize, &str); 2] = [(SLOT, NEW), (OTADATA, ENTRY_VALID)];

/// The bytes of a hex text.
fn bytes_in(alloc: Global, text: &str) -> Result<Vec<u8>, Fail> {
    match hex::decode(alloc, text) {
        Ok(bytes) => Ok(bytes),
        Err(_) => Err(Fail::new("a hex text")),
    }
}

/// Writes bytes at a place, as far as the flash has it.
fn write(flash: &mut [u8], at: usize, bytes: &[u8]) {
    if at <= flash.len() && bytes.len() <= flash.len() - at {
        flash[at..at + bytes.len()].copy_from_slice(bytes);
    }
}

/// Makes these changes.
fn change(alloc: Global, flash: &mut [u8], changes: Changes<'_>) -> Result<(), Fail> {
    for (at, text) in changes {
        let bytes = bytes_in(alloc, text)?;
        write(flash, *at, &bytes);
    }
    Ok(())
}

/// The first flash with these changes.
fn flash_with(alloc: Global, changes: Changes<'_>) -> Result<Vec<u8>, Fail> {
    let mut flash = vec![in alloc; 0xFFu8; 0x40_0000]?;
    change(alloc, &mut flash, &FIRST)?;
    change(alloc, &mut flash, changes)?;
    Ok(flash)
}

/// Which step breaks off: none, the one in which the power goes off, or the one in which the device
/// fails.
#[derive(Clone, Copy, Debug)]
enum Breaks {
    Never,
    Cut(u64),
    Fail(u64),
}

/// The number of a chosen step. The steps are numbered from 1.
fn chosen(step: u64) -> Option<u64>
    ensures ahead { IsAhead result 0 }
{
    if step == 0 { None } else { Some(step) }
}

/// The options of an update that core 0 drives.
fn options_of(breaks: Breaks, tear: u64, upto: Upto) -> Options
    ensures sound { AreOptions result }
{
    let (cut, fail) = match breaks {
        Breaks::Never => (None, None),
        Breaks::Cut(step) => (chosen(step), None),
        Breaks::Fail(step) => (None, chosen(step)),
    };
    Options {
        driver: 0,
        cut,
        tear,
        fail,
        upto,
    }
}

/// Makes an update.
fn made<P: Pace + Sync, R: Threads + Wait + Sync>(
    rt: &R,
    alloc: Global,
    flash: Vec<u8>,
    image: &[u8],
    text: &[u8],
    options: &Options,
    pace: &P,
) -> Result<Trial, Fail>
    requires options { AreOptions options.now }
{
    let opening = match open_update(alloc, flash, image, text) {
        Ok(opening) => opening,
        Err(_) => return Err(Fail::new("an update begins")),
    };
    match make_update(rt, alloc, opening, image, options, pace) {
        Ok(trial) => Ok(trial),
        Err(_) => Err(Fail::new("memory")),
    }
}

/// Whether the legs have so many steps, and the last one ends so.
fn has_legs(trial: &Trial, steps: &[u64], end: LegEnd) -> bool {
    let legs = trial.legs.as_slice();
    let mut is_so = legs.len() == steps.len();
    for (leg, wanted) in legs.iter().zip(steps) {
        is_so = is_so && leg.steps == *wanted;
    }
    match legs.last() {
        Some(leg) => is_so && leg.end == end,
        None => false,
    }
}

/// An update without a script: what it begins with, which step breaks off, its legs, what boots of
/// what it left, and what it changed.
#[derive(Clone, Copy)]
struct Row<'a> {
    flash: Changes<'a>,
    image: &'a str,
    breaks: Breaks,
    tear: u64,
    upto: Upto,
    steps: &'a [u64],
    end: LegEnd,
    boots: App,
    left: Changes<'a>,
}

/// The row of a whole update of the first flash.
fn whole<'a>() -> Row<'a> {
    Row {
        flash: &[],
        image: NEW,
        breaks: Breaks::Never,
        tear: 0,
        upto: Upto::Confirm,
        steps: &[4, 2, 2],
        end: LegEnd::Done,
        boots: App::Ota(0),
        left: &UPDATED,
    }
}

/// The row of one whose power goes off, or whose device fails, in a step of its session.
fn broken<'a>(breaks: Breaks, tear: u64, steps: &'a [u64], end: LegEnd) -> Row<'a> {
    Row {
        breaks,
        tear,
        steps,
        end,
        boots: App::Factory,
        left: &[(SLOT, NEW)],
        ..whole()
    }
}

/// The row of bytes that are no image.
fn refused<'a>(image: &'a str, steps: &'a [u64], end: LegEnd, left: Changes<'a>) -> Row<'a> {
    Row {
        image,
        steps,
        end,
        boots: App::Factory,
        left,
        ..whole()
    }
}

/// Whether an update is that of the row.
fn is_row<R: Threads + Wait + Sync>(rt: &R, alloc: Global, row: &Row<'_>) -> Result<bool, Fail> {
    let flash = flash_with(alloc, row.flash)?;
    let mut wanted = flash.clone()?;
    change(alloc, &mut wanted, row.left)?;
    let image = bytes_in(alloc, row.image)?;
    let options = options_of(row.breaks, row.tear, row.upto);
    let trial = made(rt, alloc, flash, &image, &[], &options, &NoPace)?;
    Ok(
        has_legs(&trial, row.steps, row.end)
            && trial.after.app == row.boots
            && trial.flash.as_slice() == wanted.as_slice(),
    )
}

#[test]
fn updates_end_as_wanted(rt: HostRuntime) -> Result<(), Fail> {
    let announced = Row {
        upto: Upto::Session,
        steps: &[4],
        left: &[(SLOT, NEW), (OTADATA, ENTRY_NEW)],
        ..whole()
    };
    let booted = Row {
        upto: Upto::Boot,
        steps: &[4, 2],
        boots: App::Factory,
        left: &[(SLOT, NEW), (OTADATA, ENTRY_WAITS)],
        ..whole()
    };
    let beyond = Row {
        breaks: Breaks::Cut(9),
        ..whole()
    };
    for (why, row) in [
        ("whole", whole()),
        ("announced", announced),
        ("booted", booted),
        ("a chosen step that it does not have", beyond),
    ] {
        assert!(rt; is_row(&rt, rt.alloc(), &row)?, "{why}");
    }
    Ok(())
}

#[test]
fn updates_end_in_their_broken_step(rt: HostRuntime) -> Result<(), Fail> {
    // Torn by the number, the entry is confirmed but for its state, or has that of a rejection.
    let erased = Row {
        flash: &[(OTADATA, ENTRY_VALID), (SLOT, NEW), (SECOND, ENTRY_ABORTED)],
        image: OLD,
        boots: App::Ota(1),
        left: &[(OTHER_SLOT, OLD), (SECOND + 24, "FFFFFFFF")],
        ..broken(
            Breaks::Cut(3),
            0x1C_0018_00FF,
            &[3],
            LegEnd::Cut { step: 3 },
        )
    };
    let rejected = Row {
        left: &[(SLOT, NEW), (OTADATA, ENTRY_INVALID)],
        ..broken(
            Breaks::Cut(8),
            0x19_0018_0001,
            &[4, 2, 2],
            LegEnd::Cut { step: 8 },
        )
    };
    let unmade = Row {
        left: &[],
        ..broken(Breaks::Fail(1), 0, &[1], LegEnd::Device { step: 1 })
    };
    let unmade_cut = Row {
        left: &[],
        ..broken(Breaks::Cut(1), 0, &[1], LegEnd::Cut { step: 1 })
    };
    let unannounced = broken(Breaks::Fail(4), 0xFFFF, &[4], LegEnd::Device { step: 4 });
    let announced = Row {
        boots: App::Ota(0),
        left: &[(SLOT, NEW), (OTADATA, ENTRY_NEW)],
        ..broken(Breaks::Fail(4), 0, &[4], LegEnd::Device { step: 4 })
    };
    for (why, row) in [
        ("an erase that is torn", erased),
        ("a confirmation that is torn", rejected),
        ("a device that fails in its first step", unmade),
        ("a power that goes off in the first step", unmade_cut),
        ("a program that leaves nothing", unannounced),
        ("a program that leaves all", announced),
    ] {
        assert!(rt; is_row(&rt, rt.alloc(), &row)?, "{why}");
    }
    Ok(())
}

#[test]
fn bytes_of_no_image_end_their_session(rt: HostRuntime) -> Result<(), Fail> {
    let zeros = "00000000000000000000000000000000";
    let first = LegEnd::FirstByte { byte: 0 };
    let long = LegEnd::Bad(BadImage::Trailing { have: 81, need: 80 });
    for (why, row) in [
        ("no byte", refused("", &[0], LegEnd::Empty, &[])),
        ("zeros", refused(zeros, &[1], first, &[])),
        (
            "a byte too many",
            refused(LONG, &[2], long, &[(SLOT, LONG)]),
        ),
    ] {
        assert!(rt; is_row(&rt, rt.alloc(), &row)?, "{why}");
    }
    Ok(())
}

/// Why an update may not begin, if it may not.
fn update_no(alloc: Global, flash: Vec<u8>, image: &[u8], text: &[u8]) -> Option<OpeningNo> {
    open_update(alloc, flash, image, text).err()
}

/// Why a sweep may not begin, if it may not.
fn sweep_no(alloc: Global, flash: Vec<u8>, image: &[u8], text: &[u8]) -> Option<OpeningNo> {
    open_sweep(alloc, flash, image, text).err()
}

#[test]
fn an_update_may_not_begin(rt: HostRuntime) -> Result<(), Fail> {
    let alloc = rt.alloc();
    let image = bytes_in(alloc, NEW)?;
    let waits = UpdateNo::NotSettled(Unsettled::Waiting { entry: 0, state: 1 });
    let spent = UpdateNo::SeqSpent { seq: 4_294_967_294 };
    for (why, changes, no) in [
        ("an entry waits", [(OTADATA, ENTRY_WAITS)], waits),
        ("the last sequence", [(OTADATA, ENTRY_LAST)], spent),
    ] {
        let mut flash = flash_with(alloc, &[(SLOT, NEW), (OTHER_SLOT, NEW)])?;
        change(alloc, &mut flash, &changes)?;
        let found = update_no(alloc, flash, &image, &[]);
        assert_eq!(rt; found, Some(OpeningNo::Refused(no)), "{why}");
    }
    let single = flash_with(
        alloc,
        &[(TABLE_AT, SINGLE), (0x80C0, BLANK), UPDATED[0], UPDATED[1]],
    )?;
    let found = update_no(alloc, single, &image, &[]);
    assert_eq!(rt;
        found,
        Some(OpeningNo::Refused(UpdateNo::Conflict { slot: 0 })),
        "the one slot runs"
    );
    Ok(())
}

#[test]
fn its_script_its_size_and_its_length_come_in_this_order(rt: HostRuntime) -> Result<(), Fail> {
    let alloc = rt.alloc();
    let image = bytes_in(alloc, NEW)?;
    let short = bytes_in(alloc, OLD)?;
    let no = UpdateNo::Script {
        line: 1,
        why: ScriptWhy::Word,
    };
    let found = update_no(alloc, short.clone()?, &image, b"wait\n");
    assert_eq!(rt; found, Some(OpeningNo::Refused(no)), "the script");
    let no = UpdateNo::FlashSize { size: 80 };
    let found = update_no(alloc, short, &image, &[]);
    assert_eq!(rt; found, Some(OpeningNo::Refused(no)), "the size");
    let flash = flash_with(alloc, &[])?;
    let no = UpdateNo::TooLarge {
        need: 4_194_304,
        limit: 1_048_576,
    };
    let found = sweep_no(alloc, flash.clone()?, &flash, &[]);
    assert_eq!(rt;
        found,
        Some(OpeningNo::Refused(no)),
        "the length, before a sweep's"
    );
    let beyond = vec![in alloc; 0u8; 262_145]?;
    let no = UpdateNo::SweepLimit {
        length: 262_145,
        limit: 262_144,
    };
    let found = sweep_no(alloc, flash, &beyond, &[]);
    assert_eq!(rt;
        found,
        Some(OpeningNo::Refused(no)),
        "the length of a sweep"
    );
    Ok(())
}

/// A sweep of the first flash by the new image.
fn swept<R: Threads + Wait + Sync>(
    rt: &R,
    alloc: Global,
    image: &[u8],
    text: &[u8],
    tear: u64,
) -> Result<Result<Sweep, SweepNo>, Fail> {
    let flash = flash_with(alloc, &[])?;
    match open_sweep(alloc, flash, image, text) {
        Ok(opening) => Ok(make_sweep(rt, alloc, &opening, image, tear, &NoPace)),
        Err(_) => Err(Fail::new("a sweep begins")),
    }
}

/// What boots behind each cut: `f` is factory, `o` slot 0, and `?` either.
fn boots_as(sweep: &Sweep, wanted: &str) -> bool {
    let mut is_so = sweep.after.len() == wanted.len() && sweep.steps == wanted.len() as u64;
    for (booted, letter) in sweep.after.iter().zip(wanted.as_bytes()) {
        let is_one = match booted.app {
            App::Factory => *letter != b'o',
            App::Ota(0) => *letter != b'f',
            _ => false,
        };
        is_so = is_so && is_one;
    }
    is_so
}

#[test]
fn an_update_is_cut_at_each_of_its_steps(rt: HostRuntime) -> Result<(), Fail> {
    let alloc = rt.alloc();
    let image = bytes_in(alloc, NEW)?;
    for (why, text, tear, wanted) in [
        ("an erase is undone", "", 0, "fffooffo"),
        ("a program is undone", "", 0xFFFF, "ffffffff"),
        ("a script without steps", "mask 1\n", 0, "fffooffo"),
        // What boots after the fourth and the ninth cut depends on whose step came first.
        ("a script writes", "write nvs 0x10 A5C3\n", 0, "fff?ooff?o"),
    ] {
        let is_so = match swept(&rt, alloc, &image, text.as_bytes(), tear)? {
            Ok(sweep) => boots_as(&sweep, wanted),
            Err(_) => false,
        };
        assert!(rt; is_so, "{why}");
    }
    Ok(())
}

#[test]
fn a_sweep_of_no_image_is_refused(rt: HostRuntime) -> Result<(), Fail> {
    let alloc = rt.alloc();
    let limit = vec![in alloc; 0u8; 262_144]?;
    let found = swept(&rt, alloc, &limit, &[], 0)?.err();
    let end = LegEnd::FirstByte { byte: 0 };
    assert_eq!(rt; found, Some(SweepNo::Refused(end)), "at the limit");
    let found = swept(&rt, alloc, &[], &[], 0)?.err();
    assert_eq!(rt; found, Some(SweepNo::Refused(LegEnd::Empty)), "no byte");
    Ok(())
}

/// An image of so many bytes, a multiple of 16, without a digest: one segment of a pattern with a
/// period of 251 in the data that a core may map.
fn patterned(alloc: Global, length: u32) -> Result<Vec<u8>, Fail> {
    let mut image = bytes_in(alloc, "E901022000040840EE000000000000000000000000000000")?;
    let mut sum = 0xEFu8;
    for part in [0x3F40_0020u32, length.wrapping_sub(36)] {
        for byte in part.to_le_bytes() {
            image.push(byte)?;
        }
    }
    for i in 0..length.wrapping_sub(36) {
        let byte = (i % 251) as u8;
        sum ^= byte;
        image.push(byte)?;
    }
    for byte in [0, 0, 0, sum] {
        image.push(byte)?;
    }
    Ok(image)
}

#[test]
fn a_large_image_is_updated_in_837_steps(rt: HostRuntime) -> Result<(), Fail> {
    let alloc = rt.alloc();
    let flash = flash_with(alloc, &[])?;
    let image = patterned(alloc, 200_000)?;
    let mut wanted = flash.clone()?;
    write(&mut wanted, SLOT, &image);
    change(alloc, &mut wanted, &[(OTADATA, ENTRY_VALID)])?;
    let steps = [833, 2, 2];
    let options = options_of(Breaks::Cut(838), 0, Upto::Confirm);
    let trial = made(&rt, alloc, flash.clone()?, &image, &[], &options, &NoPace)?;
    assert!(rt;
        has_legs(&trial, &steps, LegEnd::Done),
        "49 erases, 782 programs, the entry"
    );
    assert_eq!(rt; trial.flash.as_slice(), wanted.as_slice(), "the flash");
    let options = options_of(Breaks::Cut(837), 0xFFFF, Upto::Confirm);
    let trial = made(&rt, alloc, flash, &image, &[], &options, &NoPace)?;
    assert!(rt;
        has_legs(&trial, &steps, LegEnd::Cut { step: 837 }),
        "cut in its last step"
    );
    assert_eq!(rt; trial.after.app, App::Factory, "what boots then");
    Ok(())
}

#[test]
fn a_whole_slot_is_updated(rt: HostRuntime) -> Result<(), Fail> {
    let alloc = rt.alloc();
    let flash = flash_with(alloc, &[])?;
    let image = patterned(alloc, 0x10_0000)?;
    let options = options_of(Breaks::Never, 0, Upto::Confirm);
    let trial = made(&rt, alloc, flash, &image, &[], &options, &NoPace)?;
    assert!(rt;
        has_legs(&trial, &[4354, 2, 2], LegEnd::Done),
        "256 erases, 4096 programs"
    );
    Ok(())
}

/// A pace at which both cores meet before their first period and action.
#[derive(Drop)]
struct Meeting {
    driver: AtomicU64,
    worker: AtomicU64,
    missed: AtomicBool,
}

impl Pace for Meeting {
    ghost told = { λ pace point. Unit {0} };

    fn at(&self, point: Point) {
        match point {
            Point::DriverOp(1) => meet(&self.driver, &self.worker, &self.missed),
            Point::WorkerAct(1) => meet(&self.worker, &self.driver, &self.missed),
            _ => {}
        }
    }
}

/// Counts a core that has come, and waits for the other one for so many turns.
fn meet(own: &AtomicU64, other: &AtomicU64, missed: &AtomicBool) {
    let count = own.fetch_add(1, Ordering::SeqCst).wrapping_add(1);
    for _ in 0..1_000_000_000u64 {
        if other.load(Ordering::SeqCst) >= count {
            return;
        }
    }
    missed.store(true, Ordering::SeqCst);
}

#[test]
fn both_cores_meet_in_each_leg(rt: HostRuntime) -> Result<(), Fail> {
    let alloc = rt.alloc();
    let flash = flash_with(alloc, &[])?;
    let image = bytes_in(alloc, NEW)?;
    let meeting = Meeting {
        driver: AtomicU64::new(0),
        worker: AtomicU64::new(0),
        missed: AtomicBool::new(false),
    };
    let text = b"fetch 0x3F400020 4\nfetch 0x3F400020 4\n";
    let options = options_of(Breaks::Never, 0, Upto::Confirm);
    let _trial = made(&rt, alloc, flash, &image, text, &options, &meeting)?;
    assert_eq!(rt;
        meeting.driver.load(Ordering::SeqCst),
        2,
        "the driver came twice"
    );
    assert_eq!(rt;
        meeting.worker.load(Ordering::SeqCst),
        2,
        "the worker came twice"
    );
    assert!(rt;
        !meeting.missed.load(Ordering::SeqCst),
        "neither waited in vain"
    );
    Ok(())
}
