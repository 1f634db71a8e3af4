//! Scripts on core 1 beside core 0 at rest.

ghost use Rattle.std.specs.Prelude.{◌≡◌, ◌≤◌, ◌<◌, ◌^◌, IfOk, IfSome, length};
ghost use Rattle.duo_run.specs.Fresh.{IsFreshIn};

use crate::room::worker_room;
use crate::worker::run_worker;
use bus_hub::{Act, AnyDuty, Bus, Entry, Journal, Room, Why};
use cache_gate::{Ended, Gates, open};
use core_script::Script;
use core_state::Regs;
use flash_ops::{Pace, Point};
use mmu_map::Pages;
use nor_device::{RamNor, StepEnd};
use partition_table::{Row, Table};
use std::alloc::{AllocError, Global};
use std::cell::Cell;
use std::sync::Wait;
use std::test::Fail;

const SIZE: usize = 1_048_576;

/// The first address of the data space.
const DATA: u32 = 0x3F40_0000;

/// Counts the calls that come in order: before and behind the first action, and so on.
#[derive(Drop)]
struct Counts {
    calls: Cell<u32>,
}

impl Pace for Counts {
    ghost told = { λ pace point. Unit {0} };

    fn at(&self, point: Point) {
        let next = match point {
            Point::WorkerAct(k) => k.wrapping_mul(2).wrapping_sub(1),
            Point::WorkerActDone(k) => k.wrapping_mul(2),
            _ => 0,
        };
        if next == self.calls.get().wrapping_add(1) {
            self.calls.set(next);
        }
    }
}

/// An erased flash of so many bytes.
fn erased(alloc: Global, size: usize) -> Result<Vec<u8>, AllocError>
    ensures length { IfOk result (λ bytes. length bytes.items ≡ size) }
{
    Ok(vec![in alloc; 0xFF; size]?)
}

/// Gates over that flash, whose second page is the first one of the data space, with room for
/// core 1.
fn gates(
    alloc: Global,
    room: Room,
) -> Option<
    (
        Gates<RamNor, AnyDuty>,
        Ended<RamNor, AnyDuty>,
        Ended<RamNor, AnyDuty>,
    ),
>
    requires entries { room.entries < 2 ^ 32 }
    requires bytes { room.bytes < 2 ^ 32 }
    ensures left { IfSome result (λ r. (r.1.table ≡ r.0) × (r.1.core ≡ 0)) }
    ensures right { IfSome result (λ r. IsFreshIn r.0 1 room 1048576 r.2) }
{
    let Ok(bytes) = erased(alloc, SIZE) else {
        return None;
    };
    let none = Room {
        entries: 0,
        bytes: 0,
    };
    let Ok(journal) = Journal::with_room(alloc, [none, room]) else {
        return None;
    };
    let mut pages = Pages::new();
    pages.fix(DATA, 1, 1);
    let bus = Bus::new(RamNor::of_bytes(bytes, 2), pages, journal, AnyDuty);
    open(alloc, bus).ok()
}

/// The journal that a script leaves, whether the device let it come to its end, and how many calls
/// of the pace came in order.
fn lone<R: Wait>(rt: &R, alloc: Global, text: &[u8], rows: &[Row]) -> Option<(Journal, bool, u32)>
    requires few { length rows.now ≤ 94 }
{
    let Ok(script) = Script::read(alloc, text) else {
        return None;
    };
    let Ok(table) = Table::of_rows(rows, 1_048_576) else {
        return None;
    };
    let (gates, left, right) = gates(alloc, worker_room(&script))?;
    let counts = Counts {
        calls: Cell::new(0),
    };
    let (right, end) = run_worker(rt, gates.core(right), &script, &table, &counts);
    let (_dev, journal, _duty) = gates.close(left, right).into_parts();
    Some((journal, end.is_ok(), counts.calls.get()))
}

/// An entry of core 1, with the interrupt line at reset unless it is masked.
fn shown(k: u32, mask: u8, act: Act) -> Entry {
    let irq = u32::from(mask != 0);
    Entry {
        core: 1,
        k,
        regs: Regs { mask, irq },
        act,
    }
}

/// A data partition of 0x4000 bytes at 0x9000, named `nvs`, and the OTA data behind it.
const ROWS: [Row; 2] = [
    Row {
        kind: 1,
        subtype: 2,
        offset: 0x9000,
        size: 0x4000,
        label: *b"nvs\0\0\0\0\0\0\0\0\0\0\0\0\0",
        flags: 0,
    },
    Row {
        kind: 1,
        subtype: 0,
        offset: 0xD000,
        size: 0x2000,
        label: *b"otadata\0\0\0\0\0\0\0\0\0",
        flags: 0,
    },
];

#[test]
fn a_script_of_fetches_leaves_its_entries(rt: HostRuntime) -> Result<(), Fail> {
    let text = b"fetch 0x3F400020 4\nmask 1\nfetch 0x3F400020 4\nmap code 1 1\n\
        fetch 0x400D0020 4\nmask 3\nfetch 0x400D0020 4\nfetch 0x3F410000 1\n";
    let (journal, whole, calls) = lone(&rt, rt.alloc(), text, &[]).ok_or("memory")?;
    let want = [
        shown(
            1,
            3,
            Act::Fetch {
                at: 0x3F40_0020,
                start: 0,
                len: 4,
            },
        ),
        shown(2, 1, Act::Set),
        shown(
            3,
            1,
            Act::Fetch {
                at: 0x3F40_0020,
                start: 4,
                len: 4,
            },
        ),
        shown(4, 1, Act::Mapped { at: 0x400D_0000 }),
        shown(5, 1, Act::Refused { why: Why::Masked }),
        shown(6, 3, Act::Set),
        shown(
            7,
            3,
            Act::Fetch {
                at: 0x400D_0020,
                start: 8,
                len: 4,
            },
        ),
        shown(8, 3, Act::Refused { why: Why::Unmapped }),
    ];
    assert_eq!(rt; journal.entries(), want.as_slice(), "entries");
    assert!(rt; whole, "to its end");
    assert_eq!(rt; calls, 16, "calls of the pace");
    Ok(())
}

#[test]
fn a_script_of_writes_leaves_its_entries(rt: HostRuntime) -> Result<(), Fail> {
    let text = b"write nvs 0x10 AB\nerase nvs 0x1000 0x1000\nerase nvs 1 0x1000\n\
        write none 0 00\nwrite otadata 0 00\nunmap 0x3F400000\n";
    let (journal, whole, _calls) = lone(&rt, rt.alloc(), text, &ROWS).ok_or("memory")?;
    let done = Act::Close { end: StepEnd::Done };
    let want = [
        shown(
            1,
            0,
            Act::Open {
                erase: false,
                at: 0x9010,
                len: 1,
            },
        ),
        shown(1, 0, done),
        shown(1, 3, Act::Wrote),
        shown(
            2,
            0,
            Act::Open {
                erase: true,
                at: 0xA000,
                len: 4096,
            },
        ),
        shown(2, 0, done),
        shown(2, 3, Act::Wrote),
        shown(
            3,
            3,
            Act::Refused {
                why: Why::Unaligned,
            },
        ),
        shown(4, 3, Act::Refused { why: Why::NoLabel }),
        shown(
            5,
            3,
            Act::Refused {
                why: Why::Dangerous,
            },
        ),
        shown(
            6,
            3,
            Act::Refused {
                why: Why::NotMapped,
            },
        ),
    ];
    assert_eq!(rt; journal.entries(), want.as_slice(), "entries");
    assert!(rt; whole, "to its end");
    Ok(())
}
