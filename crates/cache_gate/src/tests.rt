//! Rows of one core, and of two threads.

ghost use Rattle.std.specs.Prelude.{◌≡◌, ◌+◌, ◌*◌, ◌<◌, ◌≤◌, ◌^◌, None, IfOk, IfSome, length, List, Option, Some};
ghost use Rattle.nor_device.specs.FlashSize.{IsFlashSize};
ghost use Rattle.mmu_map.specs.Map.{IsFreeRun};
ghost use Rattle.bus_hub.specs.Room.{room_in, empty_journal};
ghost use Rattle.bus_hub.specs.Hub.{IsTold};
ghost use Rattle.cache_gate.specs.Own.{HasRoom, IsInside, IsFirst};
ghost use Rattle.cache_gate.specs.Rounds.{Spends, IsReadyFor};

use crate::{Core, Ended, Gates, open};
use bus_hub::{Act, AnyDuty, Bus, Entry, Journal, Room};
use core_state::Regs;
use crash_images::Crash;
use mmu_map::Pages;
use nor_device::{RamNor, Step, StepEnd};
use std::alloc::{AllocError, Global};
use std::sync::Wait;
use std::test::Fail;
use std::thread::{Threads, join};

const SIZE: usize = 1_048_576;

/// The first address of the data space.
const DATA: u32 = 0x3F40_0000;

/// As many bytes of one value.
fn filled(alloc: Global, byte: u8, size: usize) -> Result<Vec<u8>, AllocError>
    ensures length { IfOk result (λ bytes. length bytes.items ≡ size) }
{
    Ok(vec![in alloc; byte; size]?)
}

/// Gates over a device in memory whose first page is that of the data space, with the rooms of both cores.
fn gates(
    alloc: Global,
    rooms: [Room; 2],
) -> Option<
    (
        Gates<RamNor, AnyDuty>,
        Ended<RamNor, AnyDuty>,
        Ended<RamNor, AnyDuty>,
    ),
>
    requires entries { (room_in rooms 0).entries + (room_in rooms 1).entries < 2 ^ 32 }
    requires bytes { (room_in rooms 0).bytes + (room_in rooms 1).bytes < 2 ^ 32 }
    ensures left { IfSome result (λ r. IsReadyFor r.0 0 1 (room_in rooms 0).entries
        (room_in rooms 0).bytes 69632 r.1) }
    ensures right { IfSome result (λ r. IsReadyFor r.0 1 1 (room_in rooms 1).entries
        (room_in rooms 1).bytes 69632 r.2) }
{
    let Ok(bytes) = filled(alloc, 0, SIZE) else {
        return None;
    };
    let Ok(journal) = Journal::with_room(alloc, rooms) else {
        return None;
    };
    let mut pages = Pages::new();
    pages.fix(DATA, 0, 1);
    let bus = Bus::new(RamNor::of_bytes(bytes, 2), pages, journal, AnyDuty);
    open(alloc, bus).ok()
}

/// The second page's first sector is erased once.
fn erase_once<'w, R: Wait, D: Crash>(
    rt: &R,
    core: Core<'w, D, AnyDuty>,
    k: u32,
) -> (Core<'w, D, AnyDuty>, bool)
    requires room { HasRoom core.base core.core core.share 2 0 }
    requires inside { IsInside core.base 69632 }
    ensures { Spends 2 0 core.entry result.0 }
{
    let mut quiet = core.enter(rt);
    let made = quiet.step(rt, k, &Step::Erase { sector: 16 }).is_ok();
    let mut core = quiet.leave(rt);
    core.serve_gate(rt);
    (core, made)
}

/// It is erased so many times. Answers how often it was.
fn erase<R: Wait, D: Crash>(
    rt: &R,
    gates: &Gates<D, AnyDuty>,
    ended: Ended<D, AnyDuty>,
    times: u32,
) -> (Ended<D, AnyDuty>, u32)
    requires { IsReadyFor gates.now ended.core times 2 0 69632 ended }
    ensures table { result.0.table ≡ gates.now }
    ensures core { result.0.core ≡ ended.core }
    ensures base { result.0.base ≡ ended.base }
{
    let mut core = gates.core(ended).start(rt);
    let mut count: u32 = 0;
    for i in 0..times {
        let (next, made) = erase_once(rt, core, i);
        core = next;
        count = count.saturating_add(u32::from(made));
    }
    (core.rest(rt).ended(), count)
}

/// Four bytes are fetched once, and the core serves its gate.
fn fetch_once<R: Wait, D: Crash>(rt: &R, core: &mut Core<'_, D, AnyDuty>, k: u32) -> bool
    requires room { HasRoom core.old.base core.old.core core.old.share 1 4 }
    ensures { Spends 1 4 core.old core.new }
{
    let fetched = core.fetch(rt, k, DATA, 4).is_ok();
    core.serve_gate(rt);
    fetched
}

/// They are fetched so many times. Answers how often they were.
fn fetch<R: Wait, D: Crash>(
    rt: &R,
    gates: &Gates<D, AnyDuty>,
    ended: Ended<D, AnyDuty>,
    times: u32,
) -> (Ended<D, AnyDuty>, u32)
    requires { IsReadyFor gates.now ended.core times 1 4 0 ended }
    ensures table { result.0.table ≡ gates.now }
    ensures core { result.0.core ≡ ended.core }
    ensures base { result.0.base ≡ ended.base }
{
    let mut core = gates.core(ended).start(rt);
    let mut count: u32 = 0;
    for i in 0..times {
        let fetched = fetch_once(rt, &mut core, i);
        count = count.saturating_add(u32::from(fetched));
    }
    (core.rest(rt).ended(), count)
}

/// One core erases and one fetches, each so many times.
fn together<R: Threads + Wait + Sync>(
    rt: &R,
    gates: &Gates<RamNor, AnyDuty>,
    left: Ended<RamNor, AnyDuty>,
    right: Ended<RamNor, AnyDuty>,
    erases: u32,
    fetches: u32,
) -> ((Ended<RamNor, AnyDuty>, u32), (Ended<RamNor, AnyDuty>, u32))
    requires left { IsReadyFor gates.now 0 erases 2 0 69632 left }
    requires right { IsReadyFor gates.now 1 fetches 1 4 0 right }
    ensures left { (result.0.0.table ≡ gates.now) × (result.0.0.core ≡ 0) × (result.0.0.base ≡ left.base) }
    ensures right { (result.1.0.table ≡ gates.now) × (result.1.0.core ≡ 1) }
{
    join(
        rt,
        move || erase(rt, gates, left, erases),
        move || fetch(rt, gates, right, fetches),
    )
}

/// One core starts while the other rests, erases a sector and rests: the journal, and how often it erased.
fn alone<R: Wait>(rt: &R, alloc: Global) -> Option<(Journal, u32)> {
    let some = Room {
        entries: 2,
        bytes: 0,
    };
    let none = Room {
        entries: 0,
        bytes: 0,
    };
    let (gates, left, right) = gates(alloc, [some, none])?;
    let (left, made) = erase(rt, &gates, left, 1);
    let (_dev, journal, _duty) = gates.close(left, right).into_parts();
    Some((journal, made))
}

/// Two threads, one of which erases and the other fetches: the journal, and how often each did.
fn two_threads<R: Threads + Wait + Sync>(rt: &R, alloc: Global) -> Option<(Journal, u32, u32)> {
    let erases = Room {
        entries: 40,
        bytes: 0,
    };
    let fetches = Room {
        entries: 1000,
        bytes: 4000,
    };
    let (gates, left, right) = gates(alloc, [erases, fetches])?;
    let ((left, made), (right, fetched)) = together(rt, &gates, left, right, 20, 1000);
    let (_dev, journal, _duty) = gates.close(left, right).into_parts();
    Some((journal, made, fetched))
}

#[test]
fn one_core_erases_while_the_other_rests(rt: HostRuntime) -> Result<(), Fail> {
    let (journal, made) = alone(&rt, rt.alloc()).ok_or("opened")?;
    let regs = Regs { mask: 0, irq: 0 };
    let want = [
        Entry {
            core: 0,
            k: 0,
            regs,
            act: Act::Open {
                erase: true,
                at: 65536,
                len: 4096,
            },
        },
        Entry {
            core: 0,
            k: 0,
            regs,
            act: Act::Close { end: StepEnd::Done },
        },
    ];
    assert_eq!(rt; journal.entries(), want.as_slice(), "open and close");
    assert_eq!(rt; made, 1, "erased once");
    Ok(())
}

#[test]
fn one_thread_erases_and_one_fetches(rt: HostRuntime) -> Result<(), Fail> {
    let (journal, made, fetched) = two_threads(&rt, rt.alloc()).ok_or("opened")?;
    assert_eq!(rt; (made, fetched), (20, 1000), "each of them");
    assert_eq!(rt; journal.entries().len(), 1040, "entries");
    let mut open = false;
    for entry in journal.entries() {
        match entry.act {
            Act::Open { .. } => {
                assert!(rt; !open, "one step at a time");
                open = true;
            }
            Act::Close { .. } => {
                assert!(rt; open, "a step ends that was begun");
                open = false;
            }
            _ => assert!(rt; !open, "no fetch while a step runs"),
        }
    }
    assert!(rt; !open, "nothing open at the end");
    Ok(())
}
