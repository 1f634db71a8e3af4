//! Rows of a journal, over a device in memory and over one whose power goes off.

ghost use Rattle.std.specs.Prelude.{◌≡◌, ◌+◌, ◌*◌, ◌≤◌, ◌<◌, ◌^◌, None, IfOk, IsNone, length};
ghost use Rattle.nor_device.specs.FlashSize.{IsFlashSize};
ghost use Rattle.nor_device.specs.Flash.{end_of, IsInOnePage};
ghost use Rattle.core_state.specs.Registers.{starting};
ghost use Rattle.crash_images.specs.Cut.{IsAhead};
ghost use Rattle.bus_hub.specs.Room.{HasRoom, empty_journal};
ghost use Rattle.bus_hub.specs.Hub.{record_of};

use crate::*;
use core_state::Regs;
use crash_images::{Crash, CutNor};
use image_layout::Space;
use mmu_map::Pages;
use nor_device::{Nor, NorFault, Page, RamNor, Ready, Step, StepEnd};
use std::alloc::{AllocError, Global};
use std::test::Fail;

const SIZE: usize = 1_048_576;

/// As many bytes of one value.
fn filled(alloc: Global, byte: u8, size: usize) -> Result<Vec<u8>, AllocError>
    ensures length { IfOk result (λ bytes. length bytes.items ≡ size) }
{
    Ok(vec![in alloc; byte; size]?)
}

/// Makes a step of a core from its begin to its end.
fn make<D: Crash, K: Duty>(bus: &mut Bus<D, K>, c: u8, k: u32, step: &Step) -> Result<(), NorFault>
    requires core { c < 2 }
    requires idle { bus.old.running ≡ None }
    requires paged { IsInOnePage step.now }
    requires small { end_of step.now ≤ 2 ^ 32 }
    requires inside { end_of step.now ≤ D.size bus.old.dev }
    requires granted { K.grants (K.part bus.old.duty c) step.now }
    requires room { HasRoom bus.old.journal 2 0 }
    ensures idle { bus.new.running ≡ None }
{
    bus.start(c, k, step)?;
    loop {
        if bus.poll(c)? == Ready::Ready {
            return Ok(());
        }
    }
}

#[test]
fn a_step_leaves_its_begin_and_its_end(rt: HostRuntime) -> Result<(), Fail> {
    let alloc = rt.alloc();
    let dev = RamNor::of_bytes(filled(alloc, 0, SIZE)?, 2);
    let room = Room {
        entries: 1,
        bytes: 0,
    };
    let journal = Journal::with_room(alloc, [room, room])?;
    let mut bus = Bus::new(dev, Pages::new(), journal, AnyDuty);
    make(&mut bus, 1, 0, &Step::Erase { sector: 16 })?;
    let (_dev, journal, _duty) = bus.into_parts();
    let regs = Regs::MASKED;
    let want = [
        Entry {
            core: 1,
            k: 0,
            regs,
            act: Act::Open {
                erase: true,
                at: 65536,
                len: 4096,
            },
        },
        Entry {
            core: 1,
            k: 0,
            regs,
            act: Act::Close { end: StepEnd::Done },
        },
    ];
    assert_eq!(rt; journal.entries(), want.as_slice());
    Ok(())
}

/// A bus over a device that ends step 1 badly where a number says so, with room for each core.
fn bus_over(
    alloc: Global,
    cut: Option<u64>,
    room: Room,
) -> Result<Bus<CutNor<RamNor>, AnyDuty>, Fail>
    requires cut { IsAhead cut 0 }
    requires entries { room.entries + room.entries < 2 ^ 32 }
    requires bytes { room.bytes + room.bytes < 2 ^ 32 }
    ensures idle { IfOk result (λ bus. bus.running ≡ None) }
    ensures room { IfOk result (λ bus. bus.journal ≡ empty_journal room room) }
    ensures left { IfOk result (λ bus. bus.left ≡ starting) }
    ensures right { IfOk result (λ bus. bus.right ≡ starting) }
    ensures size { IfOk result (λ bus. ⟦<CutNor<RamNor> as Nor>⟧.size bus.dev ≡ 1048576) }
{
    let inner = RamNor::of_bytes(filled(alloc, 0xC3, SIZE)?, 0);
    let dev = CutNor::new(inner, cut, 0, None);
    let journal = Journal::with_room(alloc, [room, room])?;
    Ok(Bus::new(dev, Pages::new(), journal, AnyDuty))
}

#[test]
fn a_fetch_goes_by_map_and_mask(rt: HostRuntime) -> Result<(), Fail> {
    let room = Room {
        entries: 2,
        bytes: 8,
    };
    let mut bus = bus_over(rt.alloc(), None, room)?;
    bus.back(0);
    assert_eq!(rt;
        bus.fetch(0, 1, 0x3F40_0000, 4),
        Err(FetchNo::Unmapped),
        "nothing is mapped"
    );
    assert_eq!(rt; bus.map(0, 2, 1, Space::Data), Ok(0x3F40_0000), "a page");
    assert_eq!(rt; bus.fetch(0, 2, 0x3F40_0000, 4), Ok(()), "its first bytes");
    bus.set(0, 3, Regs { mask: 2, irq: 1 });
    assert_eq!(rt;
        bus.fetch(0, 4, 0x3F40_0000, 4),
        Err(FetchNo::Masked),
        "the data space is off"
    );
    let (_dev, journal, _duty) = bus.into_parts();
    assert_eq!(rt; journal.entries().len(), 2, "a fetch and a set");
    Ok(())
}

#[test]
fn a_cut_step_is_closed(rt: HostRuntime) -> Result<(), Fail> {
    let room = Room {
        entries: 1,
        bytes: 0,
    };
    let mut bus = bus_over(rt.alloc(), Some(1), room)?;
    assert_eq!(rt;
        make(&mut bus, 0, 0, &Step::Erase { sector: 0 }),
        Err(NorFault::Off),
        "the power goes off in the step"
    );
    let (_dev, journal, _duty) = bus.into_parts();
    let end = journal.entries().last().map(|e| e.act);
    assert_eq!(rt; end, Some(Act::Close { end: StepEnd::Cut }), "its end");
    Ok(())
}
