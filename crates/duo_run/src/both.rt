//! A leg: both cores in two threads, from the device to the device.

ghost use Rattle.std.specs.Prelude.{◌≡◌, ◌+◌, ◌≤◌, ◌<◌, ◌^◌, None, IfOk, length};
ghost use Rattle.bus_hub.specs.declared.did.Base.{Base};
ghost use Rattle.bus_hub.specs.Room.{room_in};
ghost use Rattle.cache_gate.specs.Own.{IsFirst, OnBase};
ghost use Rattle.ota_session.specs.Course.{Grants, IsGood, part_after, part_of};
ghost use Rattle.power_cut.specs.Device.{running_in};
ghost use Rattle.duo_run.specs.Jobs.{CanDrive, HasDriven, purpose_of};
ghost use Rattle.duo_run.specs.Works.{CanWork, HasWorked};
ghost use Rattle.flash_ops.specs.Told.{fault_of};
ghost use Rattle.duo_run.specs.Pages.{probe_in};
ghost use Rattle.duo_run.specs.Parked.{IsParkedRun};
ghost use Rattle.duo_run.specs.Paced.{IsToldLeg, TellsActs, TellsOps, ops_for};
ghost use Rattle.duo_run.specs.Both.{CanRunBoth, HaveRun, IsClosed, IsDuoLeg, MayBegin, base_with, rooms_of, whole_by};

use crate::job::{Job, duty_for, room_for, run_driver};
use crate::pages::{application_pages, probe_in};
use crate::room::worker_room;
use crate::worker::run_worker;
use bus_hub::{Bus, Duty, Journal, Memory, Room};
use cache_gate::{Ended, Gates, RestCore, open};
use core_script::Script;
use crash_images::CutNor;
use flash_ops::{Pace, StepNo};
use image_verify::ImageInfo;
use mmu_map::Pages;
use nor_device::RamNor;
use ota_session::UpdateDuty;
use partition_table::{Layout, Table};
use power_cut::{LegEnd, Ran, leg_behind};
use std::alloc::Global;
use std::sync::Wait;
use std::thread::{Threads, join};

/// The rooms of core 0 and core 1.
fn rooms_of(driver: u8, mine: Room, theirs: Room) -> [Room; 2]
    ensures exact { result ≡ rooms_of driver mine theirs }
    ensures entries { (room_in result 0).entries + (room_in result 1).entries
        ≡ mine.entries + theirs.entries }
    ensures bytes { (room_in result 0).bytes + (room_in result 1).bytes
        ≡ mine.bytes + theirs.bytes }
{
    if driver == 0 {
        [mine, theirs]
    } else {
        [theirs, mine]
    }
}

/// The gates of a bus of these parts, and both cores at rest. All memory of a leg is taken here.
fn open_leg<'a>(
    alloc: Global,
    dev: CutNor<RamNor>,
    pages: Pages,
    rooms: [Room; 2],
    duty: UpdateDuty<'a>,
) -> Result<
    (
        Gates<CutNor<RamNor>, UpdateDuty<'a>>,
        Ended<CutNor<RamNor>, UpdateDuty<'a>>,
        Ended<CutNor<RamNor>, UpdateDuty<'a>>,
    ),
    Memory,
>
    requires idle { running_in dev ≡ None }
    requires good { IsGood dev.inner.bytes duty dev.inner.bytes }
    requires entries { (room_in rooms 0).entries + (room_in rooms 1).entries < 2 ^ 32 }
    requires bytes { (room_in rooms 0).bytes + (room_in rooms 1).bytes < 2 ^ 32 }
    ensures left { IfOk result (λ r. IsFirst r.0 0 (base_with dev pages rooms duty.entry) r.1) }
    ensures right { IfOk result (λ r. IsFirst r.0 1 (base_with dev pages rooms duty.entry) r.2) }
{
    let journal = Journal::with_room(alloc, rooms)?;
    let bus = Bus::new(dev, pages, journal, duty);
    match open(alloc, bus) {
        Ok(opened) => Ok(opened),
        Err(_) => Err(Memory),
    }
}

/// What a core beside the driver works on, and the pace of both.
#[derive(Clone, Copy)]
pub(crate) struct Beside<'a, P: Pace> {
    pub script: &'a Script,
    pub table: &'a Table,
    pub pace: &'a P,
}

/// The driver in one thread, and the other core in another one.
fn run_both<'w, 'a, R: Threads + Wait + Sync, P: Pace + Sync>(
    rt: &R,
    driver: RestCore<'w, CutNor<RamNor>, UpdateDuty<'a>>,
    worker: RestCore<'w, CutNor<RamNor>, UpdateDuty<'a>>,
    layout: &Layout,
    job: &Job<'_>,
    probe: Option<u32>,
    beside: &Beside<'_, P>,
) -> (
    (
        Ended<CutNor<RamNor>, UpdateDuty<'a>>,
        Result<LegEnd, StepNo>,
    ),
    (Ended<CutNor<RamNor>, UpdateDuty<'a>>, Result<(), StepNo>),
)
    requires drives { CanDrive layout.now (purpose_of job.now) probe driver }
    requires works { CanWork part_of Grants part_after beside.now.table.now
        beside.now.script.now worker }
    ensures driver { HasDriven layout.now (purpose_of job.now) probe result.0.1 driver.entry result.0.0 }
    ensures worker { HasWorked beside.now.table.now beside.now.script.now (fault_of result.1.1)
        worker.entry result.1.0 }
    ensures driver_told { TellsOps (P.told beside.now.pace.now)
        (ops_for layout.now (purpose_of job.now)) result.0.1 }
    ensures worker_told { TellsActs (P.told beside.now.pace.now) (length beside.now.script.now)
        result.1.1 }
{
    let Beside {
        script,
        table,
        pace,
    } = *beside;
    join(
        rt,
        move || run_driver(rt, driver, layout, job, probe, pace),
        move || run_worker(rt, worker, script, table, pace),
    )
}

/// Both cores, whichever of them drives.
fn run_cores<'a, R: Threads + Wait + Sync, P: Pace + Sync>(
    rt: &R,
    gates: &Gates<CutNor<RamNor>, UpdateDuty<'a>>,
    left: Ended<CutNor<RamNor>, UpdateDuty<'a>>,
    right: Ended<CutNor<RamNor>, UpdateDuty<'a>>,
    driver: u8,
    layout: &Layout,
    job: &Job<'_>,
    info: &ImageInfo,
    beside: &Beside<'_, P>,
) -> (
    (
        Ended<CutNor<RamNor>, UpdateDuty<'a>>,
        Ended<CutNor<RamNor>, UpdateDuty<'a>>,
    ),
    (Result<LegEnd, StepNo>, Result<(), StepNo>),
)
    requires left { left.table ≡ gates.now }
    requires right { right.table ≡ gates.now }
    requires can { CanRunBoth driver layout.now (purpose_of job.now) info.now.segments.items
        beside.now.table.now beside.now.script.now left right }
    ensures ran { HaveRun driver layout.now (purpose_of job.now) info.now.segments.items
        beside.now.table.now beside.now.script.now result.1.0 result.1.1 left.entry
        right.entry result.0.0 result.0.1 }
    ensures driver_told { TellsOps (P.told beside.now.pace.now)
        (ops_for layout.now (purpose_of job.now)) result.1.0 }
    ensures worker_told { TellsActs (P.told beside.now.pace.now) (length beside.now.script.now)
        result.1.1 }
{
    let probe = probe_in(info);
    let left = gates.core(left);
    let right = gates.core(right);
    if driver == 0 {
        let (drove, worked) = run_both(rt, left, right, layout, job, probe, beside);
        ((drove.0, worked.0), (drove.1, worked.1))
    } else {
        let (drove, worked) = run_both(rt, right, left, layout, job, probe, beside);
        ((worked.0, drove.0), (drove.1, worked.1))
    }
}

/// The device and the journal, once both cores are at rest.
fn end_leg<'a>(
    gates: Gates<CutNor<RamNor>, UpdateDuty<'a>>,
    left: Ended<CutNor<RamNor>, UpdateDuty<'a>>,
    right: Ended<CutNor<RamNor>, UpdateDuty<'a>>,
    before: u64,
    whole: LegEnd,
) -> Ran
    requires left { (left.table ≡ gates) × (left.core ≡ 0) }
    requires right { (right.table ≡ gates) × (right.core ≡ 1) }
    requires base { OnBase left.base (λ b. b.steps ≡ before) }
    ensures closed { IsClosed before whole left.entry right.entry result }
    ensures parked { IsParkedRun left.entry.share right.entry.share }
{
    let bus = gates.close(left, right);
    let (mut dev, journal, _duty) = bus.into_parts();
    let leg = leg_behind(&mut dev, before, whole);
    Ran { dev, journal, leg }
}

/// The end of a leg in which nothing broke off.
fn whole_by(driven: Result<LegEnd, StepNo>) -> LegEnd
    ensures exact { result ≡ whole_by driven }
{
    match driven {
        Ok(end) => end,
        Err(_) => LegEnd::Done,
    }
}

/// A leg: the driver does its job, and the other core works on the script meanwhile. The application
/// that runs begins at an offset of the flash.
pub(crate) fn leg<R: Threads + Wait + Sync, P: Pace + Sync>(
    rt: &R,
    alloc: Global,
    dev: CutNor<RamNor>,
    driver: u8,
    layout: &Layout,
    job: &Job<'_>,
    offset: u32,
    info: &ImageInfo,
    beside: &Beside<'_, P>,
) -> Result<Ran, Memory>
    requires core { driver < 2 }
    requires begins { MayBegin beside.now.table.now layout.now (purpose_of job.now) offset
        info.now.segments.items dev }
    ensures leg { IfOk result (IsDuoLeg beside.now.table.now beside.now.script.now driver layout.now
        (purpose_of job.now) offset info.now.segments.items dev) }
    ensures told { IfOk result (IsToldLeg (P.told beside.now.pace.now)
        (ops_for layout.now (purpose_of job.now)) (length beside.now.script.now)) }
{
    let before = dev.steps();
    let pages = application_pages(offset, info);
    let rooms = rooms_of(driver, room_for(job), worker_room(beside.script));
    let duty = duty_for(job, beside.table, driver);
    let (gates, left, right) = open_leg(alloc, dev, pages, rooms, duty)?;
    let (cores, ends) = run_cores(rt, &gates, left, right, driver, layout, job, info, beside);
    Ok(end_leg(gates, cores.0, cores.1, before, whole_by(ends.0)))
}
