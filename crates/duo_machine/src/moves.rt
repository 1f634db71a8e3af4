//! The table of events, one event at a time and over a list, and the theorem on every list.
ghost use Rattle.std.specs.Prelude.{◌≡◌, ◌↔◌, ◌<◌, List, IsTrue, IfSome, OnSome, SomeIff};
ghost use Rattle.std.specs.Int.{IsBitSet};
ghost use Rattle.duo_machine.specs.Table.{CanHappen, after, bit_of};
ghost use Rattle.duo_machine.specs.Runs.{AreOfTwoCores, CanRun, after_all, IsSafeRun};
ghost use Rattle.duo_machine.specs.Safe.{Safe};
ghost use Rattle.duo_machine.specs.WaysOut.{EachMachineHasAWayHome, EachWayLeadsHome, EachWaitEnds};
ghost use Rattle.duo_machine.specs.declared.machine.Machine.{Machine};
ghost use Rattle.duo_machine.specs.declared.events.Event.{Event};

use crate::{Event, Gate, Kind, Machine, Phase};
use core_state::{restore, save_and_mask};
use image_layout::Space;

/// The machine after an event, or `None` where the event's guard does not hold.
pub fn step(m: &Machine, e: &Event) -> Option<Machine>
    requires { e.now.core < 2 }
    ensures exact { SomeIff result (CanHappen m.now e.now) (after m.now e.now) }
    ensures safe { Safe m.now → IfSome result Safe }
{
    if allows(m, e) {
        Some(changed(m, e))
    } else {
        None
    }
}

/// The machine after all events, or `None` where some event's guard does not hold when its turn
/// comes.
pub fn run(m: &Machine, events: &[Event]) -> Option<Machine>
    requires { AreOfTwoCores events.now }
    ensures exact { SomeIff result (CanRun m.now events.now) (after_all m.now events.now) }
    ensures safe { Safe m.now → OnSome result (IsSafeRun m.now events.now) }
{
    let mut reached = *m;
    for e in events {
        reached = step(&reached, e)?;
    }
    Some(reached)
}

/// Whatever two cores do, in whatever order, a run that begins safe stays safe: no fetch meets a
/// step, a step runs with both cores masked, and each core keeps its own registers.
pub fn every_run_is_safe()
    ensures { (m : Machine) (events : List Event) →
        Safe m → AreOfTwoCores events → CanRun m events → IsSafeRun m events }
{}

/// No safe machine is stuck: by at most eight events, none of which begins anything new, both cores
/// come to run with nothing saved, each with its own registers in force, and the lock is free.
pub fn every_machine_has_a_way_home()
    ensures { EachMachineHasAWayHome }
{}

/// No order leads astray: of events that wind up, in whatever order both cores make them, at most
/// eight can come, and where none is left both cores are home.
pub fn every_way_leads_home()
    ensures { EachWayLeadsHome }
{}

/// Each wait of a core ends by at most two events of the other core alone, but where the core is
/// asked to park: there it has to park first.
pub fn every_wait_ends()
    ensures { EachWaitEnds }
{}

/// Whether the guard of the event holds.
fn allows(m: &Machine, e: &Event) -> bool
    requires { e.now.core < 2 }
    ensures { IsTrue result ↔ CanHappen m.now e.now }
{
    let c = e.core as usize;
    let (phase, gate, other_gate) = (m.phases[c], m.gates[c], m.gates[1 - c]);
    let is_saved = m.records[c].saved.is_some();
    let is_awake = phase == Phase::Running || phase == Phase::Owning;
    let has_step = m.running == Some(e.core);
    match e.kind {
        Kind::Start => phase == Phase::Resting && gate == Gate::Rest,
        Kind::Rest => phase == Phase::Running && is_saved && gate == Gate::Run,
        Kind::Take => phase == Phase::Running && m.lock == 0,
        Kind::Give => phase == Phase::Owning && !is_saved && m.lock == e.core + 1,
        Kind::Save => is_awake && !is_saved,
        Kind::Back => is_awake && is_saved,
        Kind::Ask => phase == Phase::Owning && is_saved && other_gate == Gate::Run,
        Kind::Hold => phase == Phase::Owning && is_saved && other_gate == Gate::Rest,
        Kind::See => phase == Phase::Asking && other_gate == Gate::Parked,
        Kind::Park => phase == Phase::Running && is_saved && gate == Gate::Asked,
        Kind::Begin => phase == Phase::Quiet && !has_step,
        Kind::Done => phase == Phase::Quiet && has_step,
        Kind::End => phase == Phase::Quiet && !has_step && other_gate.keeps_away(),
        Kind::Leave => phase == Phase::Parked && gate == Gate::Freed,
        Kind::Set(regs) => phase == Phase::Running && !is_saved && regs.mask <= 3,
        Kind::Fetch(space) => phase == Phase::Running && serves(m.records[c].regs.mask, space),
    }
}

/// Whether the mask has the bit of the space.
fn serves(mask: u8, space: Space) -> bool
    ensures { IsTrue result ↔ IsBitSet mask (bit_of space) }
{
    match space {
        Space::Data => mask & 1 != 0,
        Space::Code => mask & 2 != 0,
    }
}

/// The machine after an event whose guard holds.
fn changed(m: &Machine, e: &Event) -> Machine
    requires core { e.now.core < 2 }
    requires can { CanHappen m.now e.now }
    ensures { result ≡ after m.now e.now }
{
    let c = e.core as usize;
    let o = 1 - c;
    let mut own = m.records[c];
    match e.kind {
        Kind::Start | Kind::Leave => m.with_gate(c, Gate::Run).with_phase(c, Phase::Running),
        Kind::Rest => m.with_gate(c, Gate::Rest).with_phase(c, Phase::Resting),
        Kind::Take => m.with_lock(e.core + 1).with_phase(c, Phase::Owning),
        Kind::Give => m.with_lock(0).with_phase(c, Phase::Running),
        Kind::Save => {
            save_and_mask(&mut own);
            m.with_record(c, own)
        }
        Kind::Back => {
            restore(&mut own);
            m.with_record(c, own)
        }
        Kind::Ask => m.with_gate(o, Gate::Asked).with_phase(c, Phase::Asking),
        Kind::Hold => m.with_gate(o, Gate::Held).with_phase(c, Phase::Quiet),
        Kind::See => m.with_phase(c, Phase::Quiet),
        Kind::Park => m.with_gate(c, Gate::Parked).with_phase(c, Phase::Parked),
        Kind::Begin => m.with_running(Some(e.core)),
        Kind::Done => m.with_running(None),
        Kind::End => m
            .with_gate(o, m.gates[o].let_go())
            .with_phase(c, Phase::Owning),
        Kind::Set(regs) => {
            own.regs = regs;
            m.with_record(c, own)
        }
        Kind::Fetch(_) => *m,
    }
}
