//! Around a quiet period: the pace, the count, and the look behind it.

ghost use Rattle.std.specs.Prelude.{◌≡◌, [], Some, OnOk};
ghost use Rattle.bus_hub.specs.declared.did.Base.{Base};
ghost use Rattle.bus_hub.specs.declared.did.Did.{Did};
ghost use Rattle.cache_gate.specs.Own.{HasShown};
ghost use Rattle.flash_ops.specs.declared.pace.Point.TheVariants.{DriverOp, DriverOpDone};
ghost use Rattle.flash_ops.specs.Moves.{HasRun, looks};
ghost use Rattle.flash_ops.specs.Asked.{CanLook, HasRoomFor};
ghost use Rattle.flash_ops.specs.Told.{LooksBehind, count_behind, fault_of};

use crate::pace::{Beat, Pace, Point};
use crate::refusal::StepNo;
use bus_hub::{Duty, FetchNo};
use cache_gate::Core;
use crash_images::Crash;
use nor_device::NorFault;
use std::sync::Wait;

/// A quiet period with a step begins.
pub(crate) fn begin<P: Pace>(beat: &mut Beat<'_, P>)
    ensures ops { beat.new.ops ≡ count_behind beat.old.ops 1 }
    ensures probe { beat.new.probe ≡ beat.old.probe }
    ensures pace { beat.new.pace ≡ beat.old.pace }
    ensures told { P.told beat.old.pace.now (DriverOp beat.new.ops) }
{
    beat.ops = beat.ops.saturating_add(1);
    beat.pace.at(Point::DriverOp(beat.ops));
}

/// It has ended.
pub(crate) fn end<P: Pace>(beat: &Beat<'_, P>)
    ensures told { P.told beat.now.pace.now (DriverOpDone beat.now.ops) }
{
    beat.pace.at(Point::DriverOpDone(beat.ops));
}

/// Looks at the probe, if there is one, where all before it was made.
#[tactic(auto, using(crate::proofs::PeriodLemmas::shown_none))]
pub(crate) fn look_behind<R: Wait, D: Crash, K: Duty>(
    rt: &R,
    core: &mut Core<'_, D, K>,
    probe: Option<u32>,
    k: u32,
    made: Result<(), NorFault>,
) -> Result<(), NorFault>
    requires look { CanLook core.old.base core.old.regs probe }
    requires room { OnOk made (HasRoomFor core.old.base core.old.core core.old.share (looks probe)) }
    ensures looks { LooksBehind k probe made result core.old core.new }
    ensures shows { HasShown [] core.old core.new }
{
    made?;
    match probe {
        Some(at) => look(rt, core, at, k),
        None => Ok(()),
    }
}

/// Looks at the 4 bytes from the address on.
fn look<R: Wait, D: Crash, K: Duty>(
    rt: &R,
    core: &mut Core<'_, D, K>,
    at: u32,
    k: u32,
) -> Result<(), NorFault>
    requires look { CanLook core.old.base core.old.regs (Some at) }
    requires room { HasRoomFor core.old.base core.old.core core.old.share (looks (Some at)) }
    ensures ran { HasRun k (looks (Some at)) result core.old core.new }
    ensures shows { HasShown [] core.old core.new }
{
    match core.fetch(rt, k, at, 4) {
        Ok(()) => Ok(()),
        Err(FetchNo::Failed) => Err(NorFault::Failed),
        Err(FetchNo::Off) => Err(NorFault::Off),
        Err(FetchNo::Unmapped) => unreachable!(),
        Err(FetchNo::Masked) => unreachable!(),
    }
}

/// The answer of a call, by that of the device.
pub(crate) fn answer(made: Result<(), NorFault>) -> Result<(), StepNo>
    ensures exact { fault_of result ≡ made }
{
    match made {
        Ok(()) => Ok(()),
        Err(NorFault::Failed) => Err(StepNo::Device),
        Err(NorFault::Off) => Err(StepNo::Cut),
    }
}
