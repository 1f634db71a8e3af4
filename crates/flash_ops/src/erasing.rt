//! Erases: each sector in a quiet period of its own.

ghost use Rattle.std.specs.Prelude.{◌≡◌, ◌+◌, ◌%◌, ◌*◌, ◌≤◌, ◌<◌, ◌^◌, [], ◌∷◌, OnOk, length};
ghost use Rattle.nor_device.specs.declared.step.Step.TheVariants.{Erase};
ghost use Rattle.cache_gate.specs.Own.{IsInside};
ghost use Rattle.flash_steps.specs.Steps.{erase_steps};
ghost use Rattle.flash_ops.specs.Moves.{HasRun, Make, erase_moves, looks};
ghost use Rattle.flash_ops.specs.Asked.{CanMakeMoves};
ghost use Rattle.flash_ops.specs.Periods.{HasPeriod, HasPeriods, erase_periods};
ghost use Rattle.flash_ops.specs.Told.{CountsPeriods, ToldOf, count_behind, fault_of};

use crate::pace::{Beat, Pace};
use crate::periods::{answer, begin, end, look_behind};
use crate::refusal::StepNo;
use bus_hub::Duty;
use cache_gate::Core;
use crash_images::Crash;
use nor_device::{NorFault, Step};
use std::sync::Wait;

/// How many bytes a sector has.
const SECTOR: u32 = 4096;

/// Erases so many bytes from the address on, sector by sector. The first refusal of the device ends
/// it.
///
/// Each sector is erased in a quiet period of its own; behind each the core looks at the beat's
/// probe, through its cache.
pub fn erase<'w, R: Wait, D: Crash, K: Duty, P: Pace>(
    rt: &R,
    core: Core<'w, D, K>,
    beat: &mut Beat<'_, P>,
    k: u32,
    at: u32,
    len: u32,
) -> (Core<'w, D, K>, Result<(), StepNo>)
    requires inside { IsInside core.base (at + len) }
    requires small { at + len < 2 ^ 32 }
    requires aligned { (at % 4096 ≡ 0) × (len % 4096 ≡ 0) }
    requires can { CanMakeMoves K.part K.grants K.moved (erase_moves beat.old.probe at len)
        beat.old.probe core }
    ensures ran { HasRun k (erase_moves beat.old.probe at len) (fault_of result.1) core.entry result.0 }
    ensures probe { beat.new.probe ≡ beat.old.probe }
    ensures pace { beat.new.pace ≡ beat.old.pace }
    ensures ops { CountsPeriods (length (erase_steps at len)) result.1 beat.old.ops beat.new.ops }
    ensures periods { HasPeriods (erase_periods at len) result.1 core.entry result.0 }
    ensures told { ToldOf (P.told beat.old.pace.now) beat.old.ops beat.new.ops }
{
    let mut core = core;
    let first = at / SECTOR;
    let count = len / SECTOR;
    for i in 0..count {
        let (next, made) = erase_period(rt, core, beat, k, first + i);
        core = next;
        if let Err(why) = made {
            return (core, answer(Err(why)));
        }
    }
    (core, Ok(()))
}

/// One quiet period in which the sector is erased, and the look behind it.
fn erase_period<'w, R: Wait, D: Crash, K: Duty, P: Pace>(
    rt: &R,
    core: Core<'w, D, K>,
    beat: &mut Beat<'_, P>,
    k: u32,
    sector: u32,
) -> (Core<'w, D, K>, Result<(), NorFault>)
    requires inside { IsInside core.base (sector * 4096 + 4096) }
    requires small { sector * 4096 + 4096 ≤ 2 ^ 32 }
    requires can { CanMakeMoves K.part K.grants K.moved (Make (Erase sector) ∷ looks beat.old.probe)
        beat.old.probe core }
    ensures ran { HasRun k (Make (Erase sector) ∷ looks beat.old.probe) result.1 core.entry result.0 }
    ensures probe { beat.new.probe ≡ beat.old.probe }
    ensures pace { beat.new.pace ≡ beat.old.pace }
    ensures ops { beat.new.ops ≡ count_behind beat.old.ops 1 }
    ensures period { HasPeriod 1 result.1 core.entry result.0 }
    ensures told { ToldOf (P.told beat.old.pace.now) beat.old.ops beat.new.ops }
{
    begin(beat);
    let mut quiet = core.enter(rt);
    let made = quiet.step(rt, k, &Step::Erase { sector });
    let mut core = quiet.leave(rt);
    end(beat);
    let looked = look_behind(rt, &mut core, beat.probe, k, made);
    (core, looked)
}
