//! Writes: programs, at most sixteen in a quiet period.

ghost use Rattle.std.specs.Prelude.{◌≡◌, ◌+◌, ◌-◌, ◌%◌, ◌≤◌, ◌<◌, ◌^◌, ◌++◌, length, take, drop, OnOk};
ghost use Rattle.bus_hub.specs.declared.did.Base.{Base};
ghost use Rattle.bus_hub.specs.declared.did.Did.{Did};
ghost use Rattle.cache_gate.specs.Own.{IsInside};
ghost use Rattle.flash_steps.specs.Steps.{write_steps};
ghost use Rattle.flash_ops.specs.Moves.{HasRun, looks, makes, periods_of, write_moves};
ghost use Rattle.flash_ops.specs.Asked.{CanMakeMoves};
ghost use Rattle.flash_ops.specs.Periods.{HasPeriod, HasPeriods, HasShownSteps, write_periods};
ghost use Rattle.flash_ops.specs.Told.{CountsPeriods, ToldOf, count_behind, fault_of};

use crate::pace::{Beat, Pace};
use crate::periods::{answer, begin, end, look_behind};
use crate::refusal::StepNo;
use bus_hub::Duty;
use cache_gate::{Core, Quiet};
use crash_images::Crash;
use flash_steps::next_program;
use nor_device::NorFault;
use std::sync::Wait;

/// The most bytes that are programmed in one quiet period: sixteen pages.
const PERIOD: usize = 4096;

/// Writes the bytes from the address on. They are ANDed into what stands there, as the flash does, so
/// the range is to be erased before. The first refusal of the device ends it.
///
/// In each quiet period at most sixteen pages are programmed; behind each the core looks at the
/// beat's probe, through its cache.
pub fn write<'w, R: Wait, D: Crash, K: Duty, P: Pace>(
    rt: &R,
    core: Core<'w, D, K>,
    beat: &mut Beat<'_, P>,
    k: u32,
    at: u32,
    bytes: &[u8],
) -> (Core<'w, D, K>, Result<(), StepNo>)
    requires inside { IsInside core.base (at + length bytes.now) }
    requires small { at + length bytes.now < 2 ^ 32 }
    requires can { CanMakeMoves K.part K.grants K.moved (write_moves beat.old.probe at bytes.now)
        beat.old.probe core }
    ensures ran { HasRun k (write_moves beat.old.probe at bytes.now) (fault_of result.1)
        core.entry result.0 }
    ensures probe { beat.new.probe ≡ beat.old.probe }
    ensures pace { beat.new.pace ≡ beat.old.pace }
    ensures ops { CountsPeriods (periods_of (write_steps at bytes.now)) result.1
        beat.old.ops beat.new.ops }
    ensures periods { HasPeriods (write_periods at bytes.now) result.1 core.entry result.0 }
    ensures told { ToldOf (P.told beat.old.pace.now) beat.old.ops beat.new.ops }
{
    let mut core = core;
    let mut at = at;
    let mut rest = bytes;
    while !rest.is_empty() {
        let (first, later) = split_at_period(at, rest);
        let (next, made) = write_period(rt, core, beat, k, at, first);
        core = next;
        if let Err(why) = made {
            return (core, answer(Err(why)));
        }
        at += first.len() as u32;
        rest = later;
    }
    (core, Ok(()))
}

/// The bytes of the first quiet period, which ends where a page ends, and those behind them.
fn split_at_period(at: u32, bytes: &[u8]) -> (&[u8], &[u8])
    ensures first { result.0.now ≡ take (4096 - at % 256) bytes.now }
    ensures rest { result.1.now ≡ drop (4096 - at % 256) bytes.now }
{
    let room = PERIOD - at as usize % 256;
    if bytes.len() <= room {
        (bytes, &bytes[bytes.len()..])
    } else {
        (&bytes[..room], &bytes[room..])
    }
}

/// One quiet period in which the bytes are programmed, and the look behind it.
fn write_period<'w, R: Wait, D: Crash, K: Duty, P: Pace>(
    rt: &R,
    core: Core<'w, D, K>,
    beat: &mut Beat<'_, P>,
    k: u32,
    at: u32,
    bytes: &[u8],
) -> (Core<'w, D, K>, Result<(), NorFault>)
    requires inside { IsInside core.base (at + length bytes.now) }
    requires small { at + length bytes.now < 2 ^ 32 }
    requires can { CanMakeMoves K.part K.grants K.moved
        (makes (write_steps at bytes.now) ++ looks beat.old.probe) beat.old.probe core }
    ensures ran { HasRun k (makes (write_steps at bytes.now) ++ looks beat.old.probe) result.1
        core.entry result.0 }
    ensures probe { beat.new.probe ≡ beat.old.probe }
    ensures pace { beat.new.pace ≡ beat.old.pace }
    ensures ops { beat.new.ops ≡ count_behind beat.old.ops 1 }
    ensures period { HasPeriod (length (write_steps at bytes.now)) result.1 core.entry result.0 }
    ensures told { ToldOf (P.told beat.old.pace.now) beat.old.ops beat.new.ops }
{
    begin(beat);
    let mut quiet = core.enter(rt);
    let made = program(rt, &mut quiet, k, at, bytes);
    let mut core = quiet.leave(rt);
    end(beat);
    let looked = look_behind(rt, &mut core, beat.probe, k, made);
    (core, looked)
}

/// Programs the bytes from the address on, page by page.
fn program<R: Wait, D: Crash, K: Duty>(
    rt: &R,
    quiet: &mut Quiet<'_, D, K>,
    k: u32,
    at: u32,
    bytes: &[u8],
) -> Result<(), NorFault>
    requires inside { IsInside quiet.old.base (at + length bytes.now) }
    requires small { at + length bytes.now < 2 ^ 32 }
    requires can { CanMakeMoves K.part K.grants K.moved (makes (write_steps at bytes.now)) None quiet.old }
    ensures ran { HasRun k (makes (write_steps at bytes.now)) result quiet.old quiet.new }
    ensures shows { HasShownSteps (length (write_steps at bytes.now)) result quiet.old quiet.new }
{
    let mut at = at;
    let mut rest = bytes;
    while let Some((step, later)) = next_program(at, rest) {
        quiet.step(rt, k, &step)?;
        at += (rest.len() - later.len()) as u32;
        rest = later;
    }
    Ok(())
}
