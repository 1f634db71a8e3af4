//! Reads, at most 4096 bytes in a quiet period.

ghost use Rattle.std.specs.Prelude.{◌≡◌, ℕ, ◌+◌, ◌<◌, ◌^◌, [], ◌∷◌, length, OnOk};
ghost use Rattle.cache_gate.specs.Own.{IsInside};
ghost use Rattle.flash_ops.specs.Moves.{Ask, HasRun, read_moves};
ghost use Rattle.flash_ops.specs.Shown.{AreBytesOf};
ghost use Rattle.flash_ops.specs.Periods.{HasPeriod, HasPeriods, read_periods};
ghost use Rattle.flash_ops.specs.Told.{fault_of};

use crate::periods::answer;
use crate::refusal::StepNo;
use bus_hub::{Bus, Duty};
use cache_gate::Core;
use core_state::Records;
use crash_images::Crash;
use nor_device::NorFault;
use std::sync::Wait;

/// The most bytes that are read in one quiet period.
const PERIOD: usize = 4096;

/// Reads as many bytes as `out` has from the address on, behind the caches. The first refusal of the
/// device ends it.
///
/// In each quiet period at most 4096 bytes are read. A read is no step.
pub fn read<'w, R: Wait, D: Crash, K: Duty>(
    rt: &R,
    core: Core<'w, D, K>,
    at: u32,
    out: &mut [u8],
) -> (Core<'w, D, K>, Result<(), StepNo>)
    requires inside { IsInside core.base (at + length out.old) }
    requires small { at + length out.old < 2 ^ 32 }
    ensures ran { (k : ℕ) → HasRun k (read_moves (length out.old)) (fault_of result.1)
        core.entry result.0 }
    ensures periods { HasPeriods (read_periods (length out.old)) result.1 core.entry result.0 }
    ensures length { length out.new ≡ length out.old }
    ensures bytes { OnOk result.1 (AreBytesOf ⟦<Bus<D, K> as Records>⟧.stands (λ h. D.bytes h.dev)
        core.entry.base core.entry.core core.entry.share at out.new) }
{
    let mut core = core;
    let mut done = 0;
    while done < out.len() {
        let end = (out.len() - done).min(PERIOD) + done;
        let (next, asked) = read_period(rt, core, at + done as u32, &mut out[done..end]);
        core = next;
        if let Err(why) = asked {
            return (core, answer(Err(why)));
        }
        done = end;
    }
    (core, Ok(()))
}

/// One quiet period in which the bytes are read.
fn read_period<'w, R: Wait, D: Crash, K: Duty>(
    rt: &R,
    core: Core<'w, D, K>,
    at: u32,
    out: &mut [u8],
) -> (Core<'w, D, K>, Result<(), NorFault>)
    requires inside { IsInside core.base (at + length out.old) }
    ensures ran { (k : ℕ) → HasRun k (Ask ∷ []) result.1 core.entry result.0 }
    ensures period { HasPeriod 0 result.1 core.entry result.0 }
    ensures length { length out.new ≡ length out.old }
    ensures bytes { OnOk result.1 (AreBytesOf ⟦<Bus<D, K> as Records>⟧.stands (λ h. D.bytes h.dev)
        core.entry.base core.entry.core core.entry.share at out.new) }
{
    let mut quiet = core.enter(rt);
    let asked = quiet.read(rt, at, out);
    (quiet.leave(rt), asked)
}
