//! What was written is read back and verified.

ghost use Rattle.std.specs.Prelude.{◌≡◌, ◌+◌, ◌≤◌, ◌++◌, ℕ, List, IfOk, OnOk, drop, length, take};
ghost use Rattle.bus_hub.specs.declared.did.Base.{Base};
ghost use Rattle.image_verify.specs.Bad.{bad};
ghost use Rattle.image_verify.specs.Fed.{HasRead};
ghost use Rattle.flash_ops.specs.Moves.{HasRun, read_moves};
ghost use Rattle.flash_ops.specs.Periods.{HasPeriod, HasPeriods, read_periods};
ghost use Rattle.flash_ops.specs.Told.{fault_of};
ghost use Rattle.ota_session.specs.Stages.{IsWritten, image_of};
ghost use Rattle.ota_session.specs.SessionTold.{found_as};

use crate::duty::UpdateDuty;
use crate::target::Target;
use cache_gate::Core;
use crash_images::Crash;
use flash_ops::{StepNo, read};
use image_verify::{BadImage, Verifier, whole_images_show_no_fault};
use std::sync::Wait;

/// How many bytes are read in one quiet period.
const PERIOD: u32 = 4096;

/// Reads the bytes of an image back, at most 4096 at a time, and verifies them: the first fault that
/// they show, if any.
pub(crate) fn read_back<'w, 'a, R: Wait, D: Crash>(
    rt: &R,
    core: Core<'w, D, UpdateDuty<'a>>,
    target: &Target,
) -> (
    Core<'w, D, UpdateDuty<'a>>,
    Result<Option<BadImage>, StepNo>,
)
    requires written { IsWritten target.now core }
    ensures ran { HasRun 0 (read_moves target.now.length) (found_as result.1) core.entry result.0 }
    ensures periods { HasPeriods (read_periods target.now.length) (found_as result.1)
        core.entry result.0 }
    ensures exact { IfOk result.1 (λ found.
        bad target.now.size (image_of core.entry.base) ≡ found) }
{
    let mut core = core;
    let mut verifier = Verifier::new(target.size);
    let mut buffer = [0; PERIOD as usize];
    let mut done = 0;
    while done < target.length {
        let count = (target.length - done).min(PERIOD);
        let out = &mut buffer[..count as usize];
        let (next, asked) = feed_period(rt, core, target, done, count, out, &mut verifier);
        core = next;
        if let Err(no) = asked {
            return (core, Err(no));
        }
        done += count;
    }
    (core, Ok(fault_of_all(verifier)))
}

/// Reads so many of the next bytes back, and hands them to the verifier.
fn feed_period<'w, 'a, R: Wait, D: Crash>(
    rt: &R,
    core: Core<'w, D, UpdateDuty<'a>>,
    target: &Target,
    done: u32,
    count: u32,
    out: &mut [u8],
    verifier: &mut Verifier,
) -> (Core<'w, D, UpdateDuty<'a>>, Result<(), StepNo>)
    requires written { IsWritten target.now core }
    requires within { done + count ≤ target.now.length }
    requires long { length out.old ≡ count }
    requires some { 1 ≤ count }
    requires most { count ≤ 4096 }
    ensures ran { HasRun 0 (read_moves count) (fault_of result.1) core.entry result.0 }
    ensures period { HasPeriod 0 result.1 core.entry result.0 }
    ensures fed { OnOk result.1 ((limit : ℕ) (bytes : List ℕ) → HasRead verifier.old limit bytes
        → HasRead verifier.new limit
        (bytes ++ take count (drop done (image_of core.entry.base)))) }
{
    let (core, asked) = read(rt, core, target.at + done, out);
    if let Err(no) = asked {
        return (core, Err(no));
    }
    let _ = verifier.feed(out);
    (core, Ok(()))
}

/// The first fault that all bytes show that the verifier was handed, if any.
fn fault_of_all(verifier: Verifier) -> Option<BadImage>
    ensures exact { (limit : ℕ) (bytes : List ℕ) → HasRead verifier limit bytes
        → bad limit bytes ≡ result }
{
    whole_images_show_no_fault();
    verifier.finish().err()
}
