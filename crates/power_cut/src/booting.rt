//! A boot as a leg of an update.

ghost use Rattle.std.specs.Prelude.{◌≡◌, ◌≢◌, ◌≤◌, ◌<◌, ◌+◌, ◌^◌, None, Ok, IfSome, length};
ghost use Rattle.crash_images.specs.Crash.{LeftAfter};
ghost use Rattle.nor_device.specs.Flash.{after_steps};
ghost use Rattle.partition_table.specs.Layout.{IsPlaced};
ghost use Rattle.rollback.specs.Boots.{boots_in};
ghost use Rattle.image_verify.specs.Held.{held};
ghost use Rattle.boot_run.specs.Booted.{boot_answer};
ghost use Rattle.power_cut.specs.Device.{IsReady};
ghost use Rattle.power_cut.specs.Whole.{HasBooted, IsBootLeg, end_by, is_done, started_by};
ghost use Rattle.boot_run.specs.BootSteps.{boot_steps};

use crate::legs::{Leg, LegEnd};
use boot_run::{BootFault, Booted, boot};
use crash_images::CutNor;
use nor_device::RamNor;
use partition_table::Layout;

/// Boots a device once. Answers what was booted, where the leg is made whole.
#[tactic(auto)]
pub(crate) fn boot_leg(dev: &mut CutNor<RamNor>, layout: &Layout) -> (Leg, Option<Booted>)
    requires ready { IsReady dev.old }
    requires placed { IsPlaced layout.now (length dev.old.inner.bytes) }
    requires small { length dev.old.inner.bytes < 2 ^ 32 }
    requires some { boots_in held layout.now dev.old.inner.bytes ≢ None }
    ensures leg { IsBootLeg layout.now dev.old dev.new result.0 }
    ensures left { LeftAfter dev.old.inner.bytes (boot_steps layout.now dev.old.inner.bytes)
        dev.new.inner.bytes }
    ensures booted { HasBooted layout.now dev.old dev.new result.0 result.1 }
{
    let before = dev.steps();
    let answer = boot(dev, layout);
    let now = dev.steps();
    leg_by(answer, before, now)
}

/// The leg of a boot that answered so, by the numbers of the last steps before and behind it.
fn leg_by(answer: Result<Booted, BootFault>, before: u64, now: u64) -> (Leg, Option<Booted>)
    requires order { before ≤ now }
    requires some { boot_answer answer ≢ Ok None }
    ensures steps { before + result.0.steps ≡ now }
    ensures end { result.0.end ≡ end_by now (boot_answer answer) }
    ensures booted { result.1 ≡ started_by (boot_answer answer) }
{
    let steps = now - before;
    match answer {
        Ok(at) => (
            Leg {
                steps,
                end: LegEnd::Done,
            },
            Some(at),
        ),
        Err(BootFault::Device) => (
            Leg {
                steps,
                end: LegEnd::Device { step: now },
            },
            None,
        ),
        Err(BootFault::Cut) => (
            Leg {
                steps,
                end: LegEnd::Cut { step: now },
            },
            None,
        ),
        Err(BootFault::NoApp) => unreachable!(),
    }
}
