//! How a leg of two cores ended, told by the device that came back.

ghost use Rattle.std.specs.Prelude.{◌≡◌, ◌≤◌, ◌⊎◌, ◌+◌, None, length};
ghost use Rattle.nor_device.specs.Ram.{Ram};
ghost use Rattle.crash_images.specs.Cut.{CutDevice, IsBad};
ghost use Rattle.power_cut.specs.declared.legs.LegEnd.{LegEnd as End};
ghost use Rattle.power_cut.specs.Device.{IsRan, IsReady, IsUnbroken, IsWholeEnd, running_in, setting_of};
ghost use Rattle.power_cut.specs.Refused.{end_asked};

use crate::legs::{Leg, LegEnd};
use crash_images::CutNor;
use nor_device::{Nor, NorFault, RamNor};

/// The leg from which an idle device has come back, whose number of steps was `before` at its begin
/// and which ends as `whole` where nothing broke off. A read of no byte asks the device whether it
/// still answers.
pub fn leg_behind(dev: &mut CutNor<RamNor>, before: u64, whole: LegEnd) -> Leg
    requires idle { running_in dev.old ≡ None }
    requires order { before ≤ dev.old.steps }
    ensures idle { running_in dev.new ≡ None }
    ensures flash { dev.new.inner.bytes ≡ dev.old.inner.bytes }
    ensures setting { setting_of dev.new ≡ setting_of dev.old }
    ensures number { dev.new.steps ≡ dev.old.steps }
    ensures steps { before + result.steps ≡ dev.new.steps }
    ensures ran { (old : CutDevice Ram) (wanted : End) → IsReady old → old.steps ≡ before
        → length dev.new.inner.bytes ≡ length old.inner.bytes
        → setting_of dev.new ≡ setting_of old
        → IsUnbroken old dev.new.steps ⊎ IsBad old.cut old.fail dev.new.steps
        → IsWholeEnd wanted → (¬ IsBad old.cut old.fail dev.new.steps → whole ≡ wanted)
        → IsRan old dev.new wanted result }
{
    let asked = dev.read(0, &mut []);
    let now = dev.steps();
    Leg {
        steps: now - before,
        end: end_behind(asked, now, whole),
    }
}

/// The end by what a read answered behind the step of this number.
fn end_behind(asked: Result<(), NorFault>, now: u64, whole: LegEnd) -> LegEnd
    ensures exact { result ≡ end_asked now whole asked }
{
    match asked {
        Ok(()) => whole,
        Err(NorFault::Failed) => LegEnd::Device { step: now },
        Err(NorFault::Off) => LegEnd::Cut { step: now },
    }
}
