//! A step from its start to its end, on any device.

ghost use Rattle.std.specs.Prelude.{◌≡◌, ◌⊎◌, ℕ, ◌+◌, ◌≤◌, ◌^◌, List, None, Some, IsSome, IfSome, OnOk, OnErr, IfErr};
ghost use Rattle.nor_device.specs.Flash.{end_of, IsInOnePage, applied};
ghost use Rattle.nor_device.specs.Torn.{Torn};
ghost use Rattle.nor_device.specs.Nor.{HasCause, KeepsSetting, IsMadeWhole, IsLeftTorn, end_by, one_more};
ghost use Rattle.nor_device.specs.Make.{IsAfter, IsMissed};

use crate::nor::{Nor, NorFault, Ready, StepEnd};
use crate::step::Step;

/// Polls the running step to its end, at most as often as the device says.
pub fn finish<D: Nor>(device: &mut D) -> Result<(), NorFault>
    requires running { IsSome (D.running device.old) }
    ensures idle { D.running device.new ≡ None }
    ensures made { OnOk result
        (IsMadeWhole (D.running device.old) (D.bytes device.old) (D.bytes device.new)) }
    ensures done { OnOk result (D.may_end (D.setting device.old) (D.steps device.old) StepEnd.Done) }
    ensures torn { OnErr result (IsLeftTorn (D.may_tear (D.setting device.old) (D.steps device.old))
        (D.running device.old) (D.bytes device.old) (D.bytes device.new)) }
    ensures ended { IfErr result
        (λ why. D.may_end (D.setting device.old) (D.steps device.old) (end_by why)) }
    ensures steps { D.steps device.new ≡ D.steps device.old }
    ensures setting { KeepsSetting D.size D.setting device.old device.new }
    ensures cause { HasCause
        (D.faults device.old) (D.faults device.new) (D.off device.new) result }
{
    loop {
        if device.poll()? == Ready::Ready {
            return Ok(());
        }
    }
}

/// Makes the step: starts it, and polls it to its end. A refusal leaves it not begun, or broken off.
pub fn make_step<D: Nor>(device: &mut D, step: &Step) -> Result<(), NorFault>
    requires idle { D.running device.old ≡ None }
    requires paged { IsInOnePage step.now }
    requires small { end_of step.now ≤ 2 ^ 32 }
    requires inside { end_of step.now ≤ D.size device.old }
    ensures idle { D.running device.new ≡ None }
    ensures counted { OnOk result (D.steps device.new ≡ one_more (D.steps device.old)) }
    ensures made { OnOk result (IsAfter step.now (D.bytes device.old) (D.bytes device.new)) }
    ensures done { OnOk result
        (D.may_end (D.setting device.old) (one_more (D.steps device.old)) StepEnd.Done) }
    ensures stopped { OnOk result (¬ D.must_refuse (D.setting device.old) (D.steps device.old)) }
    ensures missed { IfErr result (IsMissed D.may_end D.may_tear D.may_refuse D.must_refuse
        (D.setting device.old) step.now (D.steps device.old) (D.steps device.new)
        (D.bytes device.old) (D.bytes device.new)) }
    ensures setting { KeepsSetting D.size D.setting device.old device.new }
    ensures cause { HasCause
        (D.faults device.old) (D.faults device.new) (D.off device.new) result }
{
    device.start(step)?;
    finish(device)
}
