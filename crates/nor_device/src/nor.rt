//! What a flash device means. A driver starts a step, polls it to its end, and reads while none runs.
//! Between its start and its end a step has changed nothing that a clause can see; a loss of power in
//! between leaves a torn flash, and shows as the answer `Off`.

ghost use Rattle.std.specs.Prelude.{◌≡◌, ℕ, ◌+◌, ◌<◌, ◌≤◌, ◌^◌, Bool, List, length, Option, None, Some, IsSome, IfSome, OnOk, OnErr, IfErr};
ghost use Rattle.nor_device.specs.declared.step.Step.{Step};
ghost use Rattle.nor_device.specs.declared.nor.StepEnd.{StepEnd};
ghost use Rattle.nor_device.specs.declared.nor.NorFault.{NorFault};
ghost use Rattle.nor_device.specs.Flash.{end_of, IsInOnePage};
ghost use Rattle.nor_device.specs.Nor.{HasCause, KeepsSetting, KeepsSteps, IsIdleAsBefore, StillRuns, IsMadeWhole, IsLeftTorn, one_more, end_by, IsPart};

use crate::step::Step;

/// What a poll found.
#[derive(Clone, Copy, Debug, PartialEq, Eq)]
pub enum Ready {
    /// The step has ended.
    Ready,
    /// The step still runs.
    Busy,
}

/// Why a device refused a call.
#[derive(Clone, Copy, Debug, PartialEq, Eq)]
pub enum NorFault {
    /// The device failed, and counted it.
    Failed,
    /// The power is off.
    Off,
}

/// How a step ended.
#[derive(Clone, Copy, Debug, PartialEq, Eq)]
pub enum StepEnd {
    /// It was made whole.
    Done,
    /// The device failed in it.
    Failed,
    /// The power went off in it.
    Cut,
}

/// A NOR flash with one step at a time.
pub trait Nor {
    /// Plain data that no call changes: what the device may still do, by the number of the step.
    type Setting;

    /// The bytes as they stand before the running step, where the device tells them.
    ghost bytes: { Self → Option (List ℕ) };

    /// How many bytes there are.
    ghost size: { Self → ℕ };

    /// The step that runs.
    ghost running: { Self → Option Step };

    /// How many polls the running step still needs at most.
    ghost left: { Self → ℕ };

    /// The power is off.
    ghost off: { Self → Bool };

    /// How many calls of `start` answered Ok: the number of the last step, from 1.
    ghost steps: { Self → ℕ };

    /// How often the device failed.
    ghost faults: { Self → ℕ };

    /// What the device may still do.
    ghost setting: { Self → Self.Setting };

    /// The step of this number may end so.
    ghost may_end: { Self.Setting → ℕ → StepEnd → Type 0 };

    /// Where the step of this number is refused, it may leave the last flash of the first.
    ghost may_tear: { Self.Setting → ℕ → List ℕ → Step → List ℕ → Type 0 };

    /// After the step of this number a `read` or `start` may be refused so.
    ghost may_refuse: { Self.Setting → ℕ → NorFault → Type 0 };

    /// After the step of this number every `read` and `start` is refused.
    ghost must_refuse: { Self.Setting → ℕ → Type 0 };

    /// How many bytes there are.
    fn size(&self) -> u32
        ensures exact { result ≡ size self.now };

    /// The bytes from the address on, as many as `out` has.
    fn read(&mut self, at: u32, out: &mut [u8]) -> Result<(), NorFault>
        requires idle { running self.old ≡ None }
        requires inside { at + length out.old ≤ size self.old }
        ensures bytes { OnOk result (IsPart (bytes self.old) at (length out.old) out.new) }
        ensures allowed { IfErr result (may_refuse (setting self.old) (steps self.old)) }
        ensures stopped { OnOk result (¬ must_refuse (setting self.old) (steps self.old)) }
        ensures same { IsIdleAsBefore bytes running self.old self.new }
        ensures setting { KeepsSteps size setting steps self.old self.new }
        ensures cause { HasCause (faults self.old) (faults self.new) (off self.new) result };

    /// Begins the step.
    fn start(&mut self, step: &Step) -> Result<(), NorFault>
        requires idle { running self.old ≡ None }
        requires paged { IsInOnePage step.now }
        requires small { end_of step.now ≤ 2 ^ 32 }
        requires inside { end_of step.now ≤ size self.old }
        ensures begun { OnOk result (running self.new ≡ Some step.now) }
        ensures counted { OnOk result (steps self.new ≡ one_more (steps self.old)) }
        ensures refused { OnErr result ((running self.new ≡ None) × (steps self.new ≡ steps self.old)) }
        ensures allowed { IfErr result (may_refuse (setting self.old) (steps self.old)) }
        ensures stopped { OnOk result (¬ must_refuse (setting self.old) (steps self.old)) }
        ensures bytes { bytes self.new ≡ bytes self.old }
        ensures setting { KeepsSetting size setting self.old self.new }
        ensures cause { HasCause (faults self.old) (faults self.new) (off self.new) result };

    /// Asks whether the step has ended. A refusal ends it too, torn.
    fn poll(&mut self) -> Result<Ready, NorFault>
        requires running { IsSome (running self.old) }
        ensures busy { result ≡ Ok Ready.Busy → StillRuns bytes running left self.old self.new }
        ensures ready { result ≡ Ok Ready.Ready → running self.new ≡ None }
        ensures made { result ≡ Ok Ready.Ready → IsMadeWhole (running self.old) (bytes self.old) (bytes self.new) }
        ensures done { result ≡ Ok Ready.Ready → may_end (setting self.old) (steps self.old) StepEnd.Done }
        ensures refused { OnErr result (running self.new ≡ None) }
        ensures torn { OnErr result (IsLeftTorn (may_tear (setting self.old) (steps self.old))
            (running self.old) (bytes self.old) (bytes self.new)) }
        ensures ended { IfErr result (λ why. may_end (setting self.old) (steps self.old) (end_by why)) }
        ensures setting { KeepsSteps size setting steps self.old self.new }
        ensures cause { HasCause (faults self.old) (faults self.new) (off self.new) result };

    /// Told bytes are as many as the size says.
    ghost sized: { (device : Self) (flash : List ℕ)
        → bytes device ≡ Some flash → length flash ≡ size device };
}
