//! A device over another, in which the call of a chosen number fails. All later calls work.

ghost use Rattle.std.specs.Prelude.{◌≡◌, ◌↔◌, ◌+◌, ◌≤◌, ◌^◌, ◌||◌, true, false, None, Some, IsSome, IsErr, IsErrOf, IfErr, OnOk, OnErr, length};
ghost use Rattle.nor_device.specs.Nor.{one_more, end_by, HasCause, KeepsSetting, KeepsSteps, IsIdleAsBefore, StillRuns, IsPart, IsMadeWhole, IsLeftTorn};
ghost use Rattle.nor_device.specs.Flash.{end_of, IsInOnePage};
ghost use Rattle.crash_images.specs.Flaky.{flaky_device, flaky_setting, IsNext, CountsCall, StaysOff, FlakyMayEnd, FlakyMayTear, FlakyMayRefuse};

use crate::crash::Crash;
use crate::cut::count_fault;
use nor_device::{Nor, NorFault, Ready, Step, StepEnd, finish};
use std::marker::Model;

/// What may still go wrong: the number of the call that fails, and what the device inside may do.
pub struct FlakySetting<S> {
    pub at: u64,
    pub inner: S,
}

/// A device in which one call fails. The calls of `read`, `start` and `poll` are numbered together from 1.
#[derive(Drop)]
pub struct FlakyNor<D: Nor> {
    inner: D,
    at: u64,
    calls: u64,
    faults: u64,
    off: bool,
}

// Clauses see all of it; where it answered that the power is off, no step runs.
impl<D: Nor> Model for FlakyNor<D> {
    ghost use Rattle.crash_images.specs.Flaky.{FlakyDevice, flaky_device, IsFlaky};

    ghost Value = { FlakyDevice D };

    ghost view = { λ d. flaky_device d.inner d.at d.calls d.faults d.off };

    ghost invariant = { λ d. IsFlaky D.running D.steps D.setting D.may_end D.may_refuse
        (flaky_device d.inner d.at d.calls d.faults d.off) };
}

impl<D: Nor> FlakyNor<D> {
    /// The device over `inner` whose call `at` fails, of those from now on.
    pub fn new(inner: D, at: u64) -> FlakyNor<D>
        ensures exact { result ≡ flaky_device inner at 0 0 false }
    {
        FlakyNor {
            inner,
            at,
            calls: 0,
            faults: 0,
            off: false,
        }
    }

    /// How many calls there were.
    pub fn calls(&self) -> u64
        ensures exact { result ≡ self.now.calls }
    {
        self.calls
    }

    /// How often the device failed by itself, beside the failures of the one inside.
    pub fn faults(&self) -> u64
        ensures exact { result ≡ self.now.faults }
    {
        self.faults
    }

    /// Gives the device inside back.
    pub fn into_inner(self) -> D
        requires idle { D.running self.inner ≡ None }
        ensures exact { result ≡ self.inner }
    {
        let FlakyNor {
            inner,
            at: _,
            calls: _,
            faults: _,
            off: _,
        } = self;
        inner
    }
}

impl<D: Nor> Nor for FlakyNor<D> {
    type Setting = FlakySetting<D::Setting>;

    ghost use Rattle.std.specs.Prelude.{◌≡◌, ◌+◌, ◌||◌};
    ghost use Rattle.crash_images.specs.Flaky.{FlakyMayEnd, FlakyMayTear, FlakyMayRefuse};

    ghost bytes = { λ d. D.bytes d.inner };

    ghost size = { λ d. D.size d.inner };

    ghost running = { λ d. D.running d.inner };

    ghost left = { λ d. D.left d.inner };

    ghost off = { λ d. d.off || D.off d.inner };

    ghost steps = { λ d. D.steps d.inner };

    ghost faults = { λ d. d.faults + D.faults d.inner };

    ghost setting = { λ d. record { at = d.at; inner = D.setting d.inner } };

    ghost may_end = { λ set n end. FlakyMayEnd D.may_end set n end };

    ghost may_tear = { λ set n old step new. FlakyMayTear D.may_tear set n old step new };

    ghost may_refuse = { λ set n why. FlakyMayRefuse D.may_end D.may_refuse set n why };

    ghost must_refuse = { λ set n. D.must_refuse set.inner n };

    ghost sized = { λ d flash is. D.sized d.inner flash is };

    fn size(&self) -> u32 {
        self.inner.size()
    }

    fn read(&mut self, at: u32, out: &mut [u8]) -> Result<(), NorFault>
        requires idle { D.running self.old.inner ≡ None }
        requires inside { at + length out.old ≤ D.size self.old.inner }
        ensures counted { CountsCall self.old self.new result }
        ensures off { StaysOff self.old self.new result }
        ensures bytes { OnOk result (IsPart (D.bytes self.old.inner) at (length out.old) out.new) }
        ensures allowed { IfErr result (FlakyMayRefuse D.may_end D.may_refuse
            (flaky_setting D.setting self.old) (D.steps self.old.inner)) }
        ensures stopped { OnOk result (¬ D.must_refuse (D.setting self.old.inner) (D.steps self.old.inner)) }
        ensures same { IsIdleAsBefore D.bytes D.running self.old.inner self.new.inner }
        ensures setting { KeepsSteps D.size D.setting D.steps self.old.inner self.new.inner }
        ensures cause { HasCause (self.old.faults + D.faults self.old.inner)
            (self.new.faults + D.faults self.new.inner) (self.new.off || D.off self.new.inner) result }
    {
        let failing_read = count_call(&mut self.calls, self.at);
        if self.off {
            return Err(NorFault::Off);
        }
        let answer = if failing_read {
            refuse(&mut self.inner, self.at, &mut self.faults)
        } else {
            self.inner.read(at, out)
        };
        self.off = is_off(&answer);
        answer
    }

    fn start(&mut self, step: &Step) -> Result<(), NorFault>
        requires idle { D.running self.old.inner ≡ None }
        requires paged { IsInOnePage step.now }
        requires small { end_of step.now ≤ 2 ^ 32 }
        requires inside { end_of step.now ≤ D.size self.old.inner }
        ensures numbered { CountsCall self.old self.new result }
        ensures off { StaysOff self.old self.new result }
        ensures begun { OnOk result (D.running self.new.inner ≡ Some step.now) }
        ensures counted { OnOk result (D.steps self.new.inner ≡ one_more (D.steps self.old.inner)) }
        ensures refused { OnErr result
            ((D.running self.new.inner ≡ None) × (D.steps self.new.inner ≡ D.steps self.old.inner)) }
        ensures allowed { IfErr result (FlakyMayRefuse D.may_end D.may_refuse
            (flaky_setting D.setting self.old) (D.steps self.old.inner)) }
        ensures stopped { OnOk result (¬ D.must_refuse (D.setting self.old.inner) (D.steps self.old.inner)) }
        ensures bytes { D.bytes self.new.inner ≡ D.bytes self.old.inner }
        ensures setting { KeepsSetting D.size D.setting self.old.inner self.new.inner }
        ensures cause { HasCause (self.old.faults + D.faults self.old.inner)
            (self.new.faults + D.faults self.new.inner) (self.new.off || D.off self.new.inner) result }
    {
        let failing_start = count_call(&mut self.calls, self.at);
        if self.off {
            return Err(NorFault::Off);
        }
        let answer = if failing_start {
            refuse(&mut self.inner, self.at, &mut self.faults)
        } else {
            self.inner.start(step)
        };
        self.off = is_off(&answer);
        answer
    }

    fn poll(&mut self) -> Result<Ready, NorFault>
        requires running { IsSome (D.running self.old.inner) }
        ensures counted { CountsCall self.old self.new result }
        ensures busy { result ≡ Ok Ready.Busy → StillRuns D.bytes D.running D.left self.old.inner self.new.inner }
        ensures ready { result ≡ Ok Ready.Ready → D.running self.new.inner ≡ None }
        ensures made { result ≡ Ok Ready.Ready
            → IsMadeWhole (D.running self.old.inner) (D.bytes self.old.inner) (D.bytes self.new.inner) }
        ensures done { result ≡ Ok Ready.Ready
            → D.may_end (D.setting self.old.inner) (D.steps self.old.inner) StepEnd.Done }
        ensures refused { OnErr result (D.running self.new.inner ≡ None) }
        ensures torn { OnErr result (IsLeftTorn (FlakyMayTear D.may_tear
            (flaky_setting D.setting self.old) (D.steps self.old.inner))
            (D.running self.old.inner) (D.bytes self.old.inner) (D.bytes self.new.inner)) }
        ensures ended { IfErr result
            (λ why. FlakyMayEnd D.may_end
            (flaky_setting D.setting self.old) (D.steps self.old.inner) (end_by why)) }
        ensures setting { KeepsSteps D.size D.setting D.steps self.old.inner self.new.inner }
        ensures cause { HasCause (self.old.faults + D.faults self.old.inner)
            (self.new.faults + D.faults self.new.inner) (self.new.off || D.off self.new.inner) result }
    {
        let failing_poll = count_call(&mut self.calls, self.at);
        let answer = if failing_poll {
            end_and_refuse(&mut self.inner, self.at, &mut self.faults)
        } else {
            self.inner.poll()
        };
        self.off = is_off(&answer);
        answer
    }
}

impl<D: Crash> Crash for FlakyNor<D> {
    ghost use Rattle.crash_images.specs.Crash.{MayLeave, idle_leaves, running_leaves};
    ghost use Rattle.crash_images.specs.Flaky.{flaky_done};

    ghost may_leave = { λ d left. MayLeave (Self.bytes d) (Self.running d) left };

    ghost idle_leaves = { λ d. idle_leaves (Self.bytes d) (Self.running d) };

    ghost torn_leaves = { λ d. running_leaves (Self.bytes d) (Self.running d) };

    ghost goes_on = { λ set n done. D.goes_on set.inner n (flaky_done D.may_end set n done) };
}

/// Counts one call more, and tells whether it is the one that fails.
fn count_call(calls: &mut u64, at: u64) -> bool
    ensures counted { calls.new ≡ one_more calls.old }
    ensures exact { result ≡ true ↔ IsNext calls.old at }
{
    let chosen = *calls < at && *calls + 1 == at;
    *calls = calls.saturating_add(1);
    chosen
}

/// The answer says that the power is off.
fn is_off<T>(answer: &Result<T, NorFault>) -> bool
    ensures exact { result ≡ true ↔ IsErrOf answer.now NorFault.Off }
{
    matches!(answer, Err(NorFault::Off))
}

/// Fails with nothing read and nothing begun, unless the device inside refuses even to read nothing.
fn refuse<D: Nor>(inner: &mut D, at: u64, faults: &mut u64) -> Result<(), NorFault>
    requires some { 1 ≤ at }
    requires idle { D.running inner.old ≡ None }
    ensures refused { IsErr result }
    ensures allowed { IfErr result (FlakyMayRefuse D.may_end D.may_refuse
        (record { at = at; inner = D.setting inner.old }) (D.steps inner.old)) }
    ensures same { IsIdleAsBefore D.bytes D.running inner.old inner.new }
    ensures setting { KeepsSteps D.size D.setting D.steps inner.old inner.new }
    ensures cause { HasCause (faults.old + D.faults inner.old) (faults.new + D.faults inner.new)
        (D.off inner.new) result }
{
    // A read of nothing asks for the power.
    match inner.read(0, &mut []) {
        Ok(()) => Err(count_fault(faults)),
        refused => refused,
    }
}

/// Fails after the end of the step, which is whole, unless the device inside refuses a poll.
#[tactic(auto, using(crate::proofs::FlakyLaws::whole_torn))]
fn end_and_refuse<D: Nor>(inner: &mut D, at: u64, faults: &mut u64) -> Result<Ready, NorFault>
    requires some { 1 ≤ at }
    requires running { IsSome (D.running inner.old) }
    ensures refused { IsErr result }
    ensures idle { D.running inner.new ≡ None }
    ensures torn { IsLeftTorn (FlakyMayTear D.may_tear
        (record { at = at; inner = D.setting inner.old }) (D.steps inner.old))
        (D.running inner.old) (D.bytes inner.old) (D.bytes inner.new) }
    ensures ended { IfErr result (λ why. FlakyMayEnd D.may_end
        (record { at = at; inner = D.setting inner.old }) (D.steps inner.old) (end_by why)) }
    ensures setting { KeepsSteps D.size D.setting D.steps inner.old inner.new }
    ensures cause { HasCause (faults.old + D.faults inner.old) (faults.new + D.faults inner.new)
        (D.off inner.new) result }
{
    finish(inner)?;
    Err(count_fault(faults))
}
