//! A device over another, whose power goes off, or which fails, in the step of a chosen number.

ghost use Rattle.std.specs.Prelude.{◌≡◌, ◌+◌, ◌≤◌, true, false, None, IsSome, IfErr, OnOk};
ghost use Rattle.nor_device.specs.Nor.{one_more};
ghost use Rattle.crash_images.specs.Cut.{cut_device, IsAhead, NotBoth, IsBad, running_by, left_by, restarted, unspent_of, health_by};

use crate::crash::Crash;
use crate::tear_step::tear_step;
use nor_device::{Nor, NorFault, Ready, Step};
use std::marker::Model;

/// What may still go wrong: the step in which the power goes off, the tear number, the step that
/// fails, and what the device inside may do.
pub struct CutSetting<S> {
    pub cut: Option<u64>,
    pub tear: u64,
    pub fail: Option<u64>,
    pub inner: S,
}

/// How the device is.
#[derive(Drop)]
pub enum Health {
    /// It answers.
    Sound,
    /// The step that runs is to be torn at its first poll.
    Due(Step),
    /// Its power is off.
    Off,
    /// It has failed.
    Failed,
}

/// A device whose power goes off, or which fails, in the step of a chosen number. The steps are
/// numbered from 1.
#[derive(Drop)]
pub struct CutNor<D: Nor> {
    inner: D,
    cut: Option<u64>,
    tear: u64,
    fail: Option<u64>,
    steps: u64,
    faults: u64,
    health: Health,
}

// Clauses see all of it; inside it the chosen number is still to come, is that of the step that
// runs, or has come.
impl<D: Nor> Model for CutNor<D> {
    ghost use Rattle.crash_images.specs.Cut.{CutDevice, cut_device, IsCut};

    ghost Value = { CutDevice D };

    ghost view = { λ d. cut_device d.inner d.cut d.tear d.fail d.steps d.faults d.health };

    ghost invariant = { λ d. IsCut D.running D.size D.off D.setting D.may_end D.may_refuse
        (cut_device d.inner d.cut d.tear d.fail d.steps d.faults d.health) };
}

impl<D: Nor> CutNor<D> {
    /// The device over `inner`. In step `cut` the first poll answers `Off`; in step `fail` it answers
    /// `Failed`, and so does every later call. The step is then torn by the tear number.
    pub fn new(inner: D, cut: Option<u64>, tear: u64, fail: Option<u64>) -> CutNor<D>
        requires one { NotBoth cut fail }
        requires cut { IsAhead cut 0 }
        requires fail { IsAhead fail 0 }
        ensures exact { result ≡ cut_device inner cut tear fail 0 0 Health.Sound }
    {
        CutNor {
            inner,
            cut,
            tear,
            fail,
            steps: 0,
            faults: 0,
            health: Health::Sound,
        }
    }

    /// The device with its power on: it answers again. Its bytes, the number of steps and the tear
    /// number stay, and a chosen step that has come is spent.
    #[tactic(auto, using(crate::proofs::CutLaws::idle_inside))]
    pub fn restart(self) -> CutNor<D>
        requires idle { running_by self.health (D.running self.inner) ≡ None }
        requires on { D.off self.inner ≡ false }
        ensures exact { result ≡ restarted self }
        ensures idle { D.running result.inner ≡ None }
    {
        CutNor {
            cut: unspent(self.cut, self.steps),
            fail: unspent(self.fail, self.steps),
            inner: self.inner,
            tear: self.tear,
            steps: self.steps,
            faults: self.faults,
            health: Health::Sound,
        }
    }

    /// How many steps were begun.
    pub fn steps(&self) -> u64
        ensures exact { result ≡ self.now.steps }
    {
        self.steps
    }

    /// How often the device failed by itself, beside the failures of the one inside.
    pub fn faults(&self) -> u64
        ensures exact { result ≡ self.now.faults }
    {
        self.faults
    }

    /// The chosen step needs no poll but the one that is refused: its first.
    pub fn chosen_step_needs_no_poll(&self)
        ensures first { IsBad self.now.cut self.now.fail self.now.steps
            → IsSome (running_by self.now.health (D.running self.now.inner))
            → left_by self.now.health (D.left self.now.inner) ≡ 0 }
    {
        let _ = &self.inner;
    }

    /// Gives the device inside back.
    #[tactic(auto, using(crate::proofs::CutLaws::idle_inside))]
    pub fn into_inner(self) -> D
        requires idle { running_by self.health (D.running self.inner) ≡ None }
        ensures exact { result ≡ self.inner }
        ensures idle { D.running result ≡ None }
    {
        let CutNor {
            inner,
            cut: _,
            tear: _,
            fail: _,
            steps: _,
            faults: _,
            health: _,
        } = self;
        inner
    }
}

/// A chosen number, as long as it is still to come.
fn unspent(chosen: Option<u64>, steps: u64) -> Option<u64>
    ensures exact { result ≡ unspent_of chosen steps }
{
    match chosen {
        Some(number) if steps < number => Some(number),
        _ => None,
    }
}

impl<D: Nor> Nor for CutNor<D> {
    type Setting = CutSetting<D::Setting>;

    ghost use Rattle.std.specs.Prelude.{◌≡◌, ◌+◌};
    ghost use Rattle.crash_images.specs.Cut.{running_by, left_by, off_by, IsBad, CutMayEnd, CutMayTear, CutMayRefuse};

    ghost bytes = { λ d. D.bytes d.inner };

    ghost size = { λ d. D.size d.inner };

    ghost running = { λ d. running_by d.health (D.running d.inner) };

    ghost left = { λ d. left_by d.health (D.left d.inner) };

    ghost off = { λ d. off_by d.health (D.off d.inner) };

    ghost steps = { λ d. d.steps };

    ghost faults = { λ d. d.faults + D.faults d.inner };

    ghost setting = { λ d. record { cut = d.cut; tear = d.tear; fail = d.fail; inner = D.setting d.inner } };

    ghost may_end = { λ set n end. CutMayEnd D.may_end D.may_refuse set n end };

    ghost may_tear = { λ set n old step new. CutMayTear D.may_end D.may_refuse set n old step new };

    ghost may_refuse = { λ set n why. CutMayRefuse D.may_end D.may_refuse set n why };

    ghost must_refuse = { λ set n. IsBad set.cut set.fail n };

    ghost sized = { λ d flash is. D.sized d.inner flash is };

    fn size(&self) -> u32 {
        self.inner.size()
    }

    fn read(&mut self, at: u32, out: &mut [u8]) -> Result<(), NorFault> {
        match self.health {
            Health::Off => Err(NorFault::Off),
            Health::Failed => Err(count_fault(&mut self.faults)),
            Health::Sound | Health::Due(_) => self.inner.read(at, out),
        }
    }

    fn start(&mut self, step: &Step) -> Result<(), NorFault> {
        match self.health {
            Health::Off => return Err(NorFault::Off),
            Health::Failed => return Err(count_fault(&mut self.faults)),
            Health::Sound | Health::Due(_) => {}
        }
        let number = self.steps.saturating_add(1);
        let due = self.cut == Some(number) || self.fail == Some(number);
        // A step that is to be torn is not begun inside: a read of nothing asks for the power there.
        let begun = if due {
            self.inner.read(0, &mut [])
        } else {
            self.inner.start(step)
        };
        if begun.is_ok() {
            self.steps = number;
            if due {
                self.health = Health::Due(step.copy());
            }
        }
        begun
    }

    fn poll(&mut self) -> Result<Ready, NorFault> {
        match &self.health {
            Health::Sound => self.inner.poll(),
            // No step runs after the one that ended badly.
            Health::Off | Health::Failed => unreachable!(),
            Health::Due(step) => {
                let torn = tear_step(&mut self.inner, step, self.tear);
                let cut = self.cut == Some(self.steps);
                let why = refusal(torn, cut, &mut self.faults);
                self.health = health_after(why);
                Err(why)
            }
        }
    }
}

impl<D: Nor> Crash for CutNor<D> {
    ghost use Rattle.crash_images.specs.Crash.{MayLeave, idle_leaves, running_leaves};
    ghost use Rattle.crash_images.specs.Cut.{cut_goes_on};

    ghost may_leave = { λ d left. MayLeave (Self.bytes d) (Self.running d) left };

    ghost idle_leaves = { λ d. idle_leaves (Self.bytes d) (Self.running d) };

    ghost torn_leaves = { λ d. running_leaves (Self.bytes d) (Self.running d) };

    ghost goes_on = { λ set n. cut_goes_on D.may_end D.may_refuse set n };
}

/// What the first poll of a step that is due answers: what the device inside did, else as was chosen.
fn refusal(torn: Result<(), NorFault>, cut: bool, faults: &mut u64) -> NorFault
    ensures inside { IfErr torn (λ why. (result ≡ why) × (faults.new ≡ faults.old)) }
    ensures off { OnOk torn (cut ≡ true → (result ≡ NorFault.Off) × (faults.new ≡ faults.old)) }
    ensures failed { OnOk torn
        (cut ≡ false → (result ≡ NorFault.Failed) × (faults.new ≡ one_more faults.old)) }
{
    match torn {
        Err(why) => why,
        Ok(()) if cut => NorFault::Off,
        Ok(()) => count_fault(faults),
    }
}

/// How the device is after a step that was refused so.
fn health_after(why: NorFault) -> Health
    ensures exact { result ≡ health_by why }
{
    match why {
        NorFault::Off => Health::Off,
        NorFault::Failed => Health::Failed,
    }
}

/// One failure more.
pub(crate) fn count_fault(faults: &mut u64) -> NorFault
    ensures counted { faults.new ≡ one_more faults.old }
    ensures rises { faults.old ≤ faults.new }
    ensures answer { result ≡ NorFault.Failed }
{
    *faults = faults.saturating_add(1);
    NorFault::Failed
}
