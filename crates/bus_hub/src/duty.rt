//! What the cores may do to the flash, and which flashes are good meanwhile.

ghost use Rattle.std.specs.Prelude.{◌≡◌, ◌≢◌, ◌↔◌, ℕ, ◌<◌, ◌≤◌, ◌^◌, IsTrue, List};
ghost use Rattle.nor_device.specs.declared.step.Step.{Step};
ghost use Rattle.nor_device.specs.Flash.{applied, end_of};
ghost use Rattle.nor_device.specs.Torn.{Torn};

use nor_device::Step;

/// What each core may do. The bus asks it before each step, and tells it of each step that ended
/// whole.
///
/// What a core may do depends on the duty at the opening and on that core's own steps alone, so a
/// core knows it whatever the other one did. And whatever is allowed keeps the flash good, wherever
/// it is cut short.
pub trait Duty {
    /// What decides of what a core may do: what the duty was at the opening, and the core's own
    /// steps.
    type Part;

    /// The part of a core.
    ghost part: { Self → ℕ → Self.Part };

    /// A core with this part may make the step.
    ghost grants: { Self.Part → Step → Type 0 };

    /// The part once its core has made the step.
    ghost moved: { Self.Part → Step → Self.Part };

    /// The duty once a core has made the step.
    ghost after: { Self → ℕ → Step → Self };

    /// The last flash is good by the duty, where the first was the one at the opening.
    ghost good: { List ℕ → Self → List ℕ → Type 0 };

    /// Whether a core may make the step.
    fn allows(&self, core: u8, step: &Step) -> bool
        requires core { core < 2 }
        requires small { end_of step.now ≤ 2 ^ 32 }
        ensures meaning { IsTrue result ↔ grants (part self.now core) step.now };

    /// A core has made the step.
    fn made(&mut self, core: u8, step: &Step)
        requires core { core < 2 }
        requires granted { grants (part self.old core) step.now }
        ensures exact { self.new ≡ after self.old core step.now };

    /// A core's own step moves its part.
    ghost own: { (duty : Self) (c : ℕ) (step : Step)
        → part (after duty c step) c ≡ moved (part duty c) step };

    /// A step of the other core leaves it.
    ghost other: { (duty : Self) (c o : ℕ) (step : Step)
        → c ≢ o → part (after duty o step) c ≡ part duty c };

    /// What a step that is allowed leaves of a good flash where it is cut short is good.
    ghost torn_good: { (first : List ℕ) (duty : Self) (c : ℕ) (step : Step) (flash left : List ℕ)
        → good first duty flash → grants (part duty c) step → Torn flash step left
        → good first duty left };

    /// And so is what it leaves once it is made, by the duty after it.
    ghost made_good: { (first : List ℕ) (duty : Self) (c : ℕ) (step : Step) (flash : List ℕ)
        → good first duty flash → grants (part duty c) step
        → good first (after duty c step) (applied flash step) };
}

/// Allows every step; every flash is good.
#[derive(Drop)]
pub struct AnyDuty;

/// Nothing decides.
pub struct AnyPart;

impl Duty for AnyDuty {
    type Part = AnyPart;

    ghost use Rattle.std.specs.Prelude.{refl};

    ghost part = { λ duty c. record {} };

    ghost grants = { λ part step. Unit {0} };

    ghost moved = { λ part step. part };

    ghost after = { λ duty c step. duty };

    ghost good = { λ first duty flash. Unit {0} };

    fn allows(&self, _core: u8, _step: &Step) -> bool {
        true
    }

    fn made(&mut self, _core: u8, _step: &Step) {}

    ghost own = { λ duty c step. refl };

    ghost other = { λ duty c o step apart. refl };

    ghost torn_good = { λ first duty c step flash left is may torn. tt };

    ghost made_good = { λ first duty c step flash is may. tt };
}
