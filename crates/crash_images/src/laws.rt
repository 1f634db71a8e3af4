//! What holds of every tear number, of every loss of power, and of the program's own device.

ghost use Rattle.std.specs.Prelude.{◌≡◌, ◌⊎◌, ◌↔◌, ℕ, ◌-◌, ◌<◌, ◌≤◌, All, List, ◌∷◌, ◌++◌, [], Option, None, Some, length, slice_index};
ghost use Rattle.nor_device.specs.declared.step.Step.{Step};
ghost use Rattle.nor_device.specs.declared.nor.StepEnd.{StepEnd};
ghost use Rattle.nor_device.specs.declared.nor.StepEnd.TheVariants as ends;
ghost use Rattle.nor_device.specs.declared.nor.NorFault.{NorFault};
ghost use Rattle.nor_device.specs.declared.nor.NorFault.TheVariants as faults;
ghost use Rattle.nor_device.specs.Flash.{start_of, end_of, applied, after_steps};
ghost use Rattle.nor_device.specs.Torn.{Torn};
ghost use Rattle.nor_device.specs.Nor.{end_by};
ghost use Rattle.nor_device.specs.Make.{IsAfter, IsTornBy};
ghost use Rattle.crash_images.specs.declared.cut.CutSetting.{CutSetting};
ghost use Rattle.crash_images.specs.declared.flaky.FlakySetting.{FlakySetting};
ghost use Rattle.crash_images.specs.Tear.{torn_by, torn_byte_of, data_byte_of, is_erase};
ghost use Rattle.crash_images.specs.Crash.{LeftAfter, IsAfterAll, IsLeftOf};
ghost use Rattle.crash_images.specs.Agrees.{Agrees, IsBeside, StepsWithin};
ghost use Rattle.crash_images.specs.Cut.{EndsBy, IsBad, NotBoth};

use crate::crash::Crash;
use crate::cut::CutNor;
use crate::flaky::FlakyNor;
use nor_device::{Nor, RamNor};

/// The flash that a tear number names is a torn one; its bytes are the torn bytes in the step's range,
/// and the old ones outside.
pub fn laws_of_tear_numbers()
    ensures torn { (flash : List ℕ) (step : Step) (tear : ℕ)
        → Torn flash step (torn_by flash step tear) }
    ensures inside { (flash : List ℕ) (step : Step) (tear i : ℕ)
        → i < length flash → start_of step ≤ i → i < end_of step
        → slice_index (torn_by flash step tear) i
        ≡ torn_byte_of (slice_index flash i) (data_byte_of step (i - start_of step))
        (is_erase step) tear (i - start_of step) }
    ensures outside { (flash : List ℕ) (step : Step) (tear i : ℕ)
        → i < length flash → (i < start_of step) ⊎ (end_of step ≤ i)
        → slice_index (torn_by flash step tear) i ≡ slice_index flash i }
{}

/// What a loss of power may leave of a list of steps: step by step, and list by list; bytes stay bytes, and those outside the
/// steps' ranges stay as they are.
pub fn laws_of_power_loss()
    ensures none { (flash left : List ℕ) → LeftAfter flash [] left ↔ (left ≡ flash) }
    ensures first { (flash : List ℕ) (step : Step) (steps : List Step) (left : List ℕ)
        → LeftAfter flash (step ∷ steps) left
        ↔ ((left ≡ flash) ⊎ (Torn flash step left ⊎ LeftAfter (applied flash step) steps left)) }
    ensures front_and_back { (flash : List ℕ) (front back : List Step) (left : List ℕ)
        → LeftAfter flash (front ++ back) left
        ↔ (LeftAfter flash front left ⊎ LeftAfter (after_steps flash front) back left) }
    ensures last { (flash : List ℕ) (steps : List Step)
        → LeftAfter flash steps (after_steps flash steps) }
    ensures outside { (start end : ℕ) (flash : List ℕ) (steps : List Step) (left : List ℕ)
        → StepsWithin start end steps → LeftAfter flash steps left
        → Agrees (IsBeside start end) flash left }
    ensures bytes { (flash : List ℕ) (steps : List Step) (left : List ℕ)
        → LeftAfter flash steps left → All (λ b. b < 256) flash → All (λ b. b < 256) left }
{}

/// Told bytes while steps are made: after all of them, or left at some moment of them.
pub fn laws_of_told_bytes()
    ensures torn { (step : Step) (steps : List Step) (old new : Option (List ℕ))
        → IsTornBy step old new → IsLeftOf (step ∷ steps) old new }
    ensures more { (step : Step) (steps : List Step) (old mid new : Option (List ℕ))
        → IsAfter step old mid → IsLeftOf steps mid new → IsLeftOf (step ∷ steps) old new }
    ensures after { (step : Step) (steps : List Step) (old mid new : Option (List ℕ))
        → IsAfter step old mid → IsAfterAll steps mid new → IsAfterAll (step ∷ steps) old new }
    ensures front { (front back : List Step) (old new : Option (List ℕ))
        → IsLeftOf front old new → IsLeftOf (front ++ back) old new }
    ensures back { (front back : List Step) (old mid new : Option (List ℕ))
        → IsAfterAll front old mid → IsLeftOf back mid new → IsLeftOf (front ++ back) old new }
    ensures both { (front back : List Step) (old mid new : Option (List ℕ))
        → IsAfterAll front old mid → IsAfterAll back mid new → IsAfterAll (front ++ back) old new }
{}

/// What a loss of power now may leave of a device: its bytes alone where no step runs, and every flash
/// torn by the step that runs.
pub fn power_loss_leaves<D: Crash>(device: &D)
    ensures idle { (flash left : List ℕ)
        → D.running device.now ≡ None → D.bytes device.now ≡ Some flash
        → D.may_leave device.now left ↔ (left ≡ flash) }
    ensures running { (step : Step) (flash left : List ℕ)
        → D.running device.now ≡ Some step → D.bytes device.now ≡ Some flash
        → D.may_leave device.now left ↔ Torn flash step left }
{
    let _ = device;
}

/// After a step that was made whole a device need not refuse a call.
pub fn device_goes_on<D: Crash>(device: &D)
    ensures goes_on { (n : ℕ) → D.may_end (D.setting device.now) n ends.Done
        → ¬ D.must_refuse (D.setting device.now) n }
{
    let _ = device;
}

/// The setting of a `CutNor` over a `RamNor`: each step number has one end up to the chosen one, and none
/// after it; a refused poll leaves the flash of the tear number; a read or start is refused after the
/// chosen step alone, and so as that step was.
pub fn setting_of_cut_nor_over_ram_nor()
    ensures ends { (set : CutSetting (Unit {0})) (n : ℕ) (end : StepEnd)
        → ⟦<CutNor<RamNor> as Nor>⟧.may_end set n end ↔ EndsBy set.cut set.fail n end }
    ensures tears { (set : CutSetting (Unit {0})) (n : ℕ) (flash : List ℕ) (step : Step) (left : List ℕ)
        → ⟦<CutNor<RamNor> as Nor>⟧.may_tear set n flash step left
        ↔ (left ≡ torn_by flash step set.tear) }
    ensures refuses { (set : CutSetting (Unit {0})) (n : ℕ) (why : NorFault)
        → ⟦<CutNor<RamNor> as Nor>⟧.may_refuse set n why ↔ EndsBy set.cut set.fail n (end_by why) }
    ensures stops { (set : CutSetting (Unit {0})) (n : ℕ)
        → ⟦<CutNor<RamNor> as Nor>⟧.must_refuse set n ↔ IsBad set.cut set.fail n }
{}

/// The setting of a `FlakyNor` over a `RamNor`: a step is made whole, and may end so in the poll that fails; no other
/// flash is left, no other call is refused, and none need be.
pub fn setting_of_flaky_nor_over_ram_nor()
    ensures ends { (set : FlakySetting (Unit {0})) (n : ℕ) (end : StepEnd)
        → ⟦<FlakyNor<RamNor> as Nor>⟧.may_end set n end
        ↔ ((end ≡ ends.Done) ⊎ ((1 ≤ set.at) × (end ≡ ends.Failed))) }
    ensures tears { (set : FlakySetting (Unit {0})) (n : ℕ) (flash : List ℕ) (step : Step) (left : List ℕ)
        → ⟦<FlakyNor<RamNor> as Nor>⟧.may_tear set n flash step left
        ↔ ((1 ≤ set.at) × (left ≡ applied flash step)) }
    ensures refuses { (set : FlakySetting (Unit {0})) (n : ℕ) (why : NorFault)
        → ⟦<FlakyNor<RamNor> as Nor>⟧.may_refuse set n why ↔ ((1 ≤ set.at) × (why ≡ faults.Failed)) }
    ensures stops { (set : FlakySetting (Unit {0})) (n : ℕ)
        → ¬ ⟦<FlakyNor<RamNor> as Nor>⟧.must_refuse set n }
{}

/// Where at most one step is chosen, no step number has two ends, and none after the chosen one has any.
pub fn laws_of_chosen_steps()
    ensures one { (cut fail : Option ℕ) (n : ℕ) (end other : StepEnd)
        → NotBoth cut fail → EndsBy cut fail n end → EndsBy cut fail n other → end ≡ other }
    ensures last { (cut fail : Option ℕ) (n later : ℕ) (end : StepEnd)
        → NotBoth cut fail → IsBad cut fail n → n < later → ¬ EndsBy cut fail later end }
{}
