//! What a loss of power may leave of a device. It shows as the answer `Off`, which a device may give in
//! any call, and the device then holds one of these flashes; a device changes in its calls alone, so
//! what holds of them after each call holds at every moment.

ghost use Rattle.std.specs.Prelude.{◌≡◌, ◌↔◌, ℕ, List, None, Some};
ghost use Rattle.nor_device.specs.declared.step.Step.{Step};
ghost use Rattle.nor_device.specs.declared.nor.StepEnd.TheVariants as ends;
ghost use Rattle.nor_device.specs.Torn.{Torn};

use nor_device::{Nor, RamNor};

/// A device of which it is said what a loss of power now may leave.
pub trait Crash: Nor {
    /// A loss of power now may leave this flash.
    ghost may_leave: { Self → List ℕ → Type 0 };

    /// Where no step runs, that is the bytes alone.
    ghost idle_leaves: { (device : Self) (flash left : List ℕ)
        → Self.running device ≡ None → Self.bytes device ≡ Some flash
        → may_leave device left ↔ (left ≡ flash) };

    /// Where one runs, that is every flash torn by it.
    ghost torn_leaves: { (device : Self) (step : Step) (flash left : List ℕ)
        → Self.running device ≡ Some step → Self.bytes device ≡ Some flash
        → may_leave device left ↔ Torn flash step left };

    /// Behind a step that was made whole the device need not refuse a call.
    ghost goes_on: { (set : Self.Setting) (n : ℕ)
        → Self.may_end set n ends.Done → ¬ Self.must_refuse set n };
}

impl Crash for RamNor {
    ghost use Rattle.crash_images.specs.Crash.{MayLeave, idle_leaves, running_leaves};

    ghost may_leave = { λ d left. MayLeave (Self.bytes d) (Self.running d) left };

    ghost idle_leaves = { λ d. idle_leaves (Self.bytes d) (Self.running d) };

    ghost torn_leaves = { λ d. running_leaves (Self.bytes d) (Self.running d) };

    ghost goes_on = { λ set n done never. never };
}
