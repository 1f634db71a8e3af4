//! What plans make, over all plans.

ghost use Rattle.std.specs.Prelude.{◌≡◌, ◌≢◌, ◌↔◌, ℕ, List, Ok, Err};
ghost use Rattle.image_maker.specs.declared.refusal.MakeNo.{MakeNo};
ghost use Rattle.image_maker.specs.declared.refusal.PlanNo.{PlanNo};
ghost use Rattle.image_maker.specs.Image.{IsMade, image_of};
ghost use Rattle.image_maker.specs.Lines.{IsPlanOf};
ghost use Rattle.image_maker.specs.Plan.{Planned};
ghost use Rattle.image_maker.specs.PlanText.{plan_of_text};

/// What the plan of a text makes of its files is a whole image with the plan's segments.
pub fn made_images_are_whole()
    ensures whole { (text : List ℕ) (plan : Planned) (files : List (List ℕ)) (image : List ℕ)
        → plan_of_text text ≡ Ok plan → image_of plan files ≡ Ok image → IsMade plan files image }
{}

/// A text means this plan exactly where each of its lines that says something says one thing, the
/// plan has all these things, the segments in order, and nothing else.
pub fn plans_are_their_lines()
    ensures exact { (text : List ℕ) (plan : Planned)
        → (plan_of_text text ≡ Ok plan) ↔ IsPlanOf text plan }
{}

/// No text and no plan is refused for want of memory, which is no matter of what they mean.
pub fn memory_is_no_refusal()
    ensures plan { (text : List ℕ) → plan_of_text text ≢ Err PlanNo.Memory }
    ensures image { (plan : Planned) (files : List (List ℕ))
        → image_of plan files ≢ Err MakeNo.Memory }
{}
