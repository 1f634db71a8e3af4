//! What holds of every script.

ghost use Rattle.std.specs.Prelude.{◌≡◌, ◌↔◌, ℕ, List, Ok};
ghost use Rattle.core_script.specs.declared.action.Action.{Action as Shown};
ghost use Rattle.core_script.specs.Lines.{IsScriptOf};
ghost use Rattle.core_script.specs.ScriptText.{script_of_text};

/// A text means these actions exactly where each of its lines that says something has its own, in
/// order, and all keep to the limits.
pub fn scripts_are_their_lines()
    ensures exact { (text : List ℕ) (actions : List Shown)
        → (script_of_text text ≡ Ok actions) ↔ IsScriptOf text actions }
{}
