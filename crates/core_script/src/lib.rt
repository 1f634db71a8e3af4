//! The script of the second core: the text of its actions.
#![tactic(auto)]

mod action;
mod laws;
mod line;
mod refusal;
mod script;
#[cfg(test)]
mod tests;

pub use action::{Action, Label};
pub use laws::scripts_are_their_lines;
pub use refusal::{ScriptNo, ScriptWhy};
pub use script::Script;
