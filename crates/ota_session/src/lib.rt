//! An update on a core beside another one: what both cores may do meanwhile, and the calls that make
//! it.
#![tactic(auto)]

mod confirming;
mod duty;
mod entries;
mod next;
mod part;
mod readback;
mod refusal;
mod sealing;
mod session;
mod target;
mod task;
#[cfg(test)]
mod tests;

pub use confirming::confirm;
pub use duty::UpdateDuty;
pub use part::UpdatePart;
pub use refusal::{Back, EndNo, WriteNo};
pub use sealing::Sealed;
pub use session::{Ota, begin};
