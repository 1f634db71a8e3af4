//! Writes, erases and reads of the flash on a core, in quiet periods.
#![tactic(auto)]

mod erasing;
mod pace;
mod parts;
mod periods;
mod reading;
mod refusal;
#[cfg(test)]
mod tests;
mod writing;

pub use erasing::erase;
pub use pace::{Beat, NoPace, Pace, Point};
pub use parts::{part_erase, part_write};
pub use reading::read;
pub use refusal::{OpNo, StepNo};
pub use writing::write;
