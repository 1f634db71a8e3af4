//! The registers that a core keeps for itself while it is parked, and what a value that both cores
//! share shows of them.
#![tactic(auto)]

mod registers;
mod sharing;
#[cfg(test)]
mod tests;

pub use registers::{Record, Regs, restore, save_and_mask};
pub use sharing::Records;
