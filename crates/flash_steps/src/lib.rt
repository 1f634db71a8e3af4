//! Writes and erases of a partition: which are refused, and the steps that they are in the flash.
#![tactic(auto)]

mod laws;
mod parts;
mod refusal;
mod rules;
mod steps;
#[cfg(test)]
mod tests;

pub use laws::{laws_of_erases, laws_of_open_parts, laws_of_parts, laws_of_writes};
pub use parts::{is_open, lies_in};
pub use refusal::PartNo;
pub use rules::{check_erase, check_write, row_barred};
pub use steps::next_program;
