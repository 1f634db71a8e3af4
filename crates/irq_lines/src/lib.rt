//! The 32 interrupt lines of each core: pending bits in two shared words, raised by either core and
//! served by their own.
#![tactic(auto)]

mod closing;
mod counts;
mod lines;
mod plays;
mod rule;
mod safe;
mod seat;
#[cfg(test)]
mod tests;
mod view;

pub use closing::Closed;
pub use lines::{Lines, NoLines};
pub use rule::every_state_balances;
pub use safe::deliverable;
pub use seat::IrqSeat;
pub use view::{Act, Entry, Stage, View};
