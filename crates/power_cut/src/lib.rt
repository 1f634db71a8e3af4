//! An update on a device whose power may go off: its legs, one after the other, and what boots of
//! the flash that is left.
#![tactic(auto)]

mod behind;
mod booting;
mod closing;
mod laws;
mod legs;
mod outcome;
mod restoring;
mod run;
mod runner;
mod sweeping;
mod swept;
#[cfg(test)]
mod tests;

pub use behind::leg_behind;
pub use laws::a_boot_of_an_announced_entry_has_two_steps;
pub use legs::{Leg, LegEnd, Ran, Upto};
pub use outcome::Trial;
pub use run::trial;
pub use runner::{Legs, Runner};
pub use sweeping::sweep;
pub use swept::{Sweep, SweepNo};
