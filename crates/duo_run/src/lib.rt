//! Both cores of an update in two threads: one drives it, and the other works on a script.
#![tactic(auto)]

mod actions;
mod both;
mod driver;
mod duo;
mod job;
mod laws;
#[cfg(test)]
mod leg_tests;
mod pages;
mod room;
#[cfg(test)]
mod tests;
mod worker;

pub use duo::Duo;
pub use laws::laws_of_workers;
