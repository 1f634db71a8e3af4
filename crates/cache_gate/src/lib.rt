//! The two cores as typed states: a core that runs may fetch, and a quiet one may change the flash.
#![tactic(auto)]

mod cores;
mod gates;
mod parked;
mod said;
mod steps;
#[cfg(test)]
mod tests;
mod turns;
mod waits;

pub use cores::{Core, Ended, Quiet, RestCore};
pub use gates::{Gates, open};
pub use parked::Parked;
