//! The parking protocol of two cores as a pure state machine, safe over every list of events.
#![tactic(auto)]

mod events;
mod machine;
mod moves;
#[cfg(test)]
mod tests;

pub use events::{Event, Kind};
pub use machine::{Gate, Machine, Phase, first};
pub use moves::{
    every_machine_has_a_way_home, every_run_is_safe, every_wait_ends, every_way_leads_home, run,
    step,
};
