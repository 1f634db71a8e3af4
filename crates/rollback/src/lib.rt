//! Which entries of the OTA data are rewritten, by a boot and by the application that runs.
#![tactic(auto)]

mod boot;
mod laws;
mod rewrite;
#[cfg(test)]
mod tests;
mod verdict;

pub use boot::boot_writes;
pub use laws::{
    lost_rewrites_boot_by_verdict, pairs_boot_one_of_two, pairs_settle, pairs_stay,
    rewrites_change_states, some_application_boots, truth_values_tell_what_boots,
    updates_leave_pairs,
};
pub use rewrite::Rewrite;
pub use verdict::{NoOtaApp, RejectNo, confirm_write, reject_write};
