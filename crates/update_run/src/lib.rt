//! An update and a sweep of the bytes of a flash, an image and a script, with both cores at work.
#![tactic(auto)]

mod device;
mod laws;
mod opening;
mod options;
mod refusal;
mod running;
mod sweeping;
#[cfg(test)]
mod tests;

pub use device::{bytes_of, device_of};
pub use laws::{
    an_update_leaves_one_flash, cuts_beside_silent_scripts_are_functions,
    once_confirmed_the_new_application_boots, power_lost_at_any_moment_leaves_old_or_new,
    the_flash_that_is_left_may_be_left, updates_end_in_their_chosen_step,
};
pub use opening::{Opening, open_update};
pub use options::Options;
pub use refusal::{OpeningNo, UpdateNo};
pub use running::make_update;
pub use sweeping::{make_sweep, open_sweep};
