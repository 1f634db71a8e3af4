//! What a loss of power leaves of a flash, a device whose power goes off, or which fails, in a chosen step, and one in
//! which a chosen call fails.
#![tactic(auto)]

mod crash;
mod cut;
mod flaky;
mod laws;
mod tear;
mod tear_step;

pub use crash::Crash;
pub use cut::{CutNor, CutSetting, Health};
pub use flaky::{FlakyNor, FlakySetting};
pub use laws::{
    device_goes_on, laws_of_chosen_steps, laws_of_power_loss, laws_of_tear_numbers,
    laws_of_told_bytes, power_loss_leaves, setting_of_cut_nor_over_ram_nor,
    setting_of_flaky_nor_over_ram_nor,
};
pub use tear::torn_byte;

#[cfg(test)]
mod tests;
