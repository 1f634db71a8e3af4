//! The bootloader on a device: what it rewrites, and which application it starts.
#![tactic(auto)]

mod above;
mod aiming;
mod aims;
mod booted;
mod booting;
mod confirming;
mod entries;
mod fused;
mod laws;
mod level_laws;
#[cfg(test)]
mod level_tests;
mod previewing;
mod raising;
mod rejecting;
mod start;
#[cfg(test)]
mod tests;
mod told;
mod verify;
mod whole;
mod write;

pub use above::boot_above;
pub use aiming::aim;
pub use aims::{Aim, AimNo};
pub use booted::{BootFault, Booted};
pub use booting::boot;
pub use confirming::confirm;
pub use fused::FuseConfirmNo;
pub use laws::{
    aims_begin_updates, lost_rewrites_keep_pairs, lost_rewrites_leave_verdicts,
    rewrites_are_read_back, whole_rewrites_settle_pairs,
};
pub use level_laws::{levels_never_fall, levels_rise_to_what_is_confirmed, nothing_older_boots};
pub use previewing::{NoApp, preview};
pub use raising::confirm_fuse;
pub use rejecting::reject;
pub use told::{ConfirmFault, RejectFault, Told};
