//! Anti-rollback: burnt bits (eFuse), the level that they show, how it rises, and the secure version of an image.
#![tactic(auto)]

mod fuses;
mod laws;
mod raise;
mod ram;
mod secure;
#[cfg(test)]
mod tests;

pub use fuses::{FuseNo, Fuses};
pub use laws::{burns_only_add, lowest_clear_bits_are_burnt, one_burn_sets_one_bit};
pub use raise::{level, raise_to};
pub use ram::RamFuse;
pub use secure::{secure_in, secure_of};
