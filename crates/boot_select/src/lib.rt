//! Which application a bootloader starts, by the OTA data.
#![tactic(auto)]

mod candidates;
mod choice;
mod laws;
mod settling;
mod slots;
#[cfg(test)]
mod tests;

pub use candidates::{choose, order};
pub use choice::named;
pub use laws::{aims_herald_their_slot, images_tell_what_starts};
pub use settling::{Unsettled, settled, settled_as};
pub use slots::target;
