//! What an update has left.

use crate::legs::Leg;
use arrayvec::ArrayVec;
use boot_run::Booted;
use bus_hub::Journal;

/// An update: the flash that it left, its legs, the journals of both legs of two cores, and what
/// boots of the flash.
#[derive(Drop)]
pub struct Trial {
    pub flash: Vec<u8>,
    pub legs: ArrayVec<Leg, 3>,
    pub session: Journal,
    pub confirm: Option<Journal>,
    pub after: Booted,
}
