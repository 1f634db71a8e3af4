//! How an update is made.

use power_cut::Upto;

/// The options of an update: the core that writes, the step in which the power goes off, the number
/// of the bytes that a broken step leaves, the step in which the device fails, and how far it goes.
#[derive(Clone, Copy, Debug, PartialEq, Eq)]
pub struct Options {
    pub driver: u8,
    pub cut: Option<u64>,
    pub tear: u64,
    pub fail: Option<u64>,
    pub upto: Upto,
}
