//! Why a call on a core is refused.

use flash_steps::PartNo;
use nor_device::NorFault;

/// Why not all steps were made, or not all bytes were read.
#[derive(Clone, Copy, Debug, PartialEq, Eq)]
pub enum StepNo {
    /// The device failed.
    Device,
    /// The power is off.
    Cut,
}

/// Why a partition was not written or erased, or not to its end: the first reason in this order.
#[derive(Clone, Copy, Debug, PartialEq, Eq)]
pub enum OpNo {
    /// A rule is against it; nothing is written or erased.
    Barred(PartNo),
    /// The device failed.
    Device,
    /// The power is off.
    Cut,
}
