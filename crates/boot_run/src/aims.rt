//! What an update will write, or why it may not begin.

use boot_select::Unsettled;
use image_verify::ImageInfo;
use otadata::NextEntry;
use partition_table::App;

/// What an update will write, beside the application that runs.
#[derive(Clone, Debug, Drop)]
pub struct Aim {
    /// The application that runs.
    pub running: App,
    /// What its image is.
    pub info: ImageInfo,
    /// The slot that is written.
    pub slot: u8,
    /// The entry that announces the new application, and its sector.
    pub next: NextEntry,
    /// The length of the new image in bytes.
    pub length: u32,
}

/// Why an update may not begin: the first reason, in this order.
#[derive(Clone, Copy, Debug, PartialEq, Eq)]
pub enum AimNo {
    /// An entry waits, or the application that is named is not the one that is started.
    NotSettled(Unsettled),
    /// The only slot is the one that runs.
    Conflict { slot: u8 },
    /// The slot is encrypted or readonly.
    SlotFlags { slot: u8, flags: u32 },
    /// No sequence is left that names the slot.
    SeqSpent { seq: u32 },
    /// The image is longer than the slot.
    TooLarge { need: u32, limit: u32 },
    /// The device failed, and counted it.
    Device,
    /// The power is off.
    Cut,
}

/// The reasons that are no fault of the device.
#[derive(Clone, Copy, Debug, PartialEq, Eq)]
pub(crate) enum Unfit {
    NotSettled(Unsettled),
    Conflict { slot: u8 },
    SlotFlags { slot: u8, flags: u32 },
    SeqSpent { seq: u32 },
    TooLarge { need: u32, limit: u32 },
}
