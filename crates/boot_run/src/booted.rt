//! What a boot has started, or why it has not.

use image_verify::ImageInfo;
use partition_table::App;

/// The application that a boot has started.
#[derive(Clone, Debug, Drop)]
pub struct Booted {
    /// Which one.
    pub app: App,
    /// What its image is.
    pub info: ImageInfo,
    /// How many steps the rewrites before it were.
    pub steps: u32,
}

/// Why a boot has started no application.
#[derive(Clone, Copy, Debug, PartialEq, Eq)]
pub enum BootFault {
    /// No application is whole.
    NoApp,
    /// The device failed, and counted it.
    Device,
    /// The power is off.
    Cut,
}
