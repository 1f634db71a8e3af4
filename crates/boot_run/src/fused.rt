//! Why a confirmation under anti-rollback was refused.

/// Why an application was not confirmed, or its version not burnt: the first reason, in this order.
#[derive(Clone, Copy, Debug, PartialEq, Eq)]
pub enum FuseConfirmNo {
    /// No entry is active.
    NoOtaApp,
    /// The slot that the active entry names holds no whole image.
    NotWhole { slot: u8 },
    /// Its secure version is above 32, which burnt bits cannot show.
    High { secure: u32 },
    /// Its secure version is below the level.
    Old { secure: u32, level: u32 },
    /// The device failed, and counted it. Nothing is burnt.
    Device,
    /// The power is off. Nothing is burnt.
    Cut,
    /// The fuses failed, and counted it. The application is confirmed.
    Fuse,
}

/// The reasons that are no fault of the device or of the fuses.
#[derive(Clone, Copy, Debug, PartialEq, Eq)]
pub(crate) enum Denied {
    NoOtaApp,
    NotWhole { slot: u8 },
    High { secure: u32 },
    Old { secure: u32, level: u32 },
}
