//! Why a call of a session is refused; the core comes back.

use bus_hub::Duty;
use cache_gate::Core;
use crash_images::Crash;
use image_verify::BadImage;

/// A core that comes back, and why: the session is over.
#[must_use]
#[derive(Drop)]
pub struct Back<'w, D: Crash, K: Duty, E> {
    pub core: Core<'w, D, K>,
    pub no: E,
}

/// Why a piece was not written, or not to its end.
#[derive(Clone, Copy, Debug, PartialEq, Eq)]
pub enum WriteNo {
    /// The session's first byte is not that of an image.
    FirstByte { byte: u8 },
    /// The device failed.
    Device,
    /// The power is off.
    Cut,
}

/// Why the bytes that are written are not announced.
#[derive(Clone, Copy, Debug, PartialEq, Eq)]
pub enum EndNo {
    /// Nothing was written.
    Empty,
    /// They are no whole image within the slot.
    Bad(BadImage),
    /// The device failed.
    Device,
    /// The power is off.
    Cut,
}
