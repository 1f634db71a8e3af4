//! The parts of a plan.

ghost use Rattle.std.specs.Prelude.{◌<◌, ◌^◌};

/// A segment of a plan.
#[derive(Debug, Drop)]
pub(crate) struct PartLine {
    /// The load address.
    pub(crate) load: u32,
    /// The name of the file that has the data.
    pub(crate) name: String,
    ghost small: { load < 2 ^ 32 },
}

/// What the header says of the flash.
#[derive(Clone, Copy, Debug, PartialEq, Eq)]
pub(crate) struct Flash {
    /// The flash mode.
    pub(crate) mode: u8,
    /// The flash size in the high four bits, its frequency in the low four.
    pub(crate) size_freq: u8,
}
