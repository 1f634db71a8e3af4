//! The journal's entries: what a core did, in order.

use core_state::Regs;
use nor_device::StepEnd;

/// Why an action was refused.
#[derive(Clone, Copy, Debug, PartialEq, Eq)]
pub enum Why {
    /// An address of the range is not mapped, or lies after the flash's end.
    Unmapped,
    /// The cache mask does not serve the space.
    Masked,
    /// No run of so many pages is free.
    NoPages,
    /// No run that was mapped begins there.
    NotMapped,
    /// No partition has this label.
    NoLabel,
    /// The partition may not be written while the system runs.
    Dangerous,
    /// The partition is marked as read only.
    ReadOnly,
    /// The partition is marked as encrypted.
    Encrypted,
    /// The range does not begin or end with a sector.
    Unaligned,
    /// The range does not lie in the partition.
    Range,
}

/// What a core did.
#[derive(Clone, Copy, Debug, PartialEq, Eq)]
pub enum Act {
    /// A step on `len` bytes from `at` on was begun: an erase or a program.
    Open { erase: bool, at: u32, len: u32 },
    /// The open step ended.
    Close { end: StepEnd },
    /// `len` bytes were read through the cache from the address on. They stand in the journal from
    /// `start` on.
    Fetch { at: u32, start: u32, len: u32 },
    /// The registers of the entry were set.
    Set,
    /// Pages were mapped from the address on.
    Mapped { at: u32 },
    /// The run of pages that began at the address was freed.
    Unmapped { at: u32 },
    /// A write or an erase was made.
    Wrote,
    /// An action was refused.
    Refused { why: Why },
}

/// One entry: the core, 0 or 1, the number of its action, the registers in force, and what it did.
#[derive(Clone, Copy, Debug, PartialEq, Eq)]
pub struct Entry {
    pub core: u8,
    pub k: u32,
    pub regs: Regs,
    pub act: Act,
}
