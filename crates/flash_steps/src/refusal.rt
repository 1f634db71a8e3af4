//! Why a partition is not written or erased.

/// Why a write or an erase of a partition is refused: the first reason in this order.
#[derive(Clone, Copy, Debug, PartialEq, Eq)]
pub enum PartNo {
    /// No partition has this label.
    NoLabel,
    /// The partition has an application, or the OTA data: what is started would be lost.
    Dangerous,
    /// The partition is flagged readonly.
    ReadOnly,
    /// The partition is flagged encrypted.
    Encrypted,
    /// Only sectors can be erased, and the range is not made of sectors.
    Unaligned,
    /// The range leaves the partition.
    Range,
}
