//! Why bytes are no table, or a table has no layout.

/// The first rule that is broken, in this order. Rows are numbered from 0.
#[derive(Clone, Copy, Debug, PartialEq, Eq)]
pub enum TableBad {
    /// A row before the digest's begins with no known mark, or the row after it isn't the end row.
    Magic { row: u8 },
    /// The end row comes without the row of the digest, or that row isn't that of the rows before.
    Md5 { row: u8 },
    /// The rows end before an end row after the row of the digest.
    NoEnd,
    /// A row's offset or size isn't a multiple of what its type asks, or the size is 0.
    Align { row: u8 },
    /// A row begins before 0x9000, or ends beyond the flash.
    Range { row: u8 },
    /// Two rows have an address in common.
    Overlap { a: u8, b: u8 },
    /// Two rows are of a type and subtype that a table has once at most.
    TwoOf { a: u8, b: u8 },
    /// No row is that of the OTA data.
    NoOtadata,
    /// The OTA data don't take two sectors.
    OtadataSize { size: u32 },
    /// The OTA data are encrypted or readonly.
    OtadataFlags { flags: u32 },
    /// No row is that of the factory application.
    NoFactory,
    /// The first update slot is missing, or this one while there is a greater one.
    SlotGap { slot: u8 },
    /// An application ends above 16 MiB, where the cache can't map it.
    AppHigh { row: u8 },
}
