//! Why a source means no table.

use partition_table::TableBad;

/// Why a record gives no row: the first reason in this order.
#[derive(Clone, Copy, Debug, PartialEq, Eq)]
pub enum CsvWhy {
    /// A seventh field or one behind it isn't empty.
    Fields,
    /// The name isn't 1 to 16 visible characters.
    Name,
    /// The type has no such name, or is no number up to 254.
    Kind,
    /// The type has no subtype of this name, or it is no number up to 254.
    Subtype,
    /// The offset is no number, or the one that follows from the row before is too great.
    Offset,
    /// The size is no number.
    Size,
    /// A flag has no such name.
    Flag,
    /// An earlier record has this name.
    SameName,
    /// A table has no room for one more row.
    TooManyRows,
}

/// Why a source means no table: the first record that gives no row, else the first rule on the rows
/// that is broken.
#[derive(Clone, Copy, Debug, PartialEq, Eq)]
pub enum CsvNo {
    /// The record of this number, from 1, gives no row.
    At { number: u64, why: CsvWhy },
    /// The rows break this rule.
    Rules(TableBad),
    /// Out of memory.
    Memory,
}
