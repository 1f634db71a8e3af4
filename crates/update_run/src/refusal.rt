//! Why an update or a sweep may not begin.

use boot_select::Unsettled;
use core_script::ScriptWhy;
use partition_table::TableBad;

/// Why an update or a sweep may not begin: the first reason, in this order.
#[derive(Clone, Copy, Debug, PartialEq, Eq)]
pub enum UpdateNo {
    /// The line of this number, from 1, of the script is wrong.
    Script { line: u64, why: ScriptWhy },
    /// The flash has this many bytes, and not 1, 2, 4, 8, 16 or 32 MiB.
    FlashSize { size: u64 },
    /// The flash has no partition table, or none that gives a layout.
    Table(TableBad),
    /// An entry waits, or what is named is not what is started.
    NotSettled(Unsettled),
    /// The only slot that could be written is the one that runs.
    Conflict { slot: u8 },
    /// The slot that would be written is encrypted or readonly.
    SlotFlags { slot: u8, flags: u32 },
    /// No sequence above this one is left for the next entry.
    SeqSpent { seq: u32 },
    /// The image has more bytes than the slot that would be written.
    TooLarge { need: u64, limit: u32 },
    /// The image has more bytes than a sweep takes.
    SweepLimit { length: u64, limit: u32 },
}

/// Why there is no opening.
#[derive(Clone, Copy, Debug, PartialEq, Eq)]
pub enum OpeningNo {
    /// The update or the sweep may not begin.
    Refused(UpdateNo),
    /// Out of memory.
    Memory,
}
