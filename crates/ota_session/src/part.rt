//! What a core may do in an update, as contracts tell it.

use nor_device::Step;
use partition_table::Row;
use std::collections::LinkedList;

/// What decides of what a core may do. No value of it is made.
pub enum UpdatePart {
    /// The core drives the update: its steps that are made, and those to come.
    Driver {
        made: LinkedList<Step>,
        rest: LinkedList<Step>,
    },
    /// The other core: the rows of the table.
    Other {
        rows: LinkedList<Row>,
    },
}
