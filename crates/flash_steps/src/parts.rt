//! Which steps lie in partitions that may be changed.

ghost use Rattle.std.specs.Prelude.{◌≡◌, ◌↔◌, ◌≤◌, ◌^◌, IsTrue};
ghost use Rattle.nor_device.specs.Flash.{end_of};
ghost use Rattle.flash_steps.specs.Parts.{LiesInOpenPart, LiesInPart};

use crate::rules::row_barred;
use nor_device::Step;
use partition_table::Row;

/// Whether a step lies in a partition.
pub fn lies_in(row: &Row, step: &Step) -> bool
    requires small { end_of step.now ≤ 2 ^ 32 }
    ensures exact { IsTrue result ↔ LiesInPart row.now step.now }
{
    let (start, len) = step.range();
    let end = u64::from(start) + u64::from(len);
    row.offset <= start && end <= u64::from(row.offset) + u64::from(row.size)
}

/// Whether a step lies in a partition that may be changed.
pub fn is_open(rows: &[Row], step: &Step) -> bool
    requires small { end_of step.now ≤ 2 ^ 32 }
    ensures exact { IsTrue result ↔ LiesInOpenPart rows.now step.now }
{
    for row in rows {
        if row_barred(row).is_none() && lies_in(row, step) {
            return true;
        }
    }
    false
}
