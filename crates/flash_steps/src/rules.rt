//! Which writes and erases of a partition are refused.

ghost use Rattle.std.specs.Prelude.{◌≡◌, ◌≤◌, ◌<◌, ◌+◌, ◌%◌, ◌==◌, ◌&&◌, ℕ, nat_le, length, IfOk, Ok};
ghost use Rattle.partition_table.specs.Rules.{FitsFlash};
ghost use Rattle.flash_steps.specs.Rules.{IsOpenFor, IsPartOf, erase_checked, is_dangerous, is_encrypted, is_readonly, open_row, row_barred, row_named, write_checked};

use crate::refusal::PartNo;
use partition_table::{Row, Table};

/// Whether a partition has an application, or the OTA data.
#[tactic(auto, unfolding(crate::specs::Rules::is_dangerous))]
fn is_dangerous(row: &Row) -> bool
    ensures exact { result ≡ is_dangerous row.now }
{
    row.kind == 0 || (row.kind == 1 && row.subtype == 0)
}

/// Whether a partition is flagged encrypted.
#[tactic(auto, unfolding(crate::specs::Rules::is_encrypted))]
fn is_encrypted(row: &Row) -> bool
    ensures exact { result ≡ is_encrypted row.now }
{
    row.flags % 2 == 1
}

/// Whether a partition is flagged readonly.
#[tactic(auto, unfolding(crate::specs::Rules::is_readonly))]
fn is_readonly(row: &Row) -> bool
    ensures exact { result ≡ is_readonly row.now }
{
    row.flags / 2 % 2 == 1
}

/// Why a partition may not be changed at all, if it may not.
#[tactic(auto, unfolding(crate::specs::Rules::row_barred))]
pub fn row_barred(row: &Row) -> Option<PartNo>
    ensures exact { result ≡ row_barred row.now }
{
    if is_dangerous(row) {
        Some(PartNo::Dangerous)
    } else if is_readonly(row) {
        Some(PartNo::ReadOnly)
    } else if is_encrypted(row) {
        Some(PartNo::Encrypted)
    } else {
        None
    }
}

/// The first partition with this label.
#[tactic(auto, unfolding(crate::specs::Rules::row_named))]
fn row_named(table: &Table, label: &[u8]) -> Option<Row>
    ensures exact { result ≡ row_named label.now table.now }
{
    let number = table.find(label)?;
    table.rows().get(usize::from(number)).copied()
}

/// The partition with this label, if it may be changed.
#[tactic(auto, unfolding(crate::specs::Rules::open_row))]
fn open_row(table: &Table, label: &[u8]) -> Result<Row, PartNo>
    ensures exact { result ≡ open_row label.now table.now }
{
    let Some(row) = row_named(table, label) else {
        return Err(PartNo::NoLabel);
    };
    match row_barred(&row) {
        Some(why) => Err(why),
        None => Ok(row),
    }
}

/// Whether a range from an offset on ends inside a partition.
fn ends_in(row: &Row, offset: u32, length: usize) -> bool
    ensures exact { result ≡ nat_le (offset + length) row.now.size }
{
    let size = row.size as usize;
    length <= size && offset as usize <= size - length
}

/// The partition that a write of so many bytes at an offset changes, or the first reason against it.
#[tactic(auto, unfolding(crate::specs::Rules::write_checked))]
pub fn check_write(table: &Table, label: &[u8], offset: u32, length: usize) -> Result<Row, PartNo>
    ensures exact { result ≡ write_checked table.now label.now offset length }
    ensures open { IfOk result (IsOpenFor table.now label.now offset length) }
    ensures placed { (flash : ℕ) → FitsFlash flash table.now
        → IfOk result (IsPartOf flash offset length) }
{
    let row = open_row(table, label)?;
    if ends_in(&row, offset, length) {
        Ok(row)
    } else {
        Err(PartNo::Range)
    }
}

/// The partition of which an erase changes so many bytes from an offset on, or the first reason
/// against it. Both have to be multiples of 4096.
#[tactic(auto, unfolding(crate::specs::Rules::erase_checked))]
pub fn check_erase(table: &Table, label: &[u8], offset: u32, len: u32) -> Result<Row, PartNo>
    ensures exact { result ≡ erase_checked table.now label.now offset len }
    ensures open { IfOk result (IsOpenFor table.now label.now offset len) }
    ensures sectors { IfOk result (λ _. (offset % 4096 ≡ 0) × (len % 4096 ≡ 0)) }
    ensures placed { (flash : ℕ) → FitsFlash flash table.now
        → IfOk result (IsPartOf flash offset len) }
{
    let row = open_row(table, label)?;
    if offset % 4096 != 0 || len % 4096 != 0 {
        return Err(PartNo::Unaligned);
    }
    if ends_in(&row, offset, len as usize) {
        Ok(row)
    } else {
        Err(PartNo::Range)
    }
}
