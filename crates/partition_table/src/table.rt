//! The partition table of a flash, which stands at 0x8000: rows of 32 bytes, then the row of their
//! MD5 digest, then the end row of 0xFF.

ghost use Rattle.std.specs.Prelude.{◌≡◌, ◌≤◌, ◌<◌, ◌+◌, ◌*◌, ◌↔◌, ℕ, List, All, length, take, IfOk, Ok};
ghost use Rattle.std.specs.List.{AllByRecursion};
ghost use Rattle.partition_table.specs.declared.row.Row.{Row as Shown};
ghost use Rattle.partition_table.specs.Find.{row_of_label};
ghost use Rattle.partition_table.specs.Layout.{IsPlaced, layout_of};
ghost use Rattle.partition_table.specs.Row.{IsSized};
ghost use Rattle.partition_table.specs.Rules.{FitsFlash};
ghost use Rattle.partition_table.specs.Table.{TableOf, ruled, table_of, table_text};

use crate::bad::TableBad;
use crate::find::row_of_label;
use crate::layout::{Layout, layout_of};
use crate::read::read_table;
use crate::row::Row;
use crate::rules::rows_bad;
use crate::write::put_table;
use arrayvec::ArrayVec;
use std::marker::Model;

/// Where the table stands in a flash.
pub const TABLE_OFFSET: u32 = 0x8000;
/// How many bytes a table takes.
pub const TABLE_SIZE: usize = 0xC00;

/// The partitions of a flash: at most 94 rows.
#[derive(Debug, Drop, PartialEq, Eq)]
pub struct Table {
    pub(crate) rows: ArrayVec<Row, 94>,
}

// Clauses see the rows, in order.
impl Model for Table {
    ghost use Rattle.std.specs.Prelude.{◌≤◌, List, length};
    ghost use Rattle.partition_table.specs.declared.row.Row.{Row as Shown};

    ghost Value = { List Shown };

    ghost view = { λ t. t.rows.items };

    ghost invariant = { λ t. length t.rows.items ≤ 94 };

    ghost inverse = { λ rows. record { rows = record { items = rows } } };
}

impl Table {
    /// The table that bytes are, in a flash of `flash` bytes, or the first rule that they break.
    pub fn read(bytes: &[u8; TABLE_SIZE], flash: u32) -> Result<Table, TableBad>
        ensures exact { result ≡ table_of bytes.now flash }
        ensures ok { IfOk result (TableOf bytes.now flash) }
        ensures only { (rows : List Shown) → TableOf bytes.now flash rows → result ≡ Ok rows }
        ensures fits { IfOk result (FitsFlash flash) }
    {
        read_table(&bytes[..], flash)
    }

    /// The table with these rows, or the first rule that they break in a flash of `flash` bytes.
    #[tactic(auto, unfolding(crate::specs::Table::ruled))]
    pub fn of_rows(rows: &[Row], flash: u32) -> Result<Table, TableBad>
        requires few { length rows.now ≤ 94 }
        ensures exact { result ≡ ruled flash rows.now }
        ensures fits { IfOk result (FitsFlash flash) }
    {
        match rows_bad(rows, flash) {
            Some(why) => Err(why),
            None => Ok(Table {
                rows: copy_rows(rows),
            }),
        }
    }

    /// The rows, in order.
    pub fn rows(&self) -> &[Row]
        ensures exact { result.now ≡ self.now }
        ensures few { length result.now ≤ 94 }
    {
        self.rows.as_slice()
    }

    /// Writes the text of the table: its rows, the row of their digest, and 0xFF to the end.
    pub fn put(&self, out: &mut [u8; TABLE_SIZE])
        ensures bytes { out.new ≡ table_text self.now }
        ensures table { (flash : ℕ) → FitsFlash flash self.now → TableOf out.new flash self.now }
    {
        put_table(self.rows(), out);
    }

    /// The number of the first row with this label, zeros behind it aside.
    pub fn find(&self, label: &[u8]) -> Option<u8>
        ensures exact { result ≡ row_of_label label.now self.now }
    {
        row_of_label(self.rows(), label)
    }

    /// Where a bootloader finds its parts, or the first reason why it can't.
    pub fn layout(&self) -> Result<Layout, TableBad>
        ensures exact { result ≡ layout_of self.now }
        ensures placed { (flash : ℕ) → FitsFlash flash self.now
            → IfOk result (λ layout. IsPlaced layout flash) }
    {
        layout_of(self.rows())
    }
}

/// Rows as an array of its own.
fn copy_rows(rows: &[Row]) -> ArrayVec<Row, 94>
    requires { length rows.now ≤ 94 }
    ensures exact { result.items ≡ rows.now }
{
    let mut copy = ArrayVec::new();
    for row in rows {
        copy.push(*row);
    }
    copy
}

/// Tables and their texts say the same: what is written is read, what was read is written as far as
/// the end row, and the answer is the rows exactly where they are those of the bytes.
pub fn tables_are_their_texts()
    ensures written { (flash : ℕ) (rows : List Shown) → length rows ≤ 94
        → AllByRecursion IsSized rows → FitsFlash flash rows
        → table_of (table_text rows) flash ≡ Ok rows }
    ensures read { (bytes : List ℕ) (flash : ℕ) (rows : List Shown) → TableOf bytes flash rows
        → take (32 * (length rows + 2)) (table_text rows) ≡ take (32 * (length rows + 2)) bytes }
    ensures exact { (bytes : List ℕ) (flash : ℕ) (rows : List Shown) → length bytes ≡ 0xC00
        → All (λ b. b < 256) bytes → (table_of bytes flash ≡ Ok rows) ↔ TableOf bytes flash rows }
{}
