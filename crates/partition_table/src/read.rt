//! From the bytes of a table to its rows.

ghost use Rattle.std.specs.Prelude.{◌≡◌, ◌≤◌, ◌<◌, ◌+◌, ◌*◌, ℕ, length, take, drop, IfNone};
ghost use Rattle.partition_table.specs.Table.{begins_digest, digest_row, end_bad, end_row, first_rows, row_at, rows_in, table_of};
ghost use Rattle.std.specs.Str.{bytes_eq};

use crate::bad::TableBad;
use crate::put::put_at;
use crate::row::{Row, is_partition};
use crate::rules::rows_bad;
use crate::table::Table;
use arrayvec::ArrayVec;
use md5::{Digest, Md5};

/// How many rows the bytes of a table have room for.
const MOST: usize = 96;

/// The table that bytes are, in a flash of `flash` bytes, or the first rule that they break.
#[tactic(auto, unfolding(crate::specs::Table::table_of, crate::specs::Table::table_bad))]
pub(crate) fn read_table(bytes: &[u8], flash: u32) -> Result<Table, TableBad>
    requires size { length bytes.now ≡ 0xC00 }
    ensures exact { result ≡ table_of bytes.now flash }
{
    let count = partitions(bytes, MOST);
    if let Some(why) = end_bad(bytes, count) {
        return Err(why);
    }
    let rows = rows_of(bytes, count);
    match rows_bad(rows.as_slice(), flash) {
        Some(why) => Err(why),
        None => Ok(Table { rows }),
    }
}

/// How many of the first rows are partitions, up to the first that is none; at most `most`.
fn partitions(bytes: &[u8], most: usize) -> usize
    requires { 32 * most ≤ length bytes.now }
    ensures exact { result ≡ rows_in most bytes.now }
    ensures within { result ≤ most }
{
    for i in 0..most {
        if !is_partition(&bytes[32 * i..]) {
            return i;
        }
    }
    most
}

/// The first rows.
fn rows_of(bytes: &[u8], count: usize) -> ArrayVec<Row, 94>
    requires within { 32 * count ≤ length bytes.now }
    requires few { count ≤ 94 }
    ensures exact { result.items ≡ first_rows count bytes.now }
    ensures length { length result.items ≡ count }
{
    let mut rows = ArrayVec::new();
    for i in 0..count {
        rows.push(Row::read(&bytes[32 * i..]));
    }
    rows
}

/// What is wrong with the rows behind the first `count`, which are partitions.
#[tactic(auto, unfolding(crate::specs::Table::end_bad))]
fn end_bad(bytes: &[u8], count: usize) -> Option<TableBad>
    requires size { length bytes.now ≡ 0xC00 }
    requires within { count ≤ 96 }
    ensures exact { result ≡ end_bad bytes.now count }
    ensures few { result ≡ None → count ≤ 94 }
{
    if count == 96 {
        return Some(TableBad::NoEnd);
    }
    let digest = row_at(bytes, count);
    let row = count as u8;
    if is_end(digest) {
        return Some(TableBad::Md5 { row });
    }
    if !begins_digest(digest) {
        return Some(TableBad::Magic { row });
    }
    if digest != digest_row(&bytes[..32 * count]).as_slice() {
        return Some(TableBad::Md5 { row });
    }
    if count == 95 {
        return Some(TableBad::NoEnd);
    }
    if !is_end(row_at(bytes, count + 1)) {
        return Some(TableBad::Magic { row: row + 1 });
    }
    None
}

/// The 32 bytes of a row.
fn row_at(bytes: &[u8], row: usize) -> &[u8]
    requires { 32 * row + 32 ≤ length bytes.now }
    ensures exact { result.now ≡ row_at bytes.now row }
    ensures length { length result.now ≡ 32 }
{
    &bytes[32 * row..32 * row + 32]
}

/// Whether a row is the end row.
fn is_end(row: &[u8]) -> bool
    ensures exact { result ≡ bytes_eq row.now end_row }
{
    row == [0xFF; 32].as_slice()
}

/// Whether bytes begin with the mark of a digest.
#[tactic(auto, unfolding(crate::specs::Table::begins_digest))]
fn begins_digest(bytes: &[u8]) -> bool
    requires { 2 ≤ length bytes.now }
    ensures exact { result ≡ begins_digest bytes.now }
{
    bytes[0] == 0xEB && bytes[1] == 0xEB
}

/// The row of the digest of these bytes.
#[tactic(auto, unfolding(crate::specs::Table::digest_row))]
pub(crate) fn digest_row(bytes: &[u8]) -> [u8; 32]
    ensures exact { result ≡ digest_row bytes.now }
{
    let mut row = [0; 32];
    put_at(&mut row, 0, &[0xEB, 0xEB]);
    put_at(&mut row, 2, &[0xFF; 14]);
    put_at(&mut row, 16, &Md5::digest(bytes));
    row
}
