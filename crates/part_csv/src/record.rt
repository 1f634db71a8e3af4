//! From a record to the row that it means.

ghost use Rattle.std.specs.Prelude.{◌≡◌, ◌≤◌, ◌<◌, ◌^◌, ◌-◌, ◌+◌, ◌≢◌, length, OnOk};
ghost use Rattle.csv.specs.Records.{fields_of};
ghost use Rattle.part_csv.specs.Source.{column, end_from, has_column, has_label, has_more, is_skipped, offset_of, raised, row_of};

use crate::refusal::CsvWhy;
use crate::trim::trim;
use crate::words::{flags_of, kind_of, label_of, number_of, subtype_of};
use csv::ByteRecord;
use partition_table::{Row, alignment_of};

/// A column of a record, without the blanks at its ends; a missing one is empty.
fn column(line: &ByteRecord, i: usize) -> &[u8]
    ensures exact { result.now ≡ column (fields_of line.now) i }
{
    match line.get(i) {
        Some(field) => trim(field),
        None => trim(b"".as_slice()),
    }
}

/// Whether a record gives no row: it is a comment, or one empty field.
#[tactic(auto, unfolding(crate::specs::Source::is_skipped))]
pub(crate) fn is_skipped(line: &ByteRecord) -> bool
    ensures exact { result ≡ is_skipped (fields_of line.now) }
{
    let first = column(line, 0);
    if first.len() == 0 {
        return line.len() == 1;
    }
    first[0] == b'#'
}

/// Whether a record has more than the six columns, and one of those behind is not empty.
fn has_more(line: &ByteRecord) -> bool
    ensures exact { result ≡ has_more (fields_of line.now) }
{
    for i in 6..line.len() {
        if column(line, i).len() != 0 {
            return true;
        }
    }
    false
}

/// Where the last of some rows ends, or the place behind the table.
fn end_of(rows: &[Row]) -> u64
    ensures exact { result ≡ end_from 0x9000 rows.now }
    ensures most { result < 2 ^ 33 }
{
    let mut end = 0x9000;
    for row in rows {
        end = u64::from(row.offset) + u64::from(row.size);
    }
    end
}

/// The next multiple of a unit.
fn raised(unit: u32, n: u64) -> u64
    requires some { 0 < unit }
    requires most { n < 2 ^ 33 }
    ensures exact { result ≡ raised unit n }
{
    let unit = u64::from(unit);
    (n + (unit - 1)) / unit * unit
}

/// The offset of a partition of this type behind these rows.
#[tactic(auto, unfolding(crate::specs::Source::offset_of))]
fn offset_of(kind: u8, rows: &[Row], text: &[u8]) -> Option<u32>
    ensures exact { result ≡ offset_of kind rows.now text.now }
{
    if text.len() != 0 {
        return number_of(text);
    }
    let offset = raised(alignment_of(kind), end_of(rows));
    if offset > 0xFFFF_FFFF {
        return None;
    }
    Some(offset as u32)
}

/// Whether a row has this label.
#[tactic(auto, unfolding(crate::specs::Source::has_label))]
fn has_label(label: &[u8; 16], rows: &[Row]) -> bool
    ensures exact { result ≡ has_label label.now rows.now }
{
    for i in 0..rows.len() {
        if rows[i].label == *label {
            return true;
        }
    }
    false
}

/// The row of a record behind these rows, or the first reason why it has none.
#[tactic(auto, unfolding(crate::specs::Source::row_of))]
pub(crate) fn row_of(rows: &[Row], line: &ByteRecord) -> Result<Row, CsvWhy>
    ensures exact { result ≡ row_of rows.now (fields_of line.now) }
    ensures room { OnOk result (length rows.now ≢ 94) }
{
    if has_more(line) {
        return Err(CsvWhy::Fields);
    }
    let Some(label) = label_of(column(line, 0)) else {
        return Err(CsvWhy::Name);
    };
    let Some(kind) = kind_of(column(line, 1)) else {
        return Err(CsvWhy::Kind);
    };
    let Some(subtype) = subtype_of(kind, column(line, 2)) else {
        return Err(CsvWhy::Subtype);
    };
    let Some(offset) = offset_of(kind, rows, column(line, 3)) else {
        return Err(CsvWhy::Offset);
    };
    let Some(size) = number_of(column(line, 4)) else {
        return Err(CsvWhy::Size);
    };
    let Some(flags) = flags_of(column(line, 5)) else {
        return Err(CsvWhy::Flag);
    };
    if has_label(&label, rows) {
        return Err(CsvWhy::SameName);
    }
    if rows.len() == 94 {
        return Err(CsvWhy::TooManyRows);
    }
    Ok(Row {
        kind,
        subtype,
        offset,
        size,
        label,
        flags,
    })
}
