//! The lines of a table, and what is wrong with one or with its source, in words.

ghost use Rattle.std.specs.Prelude.{◌≡◌, ◌<◌, ◌≤◌, ◌^◌, ◌++◌, OnOk, codes, decimal, map, length};
ghost use Rattle.flash_text.specs.TableText.{before_zero, csv_text, csv_why_text, glyph, hex_number, pair_text, row_line, row_lines, row_name, row_numbers, rows_line, shown_text, table_bad_text};

use crate::text::{put_numbered, put_text};
use part_csv::CsvWhy;
use partition_table::{Row, TableBad};
use pipe_ends::{Memory, put_hex, put_number};

/// The first visible character, behind the space.
const VISIBLE: u8 = 33;

/// Appends what is wrong with a table.
#[tactic(auto, unfolding(crate::specs::TableText::table_bad_text))]
pub(crate) fn put_table_bad(out: &mut Vec<u8>, why: TableBad) -> Result<(), Memory>
    ensures ok { OnOk result (out.new.items ≡ out.old.items ++ table_bad_text why) }
{
    match why {
        TableBad::Magic { row } => put_row(out, "table magic row ", row),
        TableBad::Md5 { row } => put_row(out, "table md5 row ", row),
        TableBad::NoEnd => put_text(out, "table no end"),
        TableBad::Align { row } => put_row(out, "table align row ", row),
        TableBad::Range { row } => put_row(out, "table range row ", row),
        TableBad::Overlap { a, b } => put_rows(out, "table overlap rows ", a, b),
        TableBad::TwoOf { a, b } => put_rows(out, "table two rows ", a, b),
        TableBad::NoOtadata => put_text(out, "table no otadata"),
        TableBad::OtadataSize { size } => put_value(out, "table otadata size ", size),
        TableBad::OtadataFlags { flags } => put_value(out, "table otadata flags ", flags),
        TableBad::NoFactory => put_text(out, "table no factory"),
        TableBad::SlotGap { slot } => put_row(out, "table slot gap ", slot),
        TableBad::AppHigh { row } => put_row(out, "table app high row ", row),
    }
}

/// Appends words and a small number.
pub(crate) fn put_row(out: &mut Vec<u8>, text: &str, row: u8) -> Result<(), Memory>
    ensures ok { OnOk result (out.new.items ≡ out.old.items ++ (text.now ++ decimal row)) }
{
    put_numbered(out, text, u64::from(row))
}

/// Appends words and a number.
fn put_value(out: &mut Vec<u8>, text: &str, value: u32) -> Result<(), Memory>
    ensures ok { OnOk result (out.new.items ≡ out.old.items ++ (text.now ++ decimal value)) }
{
    put_numbered(out, text, u64::from(value))
}

/// Appends words and two numbers.
pub(crate) fn put_rows(out: &mut Vec<u8>, text: &str, a: u8, b: u8) -> Result<(), Memory>
    ensures ok { OnOk result (out.new.items ≡ out.old.items ++ (text.now ++ pair_text a b)) }
{
    put_text(out, text)?;
    put_number(out, u64::from(a))?;
    put_text(out, " ")?;
    put_number(out, u64::from(b))
}

/// Appends what is wrong with the record of this number.
#[tactic(auto, unfolding(crate::specs::TableText::csv_text))]
pub(crate) fn put_csv(out: &mut Vec<u8>, number: u64, why: CsvWhy) -> Result<(), Memory>
    ensures ok { OnOk result (out.new.items ≡ out.old.items ++ csv_text number why) }
{
    put_text(out, "csv record ")?;
    put_number(out, number)?;
    put_text(out, " ")?;
    put_text(out, csv_why_text(why))
}

/// What is wrong with a record, in a word.
fn csv_why_text(why: CsvWhy) -> &'static str
    ensures exact { result.now ≡ csv_why_text why }
{
    match why {
        CsvWhy::Fields => "fields",
        CsvWhy::Name => "name",
        CsvWhy::Kind => "kind",
        CsvWhy::Subtype => "subtype",
        CsvWhy::Offset => "offset",
        CsvWhy::Size => "size",
        CsvWhy::Flag => "flag",
        CsvWhy::SameName => "samename",
        CsvWhy::TooManyRows => "toomanyrows",
    }
}

/// Appends the line that tells how many partitions there are.
#[tactic(auto, unfolding(crate::specs::TableText::rows_line))]
pub fn put_count(out: &mut Vec<u8>, rows: &[Row]) -> Result<(), Memory>
    ensures ok { OnOk result (out.new.items ≡ out.old.items ++ rows_line rows.now) }
{
    put_text(out, "rows ")?;
    put_number(out, rows.len() as u64)?;
    put_text(out, "\n")
}

/// Appends the lines of partitions.
pub fn put_rows_lines(out: &mut Vec<u8>, rows: &[Row]) -> Result<(), Memory>
    ensures ok { OnOk result (out.new.items ≡ out.old.items ++ row_lines rows.now) }
{
    match rows {
        [] => Ok(()),
        [row, more @ ..] => {
            put_row_line(out, row)?;
            put_rows_lines(out, more)
        }
    }
}

/// Appends the line of a partition.
#[tactic(auto, unfolding(crate::specs::TableText::row_line))]
fn put_row_line(out: &mut Vec<u8>, row: &Row) -> Result<(), Memory>
    ensures ok { OnOk result (out.new.items ≡ out.old.items ++ row_line row.now) }
{
    put_row_name(out, row)?;
    put_row_numbers(out, row)?;
    put_text(out, "\n")
}

/// Appends a partition's name and type.
#[tactic(auto, unfolding(crate::specs::TableText::row_name))]
fn put_row_name(out: &mut Vec<u8>, row: &Row) -> Result<(), Memory>
    ensures ok { OnOk result (out.new.items ≡ out.old.items ++ row_name row.now) }
{
    put_shown(out, VISIBLE, &row.label)?;
    put_text(out, " ")?;
    put_number(out, u64::from(row.kind))
}

/// Appends a partition's subtype, offset, size and flags.
#[tactic(auto, unfolding(crate::specs::TableText::row_numbers))]
fn put_row_numbers(out: &mut Vec<u8>, row: &Row) -> Result<(), Memory>
    ensures ok { OnOk result (out.new.items ≡ out.old.items ++ row_numbers row.now) }
{
    put_hex_number(out, u64::from(row.subtype), 2)?;
    put_hex_number(out, u64::from(row.offset), 8)?;
    put_hex_number(out, u64::from(row.size), 8)?;
    put_hex_number(out, u64::from(row.flags), 8)
}

/// Appends a number of so many hex digits.
#[tactic(auto, unfolding(crate::specs::TableText::hex_number))]
pub(crate) fn put_hex_number(out: &mut Vec<u8>, number: u64, digits: u8) -> Result<(), Memory>
    requires some { 1 ≤ digits }
    requires most { digits ≤ 16 }
    requires fits { number < 16 ^ digits }
    ensures ok { OnOk result (out.new.items ≡ out.old.items ++ hex_number digits number) }
{
    put_text(out, " 0x")?;
    put_hex(out, number, digits)
}

/// Appends a text of a fixed length as it is shown, where this is the least byte that is shown.
#[tactic(auto, unfolding(crate::specs::TableText::shown_text))]
pub(crate) fn put_shown(out: &mut Vec<u8>, least: u8, text: &[u8]) -> Result<(), Memory>
    ensures ok { OnOk result (out.new.items ≡ out.old.items ++ shown_text least text.now) }
{
    if text.is_empty() || text[0] == 0 {
        put_text(out, "-")
    } else {
        put_glyphs(out, least, text)
    }
}

/// Appends the bytes before the first zero, each as it is shown.
fn put_glyphs(out: &mut Vec<u8>, least: u8, text: &[u8]) -> Result<(), Memory>
    ensures ok { OnOk result
        (out.new.items ≡ out.old.items ++ map (glyph least) (before_zero text.now)) }
{
    match text {
        [] => Ok(()),
        [byte, more @ ..] => {
            if *byte == 0 {
                return Ok(());
            }
            out.extend_from_slice(&[glyph(least, *byte)])?;
            put_glyphs(out, least, more)
        }
    }
}

/// A byte as it is shown.
fn glyph(least: u8, byte: u8) -> u8
    ensures exact { result ≡ glyph least byte }
{
    if least <= byte && byte <= 126 {
        byte
    } else {
        b'?'
    }
}
