//! From rows to the bytes of a table.

ghost use Rattle.std.specs.Prelude.{◌≡◌, ◌≤◌, ◌+◌, ◌*◌, length, take};
ghost use Rattle.std.specs.List.{AllByRecursion};
ghost use Rattle.partition_table.specs.Row.{IsSized, rows_text};
ghost use Rattle.partition_table.specs.Table.{table_text};

use crate::put::put_at;
use crate::read::digest_row;
use crate::row::Row;

/// Writes the text of a table: its rows, the row of their digest, and 0xFF to the end.
#[tactic(auto, unfolding(crate::specs::Table::table_text))]
pub(crate) fn put_table(rows: &[Row], out: &mut [u8])
    requires few { length rows.now ≤ 94 }
    requires size { length out.old ≡ 0xC00 }
    ensures bytes { out.new ≡ table_text rows.now }
    ensures sized { AllByRecursion IsSized rows.now }
{
    put_rows(rows, out);
    let end = 32 * rows.len();
    let digest = digest_row(&out[..end]);
    put_at(out, end, &digest);
    out[end + 32..].fill(0xFF);
}

/// Writes the bytes of rows, from the first place on.
fn put_rows(rows: &[Row], out: &mut [u8])
    requires { 32 * length rows.now ≤ length out.old }
    ensures written { take (32 * length rows.now) out.new ≡ rows_text rows.now }
    ensures length { length out.new ≡ length out.old }
    ensures sized { AllByRecursion IsSized rows.now }
{
    for i in 0..rows.len() {
        put_at(out, 32 * i, &rows[i].text());
    }
}
