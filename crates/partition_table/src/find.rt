//! The row that has a label.

ghost use Rattle.std.specs.Prelude.{◌≡◌, ◌≤◌, length};
ghost use Rattle.partition_table.specs.Find.{has_label, padded_label, row_of_label};

use crate::row::Row;

/// Whether a row's label is this text and zeros behind it.
#[tactic(auto, unfolding(crate::specs::Find::has_label))]
fn has_label(row: &Row, label: &[u8]) -> bool
    ensures exact { result ≡ has_label label.now row.now }
{
    label.len() <= 16 && row.label == padded_label(label)
}

/// A label and zeros behind it.
pub fn padded_label(label: &[u8]) -> [u8; 16]
    requires within { length label.now ≤ 16 }
    ensures exact { result ≡ padded_label label.now }
{
    let mut padded = [0; 16];
    padded[..label.len()].copy_from_slice(label);
    padded
}

/// The number of the first row with this label.
#[tactic(auto, unfolding(crate::specs::Find::row_of_label))]
pub(crate) fn row_of_label(rows: &[Row], label: &[u8]) -> Option<u8>
    requires { length rows.now ≤ 94 }
    ensures exact { result ≡ row_of_label label.now rows.now }
{
    for i in 0..rows.len() {
        if has_label(&rows[i], label) {
            return Some(i as u8);
        }
    }
    None
}
