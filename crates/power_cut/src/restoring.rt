//! Bytes of a flash, copied where they may have changed.

ghost use Rattle.std.specs.Prelude.{◌≡◌, ◌≤◌, ◌+◌, false, length};
ghost use Rattle.crash_images.specs.Agrees.{Agrees};
ghost use Rattle.flash_steps.specs.Parts.{open_addresses};
ghost use Rattle.update_steps.specs.Beside.{IsSpared};
ghost use Rattle.power_cut.specs.Restoring.{IsCopied, IsRestored, pasted};

use flash_steps::row_barred;
use partition_table::Row;

/// Makes the bytes those of the flash again, where only those of partitions may have changed that
/// may be written to.
pub(crate) fn restore_rows(flash: &[u8], bytes: &mut [u8], rows: &[Row])
    requires kept { Agrees (IsSpared (open_addresses rows.now)) flash.now bytes.old }
    ensures exact { bytes.new ≡ flash.now }
{
    for i in 0..rows.len() {
        restore_row(flash, bytes, &rows[i]);
    }
}

/// Copies the bytes of a partition, where it may be written to.
fn restore_row(flash: &[u8], bytes: &mut [u8], row: &Row)
    requires length { length bytes.old ≡ length flash.now }
    ensures restored { IsRestored flash.now row.now bytes.old bytes.new }
{
    if row_barred(row).is_none() {
        copy_part(flash, bytes, row.offset as usize, row.size as usize);
    }
}

/// Copies so many bytes of the flash from an address on, as far as there are any.
pub(crate) fn copy_part(flash: &[u8], bytes: &mut [u8], at: usize, size: usize)
    requires length { length bytes.old ≡ length flash.now }
    ensures copied { IsCopied flash.now at (at + size) bytes.old bytes.new }
{
    let start = at.min(flash.len());
    let len = size.min(flash.len() - start);
    copy_range(flash, bytes, start, len);
}

/// Copies so many bytes of the flash from an address on.
fn copy_range(flash: &[u8], bytes: &mut [u8], start: usize, len: usize)
    requires length { length bytes.old ≡ length flash.now }
    requires within { start + len ≤ length flash.now }
    ensures exact { bytes.new ≡ pasted flash.now start len bytes.old }
{
    bytes[start..start + len].copy_from_slice(&flash[start..start + len]);
}
