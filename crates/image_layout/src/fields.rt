//! Fields written at a place, one after the other.

ghost use Rattle.std.specs.Prelude.{◌≡◌, ◌≤◌, ◌+◌, ◌++◌, length, take};
ghost use Rattle.byteorder.specs.Endian.{little_bytes};

use byteorder::{ByteOrder, LittleEndian};

/// Writes a part at a place. What stands before it stays.
pub(crate) fn put_at(out: &mut [u8], at: usize, part: &[u8])
    requires { at + length part.now ≤ length out.old }
    ensures written { take (at + length part.now) out.new ≡ take at out.old ++ part.now }
    ensures length { length out.new ≡ length out.old }
{
    out[at..at + part.len()].copy_from_slice(part);
}

/// Writes a number of 2 bytes at a place.
pub(crate) fn put_u16(out: &mut [u8], at: usize, number: u16)
    requires { at + 2 ≤ length out.old }
    ensures written { take (at + 2) out.new ≡ take at out.old ++ little_bytes 2 number }
    ensures length { length out.new ≡ length out.old }
{
    let mut bytes = [0; 2];
    LittleEndian::write_u16(&mut bytes, number);
    put_at(out, at, &bytes);
}

/// Writes a number of 4 bytes at a place.
pub(crate) fn put_u32(out: &mut [u8], at: usize, number: u32)
    requires { at + 4 ≤ length out.old }
    ensures written { take (at + 4) out.new ≡ take at out.old ++ little_bytes 4 number }
    ensures length { length out.new ≡ length out.old }
{
    let mut bytes = [0; 4];
    LittleEndian::write_u32(&mut bytes, number);
    put_at(out, at, &bytes);
}
