//! Writing a part of bytes at its place.

ghost use Rattle.std.specs.Prelude.{◌≡◌, ◌≤◌, ◌+◌, ◌++◌, length, take, drop};

/// Writes a part at a place.
pub(crate) fn put_at(out: &mut [u8], at: usize, part: &[u8])
    requires { at + length part.now ≤ length out.old }
    ensures written { take (at + length part.now) out.new ≡ take at out.old ++ part.now }
    ensures length { length out.new ≡ length out.old }
{
    out[at..at + part.len()].copy_from_slice(part);
}
