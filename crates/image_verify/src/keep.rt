//! The first bytes of what comes.

ghost use Rattle.std.specs.Prelude.{◌≡◌, ◌≤◌, ◌++◌, length, take};

use arrayvec::ArrayVec;

/// Keeps of the bytes that come as many as are wanted.
pub(crate) fn keep<const N: usize>(kept: &mut ArrayVec<u8, N>, want: usize, part: &[u8])
    requires { want ≤ N }
    ensures { length kept.old.items ≤ want
        → kept.new.items ≡ take want (kept.old.items ++ part.now) }
{
    let more = part.len().min(want.saturating_sub(kept.len()));
    let Ok(()) = kept.try_extend_from_slice(&part[..more]) else {
        unreachable!();
    };
}
