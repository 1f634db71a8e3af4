//! What a bootloader rewrites before it starts an application: an entry whose application did not
//! confirm itself is aborted, and an active entry that is new begins to wait for that.

ghost use Rattle.std.specs.Prelude.{◌≡◌, ◌+◌, ◌<◌, ◌≤◌, ◌↔◌, [], ◌++◌, length};
ghost use Rattle.boot_select.specs.Settled.{NoneWaits, sectors};
ghost use Rattle.rollback.specs.Boot.{abort, begin, begin_in, boot_writes, given_up};

use crate::rewrite::{Rewrite, restated, with_state};
use arrayvec::ArrayVec;
use otadata::{Entry, active, state};

/// The rewrites of a boot, in order.
#[tactic(auto, unfolding(crate::specs::Boot::boot_writes))]
pub fn boot_writes(e0: &Entry, e1: &Entry) -> ArrayVec<Rewrite, 2>
    ensures exact { result.items ≡ boot_writes (sectors e0.now e1.now) }
    ensures none { (result.items ≡ []) ↔ NoneWaits e0.now e1.now }
{
    let mut writes = ArrayVec::new();
    abort(&mut writes, 0, e0);
    abort(&mut writes, 1, e1);
    begin(writes, &given_up(e0), &given_up(e1))
}

/// Appends the rewrite that aborts an entry, where it waits.
fn abort(writes: &mut ArrayVec<Rewrite, 2>, sector: u8, entry: &Entry)
    requires { length writes.old.items < 2 }
    ensures items { writes.new.items ≡ writes.old.items ++ abort sector entry.now }
    ensures length { length writes.new.items ≤ length writes.old.items + 1 }
{
    if entry.state == state::PENDING_VERIFY {
        writes.push(restated(state::ABORTED, sector, entry));
    }
}

/// The entry once those that wait are aborted.
fn given_up(entry: &Entry) -> Entry
    ensures exact { result ≡ given_up entry.now }
{
    if entry.state == state::PENDING_VERIFY {
        with_state(state::ABORTED, entry)
    } else {
        *entry
    }
}

/// The rewrites with the one that lets the active entry wait, where it is new.
fn begin(writes: ArrayVec<Rewrite, 2>, first: &Entry, second: &Entry) -> ArrayVec<Rewrite, 2>
    requires first { first.now.state ≡ 0 → length writes.items < 2 }
    requires second { second.now.state ≡ 0 → length writes.items < 2 }
    ensures exact { result.items ≡ writes.items ++ begin first.now second.now }
{
    match active(first, second) {
        None => writes,
        Some(0) => begin_in(writes, 0, first),
        Some(_) => begin_in(writes, 1, second),
    }
}

/// The rewrites with the one that lets an entry wait, where it is new.
fn begin_in(mut writes: ArrayVec<Rewrite, 2>, sector: u8, entry: &Entry) -> ArrayVec<Rewrite, 2>
    requires { entry.now.state ≡ 0 → length writes.items < 2 }
    ensures exact { result.items ≡ writes.items ++ begin_in sector entry.now }
{
    if entry.state == state::NEW {
        writes.push(restated(state::PENDING_VERIFY, sector, entry));
    }
    writes
}
