//! The room in the journal for a script.

ghost use Rattle.std.specs.Prelude.{◌≡◌, ◌≤◌};
ghost use Rattle.duo_run.specs.Room.{entries_in, bytes_in, worker_room};

use bus_hub::Room;
use core_script::{Action, Script};

/// The entries that an action needs at most.
fn entries_in(action: &Action) -> u32
    ensures exact { result ≡ entries_in action.now }
{
    match action {
        Action::Write { .. } => 3,
        Action::Erase { len, .. } => 2 * len.div_ceil(4096) + 1,
        _ => 1,
    }
}

/// The bytes that it fetches.
fn bytes_in(action: &Action) -> u32
    ensures exact { result ≡ bytes_in action.now }
{
    match action {
        Action::Fetch { len, .. } => *len,
        _ => 0,
    }
}

/// The entries that the actions of a script need at most, and the bytes that they fetch.
pub(crate) fn worker_room(script: &Script) -> Room
    ensures exact { result ≡ worker_room script.now }
    ensures entries { result.entries ≤ 143360 }
    ensures bytes { result.bytes ≤ 1048576 }
{
    let mut entries = 0;
    let mut bytes = 0;
    for i in 0..script.len() {
        let action = script.action(i);
        entries += entries_in(&action);
        bytes += bytes_in(&action);
    }
    Room { entries, bytes }
}
