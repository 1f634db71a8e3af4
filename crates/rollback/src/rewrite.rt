//! A rewrite of an entry.

ghost use Rattle.std.specs.Prelude.{◌≡◌};
ghost use Rattle.rollback.specs.Rewrite.{restated, with_state};

use otadata::Entry;

/// A rewrite of the entry of a sector: the sector is erased, and then this entry is programmed.
#[derive(Clone, Copy, Debug, Default, PartialEq, Eq)]
pub struct Rewrite {
    /// 0 or 1.
    pub sector: u8,
    /// What the sector says afterwards.
    pub entry: Entry,
}

/// The entry in another state.
pub(crate) fn with_state(state: u32, entry: &Entry) -> Entry
    ensures exact { result ≡ with_state state entry.now }
{
    Entry { state, ..*entry }
}

/// The rewrite that gives the entry of a sector another state.
pub(crate) fn restated(state: u32, sector: u8, entry: &Entry) -> Rewrite
    ensures exact { result ≡ restated state sector entry.now }
{
    Rewrite {
        sector,
        entry: with_state(state, entry),
    }
}
