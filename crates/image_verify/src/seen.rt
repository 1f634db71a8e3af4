//! How many bytes came, and the first of them.

ghost use Rattle.std.specs.Prelude.{◌≡◌, ◌++◌, List, ℕ, []};
ghost use Rattle.image_verify.specs.Seen.{IsSeen};

use crate::keep::keep;
use arrayvec::ArrayVec;

/// How many of the first bytes are kept: header, first head and description.
pub(crate) const FRONT: usize = 112;

/// How many bytes came, and the first 112 of them.
#[derive(Clone, Drop)]
pub(crate) struct Seen {
    pub(crate) count: u64,
    pub(crate) front: ArrayVec<u8, 112>,
}

impl Seen {
    /// Nothing came yet.
    pub(crate) fn new() -> Seen
        ensures { IsSeen result [] }
    {
        Seen {
            count: 0,
            front: ArrayVec::new(),
        }
    }

    /// More bytes came.
    pub(crate) fn saw(&mut self, part: &[u8])
        ensures { (bytes : List ℕ) → IsSeen self.old bytes → IsSeen self.new (bytes ++ part.now) }
    {
        keep(&mut self.front, FRONT, part);
        self.count = self.count.saturating_add(part.len() as u64);
    }
}
