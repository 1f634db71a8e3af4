//! What a core does while it is parked.
ghost use Rattle.std.specs.Prelude.{◌≡◌, IsSome};

use core_state::Record;

/// What a core does, again and again, while it is parked. It has no access to the flash or the cache.
pub trait Parked {
    /// The plain data that it means.
    ghost Kept: { Type 0 };
    /// What a turn leaves as it was.
    ghost kept: { Self → Kept };

    /// One turn, by the record of its core, whose own registers are saved.
    fn turn(&mut self, rec: &Record)
        requires saved { IsSome rec.now.saved }
        ensures kept { kept self.new ≡ kept self.old };
}

/// A parked core that does nothing.
#[derive(Drop)]
pub(crate) struct NoTurn;

impl Parked for NoTurn {
    ghost Kept = { Unit {0} };

    ghost kept = { λ _. tt };

    fn turn(&mut self, _rec: &Record) {}
}
