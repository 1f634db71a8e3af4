//! What boots behind each cut of an update.

ghost use Rattle.std.specs.Prelude.{◌≡◌};
ghost use Rattle.power_cut.specs.declared.swept.SweepNo.TheVariants.{Memory as NoMemory};

use crate::legs::LegEnd;
use boot_run::Booted;
use bus_hub::Memory;

/// The steps of an update, and for each of them, in order, what boots where the power went off in
/// it.
#[derive(Drop)]
pub struct Sweep {
    pub steps: u64,
    pub after: Vec<Booted>,
}

/// Why there is no sweep.
#[derive(Clone, Copy, Debug, PartialEq, Eq)]
pub enum SweepNo {
    /// The session was not made whole, by what its bytes show.
    Refused(LegEnd),
    /// Out of memory.
    Memory,
}

impl From<Memory> for SweepNo {
    ghost from_gives = { λ _ why. why ≡ NoMemory };

    /// Out of memory.
    fn from(_none: Memory) -> SweepNo {
        SweepNo::Memory
    }
}
