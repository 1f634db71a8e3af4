//! What a value that the two cores pass to one another shows of them.
ghost use Rattle.std.specs.Prelude.{◌≡◌, ℕ, ◌<◌, List, Option};
ghost use Rattle.core_state.specs.declared.registers.Record.{Record};

use crate::Record;

/// A value that goes with the turn from core to core, and carries the records of both.
///
/// Neither a base nor a share is made at run time: they are what contracts say of the value.
pub trait Records {
    /// What is fixed when the value is made.
    type Base;
    /// One thing that a core did to the value.
    type Did;

    /// The record of a core.
    ghost records: { Self → ℕ → Record };
    /// The core whose step runs in the value, if one runs.
    ghost runs: { Self → Option ℕ };
    /// Whether the value stands for a base and for what core 0 and core 1 did to it.
    ghost stands: { Self → Self.Base → List Self.Did → List Self.Did → Type 0 };

    /// The record of a core.
    fn record(&self, core: u8) -> Record
        requires { core < 2 }
        ensures { result ≡ records self.now core };

    /// The core whose step runs in the value, if one runs.
    fn running(&self) -> Option<u8>
        ensures { result ≡ runs self.now };
}
