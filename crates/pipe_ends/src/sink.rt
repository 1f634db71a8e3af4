//! A sink of bytes, as the code above sees it.
ghost use Rattle.std.specs.Prelude.{◌≡◌, ℕ, ◌≤◌, List, Option, OnOk, OnErr, IsErrOf};
ghost use Rattle.pipe_ends.specs.Fault.{Rose};
ghost use Rattle.pipe_ends.specs.Sink.{TellsAll, TellsSome};

use crate::fault::PushFault;
use std::alloc::Global;

/// A place for bytes. A sink counts its faults, and may tell which bytes it took.
pub trait Sink {
    /// The bytes pushed so far, where the sink tells them. Standard output tells nothing.
    ghost pushed: { Self → Option (List ℕ) };

    /// How many faults the sink has counted. The count never falls, and stays at 2^64 - 1.
    ghost faults: { Self → ℕ };

    /// Takes all of the bytes, or after a refusal the first of them: none, some or all.
    fn push(&mut self, alloc: Global, bytes: &[u8]) -> Result<(), PushFault>
        ensures ok { OnOk result (TellsAll (pushed self.old) bytes.now (pushed self.new)) }
        ensures err { OnErr result (TellsSome (pushed self.old) bytes.now (pushed self.new)) }
        ensures later { faults self.old ≤ faults self.new }
        ensures cause { IsErrOf result PushFault.Failed
            → Rose (faults self.old) (faults self.new) };
}
