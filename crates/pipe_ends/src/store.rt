//! A store of files by name, as the code above sees it.
ghost use Rattle.std.specs.Prelude.{◌≡◌, ℕ, ◌≤◌, Option, OnOk, OnErr, IfOk, IsErrOf};
ghost use Rattle.pipe_ends.specs.Fault.{Rose};
ghost use Rattle.pipe_ends.specs.Store.{Files, TellsFile, TellsNoFile, TellsPut};

use crate::fault::{GetFault, PutFault};
use std::alloc::Global;

/// Files by name. A store counts its faults, and may tell which files it has.
pub trait Store {
    /// The files, where the store tells them. One over a real folder tells nothing.
    ghost files: { Self → Option Files };

    /// How many faults the store has counted. The count never falls, and stays at 2^64 - 1.
    ghost faults: { Self → ℕ };

    /// The bytes of the file of this name. It leaves every file as it is, answered or refused.
    fn get(&mut self, alloc: Global, name: &str) -> Result<Vec<u8>, GetFault>
        ensures bytes { IfOk result (λ bytes. TellsFile (files self.old) name.now bytes.items) }
        ensures absent { IsErrOf result GetFault.Absent → TellsNoFile (files self.old) name.now }
        ensures same { files self.new ≡ files self.old }
        ensures later { faults self.old ≤ faults self.new }
        ensures cause { IsErrOf result GetFault.Failed
            → Rose (faults self.old) (faults self.new) };

    /// Gives the file of this name these bytes, and makes it where there is none. Every other file
    /// stays as it is, and so does this one after a refusal.
    fn put(&mut self, alloc: Global, name: &str, bytes: &[u8]) -> Result<(), PutFault>
        ensures ok { OnOk result (TellsPut (files self.old) name.now bytes.now (files self.new)) }
        ensures same { OnErr result (files self.new ≡ files self.old) }
        ensures later { faults self.old ≤ faults self.new }
        ensures cause { IsErrOf result PutFault.Failed
            → Rose (faults self.old) (faults self.new) };
}
