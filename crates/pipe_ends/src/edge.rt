//! The trusted edge: files and standard output, of which no contract can tell.
ghost use Rattle.std.specs.Prelude.{◌≡◌, None};

use crate::fault::{GetFault, PushFault, PutFault};
use crate::sink::Sink;
use crate::store::Store;
use crate::whole_file::{read_whole, write_whole};
use std::alloc::Global;
use std::io::ErrorKind;
use std::rt::Files;

/// Files of the system, under the current folder where the name is no path from the root. It tells
/// none of them. No such file is `Absent`, out of memory is `Memory`, and all else is counted. A put
/// leaves a file whole: with the new bytes, or after a refusal with the old ones.
#[derive(Drop)]
pub struct DirStore<'a, R: Files + AllocGlobal> {
    rt: &'a R,
    faults: u64,
}

impl<'a, R: Files + AllocGlobal> DirStore<'a, R> {
    /// A store over this runtime's files, with no fault yet.
    pub fn new(rt: &'a R) -> DirStore<'a, R>
        ensures { ⟦<DirStore<'a, R> as Store>⟧.faults result ≡ 0 }
    {
        DirStore { rt, faults: 0 }
    }
}

impl<'a, R: Files + AllocGlobal> Store for DirStore<'a, R> {
    ghost files = { λ _. None };

    ghost faults = { λ store. store.faults };

    /// The bytes of the file of this name, read whole.
    fn get(&mut self, alloc: Global, name: &str) -> Result<Vec<u8>, GetFault> {
        match read_whole(self.rt, alloc, name) {
            Ok(bytes) => Ok(bytes),
            Err(refused) => match refused.kind() {
                ErrorKind::NotFound => Err(GetFault::Absent),
                ErrorKind::OutOfMemory => Err(GetFault::Memory),
                _ => {
                    self.faults = self.faults.saturating_add(1);
                    Err(GetFault::Failed)
                }
            },
        }
    }

    /// Gives the file of this name these bytes, whole or not at all.
    fn put(&mut self, _alloc: Global, name: &str, bytes: &[u8]) -> Result<(), PutFault> {
        match write_whole(self.rt, name, bytes) {
            Ok(()) => Ok(()),
            Err(refused) if refused.kind() == ErrorKind::OutOfMemory => Err(PutFault::Memory),
            Err(_) => {
                self.faults = self.faults.saturating_add(1);
                Err(PutFault::Failed)
            }
        }
    }
}

/// Standard output. It tells none of the bytes. Out of memory is `Memory`, all else is counted.
#[derive(Drop)]
pub struct StdSink<'a, R: Print> {
    rt: &'a R,
    faults: u64,
}

impl<'a, R: Print> StdSink<'a, R> {
    /// A sink over this runtime's standard output, with no fault yet.
    pub fn new(rt: &'a R) -> StdSink<'a, R>
        ensures { ⟦<StdSink<'a, R> as Sink>⟧.faults result ≡ 0 }
    {
        StdSink { rt, faults: 0 }
    }
}

impl<'a, R: Print> Sink for StdSink<'a, R> {
    ghost pushed = { λ _. None };

    ghost faults = { λ sink. sink.faults };

    /// Writes all of the bytes.
    fn push(&mut self, _alloc: Global, bytes: &[u8]) -> Result<(), PushFault> {
        match self.rt.write_all(bytes) {
            Ok(()) => Ok(()),
            Err(refused) if refused.kind() == ErrorKind::OutOfMemory => Err(PushFault::Memory),
            Err(_) => {
                self.faults = self.faults.saturating_add(1);
                Err(PushFault::Failed)
            }
        }
    }
}
