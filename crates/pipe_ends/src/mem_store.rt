//! A store in memory, some of whose calls fail.
ghost use Rattle.std.specs.Prelude.{◌≡◌, position};
ghost use Rattle.pipe_ends.specs.MemStore.{AreDistinct, TellsJust, files_of, has_name};

use crate::calls::Calls;
use crate::fault::{GetFault, PutFault};
use crate::file::File;
use crate::store::Store;
use std::alloc::Global;
use std::marker::Model;

/// A store that keeps its files in memory and tells them. Calls of `get` and `put` are counted
/// together, from 1, and those whose number is in the given list fail.
#[derive(Debug, Drop)]
pub struct MemStore {
    files: Vec<File>,
    calls: Calls,
}

// Clauses see the files by name, and the counted calls.
impl Model for MemStore {
    ghost use Rattle.pipe_ends.specs.MemStore.{StoreState, store_code, files_of};

    ghost Value = { StoreState };

    ghost coded = { store_code };

    ghost view = { λ s. record { files = files_of s.files.items; calls = s.calls } };
}

impl MemStore {
    /// A store of these files, whose names differ. It takes no memory.
    #[tactic(auto, using(crate::proofs::FilesLemmas::tells_just))]
    pub fn new(files: Vec<File>, failing: Vec<u64>) -> MemStore
        requires { AreDistinct files.items }
        ensures files { result.files ≡ files_of files.items }
        ensures given { TellsJust result.files files.items }
        ensures counted { result.calls ≡ record { failing = failing.items; made = 0; faults = 0 } }
    {
        MemStore {
            files,
            calls: Calls::new(failing),
        }
    }
}

impl Store for MemStore {
    ghost use Rattle.std.specs.Prelude.{◌≡◌, ◌≤◌, ◌↔◌, OnOk, OnErr, IfOk, IsErrOf, IsTrue, Some, None};
    ghost use Rattle.std.specs.FinMap as map;
    ghost use Rattle.pipe_ends.specs.Calls.{fails_next};
    ghost use Rattle.pipe_ends.specs.MemStore.{LacksNext, counted, stored};

    ghost files = { λ store. Some store.files };

    ghost faults = { λ store. store.calls.faults };

    /// The bytes of the file of this name.
    fn get(&mut self, alloc: Global, name: &str) -> Result<Vec<u8>, GetFault>
        ensures bytes { IfOk result (λ bytes. map.get self.old.files name.now ≡ Some bytes.items) }
        ensures absent { IsErrOf result GetFault.Absent ↔ LacksNext self.old name.now }
        ensures cause { IsErrOf result GetFault.Failed ↔ IsTrue (fails_next self.old.calls) }
        ensures counted { self.new ≡ counted self.old }
        ensures later { self.old.calls.faults ≤ self.new.calls.faults }
    {
        if self.calls.next_fails() {
            return Err(GetFault::Failed);
        }
        let Some(place) = place_of(&self.files, name) else {
            return Err(GetFault::Absent);
        };
        Ok(Vec::from_slice(alloc, &self.files[place].bytes)?)
    }

    /// Gives the file of this name these bytes.
    fn put(&mut self, alloc: Global, name: &str, bytes: &[u8]) -> Result<(), PutFault>
        ensures ok { OnOk result (self.new ≡ stored self.old name.now bytes.now) }
        ensures same { OnErr result (self.new ≡ counted self.old) }
        ensures cause { IsErrOf result PutFault.Failed ↔ IsTrue (fails_next self.old.calls) }
        ensures later { self.old.calls.faults ≤ self.new.calls.faults }
    {
        if self.calls.next_fails() {
            return Err(PutFault::Failed);
        }
        let bytes = Vec::from_slice(alloc, bytes)?;
        match place_of(&self.files, name) {
            Some(place) => self.files[place].bytes = bytes,
            None => {
                let name = String::from_str(alloc, name)?;
                self.files.push(File { name, bytes })?;
            }
        }
        Ok(())
    }
}

/// The place of the first file with this name.
fn place_of(files: &[File], name: &str) -> Option<usize>
    ensures { result ≡ position (has_name name.now) files.now }
{
    files.iter().position(|file| file.name.as_str() == name)
}
