//! Files of a store, as the program reads and puts them.

ghost use Rattle.std.specs.Prelude.{◌≡◌, ◌≢◌, ◌≤◌, [], IfOk, IfErr, OnOk, OnErr, map, string_bytes, Some};
ghost use Rattle.pipe_ends.specs.Store.{TellsPut};
ghost use Rattle.pipe_ends.specs.MemStore.{named_bytes};
ghost use Rattle.flash_cli.specs.Answer.{TellsPuts, TellsSomePuts};
ghost use Rattle.flash_cli.specs.Reading.{TellsAnswer};
ghost use Rattle.flash_cli.specs.Report.{IsFileRead, IsNotRead, IsAbsence, IsCountedFailure};

use crate::error::{CommandError, Failure};
use pipe_ends::{File, GetFault, PutFault, Store};
use std::alloc::Global;

/// The bytes of a file, or none where the store has no file of this name.
fn read_file<S: Store>(alloc: Global, store: &mut S, name: &str) -> Result<Option<Vec<u8>>, Failure>
    ensures ok { IfOk result (IsFileRead (S.files store.old) name.now) }
    ensures cause { IfErr result (IsCountedFailure (S.faults store.old) (S.faults store.new)) }
    ensures same { S.files store.new ≡ S.files store.old }
    ensures later { S.faults store.old ≤ S.faults store.new }
{
    match store.get(alloc, name) {
        Ok(bytes) => Ok(Some(bytes)),
        Err(GetFault::Absent) => Ok(None),
        Err(GetFault::Failed) => Err(Failure::Store),
        Err(GetFault::Memory) => Err(Failure::Memory),
    }
}

/// The bytes of the file that a command reads after this many others.
pub(crate) fn needed_file<S: Store>(
    alloc: Global,
    store: &mut S,
    file: u32,
    name: &str,
) -> Result<Vec<u8>, CommandError>
    ensures ok { IfOk result (λ bytes. TellsAnswer (S.files store.old) name.now (Some bytes.items)) }
    ensures cause { IfErr result
        (IsNotRead (S.files store.old) file name.now (S.faults store.old) (S.faults store.new)) }
    ensures same { S.files store.new ≡ S.files store.old }
    ensures later { S.faults store.old ≤ S.faults store.new }
{
    match read_file(alloc, store, name)? {
        Some(bytes) => Ok(bytes),
        None => Err(absent(alloc, file, name)),
    }
}

/// The error of an absent file, with its own name.
fn absent(alloc: Global, file: u32, name: &str) -> CommandError
    ensures cause { IsAbsence file name.now result }
{
    match String::from_str(alloc, name) {
        Ok(name) => CommandError::Absent { file, name },
        Err(_) => CommandError::Failed(Failure::Memory),
    }
}

/// Puts files in order, up to the first that fails.
pub(crate) fn put_files<S: Store>(
    alloc: Global,
    store: &mut S,
    files: &[File],
) -> Result<(), Failure>
    ensures ok { OnOk result
        (TellsPuts (S.files store.old) (map named_bytes files.now) (S.files store.new)) }
    ensures some { OnErr result (files.now ≢ []) }
    ensures kept { OnErr result
        (TellsSomePuts (S.files store.old) (map named_bytes files.now) (S.files store.new)) }
    ensures cause { IfErr result (IsCountedFailure (S.faults store.old) (S.faults store.new)) }
    ensures later { S.faults store.old ≤ S.faults store.new }
{
    for file in files {
        put_file(alloc, store, file)?;
    }
    Ok(())
}

/// Puts one file.
fn put_file<S: Store>(alloc: Global, store: &mut S, file: &File) -> Result<(), Failure>
    ensures ok { OnOk result
        (TellsPut (S.files store.old) (string_bytes file.now.name) file.now.bytes.items (S.files store.new)) }
    ensures same { OnErr result (S.files store.new ≡ S.files store.old) }
    ensures cause { IfErr result (IsCountedFailure (S.faults store.old) (S.faults store.new)) }
    ensures later { S.faults store.old ≤ S.faults store.new }
{
    match store.put(alloc, file.name.as_str(), &file.bytes) {
        Ok(()) => Ok(()),
        Err(PutFault::Failed) => Err(Failure::Store),
        Err(PutFault::Memory) => Err(Failure::Memory),
    }
}
