//! Transcripts of a terminal: command lines, each with what the program prints, played on one store.

use crate::serve::serve;
use flash_ops::NoPace;
use pipe_ends::{MemSink, MemStore};
use std::alloc::{AllocError, Global};
use std::sync::Wait;
use std::thread::Threads;

/// Makes the calls of a transcript's command lines, which begin with `$ `, and returns the transcript
/// that they give: each command line, what it printed, and its status where that is not 0.
pub(crate) fn played<R: Threads + Wait + Sync>(
    rt: &R,
    alloc: Global,
    store: &mut MemStore,
    transcript: &str,
) -> Result<Vec<u8>, AllocError> {
    let mut told = Vec::new(alloc);
    for line in transcript.lines() {
        let Some(command) = line.strip_prefix("$ ") else {
            continue;
        };
        let mut words = Vec::new(alloc);
        for word in command.split_whitespace() {
            words.push(String::from_str(alloc, word)?)?;
        }
        let mut sink = MemSink::new(alloc, Vec::new(alloc));
        let status = serve(rt, alloc, &words, store, &mut sink, &NoPace).status;
        let ends = format!(in alloc; "status {}\n", status.code())?;
        told.extend_from_slice(line.as_bytes())?;
        told.push(b'\n')?;
        told.extend_from_slice(sink.bytes())?;
        if status.code() != 0 {
            told.extend_from_slice(ends.as_bytes())?;
        }
    }
    Ok(told)
}

/// The first line of a transcript that its calls don't give, or the first behind its end that they do.
pub(crate) fn first_other<R: Threads + Wait + Sync>(
    rt: &R,
    alloc: Global,
    store: &mut MemStore,
    transcript: &str,
) -> Result<Option<usize>, AllocError> {
    let told = played(rt, alloc, store, transcript)?;
    if told.as_slice() == transcript.as_bytes() {
        return Ok(None);
    }
    let mut line = 1;
    for (wanted, found) in transcript.as_bytes().iter().zip(told.iter()) {
        if wanted != found {
            break;
        }
        if *wanted == b'\n' {
            line = usize::wrapping_add(line, 1);
        }
    }
    Ok(Some(line))
}
