//! A sink in memory, some of whose calls fail.
ghost use Rattle.std.specs.Prelude.{◌≡◌, []};

use crate::calls::Calls;
use crate::fault::PushFault;
use crate::sink::Sink;
use std::alloc::Global;
use std::marker::Model;

/// A sink that keeps its bytes in memory and tells them. Calls of `push` are counted, from 1, and
/// those whose number is in the given list fail and take no byte.
#[derive(Debug, Drop)]
pub struct MemSink {
    bytes: Vec<u8>,
    calls: Calls,
}

// Clauses see the bytes and the counted calls.
impl Model for MemSink {
    ghost use Rattle.pipe_ends.specs.MemSink.{SinkState, sink_code};

    ghost Value = { SinkState };

    ghost coded = { sink_code };

    ghost view = { λ s. record { bytes = s.bytes.items; calls = s.calls } };
}

impl MemSink {
    /// A sink that holds nothing yet. It takes no memory.
    pub fn new(alloc: Global, failing: Vec<u64>) -> MemSink
        ensures bytes { result.bytes ≡ [] }
        ensures counted { result.calls ≡ record { failing = failing.items; made = 0; faults = 0 } }
    {
        MemSink {
            bytes: Vec::new(alloc),
            calls: Calls::new(failing),
        }
    }

    /// The bytes pushed so far.
    pub fn bytes(&self) -> &[u8]
        ensures { result.now ≡ self.now.bytes }
    {
        &self.bytes
    }
}

impl Sink for MemSink {
    ghost use Rattle.std.specs.Prelude.{◌≡◌, ◌≤◌, ◌↔◌, OnOk, OnErr, IsErrOf, IsTrue, Some};
    ghost use Rattle.pipe_ends.specs.Calls.{fails_next};
    ghost use Rattle.pipe_ends.specs.MemSink.{refused, appended};

    ghost pushed = { λ sink. Some sink.bytes };

    ghost faults = { λ sink. sink.calls.faults };

    /// Takes all of the bytes.
    fn push(&mut self, _alloc: Global, bytes: &[u8]) -> Result<(), PushFault>
        ensures ok { OnOk result (self.new ≡ appended self.old bytes.now) }
        ensures err { OnErr result (self.new ≡ refused self.old) }
        ensures cause { IsErrOf result PushFault.Failed ↔ IsTrue (fails_next self.old.calls) }
        ensures later { self.old.calls.faults ≤ self.new.calls.faults }
    {
        if self.calls.next_fails() {
            return Err(PushFault::Failed);
        }
        self.bytes.extend_from_slice(bytes)?;
        Ok(())
    }
}
