//! How a call with a sweep ends.

ghost use Rattle.std.specs.Prelude.{◌≡◌, ◌⊎◌};
ghost use Rattle.pipe_ends.specs.Fault.{Rose};
ghost use Rattle.flash_text.specs.SweepText.{sweep_text};
ghost use Rattle.flash_cli.specs.Served.{IsPushed, IsSilent};

use crate::served::push_lines;
use crate::status::Status;
use flash_text::put_sweep;
use pipe_ends::Sink;
use power_cut::Sweep;
use std::alloc::Global;

/// Ends a call with a sweep that was made: its lines are pushed, and no file is put.
pub(crate) fn tell_sweep<K: Sink>(alloc: Global, sweep: &Sweep, out: &mut K) -> Status
    ensures told { IsSilent result (K.pushed out.old) (K.pushed out.new)
        ⊎ IsPushed (sweep_text sweep.now) Status.Done result (K.pushed out.old) (K.pushed out.new) }
    ensures sink_fault { result ≡ Status.SinkFault
        → Rose (K.faults out.old) (K.faults out.new) }
{
    let mut text = Vec::new(alloc);
    if put_sweep(&mut text, sweep).is_err() {
        return Status::Memory;
    }
    push_lines(alloc, &text, Status::Done, out)
}
