//! Which lines a core may serve.
ghost use Rattle.std.specs.Prelude.{◌≡◌};
ghost use Rattle.irq_lines.specs.Deliverable.{deliverable};

use core_state::Record;

/// The enabled lines. While a core has its registers saved, as when it is parked, only those of its
/// own lines that are safe, since the handlers of the others lie in flash.
pub fn deliverable(rec: &Record, safe: u32) -> u32
    ensures { result ≡ deliverable rec.now safe }
{
    match rec.saved {
        Some(own) => own.irq & safe,
        None => rec.regs.irq,
    }
}
