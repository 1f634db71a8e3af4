//! The lines of a stream that was loaded.

ghost use Rattle.std.specs.Prelude.{◌≡◌, ◌++◌, OnOk};
ghost use Rattle.flash_text.specs.LoadText.{loaded_lines};

use crate::boot_text::put_steps;
use crate::text::put_text;
use pipe_ends::{Memory, put_number};

/// Appends the lines of a stream that was loaded: how many requests were answered, and how many
/// steps were made.
#[tactic(auto, unfolding(crate::specs::LoadText::loaded_lines))]
pub fn put_loaded(out: &mut Vec<u8>, frames: u64, steps: u64) -> Result<(), Memory>
    ensures ok { OnOk result (out.new.items ≡ out.old.items ++ loaded_lines frames steps) }
{
    put_text(out, "frames ")?;
    put_number(out, frames)?;
    put_text(out, "\n")?;
    put_steps(out, steps)
}
