//! The lines of a sweep: the steps of the update, and what boots behind a cut in each of them.

ghost use Rattle.std.specs.Prelude.{◌≡◌, ◌++◌, OnOk};
ghost use Rattle.flash_text.specs.SweepText.{cut_line, cut_lines, sweep_text};

use crate::boot_text::{put_boots, put_steps};
use crate::text::put_text;
use boot_run::Booted;
use pipe_ends::{Memory, put_number};
use power_cut::Sweep;

/// Appends the lines of a sweep: the steps of the update, and for each of them, from 1, what boots
/// where the power went off in it.
#[tactic(auto, unfolding(crate::specs::SweepText::sweep_text))]
pub fn put_sweep(out: &mut Vec<u8>, sweep: &Sweep) -> Result<(), Memory>
    ensures ok { OnOk result (out.new.items ≡ out.old.items ++ sweep_text sweep.now) }
{
    put_steps(out, sweep.steps)?;
    put_cuts(out, sweep.after.as_slice())
}

/// Appends the lines of what boots behind each cut.
fn put_cuts(out: &mut Vec<u8>, after: &[Booted]) -> Result<(), Memory>
    ensures ok { OnOk result (out.new.items ≡ out.old.items ++ cut_lines 1 after.now) }
{
    for i in 0..after.len() {
        put_cut(out, i as u64 + 1, &after[i])?;
    }
    Ok(())
}

/// Appends the line of what boots behind a cut in this step.
#[tactic(auto, unfolding(crate::specs::SweepText::cut_line))]
fn put_cut(out: &mut Vec<u8>, step: u64, booted: &Booted) -> Result<(), Memory>
    ensures ok { OnOk result (out.new.items ≡ out.old.items ++ cut_line step booted.now) }
{
    put_text(out, "cut ")?;
    put_number(out, step)?;
    put_text(out, " ")?;
    put_boots(out, booted.app, u64::from(booted.info.length))
}
