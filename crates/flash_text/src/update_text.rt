//! The lines of an update: its legs, what the core beside the driver did in them, how each ended,
//! and what boots.

ghost use Rattle.std.specs.Prelude.{◌≡◌, ◌≤◌, ◌++◌, [], Some, OnOk, codes};
ghost use Rattle.flash_text.specs.UpdateText.{IsReadable, bad_end_text, boot_lines, confirm_lines, end_line, end_text, journal_lines, leg_lines, leg_text, legs_lines, lines_in, phase_line, update_text};

use crate::boot_text::{put_boots, put_steps};
use crate::image_text::{put_bad_image, put_byte};
use crate::text::{put_numbered, put_text};
use crate::worker_text::put_core;
use bus_hub::Journal;
use image_verify::BadImage;
use pipe_ends::Memory;
use power_cut::{Leg, LegEnd, Trial};

/// Appends the lines of an update that this core drove: its legs, with what the other core did in
/// them, and what boots of the flash that is left.
#[tactic(auto, unfolding(crate::specs::UpdateText::update_text))]
pub fn put_update(out: &mut Vec<u8>, driver: u8, trial: &Trial) -> Result<(), Memory>
    requires driver { driver ≤ 1 }
    requires session { IsReadable (Some trial.now.session) }
    requires confirm { IsReadable trial.now.confirm }
    ensures ok { OnOk result (out.new.items ≡ out.old.items ++ update_text driver trial.now) }
{
    put_legs(
        out,
        1 - driver,
        &trial.session,
        &trial.confirm,
        trial.legs.as_slice(),
    )?;
    put_boots(out, trial.after.app, u64::from(trial.after.info.length))
}

/// Appends the lines of all legs.
fn put_legs(
    out: &mut Vec<u8>,
    core: u8,
    session: &Journal,
    confirm: &Option<Journal>,
    legs: &[Leg],
) -> Result<(), Memory>
    requires session { IsReadable (Some session.now) }
    requires confirm { IsReadable confirm.now }
    ensures ok { OnOk result (out.new.items
        ≡ out.old.items ++ legs_lines core session.now confirm.now legs.now) }
{
    match legs {
        [] => Ok(()),
        [leg, more @ ..] => {
            put_session(out, core, session, leg)?;
            put_boot(out, core, confirm, more)
        }
    }
}

/// Appends the lines of the session.
#[tactic(auto, unfolding(crate::specs::UpdateText::leg_text))]
fn put_session(out: &mut Vec<u8>, core: u8, journal: &Journal, leg: &Leg) -> Result<(), Memory>
    requires journal { IsReadable (Some journal.now) }
    ensures ok { OnOk result (out.new.items ≡ out.old.items
        ++ leg_text (codes "session") (journal_lines core journal.now) leg.now) }
{
    put_phase(out, "session")?;
    put_core(out, core, journal)?;
    put_leg(out, leg)
}

/// Appends the lines of the boot and of what follows, where there is one.
fn put_boot(
    out: &mut Vec<u8>,
    core: u8,
    confirm: &Option<Journal>,
    legs: &[Leg],
) -> Result<(), Memory>
    requires confirm { IsReadable confirm.now }
    ensures ok { OnOk result (out.new.items
        ≡ out.old.items ++ boot_lines core confirm.now legs.now) }
{
    match legs {
        [] => Ok(()),
        [leg, more @ ..] => {
            put_plain_leg(out, "boot", leg)?;
            put_confirm(out, core, confirm, more)
        }
    }
}

/// Appends the lines of a leg of one core.
#[tactic(auto, unfolding(crate::specs::UpdateText::leg_text))]
fn put_plain_leg(out: &mut Vec<u8>, name: &str, leg: &Leg) -> Result<(), Memory>
    ensures ok { OnOk result (out.new.items ≡ out.old.items ++ leg_text name.now [] leg.now) }
{
    put_phase(out, name)?;
    put_leg(out, leg)
}

/// Appends the lines of the confirmation, where there is one.
fn put_confirm(
    out: &mut Vec<u8>,
    core: u8,
    journal: &Option<Journal>,
    legs: &[Leg],
) -> Result<(), Memory>
    requires journal { IsReadable journal.now }
    ensures ok { OnOk result (out.new.items
        ≡ out.old.items ++ confirm_lines core journal.now legs.now) }
{
    match legs {
        [] => Ok(()),
        [leg, ..] => put_confirm_leg(out, core, journal, leg),
    }
}

/// Appends the lines of the confirmation.
#[tactic(auto, unfolding(crate::specs::UpdateText::leg_text))]
fn put_confirm_leg(
    out: &mut Vec<u8>,
    core: u8,
    journal: &Option<Journal>,
    leg: &Leg,
) -> Result<(), Memory>
    requires journal { IsReadable journal.now }
    ensures ok { OnOk result (out.new.items ≡ out.old.items
        ++ leg_text (codes "confirm") (lines_in core journal.now) leg.now) }
{
    put_phase(out, "confirm")?;
    put_lines(out, core, journal)?;
    put_leg(out, leg)
}

/// Appends the line of the leg that begins.
#[tactic(auto, unfolding(crate::specs::UpdateText::phase_line))]
fn put_phase(out: &mut Vec<u8>, name: &str) -> Result<(), Memory>
    ensures ok { OnOk result (out.new.items ≡ out.old.items ++ phase_line name.now) }
{
    put_text(out, "phase ")?;
    put_text(out, name)?;
    put_text(out, "\n")
}

/// Appends the lines of a core, where there is a journal.
fn put_lines(out: &mut Vec<u8>, core: u8, journal: &Option<Journal>) -> Result<(), Memory>
    requires journal { IsReadable journal.now }
    ensures ok { OnOk result (out.new.items ≡ out.old.items ++ lines_in core journal.now) }
{
    match journal {
        None => Ok(()),
        Some(journal) => put_core(out, core, journal),
    }
}

/// Appends the lines of a leg behind its actions: its steps, and how it ended.
#[tactic(auto, unfolding(crate::specs::UpdateText::leg_lines))]
fn put_leg(out: &mut Vec<u8>, leg: &Leg) -> Result<(), Memory>
    ensures ok { OnOk result (out.new.items ≡ out.old.items ++ leg_lines leg.now) }
{
    put_steps(out, leg.steps)?;
    put_end_line(out, leg.end)
}

/// Appends the line of how a leg ended.
#[tactic(auto, unfolding(crate::specs::UpdateText::end_line))]
fn put_end_line(out: &mut Vec<u8>, end: LegEnd) -> Result<(), Memory>
    ensures ok { OnOk result (out.new.items ≡ out.old.items ++ end_line end) }
{
    put_text(out, "end ")?;
    put_end(out, end)?;
    put_text(out, "\n")
}

/// Appends how a leg ended.
#[tactic(auto, unfolding(crate::specs::UpdateText::end_text))]
fn put_end(out: &mut Vec<u8>, end: LegEnd) -> Result<(), Memory>
    ensures ok { OnOk result (out.new.items ≡ out.old.items ++ end_text end) }
{
    match end {
        LegEnd::Done => put_text(out, "done"),
        LegEnd::Device { step } => put_numbered(out, "device step ", step),
        LegEnd::Cut { step } => put_numbered(out, "power step ", step),
        LegEnd::FirstByte { byte } => put_byte(out, "refused first byte", byte),
        LegEnd::Empty => put_text(out, "refused empty"),
        LegEnd::Bad(why) => put_bad_end(out, why),
    }
}

/// Appends that the bytes are no whole image.
#[tactic(auto, unfolding(crate::specs::UpdateText::bad_end_text))]
fn put_bad_end(out: &mut Vec<u8>, why: BadImage) -> Result<(), Memory>
    ensures ok { OnOk result (out.new.items ≡ out.old.items ++ bad_end_text why) }
{
    put_text(out, "refused ")?;
    put_bad_image(out, why)
}
