//! Why an update doesn't begin, in words: a line of its script, and what stands in its flash.

ghost use Rattle.std.specs.Prelude.{◌≡◌, ◌++◌, OnOk};
ghost use Rattle.flash_text.specs.StartText.{app_behind, conflict_text, fallback_text, number_behind, script_text, script_why_text, slot_flags_text, unsettled_behind, unsettled_text, unsettled_why_text, waiting_text};

use crate::text::{put_app, put_state, put_text};
use boot_select::Unsettled;
use core_script::ScriptWhy;
use partition_table::App;
use pipe_ends::{Memory, put_number};

/// Appends what is wrong with the line of this number of a script.
#[tactic(auto, unfolding(crate::specs::StartText::script_text))]
pub(crate) fn put_script(out: &mut Vec<u8>, line: u64, why: ScriptWhy) -> Result<(), Memory>
    ensures ok { OnOk result (out.new.items ≡ out.old.items ++ script_text line why) }
{
    put_number_behind(out, "script line ", line)?;
    put_text(out, " ")?;
    put_text(out, script_why_text(why))
}

/// What is wrong with a line of a script, in a word.
#[tactic(auto, unfolding(crate::specs::StartText::script_why_text))]
fn script_why_text(why: ScriptWhy) -> &'static str
    ensures exact { result.now ≡ script_why_text why }
{
    match why {
        ScriptWhy::Word => "word",
        ScriptWhy::Count => "count",
        ScriptWhy::Space => "space",
        ScriptWhy::Number => "number",
        ScriptWhy::Label => "label",
        ScriptWhy::Hex => "hex",
        ScriptWhy::Length => "length",
        ScriptWhy::TooMany => "toomany",
        ScriptWhy::TooMuch => "toomuch",
    }
}

/// Appends words and a number.
#[tactic(auto, unfolding(crate::specs::StartText::number_behind))]
fn put_number_behind(out: &mut Vec<u8>, text: &str, number: u64) -> Result<(), Memory>
    ensures ok { OnOk result (out.new.items ≡ out.old.items ++ number_behind text.now number) }
{
    put_text(out, text)?;
    put_number(out, number)
}

/// Appends why a flash isn't settled.
pub(crate) fn put_unsettled(out: &mut Vec<u8>, why: Unsettled) -> Result<(), Memory>
    ensures ok { OnOk result (out.new.items ≡ out.old.items ++ unsettled_text why) }
{
    put_unsettled_behind(out, "not settled ", why)
}

/// Appends words and why a flash isn't settled.
#[tactic(auto, unfolding(crate::specs::StartText::unsettled_behind))]
fn put_unsettled_behind(out: &mut Vec<u8>, text: &str, why: Unsettled) -> Result<(), Memory>
    ensures ok { OnOk result (out.new.items ≡ out.old.items ++ unsettled_behind text.now why) }
{
    put_text(out, text)?;
    put_unsettled_why(out, why)
}

/// Appends why a flash isn't settled, without the words in front.
#[tactic(auto, unfolding(crate::specs::StartText::unsettled_why_text))]
fn put_unsettled_why(out: &mut Vec<u8>, why: Unsettled) -> Result<(), Memory>
    ensures ok { OnOk result (out.new.items ≡ out.old.items ++ unsettled_why_text why) }
{
    match why {
        Unsettled::Waiting { entry, state } => put_waiting(out, entry, state),
        Unsettled::NoApp => put_text(out, "no application"),
        Unsettled::Fallback { named, started } => put_fallback(out, named, started),
    }
}

/// Appends that an entry waits.
#[tactic(auto, unfolding(crate::specs::StartText::waiting_text))]
fn put_waiting(out: &mut Vec<u8>, entry: u8, state: u32) -> Result<(), Memory>
    ensures ok { OnOk result (out.new.items ≡ out.old.items ++ waiting_text entry state) }
{
    put_number_behind(out, "entry ", u64::from(entry))?;
    put_text(out, " state ")?;
    put_state(out, state)
}

/// Appends that another application is started than the one that is named.
#[tactic(auto, unfolding(crate::specs::StartText::fallback_text))]
fn put_fallback(out: &mut Vec<u8>, named: App, started: App) -> Result<(), Memory>
    ensures ok { OnOk result (out.new.items ≡ out.old.items ++ fallback_text named started) }
{
    put_behind(out, "named ", named)?;
    put_behind(out, " started ", started)
}

/// Appends words and an application.
#[tactic(auto, unfolding(crate::specs::StartText::app_behind))]
fn put_behind(out: &mut Vec<u8>, text: &str, app: App) -> Result<(), Memory>
    ensures ok { OnOk result (out.new.items ≡ out.old.items ++ app_behind text.now app) }
{
    put_text(out, text)?;
    put_app(out, app)
}

/// Appends that the only slot is the one that runs.
#[tactic(auto, unfolding(crate::specs::StartText::conflict_text))]
pub(crate) fn put_conflict(out: &mut Vec<u8>, slot: u8) -> Result<(), Memory>
    ensures ok { OnOk result (out.new.items ≡ out.old.items ++ conflict_text slot) }
{
    put_behind(out, "conflict ", App::Ota(slot))
}

/// Appends that a slot may not be written, with its flags.
#[tactic(auto, unfolding(crate::specs::StartText::slot_flags_text))]
pub(crate) fn put_slot_flags(out: &mut Vec<u8>, slot: u8, flags: u32) -> Result<(), Memory>
    ensures ok { OnOk result (out.new.items ≡ out.old.items ++ slot_flags_text slot flags) }
{
    put_behind(out, "slot flags ", App::Ota(slot))?;
    put_text(out, " ")?;
    put_number(out, u64::from(flags))
}
