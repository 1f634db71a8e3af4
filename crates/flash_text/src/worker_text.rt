//! The lines of what one core did beside the other, by the entries of a journal.

ghost use Rattle.std.specs.Prelude.{◌≡◌, ◌++◌, OnOk, codes, decimal, length};
ghost use Rattle.flash_text.specs.TableText.{hex_number};
ghost use Rattle.flash_text.specs.WorkerText.{AreInside, IsInside, act_line, action_line, bytes_hex, core_lines, fetch_text, line_of, refused_text, regs_text, set_text, why_text};

use crate::table_text::put_hex_number;
use crate::text::put_text;
use bus_hub::{Act, Entry, Journal, Why};
use core_state::Regs;
use pipe_ends::{Memory, put_hex, put_number};

/// Appends the lines of what a core did, of a journal of both.
pub(crate) fn put_core(out: &mut Vec<u8>, core: u8, journal: &Journal) -> Result<(), Memory>
    requires inside { AreInside (length journal.now.bytes) journal.now.entries }
    ensures ok { OnOk result (out.new.items
        ≡ out.old.items ++ core_lines core journal.now.bytes journal.now.entries) }
{
    for entry in journal.entries() {
        put_line(out, core, journal, entry)?;
    }
    Ok(())
}

/// Appends the line of an entry, where it is of this core.
fn put_line(out: &mut Vec<u8>, core: u8, journal: &Journal, entry: &Entry) -> Result<(), Memory>
    requires inside { IsInside (length journal.now.bytes) entry.now.act }
    ensures ok { OnOk result (out.new.items
        ≡ out.old.items ++ line_of core journal.now.bytes entry.now) }
{
    if entry.core == core {
        put_act(out, journal, entry)
    } else {
        Ok(())
    }
}

/// Appends the line of an entry. The steps of an action have none.
#[tactic(auto, unfolding(crate::specs::WorkerText::act_line))]
fn put_act(out: &mut Vec<u8>, journal: &Journal, entry: &Entry) -> Result<(), Memory>
    requires inside { IsInside (length journal.now.bytes) entry.now.act }
    ensures ok { OnOk result (out.new.items ≡ out.old.items
        ++ act_line journal.now.bytes entry.now.k entry.now.regs entry.now.act) }
{
    let k = entry.k;
    match entry.act {
        Act::Open { .. } => Ok(()),
        Act::Close { .. } => Ok(()),
        Act::Fetch { at, start, len } => {
            put_fetch(out, k, at, entry.regs, journal.bytes_of(start, len))
        }
        Act::Set => put_set(out, k, entry.regs),
        Act::Mapped { at } => put_at(out, k, " mapped", at),
        Act::Unmapped { at } => put_at(out, k, " unmapped", at),
        Act::Wrote => put_done(out, k),
        Act::Refused { why } => put_refused(out, k, why),
    }
}

/// Appends the line of a fetch, with its bytes.
#[tactic(auto, unfolding(crate::specs::WorkerText::action_line, crate::specs::WorkerText::fetch_text))]
fn put_fetch(out: &mut Vec<u8>, k: u32, at: u32, regs: Regs, bytes: &[u8]) -> Result<(), Memory>
    ensures ok { OnOk result (out.new.items
        ≡ out.old.items ++ action_line k (fetch_text at regs bytes.now)) }
{
    put_action(out, k, " fetch")?;
    put_hex_number(out, u64::from(at), 8)?;
    put_regs(out, regs)?;
    put_text(out, " ")?;
    put_bytes_hex(out, bytes)?;
    put_text(out, "\n")
}

/// Appends the line of registers that were set.
#[tactic(auto, unfolding(crate::specs::WorkerText::action_line, crate::specs::WorkerText::set_text))]
fn put_set(out: &mut Vec<u8>, k: u32, regs: Regs) -> Result<(), Memory>
    ensures ok { OnOk result (out.new.items ≡ out.old.items ++ action_line k (set_text regs)) }
{
    put_action(out, k, " set")?;
    put_regs(out, regs)?;
    put_text(out, "\n")
}

/// Appends the line of pages at an address.
#[tactic(auto, unfolding(crate::specs::WorkerText::action_line))]
fn put_at(out: &mut Vec<u8>, k: u32, word: &str, at: u32) -> Result<(), Memory>
    ensures ok { OnOk result (out.new.items
        ≡ out.old.items ++ action_line k (word.now ++ hex_number 8 at)) }
{
    put_action(out, k, word)?;
    put_hex_number(out, u64::from(at), 8)?;
    put_text(out, "\n")
}

/// Appends the line of a write or an erase that was made.
#[tactic(auto, unfolding(crate::specs::WorkerText::action_line))]
fn put_done(out: &mut Vec<u8>, k: u32) -> Result<(), Memory>
    ensures ok { OnOk result (out.new.items ≡ out.old.items ++ action_line k (codes " done")) }
{
    put_action(out, k, " done")?;
    put_text(out, "\n")
}

/// Appends the line of an action that was refused.
#[tactic(auto, unfolding(crate::specs::WorkerText::action_line, crate::specs::WorkerText::refused_text))]
fn put_refused(out: &mut Vec<u8>, k: u32, why: Why) -> Result<(), Memory>
    ensures ok { OnOk result (out.new.items
        ≡ out.old.items ++ action_line k (refused_text why)) }
{
    put_action(out, k, " refused ")?;
    put_text(out, why_text(why))?;
    put_text(out, "\n")
}

/// Appends the number of an action, and a word behind it.
fn put_action(out: &mut Vec<u8>, k: u32, word: &str) -> Result<(), Memory>
    ensures ok { OnOk result (out.new.items
        ≡ out.old.items ++ (codes "worker " ++ decimal k ++ word.now)) }
{
    put_text(out, "worker ")?;
    put_number(out, u64::from(k))?;
    put_text(out, word)
}

/// Appends registers.
#[tactic(auto, unfolding(crate::specs::WorkerText::regs_text))]
fn put_regs(out: &mut Vec<u8>, regs: Regs) -> Result<(), Memory>
    ensures ok { OnOk result (out.new.items ≡ out.old.items ++ regs_text regs) }
{
    put_text(out, " mask ")?;
    put_number(out, u64::from(regs.mask))?;
    put_text(out, " irq")?;
    put_hex_number(out, u64::from(regs.irq), 8)
}

/// Appends bytes, by two hex digits each.
fn put_bytes_hex(out: &mut Vec<u8>, bytes: &[u8]) -> Result<(), Memory>
    ensures ok { OnOk result (out.new.items ≡ out.old.items ++ bytes_hex bytes.now) }
{
    for byte in bytes {
        put_hex(out, u64::from(*byte), 2)?;
    }
    Ok(())
}

/// Why an action was refused, in a word.
fn why_text(why: Why) -> &'static str
    ensures exact { result.now ≡ why_text why }
{
    match why {
        Why::Unmapped => "unmapped",
        Why::Masked => "masked",
        Why::NoPages => "nopages",
        Why::NotMapped => "notmapped",
        Why::NoLabel => "nolabel",
        Why::Dangerous => "dangerous",
        Why::ReadOnly => "readonly",
        Why::Encrypted => "encrypted",
        Why::Unaligned => "unaligned",
        Why::Range => "range",
    }
}
