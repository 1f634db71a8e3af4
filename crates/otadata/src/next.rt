//! The entry that an update writes: it goes to the sector that isn't active, and its sequence is the
//! least that isn't below the active one and names the slot.

ghost use Rattle.std.specs.Prelude.{◌≡◌, ℕ, ◌<◌, ◌≤◌, ◌↔◌, Some, IsErr, IfOk, IfErr};
ghost use Rattle.otadata.specs.declared.entry.Entry.{Entry};
ghost use Rattle.otadata.specs.Choice.{IsValid, slot_named};
ghost use Rattle.otadata.specs.Next.{Follows, active_seq, new_entry, next_by, next_of, next_seq};

use crate::choice::active;
use crate::crc::crc_of;
use crate::entry::{BLANK, Entry};
use crate::state;

/// The entry that an update writes, and the sector that it goes to.
#[derive(Clone, Copy, Debug, PartialEq, Eq)]
pub struct NextEntry {
    /// 0 or 1.
    pub sector: u8,
    /// It is new, and names the slot of the update.
    pub entry: Entry,
}

/// No sequence is left that names the slot and isn't below the active one.
#[derive(Clone, Copy, Debug, PartialEq, Eq)]
pub struct SeqSpent {
    /// The active sequence.
    pub seq: u32,
}

/// The next entry for a slot, of so many that take turns.
#[tactic(auto, unfolding(crate::specs::Next::next_of))]
pub fn next_entry(first: &Entry, second: &Entry, slot: u8, slots: u8) -> Result<NextEntry, SeqSpent>
    requires { slot < slots }
    ensures exact { result ≡ next_of first.now second.now slot slots }
    ensures spent { IsErr result
        ↔ (0xFFFF_FFFF ≤ next_seq slots (active_seq first.now second.now) slot) }
    ensures cause { IfErr result (λ why. active_seq first.now second.now ≡ Some why.seq) }
    ensures valid { IfOk result (λ next. IsValid next.entry) }
    ensures names { IfOk result (λ next. slot_named next.entry.seq slots ≡ slot) }
{
    match active(first, second) {
        None => Ok(NextEntry {
            sector: 0,
            entry: new_entry(u32::from(slot) + 1),
        }),
        Some(0) => next_after(1, first.seq, slot, slots),
        Some(_) => next_after(0, second.seq, slot, slots),
    }
}

/// The next entry for a slot after this active sequence, in this sector.
fn next_after(sector: u8, seq: u32, slot: u8, slots: u8) -> Result<NextEntry, SeqSpent>
    requires numbered { 0 < seq }
    requires within { slot < slots }
    ensures exact { result ≡ next_by sector (Some seq) (next_seq slots (Some seq) slot) }
    ensures names { IfOk result (λ next. slot_named next.entry.seq slots ≡ slot) }
{
    let next = next_seq(seq, slot, slots);
    if next < u64::from(BLANK) {
        Ok(NextEntry {
            sector,
            entry: new_entry(next as u32),
        })
    } else {
        Err(SeqSpent { seq })
    }
}

/// The least sequence from this one on that names the slot.
fn next_seq(seq: u32, slot: u8, slots: u8) -> u64
    requires numbered { 0 < seq }
    requires within { slot < slots }
    ensures exact { result ≡ next_seq slots (Some seq) slot }
    ensures follows { Follows slots seq slot result }
{
    let (seq, slot, slots) = (u64::from(seq), u64::from(slot), u64::from(slots));
    seq + (slot + slots - (seq - 1) % slots) % slots
}

/// An entry of this sequence that is new.
fn new_entry(seq: u32) -> Entry
    ensures exact { result ≡ new_entry seq }
{
    Entry {
        seq,
        label: [0xFF; 20],
        state: state::NEW,
        crc: crc_of(seq),
    }
}

/// The next sequence names the slot, isn't below the active one, and no lesser sequence is so.
pub fn next_sequences_are_the_least()
    ensures follows { (slots seq slot : ℕ) → 0 < seq → slot < slots
        → Follows slots seq slot (next_seq slots (Some seq) slot) }
    ensures least { (slots seq slot other : ℕ) → 0 < seq → slot < slots
        → Follows slots seq slot other → next_seq slots (Some seq) slot ≤ other }
{}
