//! Which of the two entries counts, and which slot it names.

ghost use Rattle.std.specs.Prelude.{◌≡◌, ◌<◌, ◌≤◌, ◌↔◌, IfSome, IsTrue, None, Some};
ghost use Rattle.otadata.specs.declared.entry.Entry.{Entry};
ghost use Rattle.otadata.specs.Choice.{Matches, IsValid, AreBothInvalid, FirstIsActive, SecondIsActive};
ghost use Rattle.otadata.specs.Choice.{matches, is_valid, active_of, slot_named};

use crate::entry::Entry;

/// The number of the active entry: the valid one with the greater sequence, the first on a tie, and
/// none where neither is valid.
#[tactic(auto, unfolding(crate::specs::Choice::active_of))]
pub fn active(first: &Entry, second: &Entry) -> Option<u8>
    ensures none { (result ≡ None) ↔ AreBothInvalid first.now second.now }
    ensures first { (result ≡ Some 0) ↔ FirstIsActive first.now second.now }
    ensures second { (result ≡ Some 1) ↔ SecondIsActive first.now second.now }
    ensures within { IfSome result (λ number. number < 2) }
    ensures exact { result ≡ active_of first.now second.now }
{
    let second_counts = second.is_valid() && (!first.is_valid() || first.seq < second.seq);
    if second_counts {
        Some(1)
    } else if first.is_valid() {
        Some(0)
    } else {
        None
    }
}

/// The number of the slot that a sequence names, of 1 to 16 slots that take turns.
pub fn slot_of(seq: u32, slots: u8) -> u8
    requires numbered { 0 < seq }
    requires some { 0 < slots }
    requires most { slots ≤ 16 }
    ensures exact { result ≡ slot_named seq slots }
    ensures within { result < slots }
{
    ((seq - 1) % u32::from(slots)) as u8
}

/// The tests that compute mean what the facts say.
#[tactic(auto, unfolding(crate::specs::Choice::matches, crate::specs::Choice::is_valid))]
pub fn choices_are_decided()
    ensures matches { (e : Entry) → IsTrue (matches e) ↔ Matches e }
    ensures valid { (e : Entry) → IsTrue (is_valid e) ↔ IsValid e }
    ensures none { (e f : Entry) → (active_of e f ≡ None) ↔ AreBothInvalid e f }
    ensures first { (e f : Entry) → (active_of e f ≡ Some 0) ↔ FirstIsActive e f }
    ensures second { (e f : Entry) → (active_of e f ≡ Some 1) ↔ SecondIsActive e f }
    ensures within { (e f : Entry) → IfSome (active_of e f) (λ number. number < 2) }
{}
