//! The slot that an update writes: that of a rejected entry which would count again if its state were
//! lost, else the slot after the running one.

ghost use Rattle.std.specs.Prelude.{◌≡◌, ◌≢◌, ◌<◌, ◌≤◌, length};
ghost use Rattle.partition_table.specs.declared.app.App.TheVariants.{Ota};
ghost use Rattle.boot_select.specs.Candidates.{IsStart, after_front};
ghost use Rattle.boot_select.specs.Target.{is_above, slot_after, target_by, target_of};

use crate::settling::is_same;
use otadata::{Entry, active, slot_of};
use partition_table::{App, Layout};

/// The slot that an update writes beside the running application.
#[tactic(auto, unfolding(crate::specs::Target::target_of))]
pub fn target(layout: &Layout, e0: &Entry, e1: &Entry, running: App) -> u8
    requires start { IsStart layout.now running }
    ensures exact { result ≡ target_of layout.now e0.now e1.now running }
    ensures within { result < length layout.now.slots }
    ensures other { 1 < length layout.now.slots → running ≢ Ota result }
{
    let slots = layout.slots.len() as u8;
    match active(e0, e1) {
        None => target_by(slots, e0, None, running),
        Some(0) => target_by(slots, e1, Some(e0.seq), running),
        Some(_) => target_by(slots, e0, Some(e1.seq), running),
    }
}

/// The slot that an update writes, by the entry that it replaces and the active sequence.
fn target_by(slots: u8, old: &Entry, active: Option<u32>, running: App) -> u8
    requires some { 0 < slots }
    requires most { slots ≤ 16 }
    requires within { after_front running ≤ slots }
    ensures exact { result ≡ target_by slots old.now active running }
    ensures within { result < slots }
    ensures other { 1 < slots → running ≢ Ota result }
{
    if old.matches() && is_above(old.seq, active) {
        let slot = slot_of(old.seq, slots);
        if !is_same(App::Ota(slot), running) {
            return slot;
        }
    }
    slot_after(slots, running)
}

/// Whether a sequence is above the active one, or no entry is active.
fn is_above(seq: u32, active: Option<u32>) -> bool
    ensures exact { result ≡ is_above seq active }
{
    match active {
        None => true,
        Some(active) => active < seq,
    }
}

/// The slot after the running one, round; slot 0 after the factory application.
fn slot_after(slots: u8, running: App) -> u8
    requires some { 0 < slots }
    requires most { slots ≤ 16 }
    requires within { after_front running ≤ slots }
    ensures exact { result ≡ slot_after slots running }
    ensures within { result < slots }
    ensures other { 1 < slots → running ≢ Ota result }
{
    match running {
        App::Ota(slot) => (slot + 1) % slots,
        App::Factory | App::Test => 0,
    }
}
