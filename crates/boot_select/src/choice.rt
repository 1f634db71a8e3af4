//! The application that the OTA data name: that of the active entry's slot, or the factory
//! application where neither entry is valid.

ghost use Rattle.std.specs.Prelude.{◌≡◌};
ghost use Rattle.boot_select.specs.Choice.{named_of};
ghost use Rattle.boot_select.specs.Candidates.{IsStart};

use otadata::{Entry, active, slot_of};
use partition_table::{App, Layout};

/// The application that the OTA data name in this layout, by the entries of their two sectors.
///
/// After the ESP-IDF Programming Guide, "Over The Air Updates": the active entry names the update
/// slot `(sequence - 1) mod slots`, and without one the factory application is named.
#[tactic(auto, unfolding(crate::specs::Choice::named_of))]
pub fn named(layout: &Layout, e0: &Entry, e1: &Entry) -> App
    ensures exact { result ≡ named_of layout.now e0.now e1.now }
    ensures start { IsStart layout.now result }
{
    let entry = match active(e0, e1) {
        None => return App::Factory,
        Some(0) => e0,
        Some(_) => e1,
    };
    App::Ota(slot_of(entry.seq, layout.slots.len() as u8))
}
