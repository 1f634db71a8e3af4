//! Which application starts, by the images that the applications hold, and what the next entry of
//! an update announces.

ghost use Rattle.std.specs.Prelude.{◌≡◌, ◌≢◌, ◌<◌, ◌≤◌, ℕ, Bool, List, Option, Some, None, length};
ghost use Rattle.otadata.specs.declared.entry.Entry.{Entry};
ghost use Rattle.otadata.specs.declared.next.NextEntry.{NextEntry};
ghost use Rattle.partition_table.specs.declared.app.App.{App};
ghost use Rattle.partition_table.specs.declared.app.App.TheVariants.{Test};
ghost use Rattle.partition_table.specs.Layout.{Places, row_for};
ghost use Rattle.boot_select.specs.Candidates.{IsStart, candidates, started_from};
ghost use Rattle.boot_select.specs.Target.{Heralds, IsAim};
ghost use Rattle.boot_select.specs.Settled.{settled_of};
ghost use Rattle.boot_select.specs.Boots.{AreOf, AreTold, Images, app_of, first_held, has_image, images_in};

/// What starts is the first candidate that has an image: its image is what it holds (`holds`); it
/// is the start, where that has an image (`start`); some application starts wherever one of the
/// layout has an image (`some`); and truth values tell which one (`told`), and whether an update
/// may begin (`settled`). Only applications of the layout have an image in a flash (`placed`).
pub fn images_tell_what_starts()
    ensures holds { (images : Images) (apps : List App) (app : App) (image : List ℕ)
        → first_held images apps ≡ Some (app, image) → images app ≡ Some image }
    ensures start { (layout : Places) (images : Images) (start : App) (image : List ℕ)
        → start ≢ Test → images start ≡ Some image
        → first_held images (candidates layout start) ≡ Some (start, image) }
    ensures some { (layout : Places) (images : Images) (start app : App)
        → row_for layout app ≢ None → images app ≢ None
        → first_held images (candidates layout start) ≢ None }
    ensures told { (layout : Places) (whole : App → Bool) (images : Images) (start : App)
        → AreTold layout whole images → IsStart layout start
        → started_from layout whole start ≡ app_of (first_held images (candidates layout start)) }
    ensures settled { (layout : Places) (whole : App → Bool) (images : Images) (e0 e1 : Entry)
        → AreTold layout whole images → 0 < length layout.slots
        → settled_of layout whole e0 e1 ≡ settled_of layout (has_image images) e0 e1 }
    ensures placed { (held : List ℕ → Option (List ℕ)) (layout : Places) (flash : List ℕ)
        → AreOf layout (images_in held layout flash) }
{}

/// The entry that an update writes next matches, is new, names the slot that the update writes, and
/// its sequence is not below the active one.
pub fn aims_herald_their_slot()
    ensures { (layout : Places) (entries : ℕ → Entry) (running : App) (slot : ℕ) (next : NextEntry)
        → 0 < length layout.slots → length layout.slots ≤ 16
        → IsAim layout entries running slot next
        → Heralds layout entries running next.sector slot next.entry }
{}
