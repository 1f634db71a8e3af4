//! What boots, and what goes on booting, over all entries and images: `entries` are those of the
//! two sectors, `images` what the applications hold.

ghost use Rattle.std.specs.Prelude.{◌≡◌, ◌≢◌, ◌<◌, ◌⊎◌, ◌↔◌, ℕ, Bool, List, [], Option, Some, None, Ok, Err, length};
ghost use Rattle.otadata.specs.declared.entry.Entry.{Entry};
ghost use Rattle.otadata.specs.Choice.{active_of};
ghost use Rattle.partition_table.specs.declared.app.App.{App};
ghost use Rattle.partition_table.specs.declared.app.App.TheVariants.{Ota};
ghost use Rattle.partition_table.specs.Layout.{Places, row_for};
ghost use Rattle.boot_select.specs.declared.settling.Unsettled.TheVariants.{Fallback, NoApp};
ghost use Rattle.boot_select.specs.Choice.{slot_app};
ghost use Rattle.boot_select.specs.Candidates.{started_from};
ghost use Rattle.boot_select.specs.Settled.{sectors, settled_of};
ghost use Rattle.boot_select.specs.Target.{Heralds};
ghost use Rattle.boot_select.specs.Boots.{AreOf, AreTold, Images, app_of, has_image, names};
ghost use Rattle.rollback.specs.declared.rewrite.Rewrite.{Rewrite};
ghost use Rattle.rollback.specs.Rewrite.{AreRestated, restated, with_state};
ghost use Rattle.rollback.specs.Boot.{boot_writes};
ghost use Rattle.rollback.specs.Verdict.{confirm_of, reject_of};
ghost use Rattle.rollback.specs.Boots.{BootsByVerdict, IsChance, IsSettled, after_boot, boots, in_state};
ghost use Rattle.rollback.specs.Pair.{BootsOneOf, IsPair, RewritesOnly, SettlesOneOf, other_of};

/// What boots is the first candidate that is whole once a boot has made its rewrites (`boots`). The
/// answers of `settled` by truth values are those by images (`ok`, `no_app`, `fallback`), and so
/// are those of `reject_write` (`reject`).
pub fn truth_values_tell_what_boots()
    ensures boots { (layout : Places) (whole : App → Bool) (images : Images) (entries : ℕ → Entry)
        → AreTold layout whole images → 0 < length layout.slots
        → started_from layout whole (names layout (after_boot entries))
        ≡ app_of (boots layout images entries) }
    ensures ok { (layout : Places) (whole : App → Bool) (images : Images) (entries : ℕ → Entry)
        (app : App)
        → AreTold layout whole images → 0 < length layout.slots
        → (settled_of layout whole (entries 0) (entries 1) ≡ Ok app)
        ↔ ((image : List ℕ) × IsSettled layout images entries app image) }
    ensures no_app { (layout : Places) (whole : App → Bool) (images : Images) (entries : ℕ → Entry)
        → AreTold layout whole images → 0 < length layout.slots
        → (settled_of layout whole (entries 0) (entries 1) ≡ Err NoApp)
        ↔ ((boot_writes entries ≡ []) × (boots layout images entries ≡ None)) }
    ensures fallback { (layout : Places) (whole : App → Bool) (images : Images)
        (entries : ℕ → Entry) (named started : App)
        → AreTold layout whole images → 0 < length layout.slots
        → (settled_of layout whole (entries 0) (entries 1) ≡ Err (Fallback named started))
        ↔ ((boot_writes entries ≡ []) × (names layout entries ≡ named)
        × (app_of (boots layout images entries) ≡ Some started) × (started ≢ named)) }
    ensures reject { (layout : Places) (whole : App → Bool) (images : Images) (e0 e1 : Entry)
        → AreTold layout whole images → 0 < length layout.slots
        → reject_of layout whole e0 e1 ≡ reject_of layout (has_image images) e0 e1 }
{}

/// What boots is what its application holds (`holds`), and depends on the entries of the two
/// sectors alone (`same`). Wherever an application of the layout has an image, some application
/// boots (`some`), and so where one boots, one boots by any other entries too (`still`).
pub fn some_application_boots()
    ensures holds { (layout : Places) (images : Images) (entries : ℕ → Entry) (app : App)
        (image : List ℕ)
        → boots layout images entries ≡ Some (app, image) → images app ≡ Some image }
    ensures same { (layout : Places) (images : Images) (entries others : ℕ → Entry)
        → others 0 ≡ entries 0 → others 1 ≡ entries 1
        → boots layout images others ≡ boots layout images entries }
    ensures some { (layout : Places) (images : Images) (entries : ℕ → Entry) (app : App)
        → row_for layout app ≢ None → images app ≢ None → boots layout images entries ≢ None }
    ensures still { (layout : Places) (images : Images) (entries others : ℕ → Entry)
        → AreOf layout images → boots layout images entries ≢ None
        → boots layout images others ≢ None }
{}

/// Each rewrite gives the entry that stands in its sector when its turn comes another state: those
/// of a boot (`boot`), VALID by a confirmation (`confirm`), INVALID by a rejection (`reject`).
pub fn rewrites_change_states()
    ensures boot { (entries : ℕ → Entry)
        → AreRestated (boot_writes entries) entries }
    ensures confirm { (e0 e1 : Entry) (write : Rewrite)
        → confirm_of e0 e1 ≡ Ok (Some write)
        → (sector : ℕ) × (active_of e0 e1 ≡ Some sector)
        × (write ≡ restated 2 sector (sectors e0 e1 sector)) }
    ensures reject { (layout : Places) (whole : App → Bool) (e0 e1 : Entry) (write : Rewrite)
        → reject_of layout whole e0 e1 ≡ Ok write
        → (sector : ℕ) × (active_of e0 e1 ≡ Some sector)
        × (write ≡ restated 3 sector (sectors e0 e1 sector)) }
{}

/// Whatever entry a loss of power leaves in a sector whose entry was to get another state: what
/// boots is what boots where that entry is VALID, or is INVALID, or the entry that is left matches
/// by chance (`lost`). Once the active entry is VALID, its application boots, where it has an image
/// (`confirmed`).
pub fn lost_rewrites_boot_by_verdict()
    ensures lost { (layout : Places) (images : Images) (entries left : ℕ → Entry) (sector state : ℕ)
        → sector < 2 → left (other_of sector) ≡ entries (other_of sector)
        → IsChance (entries sector) (with_state state (entries sector)) (left sector)
        ⊎ BootsByVerdict layout images entries sector (boots layout images left) }
    ensures confirmed { (layout : Places) (images : Images) (entries : ℕ → Entry) (sector : ℕ)
        (image : List ℕ)
        → sector < 2 → active_of (entries 0) (entries 1) ≡ Some sector
        → images (slot_app layout (entries sector)) ≡ Some image
        → boots layout images (in_state 2 sector entries)
        ≡ Some (slot_app layout (entries sector), image) }
{}

/// Of a pair one of its two applications boots.
pub fn pairs_boot_one_of_two()
    ensures { (layout : Places) (images : Images) (entries : ℕ → Entry) (sector : ℕ) (app : App)
        (image : List ℕ) (slot : ℕ) (target : List ℕ)
        → IsPair layout images entries sector app image slot target
        → BootsOneOf app image slot target (boots layout images entries) }
{}

/// An update begins at `entries`, with `app` settled, and writes `new` into `sector` once `slot`
/// holds the image `target`; `later` and `left` are images and entries at a later moment, at which
/// the slot of `app` holds its image. As long as the entries are the same, the old application
/// boots (`before`), and there is a pair, whatever the target slot holds (`start`). Behind the
/// data, whatever entry is left in the sector, there is a pair, or that entry matches by chance,
/// seen from the start of the update (`behind`). Once the new entry is written, the new application
/// boots (`done`).
pub fn updates_leave_pairs()
    ensures before { (layout : Places) (images later : Images) (entries left : ℕ → Entry)
        (app : App) (image : List ℕ)
        → IsSettled layout images entries app image → left 0 ≡ entries 0 → left 1 ≡ entries 1
        → later app ≡ Some image → boots layout later left ≡ Some (app, image) }
    ensures start { (layout : Places) (images later : Images) (entries : ℕ → Entry) (app : App)
        (image : List ℕ) (sector slot : ℕ) (new : Entry) (target : List ℕ)
        → IsSettled layout images entries app image → Heralds layout entries app sector slot new
        → app ≢ Ota slot → later app ≡ Some image
        → IsPair layout later entries sector app image slot target }
    ensures behind { (layout : Places) (images later : Images) (entries left : ℕ → Entry)
        (app : App) (image : List ℕ) (sector slot : ℕ) (new : Entry) (target : List ℕ)
        → IsSettled layout images entries app image → Heralds layout entries app sector slot new
        → app ≢ Ota slot → later app ≡ Some image → later (Ota slot) ≡ Some target
        → left (other_of sector) ≡ entries (other_of sector)
        → IsChance (entries sector) new (left sector)
        ⊎ IsPair layout later left sector app image slot target }
    ensures done { (layout : Places) (images later : Images) (entries left : ℕ → Entry) (app : App)
        (image : List ℕ) (sector slot : ℕ) (new : Entry) (target : List ℕ)
        → IsSettled layout images entries app image → Heralds layout entries app sector slot new
        → later (Ota slot) ≡ Some target → left sector ≡ new
        → left (other_of sector) ≡ entries (other_of sector)
        → boots layout later left ≡ Some (Ota slot, target) }
{}

/// A boot of a pair rewrites nothing, or the entry of its sector alone (`writes`), and leaves that
/// pair (`boot`). Whatever entry a loss of power leaves in that sector, as its entry was to get
/// another state: it is that pair, or the entry that is left matches by chance (`lost`); this is
/// asked of an entry that is neither INVALID nor ABORTED, as are those that a boot rewrites, and an
/// active one. What the verdict on such an entry makes boot is one of the two applications
/// (`verdict`).
pub fn pairs_stay()
    ensures writes { (layout : Places) (images : Images) (entries : ℕ → Entry) (sector : ℕ)
        (app : App) (image : List ℕ) (slot : ℕ) (target : List ℕ)
        → IsPair layout images entries sector app image slot target → RewritesOnly entries sector }
    ensures boot { (layout : Places) (images : Images) (entries : ℕ → Entry) (sector : ℕ)
        (app : App) (image : List ℕ) (slot : ℕ) (target : List ℕ)
        → IsPair layout images entries sector app image slot target
        → IsPair layout images (after_boot entries) sector app image slot target }
    ensures lost { (layout : Places) (images : Images) (entries left : ℕ → Entry) (sector state : ℕ)
        (app : App) (image : List ℕ) (slot : ℕ) (target : List ℕ)
        → IsPair layout images entries sector app image slot target → (entries sector).state ≢ 3
        → (entries sector).state ≢ 4 → left (other_of sector) ≡ entries (other_of sector)
        → IsChance (entries sector) (with_state state (entries sector)) (left sector)
        ⊎ IsPair layout images left sector app image slot target }
    ensures verdict { (layout : Places) (images : Images) (entries : ℕ → Entry) (sector : ℕ)
        (app : App) (image : List ℕ) (slot : ℕ) (target : List ℕ) (booted : Option (App × List ℕ))
        → IsPair layout images entries sector app image slot target
        → (entries sector).state ≢ 3 → (entries sector).state ≢ 4
        → BootsByVerdict layout images entries sector booted
        → BootsOneOf app image slot target booted }
{}

/// One boot of a pair leaves it settled, or its entry active and waiting (`boot`); then a second
/// boot (`second_boot`) or a confirmation (`confirm`) leaves it settled.
pub fn pairs_settle()
    ensures boot { (layout : Places) (images : Images) (entries : ℕ → Entry) (sector : ℕ)
        (app : App) (image : List ℕ) (slot : ℕ) (target : List ℕ)
        → IsPair layout images entries sector app image slot target
        → SettlesOneOf layout images (after_boot entries) app image slot target
        ⊎ ((active_of (after_boot entries 0) (after_boot entries 1) ≡ Some sector)
        × ((after_boot entries sector).state ≡ 1)) }
    ensures second_boot { (layout : Places) (images : Images) (entries : ℕ → Entry) (sector : ℕ)
        (app : App) (image : List ℕ) (slot : ℕ) (target : List ℕ)
        → IsPair layout images entries sector app image slot target → (entries sector).state ≡ 1
        → SettlesOneOf layout images (after_boot entries) app image slot target }
    ensures confirm { (layout : Places) (images : Images) (entries : ℕ → Entry) (sector : ℕ)
        (app : App) (image : List ℕ) (slot : ℕ) (target : List ℕ)
        → IsPair layout images entries sector app image slot target
        → active_of (entries 0) (entries 1) ≡ Some sector
        → SettlesOneOf layout images (in_state 2 sector entries) app image slot target }
{}
