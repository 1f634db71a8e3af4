//! What holds of boots and confirmations under anti-rollback, over all flashes and bits.

ghost use Rattle.std.specs.Prelude.{◌≡◌, ◌≢◌, ◌↔◌, ◌<◌, ◌≤◌, ℕ, List, None, Some, Ok, Err, max};
ghost use Rattle.partition_table.specs.declared.app.App.{App};
ghost use Rattle.partition_table.specs.Layout.{IsPlaced, Places};
ghost use Rattle.otadata.specs.declared.entry.Entry.{Entry};
ghost use Rattle.boot_select.specs.Boots.{entries_in, images_in};
ghost use Rattle.rollback.specs.Boots.{boots_in};
ghost use Rattle.image_verify.specs.Held.{held};
ghost use Rattle.secure_fuse.specs.Bits.{level_of, Keeps};
ghost use Rattle.secure_fuse.specs.Secure.{secure_in, secure_of};
ghost use Rattle.boot_run.specs.declared.booted.Booted.{Booted};
ghost use Rattle.boot_run.specs.declared.fused.Denied.{Denied};
ghost use Rattle.boot_run.specs.Booted.{IsBoot};
ghost use Rattle.boot_run.specs.Above.{held_above};
ghost use Rattle.boot_run.specs.Raised.{Becomes, Both, LeavesRaised, version_of, versions_in};

/// What boots above a level is whole and no older than it (`boots`), and so is what a boot above it
/// tells (`started`). Nothing boots above it exactly where all that is whole is older (`none`). Above
/// level 0 the same boots as without a level (`zero`).
pub fn nothing_older_boots()
    ensures boots { (level : ℕ) (layout : Places) (flash : List ℕ) (app : App) (image : List ℕ)
        → boots_in (held_above level) layout flash ≡ Some (app, image)
        → (images_in held layout flash app ≡ Some image) × (level ≤ secure_of image) }
    ensures started { (level : ℕ) (layout : Places) (flash : List ℕ) (entries : ℕ → Entry)
        (booted : Booted)
        → IsBoot layout (images_in (held_above level) layout flash) entries (Some booted)
        → level ≤ secure_in booted.info.desc }
    ensures none { (level : ℕ) (layout : Places) (flash : List ℕ)
        → (boots_in (held_above level) layout flash ≡ None)
        ↔ ((app : App) (image : List ℕ) → images_in held layout flash app ≡ Some image
        → secure_of image < level) }
    ensures zero { (layout : Places) (flash : List ℕ)
        → boots_in (held_above 0) layout flash ≡ boots_in held layout flash }
{}

/// At every moment of a confirmation under anti-rollback no bit is lost (`bits`), the level does not
/// fall (`level`), and it is at most the greater of the one before and the version of the application
/// that is confirmed (`most`). Without such an application it stays (`denied`). Where an application
/// boots above the level before, one boots above the level that is left (`some`).
pub fn levels_rise_to_what_is_confirmed()
    ensures bits { (layout : Places) (flash left : List ℕ) (bits word : ℕ)
        → LeavesRaised layout flash bits left word → Keeps bits word }
    ensures level { (layout : Places) (flash left : List ℕ) (bits word : ℕ)
        → LeavesRaised layout flash bits left word → level_of bits ≤ level_of word }
    ensures most { (layout : Places) (flash left : List ℕ) (bits word secure : ℕ)
        → version_of layout (versions_in layout flash) (entries_in layout flash) (level_of bits)
        ≡ Ok secure
        → LeavesRaised layout flash bits left word → level_of word ≤ max (level_of bits) secure }
    ensures denied { (layout : Places) (flash left : List ℕ) (bits word : ℕ) (why : Denied)
        → version_of layout (versions_in layout flash) (entries_in layout flash) (level_of bits)
        ≡ Err why
        → LeavesRaised layout flash bits left word → word ≡ bits }
    ensures some { (layout : Places) (size : ℕ) (flash left : List ℕ) (bits word : ℕ)
        → IsPlaced layout size → LeavesRaised layout flash bits left word
        → boots_in (held_above (level_of bits)) layout flash ≢ None
        → boots_in (held_above (level_of word)) layout left ≢ None }
{}

/// Over any list of boots and confirmations under anti-rollback, each whole or broken off at any
/// moment, no bit is lost (`bits`) and the level never falls (`level`). So nothing boots above it that
/// is older than the level was before them (`older`), and an application still boots above it, where
/// one did (`some`).
pub fn levels_never_fall()
    ensures bits { (layout : Places) (old new : Both) (states : List Both)
        → Becomes layout old states new → Keeps old.bits new.bits }
    ensures level { (layout : Places) (old new : Both) (states : List Both)
        → Becomes layout old states new → level_of old.bits ≤ level_of new.bits }
    ensures older { (layout : Places) (old new : Both) (states : List Both) (app : App)
        (image : List ℕ) → Becomes layout old states new
        → boots_in (held_above (level_of new.bits)) layout new.flash ≡ Some (app, image)
        → level_of old.bits ≤ secure_of image }
    ensures some { (layout : Places) (size : ℕ) (old new : Both) (states : List Both)
        → IsPlaced layout size → Becomes layout old states new
        → boots_in (held_above (level_of old.bits)) layout old.flash ≢ None
        → boots_in (held_above (level_of new.bits)) layout new.flash ≢ None }
{}
