//! What boots of a flash, and of what a loss of power leaves of rewrites, over all flashes.

ghost use Rattle.std.specs.Prelude.{◌≡◌, ◌≢◌, ◌⊎◌, ◌<◌, ◌≤◌, ◌+◌, ◌*◌, ℕ, All, Bool, List, None, length};
ghost use Rattle.nor_device.specs.Flash.{after_steps};
ghost use Rattle.crash_images.specs.Crash.{LeftAfter};
ghost use Rattle.partition_table.specs.declared.app.App.{App};
ghost use Rattle.partition_table.specs.Layout.{IsPlaced, Places};
ghost use Rattle.otadata.specs.declared.entry.Entry.{Entry};
ghost use Rattle.otadata.specs.Entry.{IsStored};
ghost use Rattle.boot_select.specs.Candidates.{candidates};
ghost use Rattle.boot_select.specs.Boots.{Images, entries_in, first_held, images_in, names};
ghost use Rattle.rollback.specs.declared.rewrite.Rewrite.{Rewrite};
ghost use Rattle.rollback.specs.Rewrite.{changed};
ghost use Rattle.rollback.specs.Boot.{boot_writes};
ghost use Rattle.rollback.specs.Boots.{boots_in};
ghost use Rattle.rollback.specs.Pair.{other_of};
ghost use Rattle.image_verify.specs.Held.{held};
ghost use Rattle.boot_run.specs.Rewriting.{AreShort, rewrite, rewrites};
ghost use Rattle.boot_run.specs.declared.aims.Aim.{Aim};
ghost use Rattle.boot_run.specs.Aim.{Begins, IsAimed};
ghost use Rattle.boot_run.specs.Crashed.{IsRestated, LeavesVerdict, LeavesVerdicts};
ghost use Rattle.boot_run.specs.Verdict.{confirmation, rejection, writes_of};
ghost use Rattle.boot_run.specs.Paired.{IsActivePair, IsPairIn, IsSettledPair, IsWaiting, KeepsPair, Pairing};

/// What a loss of power may leave, at any moment, of a rewrite that gives an entry another state:
/// of it boots what boots where the entry is VALID, or is INVALID, or the entry that is found
/// matches by chance (`verdict`); so it is of the rewrites of a boot, one after the other (`boot`).
/// The images and the entry of the other sector stay (`images`, `other`), and where an application
/// boots, one boots at every moment (`some`).
pub fn lost_rewrites_leave_verdicts()
    ensures verdict { (layout : Places) (size : ℕ) (flash left : List ℕ) (write : Rewrite)
        → IsPlaced layout size → IsRestated (entries_in layout flash) write
        → LeftAfter flash (rewrite layout.otadata write) left
        → LeavesVerdict layout flash write left }
    ensures boot { (layout : Places) (size : ℕ) (flash left : List ℕ) → IsPlaced layout size
        → LeftAfter flash (rewrites layout.otadata (boot_writes (entries_in layout flash))) left
        → LeavesVerdicts layout flash (boot_writes (entries_in layout flash)) left }
    ensures images { (layout : Places) (size : ℕ) (flash left : List ℕ) (writes : List Rewrite)
        → IsPlaced layout size → AreShort writes
        → LeftAfter flash (rewrites layout.otadata writes) left
        → images_in held layout left ≡ images_in held layout flash }
    ensures other { (layout : Places) (size : ℕ) (flash left : List ℕ) (write : Rewrite)
        → IsPlaced layout size → write.sector < 2 → length write.entry.label ≤ 20
        → LeftAfter flash (rewrite layout.otadata write) left
        → entries_in layout left (other_of write.sector)
        ≡ entries_in layout flash (other_of write.sector) }
    ensures some { (layout : Places) (size : ℕ) (flash left : List ℕ) (writes : List Rewrite)
        → IsPlaced layout size → AreShort writes
        → LeftAfter flash (rewrites layout.otadata writes) left
        → boots_in held layout flash ≢ None → boots_in held layout left ≢ None }
{}

/// A rewrite leaves the entry that it writes, and the other one as it was (`entry`). What boots of
/// a flash of bytes is the first candidate of the flash that the rewrites of a boot leave whose
/// partition holds a whole image there (`after`).
pub fn rewrites_are_read_back()
    ensures entry { (layout : Places) (flash : List ℕ) (write : Rewrite)
        → IsPlaced layout (length flash) → write.sector < 2 → IsStored write.entry
        → (sector : ℕ) → sector < 2
        → entries_in layout (after_steps flash (rewrite layout.otadata write)) sector
        ≡ changed write (entries_in layout flash) sector }
    ensures after { (layout : Places) (flash : List ℕ) → IsPlaced layout (length flash)
        → All (λ b. b < 256) flash
        → boots_in held layout flash
        ≡ (let left = after_steps flash
        (rewrites layout.otadata (boot_writes (entries_in layout flash))) in
        first_held (images_in held layout left)
        (candidates layout (names layout (entries_in layout left)))) }
{}

/// Where an aim is answered, an update may begin: the running application is settled, and the slot
/// and the entry are those that an update writes beside it.
pub fn aims_begin_updates()
    ensures { (layout : Places) (images : Images) (entries : ℕ → Entry) (long : ℕ) (aim : Aim)
        → 0 < length layout.slots → IsAimed layout images entries long aim
        → Begins layout images entries aim }
{}

/// What a loss of power may leave of a flash that is a pair, at any moment of a boot (`boot`), and of
/// a confirmation (`confirm`) or a rejection (`reject`) while the pair's entry is the active one: it
/// is that pair again, or the entry that is found in its sector matches by chance, seen from that
/// rewrite.
pub fn lost_rewrites_keep_pairs()
    ensures boot { (layout : Places) (size : ℕ) (flash left : List ℕ) (pair : Pairing)
        → IsPlaced layout size → IsPairIn layout flash pair
        → LeftAfter flash (rewrites layout.otadata (boot_writes (entries_in layout flash))) left
        → KeepsPair layout flash (boot_writes (entries_in layout flash)) pair left }
    ensures confirm { (layout : Places) (size : ℕ) (flash left : List ℕ) (pair : Pairing)
        → IsPlaced layout size → IsActivePair layout flash pair
        → (let writes = writes_of (confirmation (entries_in layout flash)) in
        LeftAfter flash (rewrites layout.otadata writes) left
        → KeepsPair layout flash writes pair left) }
    ensures reject { (layout : Places) (size : ℕ) (flash left : List ℕ) (pair : Pairing)
        (whole : App → Bool) → IsPlaced layout size → IsActivePair layout flash pair
        → (let writes = writes_of (rejection layout whole (entries_in layout flash)) in
        LeftAfter flash (rewrites layout.otadata writes) left
        → KeepsPair layout flash writes pair left) }
{}

/// Once all rewrites of a boot of a pair are made, on a flash of bytes, it is settled, or its entry is
/// active and waits (`boot`); where the entry waited before, it is settled (`second_boot`). So it is
/// once a confirmation of its active entry is made (`confirm`).
pub fn whole_rewrites_settle_pairs()
    ensures boot { (layout : Places) (flash : List ℕ) (pair : Pairing)
        → IsPlaced layout (length flash) → All (λ b. b < 256) flash → IsPairIn layout flash pair
        → (let left = after_steps flash
        (rewrites layout.otadata (boot_writes (entries_in layout flash))) in
        IsSettledPair layout left pair ⊎ IsWaiting layout left pair.sector) }
    ensures second_boot { (layout : Places) (flash : List ℕ) (pair : Pairing)
        → IsPlaced layout (length flash) → All (λ b. b < 256) flash → IsPairIn layout flash pair
        → (entries_in layout flash pair.sector).state ≡ 1
        → IsSettledPair layout (after_steps flash
        (rewrites layout.otadata (boot_writes (entries_in layout flash)))) pair }
    ensures confirm { (layout : Places) (flash : List ℕ) (pair : Pairing)
        → IsPlaced layout (length flash) → All (λ b. b < 256) flash
        → IsActivePair layout flash pair
        → IsSettledPair layout (after_steps flash
        (rewrites layout.otadata (writes_of (confirmation (entries_in layout flash))))) pair }
{}
