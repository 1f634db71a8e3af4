//! What the steps of an update leave, over all flashes.

ghost use Rattle.std.specs.Prelude.{◌≡◌, ◌≢◌, ◌⊎◌, ◌<◌, ◌≤◌, ◌++◌, ℕ, All, Bool, true, List, [], ◌∷◌, Some, None, Ok, drop, length, slice_get, take};
ghost use Rattle.nor_device.specs.declared.step.Step.{Step};
ghost use Rattle.nor_device.specs.Flash.{after_steps, applied, end_of, start_of};
ghost use Rattle.nor_device.specs.Torn.{Torn};
ghost use Rattle.crash_images.specs.Crash.{LeftAfter};
ghost use Rattle.partition_table.specs.declared.app.App.{App};
ghost use Rattle.partition_table.specs.declared.app.App.TheVariants.{Ota};
ghost use Rattle.partition_table.specs.declared.row.Row.{Row as Shown};
ghost use Rattle.partition_table.specs.Layout.{IsPlaced, Places, layout_in, layout_of};
ghost use Rattle.partition_table.specs.Rules.{FitsFlash};
ghost use Rattle.partition_table.specs.Table.{table_of};
ghost use Rattle.flash_steps.specs.Parts.{LiesInOpenPart, open_addresses};
ghost use Rattle.otadata.specs.Entry.{IsStored};
ghost use Rattle.boot_select.specs.Boots.{entries_in, images_in};
ghost use Rattle.rollback.specs.declared.rewrite.Rewrite.{Rewrite};
ghost use Rattle.rollback.specs.Boots.{boots_in};
ghost use Rattle.image_layout.specs.Whole.{Whole};
ghost use Rattle.image_verify.specs.declared.bad.BadImage.{BadImage};
ghost use Rattle.image_verify.specs.Bad.{bad};
ghost use Rattle.image_verify.specs.Held.{held};
ghost use Rattle.boot_run.specs.declared.aims.Aim.{Aim};
ghost use Rattle.boot_run.specs.Aim.{IsAimed};
ghost use Rattle.boot_run.specs.Crashed.{IsRestated, LeavesVerdict};
ghost use Rattle.boot_run.specs.Rewriting.{rewrite};
ghost use Rattle.update_steps.specs.Driver.{data_steps, driver_steps, next_rewrite, slot_erases, step_count};
ghost use Rattle.update_steps.specs.Beside.{IsApart, StandsBeside};
ghost use Rattle.update_steps.specs.Session.{BootsOldOrNew, IsOpening, LeavesPair, MatchesByChance};

use image_verify::whole_images_show_no_fault;

/// The erases and the programs of an image leave it in its slot, where it is whole (`held`). At
/// every moment of them, whatever a loss of power leaves, the entries (`entries`) and the images of
/// all other applications (`images`) stay, if the bytes are no more than the slot has.
pub fn data_steps_fill_their_slot()
    ensures held { (layout : Places) (flash image : List ℕ) (slot : ℕ) (row : Shown)
        → IsPlaced layout (length flash) → slice_get layout.slots slot ≡ Some row
        → Whole image row.size → All (λ b. b < 256) image
        → images_in held layout (after_steps flash (data_steps row.offset image)) (Ota slot)
        ≡ Some image }
    ensures entries { (layout : Places) (flash left image : List ℕ) (slot : ℕ) (row : Shown)
        → IsPlaced layout (length flash) → slice_get layout.slots slot ≡ Some row
        → length image ≤ row.size → LeftAfter flash (data_steps row.offset image) left
        → (sector : ℕ) → sector < 2
        → entries_in layout left sector ≡ entries_in layout flash sector }
    ensures images { (layout : Places) (flash left image : List ℕ) (slot : ℕ) (row : Shown)
        (other : App)
        → IsPlaced layout (length flash) → slice_get layout.slots slot ≡ Some row
        → length image ≤ row.size → Ota slot ≢ other
        → LeftAfter flash (data_steps row.offset image) left
        → images_in held layout left other ≡ images_in held layout flash other }
{}

/// The steps of an update by its image, in the partition of the slot: none of no bytes (`empty`);
/// the erases where the first byte is another than 0xE9 (`unmarked`); erases and programs where the
/// bytes show a fault (`faulty`); and, of an image that is whole within its slot, the rewrite of
/// the next entry behind them (`whole`), so many steps in all (`count`).
pub fn updates_are_their_steps()
    ensures empty { (layout : Places) (aim : Aim) → driver_steps layout aim [] ≡ [] }
    ensures unmarked { (layout : Places) (aim : Aim) (row : Shown) (byte : ℕ) (bytes : List ℕ)
        → slice_get layout.slots aim.slot ≡ Some row → byte ≢ 0xE9
        → driver_steps layout aim (byte ∷ bytes) ≡ slot_erases row.offset (byte ∷ bytes) }
    ensures faulty { (layout : Places) (aim : Aim) (row : Shown) (bytes : List ℕ)
        (why : BadImage)
        → slice_get layout.slots aim.slot ≡ Some row → bad row.size (0xE9 ∷ bytes) ≡ Some why
        → driver_steps layout aim (0xE9 ∷ bytes) ≡ data_steps row.offset (0xE9 ∷ bytes) }
    ensures whole { (layout : Places) (aim : Aim) (image : List ℕ) (row : Shown)
        → slice_get layout.slots aim.slot ≡ Some row → Whole image row.size
        → driver_steps layout aim image
        ≡ data_steps row.offset image ++ rewrite layout.otadata (next_rewrite aim) }
    ensures count { (layout : Places) (aim : Aim) (image : List ℕ) (row : Shown)
        → slice_get layout.slots aim.slot ≡ Some row → Whole image row.size
        → length (driver_steps layout aim image) ≡ step_count row.offset (length image) }
{
    whole_images_show_no_fault();
}

/// What `boot_run::aim` answers opens an update, of bytes as many as it was asked for.
pub fn aimed_updates_open()
    ensures { (layout : Places) (flash : List ℕ) (aim : Aim) (old new : List ℕ)
        → IsPlaced layout (length flash) → 0 < length layout.slots → length layout.slots ≤ 16
        → IsAimed layout (images_in held layout flash) (entries_in layout flash) (length new) aim
        → images_in held layout flash aim.running ≡ Some old → IsStored aim.next.entry
        → All (λ b. b < 256) new → IsOpening layout flash aim old new }
{}

/// The rows of a table obey its rules (`fits`). The layout by such rows lies in order in a flash of
/// that size (`placed`), and has 1 to 16 slots (`some`, `few`); so does that of a flash by its table
/// (`flash`). What `boot_run::aim` answers for a flash with that layout opens an update there,
/// from the image of the application that runs (`opens`).
pub fn tables_open_updates()
    ensures fits { (bytes : List ℕ) (size : ℕ) (rows : List Shown)
        → table_of bytes size ≡ Ok rows → FitsFlash size rows }
    ensures placed { (size : ℕ) (rows : List Shown) (layout : Places) → FitsFlash size rows
        → layout_of rows ≡ Ok layout → IsPlaced layout size }
    ensures some { (rows : List Shown) (layout : Places) → layout_of rows ≡ Ok layout
        → 0 < length layout.slots }
    ensures few { (rows : List Shown) (layout : Places) → layout_of rows ≡ Ok layout
        → length layout.slots ≤ 16 }
    ensures flash { (flash : List ℕ) (layout : Places) → layout_in flash ≡ Ok layout
        → IsPlaced layout (length flash) × (0 < length layout.slots) × (length layout.slots ≤ 16) }
    ensures opens { (flash : List ℕ) (layout : Places) (aim : Aim) (new : List ℕ)
        → layout_in flash ≡ Ok layout → All (λ b. b < 256) new
        → IsAimed layout (images_in held layout flash) (entries_in layout flash) (length new) aim
        → (old : List ℕ) × IsOpening layout flash aim old new }
{}

/// An update begins on `flash`, beside an application that runs from the image `old`. Of each flash
/// that a loss of power may leave of its steps, at any moment, the old application boots, or, where
/// the new image is whole, the new one, or the entry that is found in the sector of the next one
/// matches by chance (`boots`); as long as only data were written, the old one boots (`before`).
/// Some application boots, chance or not (`some`). But for chance, what is left is a pair of both
/// applications (`pair`). The layout stays (`layout`). Behind all steps the new application boots,
/// where its image is whole (`done`).
pub fn lost_updates_boot_old_or_new()
    ensures before { (layout : Places) (flash left : List ℕ) (aim : Aim) (old new : List ℕ)
        (row : Shown)
        → IsOpening layout flash aim old new → slice_get layout.slots aim.slot ≡ Some row
        → LeftAfter flash (data_steps row.offset new) left
        → boots_in held layout left ≡ Some (aim.running, old) }
    ensures boots { (layout : Places) (flash left : List ℕ) (aim : Aim) (old new : List ℕ)
        (row : Shown)
        → IsOpening layout flash aim old new → slice_get layout.slots aim.slot ≡ Some row
        → LeftAfter flash (driver_steps layout aim new) left
        → BootsOldOrNew layout flash aim row.size old new left }
    ensures some { (layout : Places) (flash left : List ℕ) (aim : Aim) (old new : List ℕ)
        → IsOpening layout flash aim old new → LeftAfter flash (driver_steps layout aim new) left
        → boots_in held layout left ≢ None }
    ensures pair { (layout : Places) (flash left : List ℕ) (aim : Aim) (old new : List ℕ)
        → IsOpening layout flash aim old new → LeftAfter flash (driver_steps layout aim new) left
        → LeavesPair layout aim old new left ⊎ MatchesByChance layout flash aim left }
    ensures layout { (layout : Places) (flash left : List ℕ) (aim : Aim) (old new : List ℕ)
        → IsOpening layout flash aim old new → LeftAfter flash (driver_steps layout aim new) left
        → layout_in left ≡ layout_in flash }
    ensures done { (layout : Places) (flash : List ℕ) (aim : Aim) (old new : List ℕ) (row : Shown)
        → IsOpening layout flash aim old new → slice_get layout.slots aim.slot ≡ Some row
        → Whole new row.size
        → boots_in held layout (after_steps flash (driver_steps layout aim new))
        ≡ Some (Ota aim.slot, new) }
{
    whole_images_show_no_fault();
}

/// What stands of the steps of one core beside another, which changes bytes only where it may write
/// (`others`): at the first flash nothing is made (`first`); a next step that is torn (`torn`) or
/// made (`made`) leaves it so, and so does a step of the other core, torn or made (`other`).
pub fn steps_stand_beside_another_core()
    ensures first { (flash : List ℕ) (steps : List Step) (others : ℕ → Bool)
        → StandsBeside flash [] steps others flash }
    ensures torn { (first : List ℕ) (made : List Step) (step : Step) (rest : List Step)
        (others : ℕ → Bool) (now left : List ℕ)
        → StandsBeside first made (step ∷ rest) others now → Torn now step left
        → StandsBeside first made (step ∷ rest) others left }
    ensures made { (first : List ℕ) (made : List Step) (step : Step) (rest : List Step)
        (others : ℕ → Bool) (now : List ℕ) → StandsBeside first made (step ∷ rest) others now
        → StandsBeside first (made ++ (step ∷ [])) rest others (applied now step) }
    ensures other { (first : List ℕ) (made rest : List Step) (others : ℕ → Bool) (step : Step)
        (now left : List ℕ) → StandsBeside first made rest others now
        → ((i : ℕ) → start_of step ≤ i → i < end_of step → others i ≡ true)
        → Torn now step left → StandsBeside first made rest others left }
{}

/// The partitions of a table that may be changed are apart from the table, the OTA data and the
/// applications' partitions, in the layout by its rows (`rows`), and so in that of a flash (`flash`).
/// A step of another core in such a partition leaves what stands (`stands`).
pub fn open_partitions_are_apart()
    ensures rows { (size : ℕ) (rows : List Shown) (layout : Places) → FitsFlash size rows
        → layout_of rows ≡ Ok layout → IsApart layout (open_addresses rows) }
    ensures flash { (flash : List ℕ) (rows : List Shown) (layout : Places)
        → table_of (take 0xC00 (drop 0x8000 flash)) (length flash) ≡ Ok rows
        → layout_in flash ≡ Ok layout → IsApart layout (open_addresses rows) }
    ensures stands { (first : List ℕ) (made rest : List Step) (rows : List Shown) (step : Step)
        (now left : List ℕ) → StandsBeside first made rest (open_addresses rows) now
        → LiesInOpenPart rows step → Torn now step left
        → StandsBeside first made rest (open_addresses rows) left }
{}

/// So it is of an update beside another core that may write neither to the table and the OTA data
/// nor to an application's partition: what stands while its steps are made boots the old
/// application or the new one, and so on, as `lost_updates_boot_old_or_new` says.
pub fn updates_stand_beside_another_core()
    ensures before { (layout : Places) (flash now : List ℕ) (aim : Aim) (old new : List ℕ)
        (made rest : List Step) (others : ℕ → Bool)
        → IsOpening layout flash aim old new → IsApart layout others
        → StandsBeside flash made rest others now → (row : Shown)
        → slice_get layout.slots aim.slot ≡ Some row → data_steps row.offset new ≡ made ++ rest
        → boots_in held layout now ≡ Some (aim.running, old) }
    ensures boots { (layout : Places) (flash now : List ℕ) (aim : Aim) (old new : List ℕ)
        (made rest : List Step) (others : ℕ → Bool)
        → IsOpening layout flash aim old new → IsApart layout others
        → StandsBeside flash made rest others now → (row : Shown)
        → slice_get layout.slots aim.slot ≡ Some row → driver_steps layout aim new ≡ made ++ rest
        → BootsOldOrNew layout flash aim row.size old new now }
    ensures some { (layout : Places) (flash now : List ℕ) (aim : Aim) (old new : List ℕ)
        (made rest : List Step) (others : ℕ → Bool)
        → IsOpening layout flash aim old new → IsApart layout others
        → StandsBeside flash made rest others now → driver_steps layout aim new ≡ made ++ rest
        → boots_in held layout now ≢ None }
    ensures pair { (layout : Places) (flash now : List ℕ) (aim : Aim) (old new : List ℕ)
        (made rest : List Step) (others : ℕ → Bool)
        → IsOpening layout flash aim old new → IsApart layout others
        → StandsBeside flash made rest others now → driver_steps layout aim new ≡ made ++ rest
        → LeavesPair layout aim old new now ⊎ MatchesByChance layout flash aim now }
    ensures layout { (layout : Places) (flash now : List ℕ) (aim : Aim) (old new : List ℕ)
        (made rest : List Step) (others : ℕ → Bool)
        → IsOpening layout flash aim old new → IsApart layout others
        → StandsBeside flash made rest others now → driver_steps layout aim new ≡ made ++ rest
        → layout_in now ≡ layout_in flash }
    ensures done { (layout : Places) (flash now : List ℕ) (aim : Aim) (old new : List ℕ)
        (others : ℕ → Bool) (row : Shown)
        → IsOpening layout flash aim old new → IsApart layout others
        → slice_get layout.slots aim.slot ≡ Some row → Whole new row.size
        → StandsBeside flash (driver_steps layout aim new) [] others now
        → boots_in held layout now ≡ Some (Ota aim.slot, new) }
{
    whole_images_show_no_fault();
}

/// So it is of a rewrite that gives an entry another state: what stands beside the other core boots
/// by a verdict on that entry, or the entry matches by chance (`verdict`), and boots some
/// application, if the flash before did (`some`). Behind all steps of any list boots what boots of
/// the flash that they leave (`done`).
pub fn rewrites_stand_beside_another_core()
    ensures verdict { (layout : Places) (flash now : List ℕ) (write : Rewrite)
        (made rest : List Step) (others : ℕ → Bool)
        → IsPlaced layout (length flash) → IsRestated (entries_in layout flash) write
        → IsApart layout others → rewrite layout.otadata write ≡ made ++ rest
        → StandsBeside flash made rest others now → LeavesVerdict layout flash write now }
    ensures some { (layout : Places) (flash now : List ℕ) (write : Rewrite)
        (made rest : List Step) (others : ℕ → Bool)
        → IsPlaced layout (length flash) → IsRestated (entries_in layout flash) write
        → IsApart layout others → rewrite layout.otadata write ≡ made ++ rest
        → StandsBeside flash made rest others now → boots_in held layout flash ≢ None
        → boots_in held layout now ≢ None }
    ensures done { (layout : Places) (flash now : List ℕ) (steps : List Step) (others : ℕ → Bool)
        → IsApart layout others → StandsBeside flash steps [] others now
        → boots_in held layout now ≡ boots_in held layout (after_steps flash steps) }
{}
