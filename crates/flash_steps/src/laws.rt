//! What the steps of every write and every erase make of a flash.

ghost use Rattle.std.specs.Prelude.{◌≡◌, ◌≤◌, ◌<◌, ◌↔◌, ◌+◌, ◌/◌, ◌%◌, ℕ, true, All, List, [], ◌∷◌, ◌++◌, length, replicate, Ok};
ghost use Rattle.std.specs.List.{AllByRecursion};
ghost use Rattle.nor_device.specs.declared.step.Step.{Step};
ghost use Rattle.nor_device.specs.declared.step.Step.TheVariants.{Erase, Program};
ghost use Rattle.nor_device.specs.Flash.{IsErase, after_steps, applied, end_of, start_of};
ghost use Rattle.partition_table.specs.declared.row.Row.{Row as Shown};
ghost use Rattle.partition_table.specs.Rules.{FitsFlash};
ghost use Rattle.flash_steps.specs.Parts.{IsOpenAddress, LiesInOpenPart, LiesInPart, open_addresses, part_erase_steps, part_write_steps};
ghost use Rattle.flash_steps.specs.Rules.{erase_checked, write_checked};
ghost use Rattle.flash_steps.specs.Steps.{FollowOn, IsErasedAt, IsPageProgram, LiesIn, erase_steps, pages_in, with_part, write_steps};

/// A write is as many programs as it touches pages, each of at least one byte in one page; they lie
/// in its range and follow one another. They make of a flash what one program of all bytes would,
/// and leave the bytes where it was erased. Pieces that end at the ends of pages are one write.
pub fn laws_of_writes()
    ensures count { (at : ℕ) (bytes : List ℕ)
        → length (write_steps at bytes) ≡ pages_in at (length bytes) }
    ensures one { (at : ℕ) (bytes : List ℕ) → 1 ≤ length bytes
        → at % 256 + length bytes ≤ 256 → write_steps at bytes ≡ Program at bytes ∷ [] }
    ensures pages { (at : ℕ) (bytes : List ℕ)
        → AllByRecursion IsPageProgram (write_steps at bytes) }
    ensures follow { (at : ℕ) (bytes : List ℕ)
        → FollowOn at (at + length bytes) (write_steps at bytes) }
    ensures inside { (at : ℕ) (bytes : List ℕ)
        → AllByRecursion (LiesIn at (at + length bytes)) (write_steps at bytes) }
    ensures whole { (at : ℕ) (bytes flash : List ℕ) → at + length bytes ≤ length flash
        → after_steps flash (write_steps at bytes) ≡ applied flash (Program at bytes) }
    ensures bytes { (at : ℕ) (bytes flash : List ℕ) → at + length bytes ≤ length flash
        → All (λ b. b < 256) bytes → IsErasedAt at (length bytes) flash
        → after_steps flash (write_steps at bytes) ≡ with_part at bytes flash }
    ensures pieces { (at : ℕ) (first rest : List ℕ) → (at + length first) % 256 ≡ 0
        → write_steps at (first ++ rest)
        ≡ write_steps at first ++ write_steps (at + length first) rest }
{}

/// An erase is as many erases as it has sectors; they lie in its range and follow one another, and
/// leave 0xFF there and all else as before. Pieces that are made of sectors are one erase, and bytes
/// that are written there then stand there.
pub fn laws_of_erases()
    ensures count { (at len : ℕ) → length (erase_steps at len) ≡ len / 4096 }
    ensures one { (at : ℕ) → erase_steps at 4096 ≡ Erase (at / 4096) ∷ [] }
    ensures erases { (at len : ℕ) → AllByRecursion IsErase (erase_steps at len) }
    ensures follow { (at len : ℕ) → at % 4096 ≡ 0 → len % 4096 ≡ 0
        → FollowOn at (at + len) (erase_steps at len) }
    ensures inside { (at len : ℕ) → at % 4096 ≡ 0 → len % 4096 ≡ 0
        → AllByRecursion (LiesIn at (at + len)) (erase_steps at len) }
    ensures bytes { (at len : ℕ) (flash : List ℕ) → at % 4096 ≡ 0 → len % 4096 ≡ 0
        → at + len ≤ length flash
        → after_steps flash (erase_steps at len) ≡ with_part at (replicate len 255) flash }
    ensures pieces { (at first rest : ℕ) → at % 4096 ≡ 0 → first % 4096 ≡ 0
        → erase_steps at (first + rest) ≡ erase_steps at first ++ erase_steps (at + first) rest }
    ensures anew { (from len at : ℕ) (bytes flash : List ℕ) → from % 4096 ≡ 0 → len % 4096 ≡ 0
        → from ≤ at → at + length bytes ≤ from + len → from + len ≤ length flash
        → All (λ b. b < 256) bytes
        → after_steps flash (erase_steps from len ++ write_steps at bytes)
        ≡ with_part at bytes (with_part from (replicate len 255) flash) }
{}

/// The steps of a write and of an erase of a partition stay inside it; where they are refused, there
/// are none.
pub fn laws_of_parts()
    ensures write { (rows : List Shown) (label : List ℕ) (offset : ℕ) (bytes : List ℕ) (row : Shown)
        → write_checked rows label offset (length bytes) ≡ Ok row
        → AllByRecursion (LiesInPart row) (part_write_steps rows label offset bytes) }
    ensures erase { (flash : ℕ) (rows : List Shown) (label : List ℕ) (offset len : ℕ) (row : Shown)
        → FitsFlash flash rows → erase_checked rows label offset len ≡ Ok row
        → AllByRecursion (LiesInPart row) (part_erase_steps rows label offset len) }
{}

/// Whatever is written and erased, the steps lie in partitions that may be changed (`write`,
/// `erase`), so they change open addresses alone (`changed`); these are the addresses of such
/// partitions (`exact`).
pub fn laws_of_open_parts()
    ensures write { (rows : List Shown) (label : List ℕ) (offset : ℕ) (bytes : List ℕ)
        → AllByRecursion (LiesInOpenPart rows) (part_write_steps rows label offset bytes) }
    ensures erase { (flash : ℕ) (rows : List Shown) (label : List ℕ) (offset len : ℕ)
        → FitsFlash flash rows
        → AllByRecursion (LiesInOpenPart rows) (part_erase_steps rows label offset len) }
    ensures changed { (rows : List Shown) (step : Step) → LiesInOpenPart rows step
        → (at : ℕ) → start_of step ≤ at → at < end_of step → open_addresses rows at ≡ true }
    ensures exact { (rows : List Shown) (at : ℕ)
        → (open_addresses rows at ≡ true) ↔ IsOpenAddress rows at }
{}
