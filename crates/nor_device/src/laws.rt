//! What holds of every flash and every step.

ghost use Rattle.std.specs.Prelude.{◌≡◌, ◌↔◌, ℕ, ◌+◌, ◌/◌, ◌<◌, ◌≤◌, Bool, true, false, All, List, ◌++◌, length, slice_index};
ghost use Rattle.nor_device.specs.declared.page.TheConstants.{PAGE_SIZE};
ghost use Rattle.nor_device.specs.declared.step.TheConstants.{SECTOR_SIZE, BLOCK_SIZE};
ghost use Rattle.nor_device.specs.declared.step.Step.{Step};
ghost use Rattle.nor_device.specs.Flash.{IsPageLength, IsInOnePage, start_of, len_of, end_of, IsErase, applied, erased, after_steps, byte_after};
ghost use Rattle.nor_device.specs.Marks.{no_marks, is_marked, marked_count, marks_after};
ghost use Rattle.nor_device.specs.Torn.{Torn, IsTornErase};

/// A page has 256 bytes, a sector 4096, and a block 65,536.
pub fn laws_of_sizes()
    ensures page { PAGE_SIZE ≡ 256 }
    ensures sector { SECTOR_SIZE ≡ 4096 }
    ensures block { BLOCK_SIZE ≡ 65536 }
{}

/// What a step makes of each byte, and a list of steps of the flash.
#[tactic(auto, using(crate::proofs::FlashLaws::length_applied, crate::proofs::FlashLaws::byte_applied, crate::proofs::FlashLaws::after_steps_append))]
pub fn laws_of_steps()
    ensures length { (flash : List ℕ) (step : Step) → length (applied flash step) ≡ length flash }
    ensures byte { (flash : List ℕ) (step : Step) (i : ℕ) → i < length flash
        → slice_index (applied flash step) i ≡ byte_after step i (slice_index flash i) }
    ensures first_some { (flash : List ℕ) (made rest : List Step)
        → after_steps flash (made ++ rest) ≡ after_steps (after_steps flash made) rest }
{}

/// The two kinds of erase are told by where they begin and how long they are.
pub fn laws_of_erases()
    ensures made { (flash : List ℕ) (step : Step) → IsErase step → end_of step ≤ length flash
        → applied flash step ≡ erased flash (start_of step) (len_of step) }
    ensures torn { (old new : List ℕ) (step : Step) → IsErase step
        → (Torn old step new ↔ IsTornErase (start_of step) (len_of step) old new) }
{}

/// How many sectors of a device in memory are marked: none as it is made, one more after an erase of an
/// unmarked sector, and one less after the first program in a marked one.
pub fn laws_of_marks()
    ensures none { marked_count no_marks ≡ 0 }
    ensures erase { (marks : List Bool) (sector : ℕ) → sector < length marks
        → is_marked marks sector ≡ false
        → marked_count (marks_after (Step.Erase sector) marks) ≡ marked_count marks + 1 }
    ensures again { (marks : List Bool) (sector : ℕ) → is_marked marks sector ≡ true
        → marks_after (Step.Erase sector) marks ≡ marks }
    ensures program { (marks : List Bool) (at : ℕ) (page : List ℕ) → IsPageLength page
        → IsInOnePage (Step.Program at page) → is_marked marks (at / 4096) ≡ true
        → marked_count (marks_after (Step.Program at page) marks) + 1 ≡ marked_count marks }
    ensures others { (marks : List Bool) (at : ℕ) (page : List ℕ) → IsPageLength page
        → IsInOnePage (Step.Program at page) → is_marked marks (at / 4096) ≡ false
        → marks_after (Step.Program at page) marks ≡ marks }
{}

/// What a step that was cut short may leave: nothing done, all done, and with it all that a second cut leaves.
/// The step made again over a torn flash is the step made once.
#[tactic(auto, using(crate::proofs::TornLaws::applied_torn))]
pub fn laws_of_torn_flashes()
    ensures not_begun { (flash : List ℕ) (step : Step) → Torn flash step flash }
    ensures made { (flash : List ℕ) (step : Step) → Torn flash step (applied flash step) }
    ensures twice { (first second third : List ℕ) (step : Step)
        → Torn first step second → Torn second step third → Torn first step third }
    ensures again { (flash torn : List ℕ) (step : Step)
        → Torn flash step torn → applied torn step ≡ applied flash step }
    ensures bytes { (flash torn : List ℕ) (step : Step)
        → Torn flash step torn → All (λ b. b < 256) flash → All (λ b. b < 256) torn }
{}
