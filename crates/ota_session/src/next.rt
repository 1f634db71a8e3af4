//! Which step of an update has a number, found without the list of all steps.

ghost use Rattle.std.specs.Prelude.{◌≡◌, ◌↔◌, ◌+◌, ◌-◌, ◌/◌, ◌<◌, ◌^◌, IsTrue, None, Some, drop, length, slice_get, take};
ghost use Rattle.nor_device.specs.declared.step.Step.TheVariants.{Erase, Program};
ghost use Rattle.otadata.specs.Entry.{entry_bytes};
ghost use Rattle.image_verify.specs.Bad.{bad};
ghost use Rattle.boot_run.specs.Rewriting.{rewrite};
ghost use Rattle.flash_steps.specs.Steps.{pages_in, room_at, write_steps};
ghost use Rattle.update_steps.specs.Driver.{image_steps, next_rewrite};
ghost use Rattle.ota_session.specs.Numbers.{IsMarked, page_from};

use boot_run::Aim;
use image_verify::{Verifier, whole_images_show_no_fault};
use nor_device::{PAGE_SIZE, SECTOR_SIZE, Step};
use otadata::Entry;
use partition_table::{Layout, Row};
use rollback::Rewrite;

/// The first byte of an image.
const MAGIC: u8 = 0xE9;

/// Whether a step is the erase of this sector.
fn is_erase(step: &Step, sector: u64) -> bool
    ensures exact { IsTrue result ↔ (step.now ≡ Erase sector) }
{
    match step {
        Step::Erase { sector: found } => u64::from(*found) == sector,
        _ => false,
    }
}

/// Whether a step is the program of these bytes at this address.
fn is_program(step: &Step, at: u64, bytes: &[u8]) -> bool
    ensures exact { IsTrue result ↔ (step.now ≡ Program at bytes.now) }
{
    match step {
        Step::Program {
            at: found,
            bytes: page,
        } => u64::from(*found) == at && page.bytes() == bytes,
        _ => false,
    }
}

/// Whether a step has this number in the rewrite of an entry.
pub(crate) fn is_entry_step(otadata: u32, write: &Rewrite, number: u32, step: &Step) -> bool
    ensures exact { IsTrue result ↔ (slice_get (rewrite otadata write.now) number ≡ Some step.now) }
{
    let otadata = u64::from(otadata);
    let size = u64::from(SECTOR_SIZE);
    let sector = u64::from(write.sector);
    match number {
        0 => is_erase(step, otadata / size + sector),
        1 => is_entry(step, otadata + size * sector, &write.entry),
        _ => false,
    }
}

/// Whether a step is the program of the bytes of an entry.
fn is_entry(step: &Step, at: u64, entry: &Entry) -> bool
    ensures exact { IsTrue result ↔ (step.now ≡ Program at (entry_bytes entry.now)) }
{
    let mut bytes = [0; 32];
    entry.put(&mut bytes);
    is_program(step, at, &bytes)
}

/// In how many sectors the bytes of an image are.
fn sectors_of(image: &[u8]) -> u32
    requires small { length image.now < 2 ^ 32 }
    ensures exact { result ≡ (length image.now + 4095) / 4096 }
{
    (image.len() as u32).div_ceil(SECTOR_SIZE)
}

/// In how many pages bytes from an address on are.
#[tactic(auto, unfolding(flash_steps::specs::Steps::pages_in))]
fn pages_of(at: u32, bytes: &[u8]) -> u32
    requires small { length bytes.now < 2 ^ 32 }
    ensures exact { result ≡ pages_in at (length bytes.now) }
{
    if bytes.is_empty() {
        0
    } else {
        ((at as usize % PAGE_SIZE + bytes.len() + PAGE_SIZE - 1) / PAGE_SIZE) as u32
    }
}

/// Where the page with this number begins, of those in which bytes from an address on are, and the
/// bytes in it.
#[tactic(auto, using(crate::proofs::NumberLemmas::page_within))]
fn page_at(at: u32, bytes: &[u8], number: u32) -> (u64, &[u8])
    requires within { number < pages_in at (length bytes.now) }
    ensures from { result.0 ≡ page_from at number }
    ensures bytes { result.1.now
        ≡ take (room_at (page_from at number)) (drop (page_from at number - at) bytes.now) }
{
    let start = at as usize;
    let from = ((start / PAGE_SIZE + number as usize) * PAGE_SIZE).max(start);
    let rest = &bytes[from - start..];
    let room = PAGE_SIZE - from % PAGE_SIZE;
    if rest.len() <= room {
        (from as u64, rest)
    } else {
        (from as u64, &rest[..room])
    }
}

/// Whether a step has this number in the write of bytes from an address on.
fn is_page_step(at: u32, bytes: &[u8], number: u32, step: &Step) -> bool
    requires within { number < pages_in at (length bytes.now) }
    ensures exact { IsTrue result ↔ (slice_get (write_steps at bytes.now) number ≡ Some step.now) }
{
    let (from, page) = page_at(at, bytes, number);
    is_program(step, from, page)
}

/// Whether a step has this number in an update by an image, in the partition of its slot. The image
/// is looked at for faults where the step comes behind its own steps alone.
pub(crate) fn is_image_step(
    otadata: u32,
    row: &Row,
    aim: &Aim,
    image: &[u8],
    number: u32,
    step: &Step,
) -> bool
    requires small { length image.now < 2 ^ 32 }
    ensures exact { IsTrue result
        ↔ (slice_get (image_steps otadata row.now (next_rewrite aim.now) image.now) number
        ≡ Some step.now) }
{
    let erases = sectors_of(image);
    if number < erases {
        return is_erase(step, (row.offset / SECTOR_SIZE) as u64 + number as u64);
    }
    if !is_marked(image) {
        return false;
    }
    let later = number - erases;
    let programs = pages_of(row.offset, image);
    if later < programs {
        return is_page_step(row.offset, image, later, step);
    }
    if !is_whole(image, row.size) {
        return false;
    }
    is_entry_step(otadata, &next_rewrite(aim), later - programs, step)
}

/// Whether the first byte is that of an image.
fn is_marked(image: &[u8]) -> bool
    ensures exact { IsTrue result ↔ IsMarked image.now }
{
    match image.first() {
        Some(byte) => *byte == MAGIC,
        None => false,
    }
}

/// The rewrite that announces the new application.
fn next_rewrite(aim: &Aim) -> Rewrite
    ensures exact { result ≡ next_rewrite aim.now }
{
    Rewrite {
        sector: aim.next.sector,
        entry: aim.next.entry,
    }
}

/// The partition of a slot, where there is one.
pub(crate) fn row_of(layout: &Layout, slot: u8) -> Option<Row>
    ensures exact { result ≡ slice_get layout.now.slots slot }
{
    layout.slots.get(usize::from(slot)).copied()
}

/// Whether an image shows no fault, where it may have so many bytes.
fn is_whole(image: &[u8], limit: u32) -> bool
    ensures exact { IsTrue result ↔ (bad limit image.now ≡ None) }
{
    whole_images_show_no_fault();
    let mut verifier = Verifier::new(limit);
    let _ = verifier.feed(image);
    verifier.finish().is_ok()
}
