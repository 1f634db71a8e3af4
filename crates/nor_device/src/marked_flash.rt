//! A flash that erases by marking. What is stored in a marked sector is old: the sector reads as 0xFF.
//! An erase moves no byte, and the first program in a marked sector fills it before it clears bits there.

ghost use Rattle.std.specs.Prelude.{◌≡◌, ◌+◌, ◌-◌, ◌*◌, ◌/◌, ◌<◌, ◌≤◌, ◌==◌, true, false, length, slice_set};
ghost use Rattle.nor_device.specs.Flash.{IsPageLength, end_of, anded, applied, erased};
ghost use Rattle.nor_device.specs.FlashSize.{IsFlashSize};
ghost use Rattle.nor_device.specs.Marks.{AreErased, no_marks, is_marked, marked_count, marked_as, marks_after, covered};
ghost use Rattle.nor_device.specs.Nor.{part_of};
ghost use Rattle.nor_device.specs.declared.step.Step.TheVariants.{Erase, Program, Block};

use crate::marks::Marks;
use crate::step::{BLOCK_SIZE, SECTOR_SIZE};
use std::marker::Model;

const SECTOR: usize = SECTOR_SIZE as usize;

const BLOCK_SECTORS: usize = (BLOCK_SIZE / SECTOR_SIZE) as usize;

/// The stored bytes, and the sectors whose bytes no longer count.
#[derive(Drop)]
pub(crate) struct MarkedFlash {
    stored: Vec<u8>,
    marks: Marks,
}

// Clauses see the bytes as they read, and the marks.
impl Model for MarkedFlash {
    ghost use Rattle.nor_device.specs.Marked.{Marked, marked_of, IsMarkedFlash};

    ghost Value = { Marked };

    ghost view = { marked_of };

    ghost invariant = { IsMarkedFlash };
}

impl MarkedFlash {
    /// A flash of these bytes, without marks.
    pub(crate) fn of_bytes(bytes: Vec<u8>) -> MarkedFlash
        requires size { IsFlashSize (length bytes.items) }
        ensures bytes { result.bytes ≡ bytes.items }
        ensures marks { result.marks ≡ no_marks }
    {
        MarkedFlash {
            stored: bytes,
            marks: Marks::none(),
        }
    }

    /// The bytes as they read.
    pub(crate) fn into_bytes(self) -> Vec<u8>
        ensures exact { result.items ≡ self.bytes }
    {
        let mut bytes = self.stored;
        cover(&self.marks, 0, &mut bytes);
        bytes
    }

    /// How many bytes there are.
    pub(crate) fn len(&self) -> usize
        ensures exact { result ≡ length self.now.bytes }
        ensures most { result ≤ 33554432 }
    {
        self.stored.len()
    }

    /// How many sectors are marked.
    pub(crate) fn marked(&self) -> u32
        ensures exact { result ≡ marked_count self.now.marks }
        ensures erased { AreErased self.now.marks self.now.bytes }
    {
        self.marks.count()
    }

    /// Copies what is stored, and covers what is marked.
    pub(crate) fn read(&self, at: usize, out: &mut [u8])
        requires inside { at + length out.old ≤ length self.now.bytes }
        ensures exact { out.new ≡ part_of self.now.bytes at (length out.old) }
    {
        copy(&self.stored, at, out);
        cover(&self.marks, at, out);
    }

    /// Erases the sector.
    #[tactic(auto, using(crate::proofs::FlashLaws::length_applied))]
    pub(crate) fn erase_sector(&mut self, sector: u32)
        requires inside { end_of (Erase sector) ≤ length self.old.bytes }
        ensures bytes { self.new.bytes ≡ applied self.old.bytes (Erase sector) }
        ensures marks { self.new.marks ≡ marks_after (Erase sector) self.old.marks }
        ensures size { length self.new.bytes ≡ length self.old.bytes }
    {
        let first = sector as usize;
        self.erase(first, first + 1);
    }

    /// Erases the block.
    #[tactic(auto, using(crate::proofs::FlashLaws::length_applied))]
    pub(crate) fn erase_block(&mut self, block: u32)
        requires inside { end_of (Block block) ≤ length self.old.bytes }
        ensures bytes { self.new.bytes ≡ applied self.old.bytes (Block block) }
        ensures marks { self.new.marks ≡ marks_after (Block block) self.old.marks }
        ensures size { length self.new.bytes ≡ length self.old.bytes }
    {
        let first = block as usize * BLOCK_SECTORS;
        self.erase(first, first + BLOCK_SECTORS);
    }

    /// ANDs the data into the bytes, in sectors without a mark.
    pub(crate) fn program(&mut self, at: u32, data: &[u8])
        requires inside { at + length «data».now ≤ length self.old.bytes }
        requires page { IsPageLength «data».now }
        ensures bytes { self.new.bytes ≡ applied self.old.bytes (Program at «data».now) }
        ensures marks { self.new.marks ≡ marks_after (Program at «data».now) self.old.marks }
        ensures size { length self.new.bytes ≡ length self.old.bytes }
    {
        let at = at as usize;
        self.settle_all(at / SECTOR, (at + data.len()).div_ceil(SECTOR));
        program(&mut self.stored, at, data);
    }

    /// Marks the sectors from the first up to the last, without it.
    fn erase(&mut self, first: usize, last: usize)
        requires order { first ≤ last }
        requires inside { last * 4096 ≤ length self.old.bytes }
        ensures bytes { self.new.bytes ≡ erased self.old.bytes (first * 4096) ((last - first) * 4096) }
        ensures marks { self.new.marks ≡ marked_as true first last self.old.marks }
    {
        for sector in first..last {
            self.marks.set(sector);
        }
    }

    /// Fills what is marked of the sectors from the first up to the last, without it.
    fn settle_all(&mut self, first: usize, last: usize)
        requires order { first ≤ last }
        requires inside { last * 4096 < length self.old.bytes + 4096 }
        ensures bytes { self.new.bytes ≡ self.old.bytes }
        ensures marks { self.new.marks ≡ marked_as false first last self.old.marks }
    {
        for sector in first..last {
            self.settle(sector);
        }
    }

    /// Fills the sector if it is marked, so that it reads as it is stored.
    fn settle(&mut self, sector: usize)
        requires inside { sector * 4096 < length self.old.bytes }
        ensures bytes { self.new.bytes ≡ self.old.bytes }
        ensures marks { self.new.marks ≡ slice_set self.old.marks sector false }
    {
        if self.marks.has(sector) {
            fill(&mut self.stored, sector * SECTOR, SECTOR);
            self.marks.clear(sector);
        }
    }
}

/// Sets to 0xFF what lies in a marked sector. The bytes begin at the address.
fn cover(marks: &Marks, at: usize, bytes: &mut [u8])
    requires inside { at + length bytes.old ≤ 33554432 }
    ensures exact { bytes.new ≡ covered (is_marked marks.now) at bytes.old }
{
    if marks.count() == 0 {
        return;
    }
    for sector in at / SECTOR..(at + bytes.len()).div_ceil(SECTOR) {
        if marks.has(sector) {
            cover_sector(sector, at, bytes);
        }
    }
}

/// Sets to 0xFF what lies in the sector. The bytes begin at the address.
fn cover_sector(sector: usize, at: usize, bytes: &mut [u8])
    requires inside { sector < 8192 }
    ensures exact { bytes.new ≡ covered (λ s. s == sector) at bytes.old }
{
    let start = (sector * SECTOR).saturating_sub(at).min(bytes.len());
    let end = (sector * SECTOR + SECTOR)
        .saturating_sub(at)
        .min(bytes.len());
    fill(bytes, start, end - start);
}

/// Copies the bytes from the address on, as many as `out` has.
fn copy(bytes: &[u8], at: usize, out: &mut [u8])
    requires inside { at + length out.old ≤ length bytes.now }
    ensures exact { out.new ≡ part_of bytes.now at (length out.old) }
{
    out.copy_from_slice(&bytes[at..at + out.len()]);
}

/// Sets the bytes of the range to 0xFF.
fn fill(bytes: &mut [u8], start: usize, len: usize)
    requires inside { start + len ≤ length bytes.old }
    ensures exact { bytes.new ≡ erased bytes.old start len }
{
    bytes[start..start + len].fill(0xFF);
}

/// ANDs the data into the bytes.
fn program(bytes: &mut [u8], at: usize, data: &[u8])
    requires inside { at + length «data».now ≤ length bytes.old }
    ensures exact { bytes.new ≡ applied bytes.old (Program at «data».now) }
{
    and_into(&mut bytes[at..at + data.len()], data);
}

/// ANDs each byte with the one of the data.
fn and_into(part: &mut [u8], data: &[u8])
    requires length { length part.old ≡ length «data».now }
    ensures exact { part.new ≡ anded part.old «data».now }
{
    for i in 0..part.len() {
        part[i] &= data[i];
    }
}
