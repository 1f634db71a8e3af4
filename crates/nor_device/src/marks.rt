//! One bit for each sector of a flash of 32 MiB. Bit k of word n belongs to sector 64 n + k.

ghost use Rattle.std.specs.Prelude.{◌≡◌, ◌<◌, true, false, length, slice_set};
ghost use Rattle.nor_device.specs.Marks.{no_marks, is_marked, marked_count};

use std::marker::Model;

/// The sectors that are marked, and how many they are.
#[derive(Drop)]
pub(crate) struct Marks {
    words: [u64; 128],
    count: u32,
}

// Clauses see a flag for each sector.
impl Model for Marks {
    ghost use Rattle.std.specs.Prelude.{Bool, List};
    ghost use Rattle.nor_device.specs.MarksView.{marks_of, IsCounted};

    ghost Value = { List Bool };

    ghost view = { marks_of };

    ghost invariant = { IsCounted };
}

impl Marks {
    /// No sector is marked.
    pub(crate) fn none() -> Marks
        ensures exact { result ≡ no_marks }
        ensures length { length result ≡ 8192 }
    {
        Marks {
            words: [0; 128],
            count: 0,
        }
    }

    /// How many sectors are marked.
    pub(crate) fn count(&self) -> u32
        ensures exact { result ≡ marked_count self.now }
    {
        self.count
    }

    /// Whether the sector is marked.
    pub(crate) fn has(&self, sector: usize) -> bool
        requires inside { sector < 8192 }
        ensures exact { result ≡ is_marked self.now sector }
        ensures length { length self.now ≡ 8192 }
    {
        self.words[sector / 64] & 1 << (sector % 64) != 0
    }

    /// Marks the sector.
    pub(crate) fn set(&mut self, sector: usize)
        requires inside { sector < 8192 }
        ensures exact { self.new ≡ slice_set self.old sector true }
        ensures length { length self.new ≡ 8192 }
    {
        if !self.has(sector) {
            self.words[sector / 64] |= 1 << (sector % 64);
            self.count += 1;
        }
    }

    /// Takes the mark of the sector away.
    pub(crate) fn clear(&mut self, sector: usize)
        requires inside { sector < 8192 }
        ensures exact { self.new ≡ slice_set self.old sector false }
        ensures length { length self.new ≡ 8192 }
    {
        if self.has(sector) {
            self.words[sector / 64] &= !(1 << (sector % 64));
            self.count -= 1;
        }
    }
}
