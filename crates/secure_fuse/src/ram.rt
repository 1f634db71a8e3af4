//! Fuses in memory, some of whose calls fail.

ghost use Rattle.std.specs.Prelude.{◌≡◌, ◌≤◌, if◌then◌else◌};
ghost use Rattle.secure_fuse.specs.Fuses.{one_more};
ghost use Rattle.secure_fuse.specs.Ram.{fails_next};

use crate::fuses::{FuseNo, Fuses};
use std::marker::Model;

/// Fuses that keep their bits in memory. The calls of `burn` whose numbers, from 1, are in the given list fail,
/// with all bits as before.
#[derive(Debug, Drop)]
pub struct RamFuse {
    bits: u32,
    failing: Vec<u64>,
    made: u64,
    failed: u64,
}

// Clauses see the bits, the numbers of the calls that fail, and both counts.
impl Model for RamFuse {
    ghost use Rattle.secure_fuse.specs.Ram.{Ram};

    ghost Value = { Ram };

    ghost view = { λ f. record { bits = f.bits; failing = f.failing.items; made = f.made; failed = f.failed } };
}

impl RamFuse {
    /// Fuses with these bits burnt, and no call so far.
    pub fn new(bits: u32, failing: Vec<u64>) -> RamFuse
        ensures exact { result ≡ record { bits = bits; failing = failing.items; made = 0; failed = 0 } }
    {
        RamFuse {
            bits,
            failing,
            made: 0,
            failed: 0,
        }
    }

    /// Counts one more call, and whether it fails.
    fn next_fails(&mut self) -> bool
        ensures exact { result ≡ fails_next self.old }
        ensures bits { self.new.bits ≡ self.old.bits }
        ensures failing { self.new.failing ≡ self.old.failing }
        ensures made { self.new.made ≡ one_more self.old.made }
        ensures failed { self.new.failed ≡ (if fails_next self.old then one_more self.old.failed else self.old.failed) }
        ensures later { self.old.failed ≤ self.new.failed }
    {
        self.made = self.made.saturating_add(1);
        let fails = self.failing.contains(&self.made);
        if fails {
            self.failed = self.failed.saturating_add(1);
        }
        fails
    }
}

impl Fuses for RamFuse {
    ghost use Rattle.std.specs.Prelude.{◌≡◌, ◌↔◌, ◌<◌, ◌≤◌, IsTrue, IsErr};
    ghost use Rattle.secure_fuse.specs.Ram.{after_burn, fails_next};

    ghost burnt = { λ f. f.bits };

    ghost left = { λ f bits. bits ≡ f.bits };

    ghost calls = { λ f. f.made };

    ghost faults = { λ f. f.failed };

    /// The burnt bits.
    fn bits(&self) -> u32 {
        self.bits
    }

    /// Burns the bit, unless this call is one that fails.
    fn burn(&mut self, bit: u8) -> Result<(), FuseNo>
        requires inside { bit < 32 }
        ensures exact { IsErr result ↔ IsTrue (fails_next self.old) }
        ensures after { self.new ≡ after_burn self.old bit }
        ensures later { self.old.failed ≤ self.new.failed }
    {
        if self.next_fails() {
            return Err(FuseNo::Failed);
        }
        self.bits |= 1 << bit;
        Ok(())
    }
}
