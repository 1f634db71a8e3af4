//! What fuses mean: a word of 32 bits that can be burnt, one bit a call, and never cleared.

ghost use Rattle.std.specs.Prelude.{◌≡◌, ℕ, ◌<◌, OnOk, OnErr};
ghost use Rattle.secure_fuse.specs.Bits.{burned, MayBeLeft};
ghost use Rattle.secure_fuse.specs.Fuses.{HasCause, LeavesOnly, one_more};

/// Why a bit was not burnt for certain.
#[derive(Clone, Copy, Debug, PartialEq, Eq)]
pub enum FuseNo {
    /// The fuses failed, and counted it.
    Failed,
}

/// The eFuse bits of the secure version.
pub trait Fuses {
    /// The burnt bits.
    ghost burnt: { Self → ℕ };

    /// What a loss of power at some moment so far may have left burnt.
    ghost left: { Self → ℕ → Type 0 };

    /// How many calls of `burn` came. The count stays at 2^64 - 1.
    ghost calls: { Self → ℕ };

    /// How often the fuses failed. The count stays at 2^64 - 1.
    ghost faults: { Self → ℕ };

    /// The burnt bits.
    fn bits(&self) -> u32
        ensures exact { result ≡ burnt self.now };

    /// Burns one bit. A refusal, as a loss of power, leaves it burnt or as before, and every other as before.
    fn burn(&mut self, bit: u8) -> Result<(), FuseNo>
        requires inside { bit < 32 }
        ensures burnt { OnOk result (burnt self.new ≡ burned (burnt self.old) bit) }
        ensures failed { OnErr result (MayBeLeft (burnt self.old) bit (burnt self.new)) }
        ensures moments { LeavesOnly left self.old self.new (MayBeLeft (burnt self.old) bit) }
        ensures calls { calls self.new ≡ one_more (calls self.old) }
        ensures cause { HasCause (faults self.old) (faults self.new) result };
}
