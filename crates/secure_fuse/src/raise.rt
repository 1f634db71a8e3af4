//! The level of burnt bits, and how it rises: the lowest clear bits are burnt, one after the other.

ghost use Rattle.std.specs.Prelude.{◌≡◌, ◌<◌, ◌≤◌, ◌-◌, ◌^◌, max, OnOk, OnErr};
ghost use Rattle.std.specs.Int.{w32, trailing_ones};
ghost use Rattle.secure_fuse.specs.Bits.{burned, level_of, raised, IsStage, MayBeLeft};
ghost use Rattle.secure_fuse.specs.Fuses.{more, one_more, HasCause, IsCalled, LeavesOnly};

use crate::fuses::{FuseNo, Fuses};

/// How many bits are burnt: the least secure version that may still be started.
pub fn level(bits: u32) -> u32
    ensures exact { result ≡ level_of bits }
    ensures most { result ≤ 32 }
{
    bits.count_ones()
}

/// Burns the lowest clear bits, one after the other, until the level is at least `want`. It ends with the first refusal.
pub fn raise_to<Z: Fuses>(fuse: &mut Z, want: u32) -> Result<(), FuseNo>
    requires want { want ≤ 32 }
    // The level is the one that was wanted, or the one before where that is higher; nothing else is burnt.
    ensures raised { OnOk result (Z.burnt fuse.new ≡ raised (Z.burnt fuse.old) want) }
    ensures level { OnOk result (level_of (Z.burnt fuse.new) ≡ max (level_of (Z.burnt fuse.old)) want) }
    // However it ends, and at every moment of it, no bit is lost and the level passes neither of both.
    ensures stage { IsStage (Z.burnt fuse.old) want (Z.burnt fuse.new) }
    ensures moments { LeavesOnly Z.left fuse.old fuse.new (IsStage (Z.burnt fuse.old) want) }
    // No call is made in vain.
    ensures idle { want ≤ level_of (Z.burnt fuse.old) → fuse.new ≡ fuse.old }
    ensures calls { OnOk result (Z.calls fuse.new
        ≡ more (want - level_of (Z.burnt fuse.old)) (Z.calls fuse.old)) }
    ensures tried { OnErr result (IsCalled
        (level_of (Z.burnt fuse.new) - level_of (Z.burnt fuse.old)) (Z.calls fuse.old) (Z.calls fuse.new)) }
    ensures low { OnErr result (level_of (Z.burnt fuse.old) < want) }
    ensures cause { HasCause (Z.faults fuse.old) (Z.faults fuse.new) result }
{
    let before = level(fuse.bits());
    for _ in before..want {
        burn_lowest(fuse)?;
    }
    Ok(())
}

/// Burns the lowest clear bit.
#[tactic(auto, using(crate::proofs::StageLemmas::lowest_below))]
fn burn_lowest<Z: Fuses>(fuse: &mut Z) -> Result<(), FuseNo>
    requires room { level_of (Z.burnt fuse.old) < 32 }
    ensures word { Z.burnt fuse.old < 2 ^ 32 }
    ensures burnt { OnOk result (Z.burnt fuse.new
        ≡ burned (Z.burnt fuse.old) (trailing_ones w32 (Z.burnt fuse.old))) }
    ensures failed { OnErr result (MayBeLeft
        (Z.burnt fuse.old) (trailing_ones w32 (Z.burnt fuse.old)) (Z.burnt fuse.new)) }
    ensures moments { LeavesOnly Z.left fuse.old fuse.new
        (MayBeLeft (Z.burnt fuse.old) (trailing_ones w32 (Z.burnt fuse.old))) }
    ensures calls { Z.calls fuse.new ≡ one_more (Z.calls fuse.old) }
    ensures cause { HasCause (Z.faults fuse.old) (Z.faults fuse.new) result }
{
    let bit = fuse.bits().trailing_ones();
    fuse.burn(bit as u8)
}
