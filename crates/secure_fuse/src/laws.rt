//! What holds of burnt bits, whoever burns them.

ghost use Rattle.std.specs.Prelude.{◌≡◌, ◌≢◌, ◌≤◌, ◌<◌, ◌^◌, ℕ, ◌+◌, List, max};
ghost use Rattle.std.specs.Int.{bit_at};
ghost use Rattle.secure_fuse.specs.Bits.{burned, level_of, raised, Keeps, MayBeLeftOf};

/// A burn sets its bit and no other, and raises the level by one where the bit was clear.
#[tactic(auto, using(crate::proofs::BitLemmas::burned_set, crate::proofs::BitLemmas::burned_other, crate::proofs::BitLemmas::level_burned))]
pub fn one_burn_sets_one_bit()
    ensures set { (bits bit : ℕ) → bit_at (burned bits bit) bit ≡ 1 }
    ensures others { (bits bit other : ℕ) → other ≢ bit → bit_at (burned bits bit) other ≡ bit_at bits other }
    ensures level { (bits bit : ℕ) → bit_at bits bit ≡ 0 → level_of (burned bits bit) ≡ level_of bits + 1 }
{}

/// Over any list of burns, failed and broken off ones among them, no bit is lost and the level never falls. Where no
/// bit is lost the level is no lower.
#[tactic(auto, using(crate::proofs::BitLemmas::burns_keep, crate::proofs::BitLemmas::burns_raise, crate::proofs::OnlyLemmas::word_level))]
pub fn burns_only_add()
    ensures bits { (bits : ℕ) (burns : List ℕ) (left : ℕ) → MayBeLeftOf bits burns left → Keeps bits left }
    ensures level { (bits : ℕ) (burns : List ℕ) (left : ℕ)
        → MayBeLeftOf bits burns left → level_of bits ≤ level_of left }
    ensures order { (old new : ℕ) → old < 2 ^ 32 → Keeps old new → level_of old ≤ level_of new }
{}

/// A raised word keeps its bits, has the level that was wanted, and none of its new bits stands above a clear one.
/// It is the only such word.
#[tactic(auto, using(crate::proofs::BitLemmas::filled_keeps, crate::proofs::BitLemmas::filled_lowest, crate::proofs::StageLemmas::level_raised, crate::proofs::OnlyLemmas::only_raised))]
pub fn lowest_clear_bits_are_burnt()
    ensures kept { (bits want : ℕ) → Keeps bits (raised bits want) }
    ensures level { (bits want : ℕ) → bits < 2 ^ 32 → want ≤ 32
        → level_of (raised bits want) ≡ max (level_of bits) want }
    ensures lowest { (bits want bit lower : ℕ) → bit_at (raised bits want) bit ≡ 1 → bit_at bits bit ≡ 0
        → lower < bit → bit_at (raised bits want) lower ≡ 1 }
    ensures only { (bits want new : ℕ) → bits < 2 ^ 32 → new < 2 ^ 32 → Keeps bits new
        → level_of new ≡ max (level_of bits) want
        → ((bit lower : ℕ) → bit_at new bit ≡ 1 → bit_at bits bit ≡ 0 → lower < bit → bit_at new lower ≡ 1)
        → new ≡ raised bits want }
{}
