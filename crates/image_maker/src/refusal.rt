//! Why a text is no plan, and why a plan makes no image.

use std::alloc::AllocError;

/// Why a line of a plan is refused: the first reason in this order.
#[derive(Clone, Copy, Debug, PartialEq, Eq)]
pub enum PlanWhy {
    /// No line begins with this word.
    Word,
    /// A line of this kind has another number of words.
    Count,
    /// A number is none, or is too large.
    Number,
    /// A choice is neither `on` nor `off`.
    Choice,
    /// A line of this kind came before.
    Twice,
    /// There are 64 segments already.
    TooMany,
    /// A file's name begins with `-`, or is not UTF-8.
    Name,
    /// No line gives the entry address.
    NoEntry,
}

/// Why a text is no plan.
#[derive(Clone, Copy, Debug, PartialEq, Eq)]
pub enum PlanNo {
    /// This line, counted from 1, is refused; `NoEntry` has the number of lines.
    Bad { line: u64, why: PlanWhy },
    /// Out of memory.
    Memory,
}

/// Why a plan and its parts make no image: the first reason in this order. Segments are numbered
/// from 0 by the plan's lines.
#[derive(Clone, Copy, Debug, PartialEq, Eq)]
pub enum MakeNo {
    /// The plan has no segment.
    NoSegments,
    /// The length of this part is no multiple of 4.
    OddLength { segment: u8 },
    /// This part is mapped, and its load address is no multiple of 4.
    OddAddress { segment: u8 },
    /// This part begins in a space and leaves it.
    SpaceEnd { segment: u8 },
    /// The load addresses of these two parts meet.
    Overlap { a: u8, b: u8 },
    /// With the padding there would be so many segments.
    TooManySegments { n: u8 },
    /// The image would have so many bytes, or more where this is the greatest number of 64 bits.
    TooLong { n: u64 },
    /// Out of memory.
    Memory,
}

impl From<AllocError> for MakeNo {
    ghost use Rattle.std.specs.Prelude.{◌≡◌};
    ghost use Rattle.image_maker.specs.declared.refusal.MakeNo.TheVariants.{Memory};

    ghost from_gives = { λ _ e. e ≡ Memory };

    fn from(_refused: AllocError) -> MakeNo {
        MakeNo::Memory
    }
}

impl From<AllocError> for PlanNo {
    ghost use Rattle.std.specs.Prelude.{◌≡◌};
    ghost use Rattle.image_maker.specs.declared.refusal.PlanNo.TheVariants.{Memory};

    ghost from_gives = { λ _ e. e ≡ Memory };

    fn from(_refused: AllocError) -> PlanNo {
        PlanNo::Memory
    }
}
