//! Where the parts of a plan come to stand in an image.

ghost use Rattle.std.specs.Prelude.{◌≡◌, ◌≤◌, ◌<◌, ◌+◌, ◌^◌, length, IfSome};
ghost use Rattle.image_maker.specs.Parts.{all_parts};
ghost use Rattle.image_maker.specs.Placing.{gap, padding_of};
ghost use Rattle.image_maker.specs.Sizes.{IsSizeOf, size_after};

use crate::check::is_mapped;
use crate::part::PartLine;

/// By how much data after a head at this place would stand too low for a load address, modulo
/// 64 KiB.
fn gap(at: u128, load: u32) -> u32
    requires { at < 2 ^ 127 }
    ensures exact { result ≡ gap at load }
    ensures page { result < 65536 }
{
    let place = ((at + 8) % 65536) as u64;
    ((u64::from(load) + 65536 - place) % 65536) as u32
}

/// How many zeros the padding segment has that such data want, where they want one.
#[tactic(auto, unfolding(crate::specs::Placing::padding_of))]
pub(crate) fn padding_of(at: u128, load: u32, length: usize) -> Option<u32>
    requires { at < 2 ^ 127 }
    ensures exact { result ≡ padding_of at load length }
    ensures page { IfSome result (λ n. n < 65536) }
{
    if !is_mapped(load, length) {
        return None;
    }
    match gap(at, load) {
        0 => None,
        4 => Some(65532),
        gap => Some(gap.saturating_sub(8)),
    }
}

/// How many segments an image has, with the padding ones, and where their data end.
#[derive(Clone, Copy, Debug, PartialEq, Eq)]
pub(crate) struct Size {
    pub(crate) count: u8,
    pub(crate) end: u128,
}

/// The size with one part more.
fn with_part(size: Size, load: u32, length: usize) -> Size
    requires few { size.count < 128 }
    requires short { size.end < 2 ^ 100 }
    ensures exact { result
        ≡ size_after size.count size.end (padding_of size.end load length) length }
    ensures more { result.count ≤ size.count + 2 }
    ensures longer { result.end ≤ size.end + 2 ^ 65 }
{
    match padding_of(size.end, load, length) {
        None => Size {
            count: size.count + 1,
            end: size.end + 8 + length as u128,
        },
        Some(filling) => Size {
            count: size.count + 2,
            end: size.end + 8 + u128::from(filling) + 8 + length as u128,
        },
    }
}

/// The size of the image of these parts.
pub(crate) fn size_of(lines: &[PartLine], files: &[Vec<u8>]) -> Size
    requires each { length lines.now ≡ length files.now }
    requires few { length lines.now ≤ 64 }
    ensures exact { IsSizeOf (all_parts lines.now files.now) result }
    ensures short { result.end < 2 ^ 100 }
{
    let mut size = Size { count: 0, end: 24 };
    for i in 0..lines.len() {
        size = with_part(size, lines[i].load, files[i].len());
    }
    size
}
