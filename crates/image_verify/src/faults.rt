//! Each test for a fault, as its definition says it.

ghost use Rattle.std.specs.Prelude.{◌≡◌, ◌≤◌, ◌<◌, ◌^◌, ◌+◌};
ghost use Rattle.image_layout.specs.Space.{may_load, is_mapped_well};
ghost use Rattle.image_verify.specs.Places.{need_of};
ghost use Rattle.image_verify.specs.Walk.{header_fault, limit_fault, head_fault};
ghost use Rattle.image_verify.specs.Bad.{length_fault};

use crate::bad::BadImage;
use byteorder::{ByteOrder, LittleEndian};
use image_layout::{SegmentHead, footer_end, is_code, is_data};

/// The first fault that a header shows as far as it has come.
#[tactic(auto, unfolding(crate::specs::Walk::header_fault))]
pub(crate) fn header_fault(bytes: &[u8]) -> Option<BadImage>
    ensures { result ≡ header_fault bytes.now }
{
    if !bytes.is_empty() && bytes[0] != 0xE9 {
        return Some(BadImage::Magic { byte: bytes[0] });
    }
    if bytes.len() > 1 && (bytes[1] == 0 || bytes[1] > 16) {
        return Some(BadImage::Segments { n: bytes[1] });
    }
    if bytes.len() > 13 && LittleEndian::read_u16(&bytes[12..]) != 0 {
        return Some(BadImage::Chip {
            id: LittleEndian::read_u16(&bytes[12..]),
        });
    }
    if bytes.len() > 23 && bytes[23] > 1 {
        return Some(BadImage::Flag { byte: bytes[23] });
    }
    None
}

/// How many bytes an image needs whose data end here so far, with so many heads still to come.
pub(crate) fn need(end: u64, heads: u8, flag: u8) -> u64
    requires { end ≤ 2 ^ 34 }
    ensures { result ≡ need_of end heads flag }
{
    footer_end(end + 8 * heads as u64) + 32 * flag as u64
}

/// The image needs more bytes than the limit.
pub(crate) fn limit_fault(limit: u32, need: u64) -> Option<BadImage>
    ensures { result ≡ limit_fault limit need }
{
    if (limit as u64) < need {
        Some(BadImage::TooLarge { need, limit })
    } else {
        None
    }
}

/// The first fault of the head of a segment, at a place and with so many heads after it.
#[tactic(auto, unfolding(crate::specs::Walk::head_fault))]
pub(crate) fn head_fault(
    limit: u32,
    flag: u8,
    segment: u8,
    head: &SegmentHead,
    at: u64,
    heads: u8,
) -> Option<BadImage>
    requires { at + 8 < 2 ^ 32 }
    ensures { result ≡ head_fault limit flag segment head.now.load head.now.length at heads }
{
    let SegmentHead { load, length } = *head;
    if length % 4 != 0 {
        return Some(BadImage::Length { segment, length });
    }
    if !may_load(load, length, at + 8) {
        return Some(BadImage::Address { segment, load });
    }
    limit_fault(limit, need(at + 8 + length as u64, heads, flag))
}

/// Whether a segment of this load address and length may have its data at this place.
#[tactic(auto, unfolding(image_layout::specs::Space::may_load))]
fn may_load(load: u32, length: u32, place: u64) -> bool
    ensures { result ≡ may_load load length place }
{
    if length == 0 {
        true
    } else if is_data(load) {
        is_mapped_well(0x3F80_0000, load, length, place)
    } else if is_code(load) {
        is_mapped_well(0x4040_0000, load, length, place)
    } else {
        true
    }
}

/// Whether a mapped segment ends inside its space, and stands in its page where its load address does.
fn is_mapped_well(end: u64, load: u32, length: u32, place: u64) -> bool
    ensures { result ≡ is_mapped_well end load length place }
{
    load as u64 + length as u64 <= end && load as u64 % 65536 == place % 65536
}

/// There are fewer bytes than the image needs, or more.
#[tactic(auto, unfolding(crate::specs::Bad::length_fault))]
pub(crate) fn length_fault(have: u64, need: u64) -> Option<BadImage>
    ensures { result ≡ length_fault have need }
{
    if have < need {
        Some(BadImage::Short { have, need })
    } else if need < have {
        Some(BadImage::Trailing { have, need })
    } else {
        None
    }
}
