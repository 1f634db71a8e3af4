//! The image that a plan and its parts make.

ghost use Rattle.std.specs.Prelude.{◌≡◌, ◌≤◌, ◌<◌, ◌+◌, ◌*◌, ◌^◌, ◌∷◌, [], ◌++◌, length, replicate, IfOk, IfErr, OnOk, Some, None};
ghost use Rattle.image_layout.specs.Whole.{xor_all};
ghost use Rattle.image_maker.specs.Image.{IsImageOrMemory, IsMade, bytes_of, image_of, with_digest, with_footer};
ghost use Rattle.image_maker.specs.Parts.{all_parts, files_of, plan_parts};
ghost use Rattle.image_maker.specs.Placing.{data_from, head_with, with_parts};
ghost use Rattle.image_maker.specs.Refused.{make_fault, size_fault};
ghost use Rattle.image_maker.specs.Sizes.{IsSizeOf};

use crate::check::{overlap_fault, parts_fault};
use crate::part::PartLine;
use crate::place::{Size, padding_of, size_of};
use crate::plan::Plan;
use crate::refusal::MakeNo;
use image_layout::{SegmentHead, footer_end, xor_bytes};
use sha2::{Digest, Sha256};
use std::alloc::{AllocError, Global};

/// The greatest number of segments.
const MOST_SEGMENTS: u8 = 16;

/// The greatest length of an image.
const MOST_BYTES: u128 = 16_777_216;

/// The image of a plan whose segments have these data, or the first reason why there is none.
pub fn make(alloc: Global, plan: &Plan, parts: &[Vec<u8>]) -> Result<Vec<u8>, MakeNo>
    requires { length plan.now.parts ≡ length parts.now }
    // The bytes, and each refusal, are stated.
    ensures exact { IsImageOrMemory result (image_of plan.now (files_of parts.now)) }
    // They are a whole image with the plan's segments.
    ensures whole { IfOk result (λ image. IsMade plan.now (files_of parts.now) image.items) }
{
    let size = check(plan.has_digest(), plan.lines(), parts)?;
    Ok(build(alloc, plan, size, parts)?)
}

/// The size of the image of these parts, or the first reason why they make none.
fn check(hash: bool, lines: &[PartLine], files: &[Vec<u8>]) -> Result<Size, MakeNo>
    requires each { length lines.now ≡ length files.now }
    requires few { length lines.now ≤ 64 }
    ensures none { OnOk result (make_fault hash (all_parts lines.now files.now) ≡ None) }
    ensures some { IfErr result (λ no. make_fault hash (all_parts lines.now files.now) ≡ Some no) }
    ensures size { IfOk result (IsSizeOf (all_parts lines.now files.now)) }
{
    if lines.len() == 0 {
        return Err(MakeNo::NoSegments);
    }
    if let Some(no) = parts_fault(lines, files) {
        return Err(no);
    }
    if let Some(no) = overlap_fault(lines, files) {
        return Err(no);
    }
    let size = size_of(lines, files);
    if let Some(no) = size_fault(size, hash) {
        return Err(no);
    }
    Ok(size)
}

/// Why an image can't have this size.
#[tactic(auto, unfolding(crate::specs::Refused::size_fault))]
fn size_fault(size: Size, hash: bool) -> Option<MakeNo>
    requires { size.end < 2 ^ 100 }
    ensures exact { result ≡ size_fault size.count size.end hash }
{
    let digest = if hash { 32 } else { 0 };
    let length = (size.end / 16 + 1) * 16 + digest;
    if size.count > MOST_SEGMENTS {
        Some(MakeNo::TooManySegments { n: size.count })
    } else if length > MOST_BYTES {
        let n = length.min(u128::from(u64::MAX)) as u64;
        Some(MakeNo::TooLong { n })
    } else {
        None
    }
}

/// The image of a plan and parts of which nothing is wrong.
fn build(alloc: Global, plan: &Plan, size: Size, files: &[Vec<u8>]) -> Result<Vec<u8>, AllocError>
    requires each { length plan.now.parts ≡ length files.now }
    requires size { IsSizeOf (plan_parts plan.now files.now) size }
    requires fits { size.end ≤ 16777216 }
    ensures exact { IfOk result (λ image. image.items
        ≡ bytes_of plan.now (plan_parts plan.now files.now)) }
{
    let mut image = Vec::with_capacity(alloc, size.end as usize + 48)?;
    let mut header = [0; 24];
    plan.header(size.count).put(&mut header);
    image.extend_from_slice(&header)?;
    let sum = append_parts(&mut image, plan.lines(), files)?;
    append_footer(&mut image, sum)?;
    append_digest(&mut image, plan.has_digest())?;
    Ok(image)
}

/// Appends the parts of a plan, and gives the checksum of their data.
fn append_parts(
    image: &mut Vec<u8>,
    lines: &[PartLine],
    files: &[Vec<u8>],
) -> Result<u8, AllocError>
    requires each { length lines.now ≡ length files.now }
    requires short { length (with_parts image.old.items (all_parts lines.now files.now)) < 2 ^ 32 }
    ensures bytes { OnOk result (image.new.items
        ≡ with_parts image.old.items (all_parts lines.now files.now)) }
    ensures sum { IfOk result (λ sum. sum
        ≡ xor_all 0xEF (data_from (all_parts lines.now files.now) (length image.old.items))) }
{
    let mut sum = 0xEF;
    for i in 0..lines.len() {
        let file = files[i].as_slice();
        append_part(image, lines[i].load, file)?;
        sum = xor_bytes(sum, file);
    }
    Ok(sum)
}

/// Appends a part after the padding that it wants.
fn append_part(image: &mut Vec<u8>, load: u32, content: &[u8]) -> Result<(), AllocError>
    requires { length content.now < 2 ^ 32 }
    ensures bytes { OnOk result (image.new.items
        ≡ with_parts image.old.items (record { load = load; content = content.now } ∷ [])) }
{
    match padding_of(image.len() as u128, load, content.len()) {
        None => append_segment(image, load, content),
        Some(filling) => {
            append_padding(image, filling)?;
            append_segment(image, load, content)
        }
    }
}

/// Appends a segment.
fn append_segment(image: &mut Vec<u8>, load: u32, content: &[u8]) -> Result<(), AllocError>
    requires { length content.now < 2 ^ 32 }
    ensures bytes { OnOk result (image.new.items
        ≡ image.old.items ++ head_with load (length content.now) ++ content.now) }
{
    append_head(image, load, content.len() as u32)?;
    image.extend_from_slice(content)
}

/// Appends a padding segment with so many zeros.
fn append_padding(image: &mut Vec<u8>, filling: u32) -> Result<(), AllocError>
    ensures bytes { OnOk result (image.new.items
        ≡ image.old.items ++ head_with 0 filling ++ replicate filling 0) }
{
    append_head(image, 0, filling)?;
    let end = image.len() + filling as usize;
    image.resize(end, 0)
}

/// Appends the head of a segment.
fn append_head(image: &mut Vec<u8>, load: u32, length: u32) -> Result<(), AllocError>
    ensures bytes { OnOk result (image.new.items ≡ image.old.items ++ head_with load length) }
{
    let mut head = [0; 8];
    SegmentHead { load, length }.put(&mut head);
    image.extend_from_slice(&head)
}

/// Appends zeros and the checksum.
fn append_footer(image: &mut Vec<u8>, sum: u8) -> Result<(), AllocError>
    ensures bytes { OnOk result (image.new.items ≡ with_footer image.old.items sum) }
{
    let end = footer_end(image.len() as u64) as usize;
    image.resize(end - 1, 0)?;
    image.push(sum)?;
    Ok(())
}

/// Appends the digest, where one is wanted.
fn append_digest(image: &mut Vec<u8>, hash: bool) -> Result<(), AllocError>
    ensures bytes { OnOk result (image.new.items ≡ with_digest hash image.old.items) }
{
    if !hash {
        return Ok(());
    }
    let digest = Sha256::digest(image.as_slice());
    image.extend_from_slice(&digest)
}
