//! Why the parts of a plan make no image.

ghost use Rattle.std.specs.Prelude.{◌≡◌, ◌≤◌, ◌+◌, length, drop};
ghost use Rattle.image_maker.specs.Parts.{all_parts};
ghost use Rattle.image_maker.specs.Placing.{is_mapped};
ghost use Rattle.image_maker.specs.Refused.{leaves_space, meets, met_by_first, overlap_fault, part_fault, parts_fault};

use crate::part::PartLine;
use crate::refusal::MakeNo;
use image_layout::{is_code, is_data};

/// Whether data of this load address and length are mapped through the cache.
#[tactic(auto, unfolding(crate::specs::Placing::is_mapped))]
pub(crate) fn is_mapped(load: u32, length: usize) -> bool
    ensures exact { result ≡ is_mapped load length }
{
    length != 0 && (is_data(load) || is_code(load))
}

/// The address behind the last one of a range, which may be beyond 32 and 64 bits.
fn end_of(load: u32, length: usize) -> u128
    ensures exact { result ≡ load + length }
{
    u128::from(load) + length as u128
}

/// Whether data that begin in a space end behind it.
#[tactic(auto, unfolding(crate::specs::Refused::leaves_space))]
fn leaves_space(load: u32, length: usize) -> bool
    ensures exact { result ≡ leaves_space load length }
{
    if length == 0 {
        false
    } else if is_data(load) {
        end_of(load, length) > 0x3F80_0000
    } else if is_code(load) {
        end_of(load, length) > 0x4040_0000
    } else {
        false
    }
}

/// Why a part of this number can be no segment.
#[tactic(auto, unfolding(crate::specs::Refused::part_fault))]
fn part_fault(segment: u8, load: u32, length: usize) -> Option<MakeNo>
    ensures exact { result ≡ part_fault segment load length }
{
    if length % 4 != 0 {
        Some(MakeNo::OddLength { segment })
    } else if is_mapped(load, length) && load % 4 != 0 {
        Some(MakeNo::OddAddress { segment })
    } else if leaves_space(load, length) {
        Some(MakeNo::SpaceEnd { segment })
    } else {
        None
    }
}

/// The first reason why one of the parts can be no segment.
pub(crate) fn parts_fault(lines: &[PartLine], files: &[Vec<u8>]) -> Option<MakeNo>
    requires each { length lines.now ≡ length files.now }
    requires few { length lines.now ≤ 64 }
    ensures exact { result ≡ parts_fault 0 (all_parts lines.now files.now) }
{
    for i in 0..lines.len() {
        if let Some(fault) = part_fault(i as u8, lines[i].load, files[i].len()) {
            return Some(fault);
        }
    }
    None
}

/// Whether two ranges of load addresses meet.
#[tactic(auto, unfolding(crate::specs::Refused::meets))]
fn meets(load: u32, length: usize, other: u32, other_length: usize) -> bool
    ensures exact { result ≡ meets load length other other_length }
{
    length != 0
        && other_length != 0
        && u128::from(load) < end_of(other, other_length)
        && u128::from(other) < end_of(load, length)
}

/// The first part after this one that meets it.
fn first_met(lines: &[PartLine], files: &[Vec<u8>], first: usize) -> Option<u8>
    requires each { length lines.now ≡ length files.now }
    requires few { length lines.now ≤ 64 }
    requires within { first + 1 ≤ length lines.now }
    ensures exact { result ≡ met_by_first first (drop first (all_parts lines.now files.now)) }
{
    let load = lines[first].load;
    let length = files[first].len();
    for i in first + 1..lines.len() {
        if meets(load, length, lines[i].load, files[i].len()) {
            return Some(i as u8);
        }
    }
    None
}

/// The first two parts that meet.
pub(crate) fn overlap_fault(lines: &[PartLine], files: &[Vec<u8>]) -> Option<MakeNo>
    requires each { length lines.now ≡ length files.now }
    requires few { length lines.now ≤ 64 }
    ensures exact { result ≡ overlap_fault 0 (all_parts lines.now files.now) }
{
    for i in 0..lines.len() {
        if let Some(b) = first_met(lines, files, i) {
            return Some(MakeNo::Overlap { a: i as u8, b });
        }
    }
    None
}
