//! The lines of an image, and what is wrong with one, with its plan or with its parts, in words.

ghost use Rattle.std.specs.Prelude.{◌≡◌, ◌<◌, ◌^◌, ◌+◌, ◌++◌, OnOk, codes, decimal, length};
ghost use Rattle.flash_text.specs.TableText.{hex_number, pair_text};
ghost use Rattle.flash_text.specs.ImageText.{bad_image_text, bytes_text, description_lines, digest_line, image_lines, kind_text, length_line, make_text, plan_text, plan_why_text, project_text, segment_line, segment_lines, version_text};

use crate::table_text::{put_hex_number, put_row, put_rows, put_shown};
use crate::text::{put_numbered, put_text};
use image_layout::{AppDesc, is_code, is_data};
use image_maker::{MakeNo, PlanWhy};
use image_verify::{BadImage, ImageInfo, SegmentNote};
use pipe_ends::{Memory, put_number};

/// The first character, a space.
const SPACE: u8 = 32;

/// Appends what is wrong with the line of this number of a plan.
#[tactic(auto, unfolding(crate::specs::ImageText::plan_text))]
pub(crate) fn put_plan(out: &mut Vec<u8>, line: u64, why: PlanWhy) -> Result<(), Memory>
    ensures ok { OnOk result (out.new.items ≡ out.old.items ++ plan_text line why) }
{
    put_text(out, "plan line ")?;
    put_number(out, line)?;
    put_text(out, " ")?;
    put_text(out, plan_why_text(why))
}

/// What is wrong with a line of a plan, in a word.
fn plan_why_text(why: PlanWhy) -> &'static str
    ensures exact { result.now ≡ plan_why_text why }
{
    match why {
        PlanWhy::Word => "word",
        PlanWhy::Count => "count",
        PlanWhy::Number => "number",
        PlanWhy::Choice => "choice",
        PlanWhy::Twice => "twice",
        PlanWhy::TooMany => "toomany",
        PlanWhy::Name => "name",
        PlanWhy::NoEntry => "noentry",
    }
}

/// Appends why a plan and its parts make no image.
#[tactic(auto, unfolding(crate::specs::ImageText::make_text))]
pub(crate) fn put_make(out: &mut Vec<u8>, why: MakeNo) -> Result<(), Memory>
    ensures ok { OnOk result (out.new.items ≡ out.old.items ++ make_text why) }
{
    match why {
        MakeNo::NoSegments => put_text(out, "make no segments"),
        MakeNo::OddLength { segment } => put_row(out, "make odd length ", segment),
        MakeNo::OddAddress { segment } => put_row(out, "make odd address ", segment),
        MakeNo::SpaceEnd { segment } => put_row(out, "make space end ", segment),
        MakeNo::Overlap { a, b } => put_rows(out, "make overlap ", a, b),
        MakeNo::TooManySegments { n } => put_row(out, "make segments ", n),
        MakeNo::TooLong { n } => put_numbered(out, "make too long ", n),
        MakeNo::Memory => put_text(out, "make"),
    }
}

/// Appends why bytes are no whole image.
#[tactic(auto, unfolding(crate::specs::ImageText::bad_image_text))]
pub(crate) fn put_bad_image(out: &mut Vec<u8>, why: BadImage) -> Result<(), Memory>
    ensures ok { OnOk result (out.new.items ≡ out.old.items ++ bad_image_text why) }
{
    match why {
        BadImage::Magic { byte } => put_byte(out, "image magic", byte),
        BadImage::Segments { n } => put_row(out, "image segments ", n),
        BadImage::Chip { id } => put_numbered(out, "image chip ", u64::from(id)),
        BadImage::Flag { byte } => put_byte(out, "image flag", byte),
        BadImage::Length { segment, length } => {
            put_pair(out, "image length ", u64::from(segment), u64::from(length))
        }
        BadImage::Address { segment, load } => put_address(out, segment, load),
        BadImage::TooLarge { need, limit } => {
            put_pair(out, "image too large ", need, u64::from(limit))
        }
        BadImage::Short { have, need } => put_pair(out, "image short ", have, need),
        BadImage::Trailing { have, need } => put_pair(out, "image trailing ", have, need),
        BadImage::Checksum { stored, computed } => {
            put_bytes(out, "image checksum", stored, computed)
        }
        BadImage::Digest => put_text(out, "image digest"),
    }
}

/// Appends words and a byte in hex digits.
pub(crate) fn put_byte(out: &mut Vec<u8>, text: &str, byte: u8) -> Result<(), Memory>
    ensures ok { OnOk result (out.new.items ≡ out.old.items ++ (text.now ++ hex_number 2 byte)) }
{
    put_text(out, text)?;
    put_hex_number(out, u64::from(byte), 2)
}

/// Appends words and two numbers.
pub(crate) fn put_pair(out: &mut Vec<u8>, text: &str, a: u64, b: u64) -> Result<(), Memory>
    ensures ok { OnOk result (out.new.items ≡ out.old.items ++ (text.now ++ pair_text a b)) }
{
    put_text(out, text)?;
    put_number(out, a)?;
    put_text(out, " ")?;
    put_number(out, b)
}

/// Appends that a segment may not be loaded to its address.
fn put_address(out: &mut Vec<u8>, segment: u8, load: u32) -> Result<(), Memory>
    ensures ok { OnOk result (out.new.items
        ≡ out.old.items ++ (codes "image address " ++ decimal segment ++ hex_number 8 load)) }
{
    put_row(out, "image address ", segment)?;
    put_hex_number(out, u64::from(load), 8)
}

/// Appends words and two bytes in hex digits.
fn put_bytes(out: &mut Vec<u8>, text: &str, a: u8, b: u8) -> Result<(), Memory>
    ensures ok { OnOk result (out.new.items ≡ out.old.items ++ (text.now ++ bytes_text a b)) }
{
    put_text(out, text)?;
    put_hex_number(out, u64::from(a), 2)?;
    put_hex_number(out, u64::from(b), 2)
}

/// Appends the lines of an image: its segments, length, digest and description.
#[tactic(auto, unfolding(crate::specs::ImageText::image_lines))]
pub fn put_image(out: &mut Vec<u8>, info: &ImageInfo) -> Result<(), Memory>
    ensures ok { OnOk result (out.new.items ≡ out.old.items
        ++ image_lines info.now.segments.items info.now.length info.now.flagged info.now.desc) }
{
    put_segments(out, 0, info.segments.as_slice())?;
    put_length(out, u64::from(info.length))?;
    put_digest(out, info.flagged)?;
    put_description(out, info.desc)
}

/// Appends the lines of segments, of which the first has this number.
fn put_segments(out: &mut Vec<u8>, number: u64, notes: &[SegmentNote]) -> Result<(), Memory>
    requires { number + length notes.now < 2 ^ 64 }
    ensures ok { OnOk result (out.new.items ≡ out.old.items ++ segment_lines number notes.now) }
{
    match notes {
        [] => Ok(()),
        [note, more @ ..] => {
            put_segment(out, number, note)?;
            put_segments(out, number + 1, more)
        }
    }
}

/// Appends the line of the segment of this number.
#[tactic(auto, unfolding(crate::specs::ImageText::segment_line))]
fn put_segment(out: &mut Vec<u8>, number: u64, note: &SegmentNote) -> Result<(), Memory>
    ensures ok { OnOk result (out.new.items ≡ out.old.items ++ segment_line number note.now) }
{
    put_numbered(out, "segment ", number)?;
    put_hex_number(out, u64::from(note.load), 8)?;
    put_text(out, " ")?;
    put_number(out, u64::from(note.length))?;
    put_text(out, " ")?;
    put_text(out, kind_text(note.load))?;
    put_text(out, "\n")
}

/// Where data of this load address go, as a word.
fn kind_text(load: u32) -> &'static str
    ensures exact { result.now ≡ kind_text load }
{
    if is_data(load) {
        "data"
    } else if is_code(load) {
        "code"
    } else {
        "memory"
    }
}

/// Appends the line that tells how many bytes an image has.
#[tactic(auto, unfolding(crate::specs::ImageText::length_line))]
pub fn put_length(out: &mut Vec<u8>, length: u64) -> Result<(), Memory>
    ensures ok { OnOk result (out.new.items ≡ out.old.items ++ length_line length) }
{
    put_text(out, "length ")?;
    put_number(out, length)?;
    put_text(out, "\n")
}

/// Appends the line that tells whether a digest is appended.
#[tactic(auto, unfolding(crate::specs::ImageText::digest_line))]
fn put_digest(out: &mut Vec<u8>, flagged: bool) -> Result<(), Memory>
    ensures ok { OnOk result (out.new.items ≡ out.old.items ++ digest_line flagged) }
{
    put_text(
        out,
        if flagged {
            "digest yes\n"
        } else {
            "digest no\n"
        },
    )
}

/// Appends the lines of a description.
#[tactic(auto, unfolding(crate::specs::ImageText::description_lines))]
fn put_description(out: &mut Vec<u8>, desc: Option<AppDesc>) -> Result<(), Memory>
    ensures ok { OnOk result (out.new.items ≡ out.old.items ++ description_lines desc) }
{
    put_text(out, "version ")?;
    put_version(out, desc)?;
    put_text(out, "\nproject ")?;
    put_project(out, desc)?;
    put_text(out, "\n")
}

/// Appends the version in a description.
fn put_version(out: &mut Vec<u8>, desc: Option<AppDesc>) -> Result<(), Memory>
    ensures ok { OnOk result (out.new.items ≡ out.old.items ++ version_text desc) }
{
    match desc {
        None => put_text(out, "-"),
        Some(desc) => put_shown(out, SPACE, &desc.version),
    }
}

/// Appends the project's name in a description.
fn put_project(out: &mut Vec<u8>, desc: Option<AppDesc>) -> Result<(), Memory>
    ensures ok { OnOk result (out.new.items ≡ out.old.items ++ project_text desc) }
{
    match desc {
        None => put_text(out, "-"),
        Some(desc) => put_shown(out, SPACE, &desc.project),
    }
}
