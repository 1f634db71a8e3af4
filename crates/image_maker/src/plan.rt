//! A plan: what an image is made of.

ghost use Rattle.std.specs.Prelude.{◌≡◌, ◌≤◌, ◌<◌, [], length, slice_index_or, vec_len};
ghost use Rattle.image_maker.specs.Image.{header_of_plan};
ghost use Rattle.image_maker.specs.Plan.{part_names, parts_of};
ghost use Rattle.image_maker.specs.PlanText.{IsPlanOrMemory, plan_of_text};

use crate::draft::read_plan;
use crate::part::{Flash, PartLine};
use crate::refusal::PlanNo;
use image_layout::Header;
use std::alloc::Global;
use std::marker::Model;

/// What an image is made of: the entry address, what the header says of the flash, whether a digest
/// is appended, and the segments with the names of the files that have their data.
#[derive(Debug, Drop)]
pub struct Plan {
    entry: u32,
    mode: u8,
    size_freq: u8,
    hash: bool,
    lines: Vec<PartLine>,
}

// Clauses see the plan without its memory.
impl Model for Plan {
    ghost use Rattle.std.specs.Prelude.{◌≤◌, vec_len};
    ghost use Rattle.image_maker.specs.Plan.{Planned, parts_of};

    ghost Value = { Planned };

    ghost view = { λ p. record {
      entry = p.entry;
      mode = p.mode;
      size_freq = p.size_freq;
      hash = p.hash;
      parts = parts_of p.lines.items;
    } };

    ghost invariant = { λ p. vec_len p.lines ≤ 64 };
}

impl Plan {
    /// The plan that a text means, or the first reason why it means none.
    pub fn read(alloc: Global, text: &[u8]) -> Result<Plan, PlanNo>
        ensures exact { IsPlanOrMemory result (plan_of_text text.now) }
    {
        read_plan(alloc, text)
    }

    /// A plan of these parts.
    pub(crate) fn new(entry: u32, flash: Flash, hash: bool, lines: Vec<PartLine>) -> Plan
        requires { vec_len lines ≤ 64 }
        ensures exact { result ≡ record {
          entry = entry;
          mode = flash.mode;
          size_freq = flash.size_freq;
          hash = hash;
          parts = parts_of lines.items;
        } }
    {
        Plan {
            entry,
            mode: flash.mode,
            size_freq: flash.size_freq,
            hash,
            lines,
        }
    }

    /// How many segments the plan has, and with them files.
    pub fn parts(&self) -> u32
        ensures exact { result ≡ length self.now.parts }
        ensures most { result ≤ 64 }
    {
        self.lines.len() as u32
    }

    /// The name of the file that has the data of this segment.
    pub fn part_name(&self, i: u32) -> &str
        requires { i < length self.now.parts }
        ensures exact { result.now ≡ slice_index_or (part_names self.now) i [] }
    {
        self.lines[i as usize].name.as_str()
    }

    /// Whether a digest is appended.
    pub(crate) fn has_digest(&self) -> bool
        ensures exact { result ≡ self.now.hash }
    {
        self.hash
    }

    /// The header of the plan's image, with so many segments.
    #[tactic(auto, unfolding(crate::specs::Image::header_of_plan))]
    pub(crate) fn header(&self, segments: u8) -> Header
        ensures exact { result ≡ header_of_plan self.now segments }
    {
        Header {
            magic: 0xE9,
            segments,
            mode: self.mode,
            size_freq: self.size_freq,
            entry: self.entry,
            wp: 0xEE,
            drive: [0; 3],
            chip: 0,
            old_rev: 0,
            min_rev: 0,
            max_rev: 0,
            reserved: [0; 4],
            flag: u8::from(self.hash),
        }
    }

    /// The segments.
    pub(crate) fn lines(&self) -> &[PartLine]
        ensures exact { parts_of result.now ≡ self.now.parts }
        ensures few { length result.now ≤ 64 }
    {
        self.lines.as_slice()
    }
}
