//! The reader of an image as it comes: where it stands, and what it takes from a piece at once.
//!
//! Up to the end of the last data that a head told of, bytes go into the digest and the checksum and
//! are not kept. What follows is kept until it is whole: the 8 bytes of a head or, with no head to
//! come, padding, checksum and digest, 48 at most.

ghost use Rattle.std.specs.Prelude.{◌≡◌, ◌<◌, ◌≤◌, ◌^◌, ◌+◌, ◌-◌, ◌++◌, List, ℕ, [], length, take};
ghost use Rattle.image_verify.specs.Places.{need_of};
ghost use Rattle.image_verify.specs.Walk.{plan};
ghost use Rattle.image_verify.specs.Bad.{early};
ghost use Rattle.image_verify.specs.Fed.{IsFed, IsHeaded, IsFull, Known, wanted_by};
ghost use Rattle.image_verify.specs.declared.reader.Stage.{Stage};
ghost use Rattle.image_verify.specs.declared.reader.Stage.TheVariants as stages;

use crate::bad::BadImage;
use crate::faults::{head_fault, header_fault, limit_fault, need};
use crate::info::SegmentNote;
use crate::keep::keep;
use crate::seen::Seen;
use arrayvec::ArrayVec;
use image_layout::{SegmentHead, xor_bytes};
use sha2::{Digest, Sha256};

/// How far the reading has come.
#[derive(Clone, Copy, Drop)]
pub(crate) enum Stage {
    /// Not to the end of the header.
    Header,
    /// Past the header.
    Body,
    /// To a fault.
    Bad(BadImage),
}

/// The reader: what it knows of the bytes that came.
#[derive(Drop)]
pub(crate) struct Reader {
    pub(crate) limit: u32,
    pub(crate) stage: Stage,
    pub(crate) seen: Seen,
    /// The heads that are still to come.
    pub(crate) left: u8,
    /// Where the last data end that a head told of.
    pub(crate) end: u64,
    pub(crate) flag: u8,
    pub(crate) notes: ArrayVec<SegmentNote, 16>,
    /// What came after these data.
    pub(crate) buffer: ArrayVec<u8, 48>,
    /// The exclusive or of 0xEF and all data.
    pub(crate) sum: u8,
    /// The digest of all bytes up to the end of these data.
    pub(crate) hasher: Sha256,
}

impl Reader {
    /// No byte came yet.
    pub(crate) fn new(limit: u32) -> Reader
        ensures { IsFed result limit [] }
    {
        Reader {
            limit,
            stage: Stage::Header,
            seen: Seen::new(),
            left: 0,
            end: 0,
            flag: 0,
            notes: ArrayVec::new(),
            buffer: ArrayVec::new(),
            sum: 0xEF,
            hasher: Sha256::new(),
        }
    }

    /// Takes what a piece has of the header.
    fn in_header(&mut self, piece: &[u8]) -> usize
        requires header { self.old.stage ≡ stages.Header }
        requires few { length self.old.seen.front.items < 24 }
        ensures fed { (limit : ℕ) (bytes : List ℕ) → IsFed self.old limit bytes
            → IsFed self.new limit (bytes ++ take result piece.now) }
        ensures some { 1 ≤ length piece.now → 1 ≤ result }
        ensures within { result ≤ length piece.now }
    {
        let taken = piece.len().min(24 - self.seen.front.len());
        self.seen.saw(&piece[..taken]);
        if let Some(bad) = header_fault(&self.seen.front) {
            self.stage = Stage::Bad(bad);
        } else if self.seen.front.len() == 24 {
            self.open();
        }
        taken
    }

    /// Goes on from the end of a header without a fault.
    fn open(&mut self)
        requires { length self.old.seen.front.items ≡ 24 }
        ensures { (limit : ℕ) (bytes : List ℕ) → IsHeaded self.old limit bytes
            → IsFed self.new limit bytes }
    {
        let heads = self.seen.front[1];
        let flag = self.seen.front[23];
        if let Some(bad) = limit_fault(self.limit, need(24, heads, flag)) {
            self.stage = Stage::Bad(bad);
            return;
        }
        self.hasher.update(&self.seen.front[..]);
        self.stage = Stage::Body;
        self.left = heads;
        self.end = 24;
        self.flag = flag;
    }

    /// Takes what a piece has of the data.
    fn in_data(&mut self, piece: &[u8]) -> usize
        requires body { self.old.stage ≡ stages.Body }
        requires inside { self.old.seen.count < self.old.end }
        ensures fed { (limit : ℕ) (bytes : List ℕ) → IsFed self.old limit bytes
            → IsFed self.new limit (bytes ++ take result piece.now) }
        ensures some { 1 ≤ length piece.now → 1 ≤ result }
        ensures within { result ≤ length piece.now }
    {
        let taken = (piece.len() as u64).min(self.end - self.seen.count) as usize;
        let data = &piece[..taken];
        self.seen.saw(data);
        self.hasher.update(data);
        self.sum = xor_bytes(self.sum, data);
        taken
    }

    /// Takes what a piece has of a head.
    fn in_head(&mut self, piece: &[u8]) -> usize
        requires body { self.old.stage ≡ stages.Body }
        requires some_left { 1 ≤ self.old.left }
        requires room { length self.old.notes.items + self.old.left ≤ 16 }
        requires few { length self.old.buffer.items < 8 }
        requires small { self.old.end + 8 < 2 ^ 32 }
        requires past { self.old.end ≤ self.old.seen.count }
        ensures fed { (limit : ℕ) (bytes : List ℕ) → IsFed self.old limit bytes
            → IsFed self.new limit (bytes ++ take result piece.now) }
        ensures some { 1 ≤ length piece.now → 1 ≤ result }
        ensures within { result ≤ length piece.now }
    {
        let taken = piece.len().min(8 - self.buffer.len());
        let part = &piece[..taken];
        self.seen.saw(part);
        keep(&mut self.buffer, 8, part);
        if self.buffer.len() == 8 {
            self.take_head();
        }
        taken
    }

    /// Looks at a head that came whole.
    fn take_head(&mut self)
        requires some_left { 1 ≤ self.old.left }
        requires room { length self.old.notes.items + self.old.left ≤ 16 }
        requires whole { length self.old.buffer.items ≡ 8 }
        requires small { self.old.end + 8 < 2 ^ 32 }
        ensures { (limit : ℕ) (bytes : List ℕ) → IsFull self.old limit bytes
            → IsFed self.new limit bytes }
    {
        let mut bytes = [0; 8];
        bytes.copy_from_slice(&self.buffer);
        let head = SegmentHead::read(&bytes);
        let segment = self.notes.len() as u8;
        let left = self.left - 1;
        if let Some(bad) = head_fault(self.limit, self.flag, segment, &head, self.end, left) {
            self.stage = Stage::Bad(bad);
            return;
        }
        self.hasher.update(&bytes);
        self.notes.push(SegmentNote {
            load: head.load,
            length: head.length,
            place: (self.end + 8) as u32,
        });
        self.buffer.clear();
        self.left = left;
        self.end += 8 + head.length as u64;
    }

    /// Takes a piece after the last data: what is wanted of it is kept.
    fn in_tail(&mut self, piece: &[u8]) -> usize
        requires body { self.old.stage ≡ stages.Body }
        requires none_left { self.old.left ≡ 0 }
        requires flagged { self.old.flag ≤ 1 }
        requires small { self.old.end ≤ 2 ^ 32 }
        requires past { self.old.end ≤ self.old.seen.count }
        ensures fed { (limit : ℕ) (bytes : List ℕ) → IsFed self.old limit bytes
            → IsFed self.new limit (bytes ++ take result piece.now) }
        ensures all { result ≡ length piece.now }
    {
        let want = need(self.end, 0, self.flag) - self.end;
        self.seen.saw(piece);
        keep(&mut self.buffer, want as usize, piece);
        piece.len()
    }

    /// Takes a piece after a fault: nothing of it is looked at.
    fn in_bad(&mut self, piece: &[u8], bad: BadImage) -> usize
        requires { self.old.stage ≡ stages.Bad bad }
        ensures fed { (limit : ℕ) (bytes : List ℕ) → IsFed self.old limit bytes
            → IsFed self.new limit (bytes ++ take result piece.now) }
        ensures all { result ≡ length piece.now }
    {
        self.seen.saw(piece);
        piece.len()
    }

    /// Takes a first part of a piece past the header.
    fn in_body(&mut self, piece: &[u8]) -> usize
        requires known { Known self.old }
        requires body { self.old.stage ≡ stages.Body }
        ensures fed { (limit : ℕ) (bytes : List ℕ) → IsFed self.old limit bytes
            → IsFed self.new limit (bytes ++ take result piece.now) }
        ensures some { 1 ≤ length piece.now → 1 ≤ result }
        ensures within { result ≤ length piece.now }
    {
        if self.seen.count < self.end {
            self.in_data(piece)
        } else if self.left > 0 {
            self.in_head(piece)
        } else {
            self.in_tail(piece)
        }
    }

    /// Takes a first part of a piece, at least one byte of a piece that has some.
    fn step(&mut self, piece: &[u8]) -> usize
        requires known { Known self.old }
        ensures fed { (limit : ℕ) (bytes : List ℕ) → IsFed self.old limit bytes
            → IsFed self.new limit (bytes ++ take result piece.now) }
        ensures some { 1 ≤ length piece.now → 1 ≤ result }
        ensures within { result ≤ length piece.now }
    {
        match self.stage {
            Stage::Header => self.in_header(piece),
            Stage::Body => self.in_body(piece),
            Stage::Bad(bad) => self.in_bad(piece, bad),
        }
    }

    /// Takes a piece.
    pub(crate) fn feed(&mut self, piece: &[u8])
        requires known { Known self.old }
        ensures { (limit : ℕ) (bytes : List ℕ) → IsFed self.old limit bytes
            → IsFed self.new limit (bytes ++ piece.now) }
    {
        let mut done = 0;
        while done < piece.len() {
            done += self.step(&piece[done..]);
        }
    }

    /// The fault that the bytes show so far.
    pub(crate) fn shown(&self) -> Option<BadImage>
        requires known { Known self.now }
        ensures exact { (limit : ℕ) (bytes : List ℕ) → IsFed self.now limit bytes
            → result ≡ early limit bytes }
    {
        match self.stage {
            Stage::Bad(bad) => Some(bad),
            Stage::Header => None,
            Stage::Body => None,
        }
    }

    /// How many bytes are wanted before more is known.
    pub(crate) fn wanted(&self) -> u32
        requires known { Known self.now }
        ensures exact { (limit : ℕ) (bytes : List ℕ) → IsFed self.now limit bytes
            → result ≡ wanted_by bytes (plan limit bytes) }
    {
        match self.stage {
            Stage::Bad(_) => 0,
            Stage::Header => 24 - self.seen.front.len() as u32,
            Stage::Body => self.missing(),
        }
    }

    /// How many bytes an image past its header still needs.
    fn missing(&self) -> u32
        requires known { Known self.now }
        requires body { self.now.stage ≡ stages.Body }
        ensures exact { (limit : ℕ) (bytes : List ℕ) → IsFed self.now limit bytes
            → result ≡ wanted_by bytes (plan limit bytes) }
    {
        let need = need(self.end, self.left, self.flag);
        need.saturating_sub(self.seen.count) as u32
    }
}
