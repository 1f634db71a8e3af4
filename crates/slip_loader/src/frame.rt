//! Frames of a stream, read byte by byte into a buffer of a fixed size.

ghost use Rattle.std.specs.Prelude.{◌≡◌, ◌≤◌, ◌+◌, [], ◌∷◌, true, false, length, take, is_some, Some};
ghost use Rattle.slip_loader.specs.Frames.{after_byte, before, behind_after, dropped, ended_by, is_request, request_at, requests_from, taken_from, with_byte, with_escaped, with_next, within};

use arrayvec::ArrayVec;
use byteorder::{ByteOrder, LittleEndian};
use std::marker::Model;

/// The byte that ends a frame and begins the next.
const END: u8 = 0xC0;
/// The byte that begins an escape.
const ESCAPE: u8 = 0xDB;
/// The byte that means `END` behind `ESCAPE`.
const ESCAPED_END: u8 = 0xDC;
/// The byte that means `ESCAPE` behind itself.
const ESCAPED_ESCAPE: u8 = 0xDD;
/// The most bytes that a frame has, its escapes read.
const LIMIT: usize = 4120;

/// What the next byte of a stream belongs to.
#[derive(Clone, Copy, Debug, PartialEq, Eq)]
pub(crate) enum Mode {
    /// No frame: there was no `END` yet.
    Before,
    /// A frame.
    Within,
    /// An escape of a frame.
    Escaping,
    /// A frame that is dropped.
    Dropped,
}

/// The frame under way.
#[derive(Drop)]
pub(crate) struct Frame {
    mode: Mode,
    bytes: ArrayVec<u8, 4120>,
}

// Clauses see the mode and the bytes.
impl Model for Frame {
    ghost use Rattle.slip_loader.specs.Frames.{Behind};
    ghost use Rattle.slip_loader.specs.FrameView.{behind_of, IsFrame};

    ghost Value = { Behind };

    ghost view = { behind_of };

    ghost invariant = { IsFrame };
}

/// What a scan found.
#[derive(Clone, Copy)]
pub(crate) struct Scan {
    /// How many bytes it took.
    pub(crate) taken: usize,
    /// Whether the last of them ends a request.
    pub(crate) ended: bool,
}

impl Frame {
    /// No frame yet.
    pub(crate) fn new() -> Frame
        ensures exact { result ≡ before }
    {
        Frame {
            mode: Mode::Before,
            bytes: ArrayVec::new(),
        }
    }

    /// The bytes so far, their escapes read.
    pub(crate) fn bytes(&self) -> &[u8]
        ensures exact { result.now ≡ self.now.bytes }
        ensures few { length result.now ≤ 4120 }
    {
        self.bytes.as_slice()
    }

    /// The next frame begins.
    pub(crate) fn restart(&mut self)
        ensures exact { self.new ≡ within [] }
    {
        self.mode = Mode::Within;
        self.bytes.clear();
    }

    /// Takes bytes up to the first `END` that ends a request, else all. The request then still stands
    /// here.
    pub(crate) fn scan(&mut self, piece: &[u8]) -> Scan
        ensures taken { result.taken ≡ taken_from self.old piece.now }
        ensures within { result.taken ≤ length piece.now }
        ensures some { 1 ≤ length piece.now → 1 ≤ result.taken }
        ensures next { result.ended ≡ false
            → self.new ≡ behind_after self.old (take result.taken piece.now) }
        ensures none { result.ended ≡ false
            → requests_from self.old (take result.taken piece.now) ≡ [] }
        ensures one { result.ended ≡ true
            → requests_from self.old (take result.taken piece.now) ≡ self.new.bytes ∷ [] }
        ensures restarted { result.ended ≡ true
            → behind_after self.old (take result.taken piece.now) ≡ within [] }
        ensures request { result.ended ≡ true → is_request self.new.bytes ≡ true }
    {
        for (i, byte) in piece.iter().enumerate() {
            if self.take(*byte) {
                return Scan {
                    taken: i + 1,
                    ended: true,
                };
            }
        }
        Scan {
            taken: piece.len(),
            ended: false,
        }
    }

    /// Takes one byte, and tells whether it ends a request. The request then still stands here.
    #[tactic(auto, unfolding(crate::specs::Frames::after_byte, crate::specs::Frames::request_at))]
    fn take(&mut self, byte: u8) -> bool
        ensures ends { result ≡ is_some (request_at self.old byte) }
        ensures request { result ≡ true → request_at self.old byte ≡ Some self.new.bytes }
        ensures next { result ≡ false → self.new ≡ after_byte self.old byte }
    {
        if byte == END {
            self.end()
        } else {
            self.read_on(byte);
            false
        }
    }

    /// An `END`: tells whether a request ends here, and else begins the next frame.
    fn end(&mut self) -> bool
        ensures ends { result ≡ is_some (ended_by self.old.mode self.old.bytes) }
        ensures request { result ≡ true → ended_by self.old.mode self.old.bytes ≡ Some self.new.bytes }
        ensures next { result ≡ false → self.new ≡ within [] }
    {
        let ended = self.mode == Mode::Within && is_request(self.bytes.as_slice());
        if !ended {
            self.restart();
        }
        ended
    }

    /// Takes a byte other than `END`.
    fn read_on(&mut self, byte: u8)
        ensures exact { self.new ≡ with_next self.old.mode self.old.bytes byte }
    {
        match self.mode {
            Mode::Before | Mode::Dropped => {}
            Mode::Within => {
                if byte == ESCAPE {
                    self.mode = Mode::Escaping;
                } else {
                    self.push(byte);
                }
            }
            Mode::Escaping => self.push_escaped(byte),
        }
    }

    /// Takes a byte behind an open escape.
    fn push_escaped(&mut self, byte: u8)
        ensures exact { self.new ≡ with_escaped self.old.bytes byte }
    {
        match byte {
            ESCAPED_END => self.push(END),
            ESCAPED_ESCAPE => self.push(ESCAPE),
            _ => self.drop_frame(),
        }
    }

    /// Takes a byte of the frame, which is dropped where it would get too long.
    fn push(&mut self, byte: u8)
        ensures exact { self.new ≡ with_byte self.old.bytes byte }
    {
        if self.bytes.try_push(byte).is_ok() {
            self.mode = Mode::Within;
        } else {
            self.drop_frame();
        }
    }

    /// Drops the frame, whatever follows.
    fn drop_frame(&mut self)
        ensures exact { self.new ≡ dropped }
    {
        self.mode = Mode::Dropped;
        self.bytes.clear();
    }
}

/// Whether a frame is a request.
#[tactic(auto, unfolding(crate::specs::Frames::is_request))]
fn is_request(frame: &[u8]) -> bool
    ensures exact { result ≡ is_request frame.now }
{
    let length = frame.len();
    if length < 8 || length > LIMIT || frame[0] != 0 {
        return false;
    }
    usize::from(LittleEndian::read_u16(&frame[2..])) + 8 == length
}
