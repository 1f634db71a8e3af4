//! The verifier of application images.

ghost use Rattle.std.specs.Prelude.{◌≡◌, ◌↔◌, ◌++◌, List, ℕ, [], IsOk, IfOk, IfErr, Some};
ghost use Rattle.image_layout.specs.Whole.{Whole};
ghost use Rattle.image_verify.specs.Walk.{plan};
ghost use Rattle.image_verify.specs.Bad.{early, bad};
ghost use Rattle.image_verify.specs.Fed.{HasRead, wanted_by};
ghost use Rattle.image_verify.specs.Info.{IsInfo, answer_of};

use crate::bad::BadImage;
use crate::feed::Fed;
use crate::info::ImageInfo;
use crate::reader::Reader;
use std::marker::Model;

/// Verifies an image that comes in pieces of any length. It keeps no image and takes no memory.
#[derive(Drop)]
pub struct Verifier {
    reader: Reader,
}

// Clauses see the reader, and say of it which bytes it has read within which limit.
impl Model for Verifier {
    ghost use Rattle.image_verify.specs.declared.reader.Reader.{Reader};
    ghost use Rattle.image_verify.specs.Fed.{Known};

    ghost Value = { Reader };

    ghost view = { λ v. v.reader };

    ghost invariant = { λ v. Known v.reader };
}

impl Verifier {
    /// A verifier of an image of at most so many bytes. The low 16 bits of a place in the image are
    /// those of its address in the flash, since an image begins at a multiple of 0x10000.
    pub fn new(limit: u32) -> Verifier
        ensures { HasRead result limit [] }
    {
        Verifier {
            reader: Reader::new(limit),
        }
    }

    /// Takes the next bytes. `Bad` comes exactly where the bytes so far show one of the first seven
    /// cases of [`BadImage`], with the first of them; from then on every answer is the same.
    pub fn feed(&mut self, piece: &[u8]) -> Fed
        ensures read { (limit : ℕ) (bytes : List ℕ) → HasRead self.old limit bytes
            → HasRead self.new limit (bytes ++ piece.now) }
        ensures exact { (limit : ℕ) (bytes : List ℕ) → HasRead self.old limit bytes
            → result ≡ answer_of (early limit (bytes ++ piece.now)) }
    {
        self.reader.feed(piece);
        match self.reader.shown() {
            Some(bad) => Fed::Bad(bad),
            None => Fed::More,
        }
    }

    /// How many bytes are wanted: 0 exactly where the image is bad, or complete; else a number from
    /// 1 up to the bytes that are missing as far as they are known.
    pub fn wanted(&self) -> u32
        ensures exact { (limit : ℕ) (bytes : List ℕ) → HasRead self.now limit bytes
            → result ≡ wanted_by bytes (plan limit bytes) }
    {
        self.reader.wanted()
    }

    /// What the image is, exactly where the bytes are a whole one within the limit; else the first
    /// case of [`BadImage`] that they show.
    pub fn finish(self) -> Result<ImageInfo, BadImage>
        ensures whole { (limit : ℕ) (bytes : List ℕ) → HasRead self limit bytes
            → (IsOk result ↔ Whole bytes limit) }
        ensures ok { IfOk result (λ info. (limit : ℕ) (bytes : List ℕ) → HasRead self limit bytes
            → IsInfo bytes info) }
        ensures err { IfErr result (λ why. (limit : ℕ) (bytes : List ℕ) → HasRead self limit bytes
            → bad limit bytes ≡ Some why) }
    {
        self.reader.finish()
    }
}
