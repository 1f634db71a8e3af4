//! What headers and heads are as lists of bytes.

ghost use Rattle.std.specs.Prelude.{◌≡◌, ◌<◌, ◌≤◌, ◌++◌, ℕ, List, All, length, take};
ghost use Rattle.byteorder.specs.Endian.{little_bytes};
ghost use Rattle.image_layout.specs.declared.header.Header.{Header};
ghost use Rattle.image_layout.specs.Footer.{IsLeastAbove, footer_end};
ghost use Rattle.image_layout.specs.Header.{header_of, header_bytes, IsSized};
ghost use Rattle.image_layout.specs.Segment.{Segment, IsSegment, load_of};

/// Headers and their bytes say the same: a header is read where its bytes stand first, and its bytes are those that it was
/// read from.
pub fn headers_are_their_bytes()
    ensures header { (h : Header) (rest : List ℕ) → IsSized h → header_of (header_bytes h ++ rest) ≡ h }
    ensures bytes { (bytes : List ℕ) → 24 ≤ length bytes → All (λ b. b < 256) bytes
        → header_bytes (header_of bytes) ≡ take 24 bytes }
{}

/// The head of a segment is the four bytes of its load address and the four of its data's length.
pub fn head_has_its_bytes()
    ensures { (at : ℕ) (s : Segment) → IsSegment at s → All (λ b. b < 256) s.head
        → s.head ≡ little_bytes 4 (load_of s) ++ little_bytes 4 (length s.content) }
{}

/// An image without its digest ends at the least multiple of 16 above its data.
pub fn footers_are_least()
    ensures { (n : ℕ) → IsLeastAbove n (footer_end n) }
{}
