//! The header of a bank: its generation and the CRC of it, four bytes each, the lowest first.

ghost use Rattle.std.specs.Prelude.{◌≡◌, ◌≤◌, ◌<◌, ◌+◌, length};
ghost use Rattle.nvs_keys.specs.Banks.{header_bytes, mark_of, matches};

use arrayvec::ArrayVec;
use byteorder::{ByteOrder, LittleEndian};
use otadata::crc_of;

/// The generation that an erased header reads as.
const ERASED: u32 = 0xFFFF_FFFF;

/// Whether a generation and a CRC match.
#[tactic(auto, unfolding(crate::specs::Banks::matches))]
fn matches(generation: u32, sum: u32) -> bool
    ensures exact { result ≡ matches generation sum }
{
    generation != ERASED && generation != 0 && sum == crc_of(generation)
}

/// The generation of a header that matches, from its eight bytes.
#[tactic(auto, unfolding(crate::specs::Banks::mark_of))]
pub fn generation_of(header: &[u8]) -> Option<u32>
    requires { 8 ≤ length header.now }
    ensures exact { result ≡ mark_of header.now }
{
    let generation = LittleEndian::read_u32(header);
    let sum = LittleEndian::read_u32(&header[4..]);
    matches(generation, sum).then_some(generation)
}

/// The header of a generation.
#[tactic(auto, unfolding(crate::specs::Banks::header_bytes))]
pub fn header_of(generation: u32) -> ArrayVec<u8, 8>
    ensures exact { result.items ≡ header_bytes generation }
{
    let mut header = ArrayVec::new();
    let _ = header.try_extend_from_slice(&generation.to_le_bytes());
    let _ = header.try_extend_from_slice(&crc_of(generation).to_le_bytes());
    header
}

/// The header that an exchange of banks gives the other bank, by the generation of this one.
pub fn next_header(generation: u32) -> ArrayVec<u8, 8>
    requires { generation < 0xFFFF_FFFE }
    ensures exact { result.items ≡ header_bytes (generation + 1) }
{
    header_of(generation + 1)
}
