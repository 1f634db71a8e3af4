//! The header of an image: 24 bytes, numbers with their lowest byte first.
//!
//! | offset | bytes | field |
//! |---|---|---|
//! | 0 | 1 | magic 0xE9 |
//! | 1 | 1 | number of segments |
//! | 2 | 1 | flash mode |
//! | 3 | 1 | flash size (high four bits) and frequency |
//! | 4 | 4 | entry address |
//! | 8 | 1 | WP pin |
//! | 9 | 3 | drive settings |
//! | 12 | 2 | chip id |
//! | 14 | 1 | old minimal revision |
//! | 15 | 2 | minimal revision |
//! | 17 | 2 | maximal revision |
//! | 19 | 4 | reserved |
//! | 23 | 1 | 1 where a digest is appended |

ghost use Rattle.std.specs.Prelude.{◌≡◌, length};
ghost use Rattle.image_layout.specs.Header.{IsSized, header_of, header_bytes};

use crate::fields::{put_at, put_u16, put_u32};
use byteorder::{ByteOrder, LittleEndian};

/// What an image begins with (esptool, "Firmware Image Format").
#[derive(Clone, Copy, Debug, Default, PartialEq, Eq)]
pub struct Header {
    /// 0xE9 in an image.
    pub magic: u8,
    /// The number of segments.
    pub segments: u8,
    /// The flash mode.
    pub mode: u8,
    /// The flash size in the high four bits, its frequency in the low four.
    pub size_freq: u8,
    /// The address at which the application starts.
    pub entry: u32,
    /// The WP pin.
    pub wp: u8,
    /// The drive settings of the flash pins.
    pub drive: [u8; 3],
    /// The chip's number, 0 for the ESP32.
    pub chip: u16,
    /// The minimal chip revision in the old form.
    pub old_rev: u8,
    /// The minimal chip revision.
    pub min_rev: u16,
    /// The maximal chip revision.
    pub max_rev: u16,
    /// Four bytes without a meaning.
    pub reserved: [u8; 4],
    /// 1 where a digest is appended, else 0.
    pub flag: u8,
}

impl Header {
    /// The header that 24 bytes are.
    pub fn read(bytes: &[u8; 24]) -> Header
        ensures exact { result ≡ header_of bytes.now }
        ensures bytes { header_bytes result ≡ bytes.now }
    {
        read_header(bytes)
    }

    /// Writes the 24 bytes of the header.
    pub fn put(&self, out: &mut [u8; 24])
        ensures bytes { out.new ≡ header_bytes self.now }
        ensures exact { header_of out.new ≡ self.now }
    {
        put_header(self, out);
    }
}

/// The header that 24 bytes are.
#[tactic(auto, unfolding(crate::specs::Header::header_of))]
fn read_header(bytes: &[u8]) -> Header
    requires { length bytes.now ≡ 24 }
    ensures { result ≡ header_of bytes.now }
{
    let mut drive = [0; 3];
    drive.copy_from_slice(&bytes[9..12]);
    let mut reserved = [0; 4];
    reserved.copy_from_slice(&bytes[19..23]);
    Header {
        magic: bytes[0],
        segments: bytes[1],
        mode: bytes[2],
        size_freq: bytes[3],
        entry: LittleEndian::read_u32(&bytes[4..]),
        wp: bytes[8],
        drive,
        chip: LittleEndian::read_u16(&bytes[12..]),
        old_rev: bytes[14],
        min_rev: LittleEndian::read_u16(&bytes[15..]),
        max_rev: LittleEndian::read_u16(&bytes[17..]),
        reserved,
        flag: bytes[23],
    }
}

/// Writes the 24 bytes of the header.
#[tactic(auto, unfolding(crate::specs::Header::header_bytes))]
fn put_header(header: &Header, out: &mut [u8])
    requires { length out.old ≡ 24 }
    ensures bytes { out.new ≡ header_bytes header.now }
    ensures sized { IsSized header.now }
{
    let Header {
        magic,
        segments,
        mode,
        size_freq,
        entry,
        wp,
        drive,
        chip,
        old_rev,
        min_rev,
        max_rev,
        reserved,
        flag,
    } = *header;
    put_at(out, 0, &[magic, segments, mode, size_freq]);
    put_u32(out, 4, entry);
    put_at(out, 8, &[wp]);
    put_at(out, 9, &drive);
    put_u16(out, 12, chip);
    put_at(out, 14, &[old_rev]);
    put_u16(out, 15, min_rev);
    put_u16(out, 17, max_rev);
    put_at(out, 19, &reserved);
    put_at(out, 23, &[flag]);
}
