//! What no clause says: images from outside come out so, in pieces of any length.

ghost use Rattle.std.specs.Prelude.{◌≡◌, ◌↔◌, ◌<◌, ◌≤◌, IsOk};
ghost use Rattle.image_layout.specs.Whole.{Whole};

use crate::*;
use image_layout::Space;

/// The image that esptool's rules give for the four bytes 01 02 03 04 at 0x3F400020: header, one segment, checksum and
/// SHA-256.
const IMAGE: [u8; 80] = [
    0xE9, 0x01, 0x02, 0x20, 0x00, 0x04, 0x08, 0x40, 0xEE, 0x00, 0x00, 0x00, 0x00, 0x00, 0x00, 0x00,
    0x00, 0x00, 0x00, 0x00, 0x00, 0x00, 0x00, 0x01, 0x20, 0x00, 0x40, 0x3F, 0x04, 0x00, 0x00, 0x00,
    0x01, 0x02, 0x03, 0x04, 0x00, 0x00, 0x00, 0x00, 0x00, 0x00, 0x00, 0x00, 0x00, 0x00, 0x00, 0xEB,
    0xAC, 0x8D, 0x70, 0x32, 0x6E, 0xE8, 0xA1, 0xD1, 0x93, 0x08, 0x6C, 0x8B, 0x06, 0xC5, 0xEB, 0x67,
    0x2E, 0xE9, 0x1A, 0x20, 0xC3, 0xE4, 0xB3, 0xD6, 0x2D, 0xBD, 0x7D, 0xAC, 0x93, 0xA8, 0xA6, 0xEB,
];

/// Verifies bytes in pieces of one length, the last one possibly shorter.
fn verify_by(limit: u32, bytes: &[u8], size: usize) -> Result<ImageInfo, BadImage>
    requires { 1 ≤ size }
    ensures { IsOk result ↔ Whole bytes.now limit }
{
    let mut verifier = Verifier::new(limit);
    let mut done = 0;
    while done < bytes.len() {
        let more = size.min(bytes.len() - done);
        let _ = verifier.feed(&bytes[done..done + more]);
        done += more;
    }
    verifier.finish()
}

/// The image with one byte changed.
fn changed(at: usize, byte: u8) -> [u8; 80]
    requires { at < 80 }
{
    let mut image = IMAGE;
    image[at] = byte;
    image
}

#[test]
fn an_image_is_whole_in_pieces_of_any_length(rt: HostRuntime) {
    for size in 1..301 {
        assert_eq!(rt;
            verify_by(80, &IMAGE, size).map(|info| info.length),
            Ok(80),
            "by {size}"
        );
    }
}

#[test]
fn the_first_fault_is_told(rt: HostRuntime) {
    for (at, byte, want) in [
        (0, 0xE8, BadImage::Magic { byte: 0xE8 }),
        (1, 0, BadImage::Segments { n: 0 }),
        (1, 17, BadImage::Segments { n: 17 }),
        (12, 9, BadImage::Chip { id: 9 }),
        (23, 2, BadImage::Flag { byte: 2 }),
        (
            28,
            5,
            BadImage::Length {
                segment: 0,
                length: 5,
            },
        ),
        (
            24,
            0x24,
            BadImage::Address {
                segment: 0,
                load: 0x3F40_0024,
            },
        ),
        (
            35,
            5,
            BadImage::Checksum {
                stored: 0xEB,
                computed: 0xEA,
            },
        ),
        (79, 0, BadImage::Digest),
    ] {
        for size in [1, 7, 80] {
            assert_eq!(rt;
                verify_by(80, &changed(at, byte), size).err(),
                Some(want),
                "byte {at} by {size}"
            );
        }
    }
}

/// The image whose segment has this length, less 256, and this lowest byte of its load address.
fn headed(load: u8, length: u8) -> [u8; 80] {
    let mut image = changed(24, load);
    image[28] = length;
    image[29] = 1;
    image
}

#[test]
fn lengths_are_told(rt: HostRuntime) {
    let mut longer = [0; 81];
    longer[..80].copy_from_slice(&IMAGE);
    let odd = headed(0x24, 0x05);
    let astray = headed(0x24, 0x04);
    let large = headed(0x20, 0x04);
    let length = BadImage::Length {
        segment: 0,
        length: 0x105,
    };
    let address = BadImage::Address {
        segment: 0,
        load: 0x3F40_0024,
    };
    for (bytes, limit, want) in [
        (&IMAGE[..0], 80, BadImage::Short { have: 0, need: 24 }),
        (&IMAGE[..79], 80, BadImage::Short { have: 79, need: 80 }),
        (&longer[..], 80, BadImage::Trailing { have: 81, need: 80 }),
        (
            &IMAGE[..],
            79,
            BadImage::TooLarge {
                need: 80,
                limit: 79,
            },
        ),
        // Of the faults of one head the length is told first, then the address, then the size.
        (&odd[..], 80, length),
        (&astray[..], 80, address),
        (
            &large[..],
            80,
            BadImage::TooLarge {
                need: 336,
                limit: 80,
            },
        ),
    ] {
        assert_eq!(rt; verify_by(limit, bytes, 33).err(), Some(want), "{limit}");
    }
}

#[test]
fn a_slot_holds_the_image_that_it_begins_with(rt: HostRuntime) {
    let mut slot = [0xFF; 4096];
    slot[..80].copy_from_slice(&IMAGE);
    match verify_slot(&slot) {
        Some(info) => {
            assert_eq!(rt; info.length, 80, "the length");
            assert_eq!(rt; info.entry, 0x4008_0400, "the entry");
            let data = SegmentNote {
                load: 0x3F40_0020,
                length: 4,
                place: 32,
            };
            assert_eq!(rt; info.mapped(Space::Data), Some(data), "the mapped data");
            assert_eq!(rt; info.mapped(Space::Code), None, "no code");
        }
        None => assert_eq!(rt; false, true, "it is whole"),
    }
    slot[79] ^= 1;
    assert_eq!(rt; verify_slot(&slot).is_none(), true, "a damaged slot");
}

/// An image of two segments of mapped data without a digest, by the format and Python's `struct`.
const TWO_MAPPED: [u8; 64] = [
    0xE9, 0x02, 0x02, 0x20, 0x00, 0x04, 0x08, 0x40, 0xEE, 0x00, 0x00, 0x00, 0x00, 0x00, 0x00, 0x00,
    0x00, 0x00, 0x00, 0x00, 0x00, 0x00, 0x00, 0x00, 0x20, 0x00, 0x40, 0x3F, 0x04, 0x00, 0x00, 0x00,
    0x01, 0x02, 0x03, 0x04, 0x2C, 0x00, 0x41, 0x3F, 0x04, 0x00, 0x00, 0x00, 0x05, 0x06, 0x07, 0x08,
    0x00, 0x00, 0x00, 0x00, 0x00, 0x00, 0x00, 0x00, 0x00, 0x00, 0x00, 0x00, 0x00, 0x00, 0x00, 0xE7,
];

#[test]
fn the_last_segment_of_a_space_is_mapped(rt: HostRuntime) {
    let info = verify_by(64, &TWO_MAPPED, 64);
    let last = SegmentNote {
        load: 0x3F41_002C,
        length: 4,
        place: 44,
    };
    assert_eq!(rt;
        info.map(|info| info.mapped(Space::Data)),
        Ok(Some(last)),
        "two of data"
    );
}
