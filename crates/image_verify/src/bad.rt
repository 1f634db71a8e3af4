//! Why bytes are no whole image.

/// Why bytes are no whole image: the first of these cases that they show. The first seven show as the bytes come, the one
/// that needs the fewest bytes first; the other four show at their end, in this order.
#[derive(Clone, Copy, Debug, PartialEq, Eq)]
pub enum BadImage {
    /// The first byte is not 0xE9.
    Magic { byte: u8 },
    /// There are not 1 to 16 segments.
    Segments { n: u8 },
    /// The chip is not the ESP32.
    Chip { id: u16 },
    /// The last byte of the header is neither 0 nor 1.
    Flag { byte: u8 },
    /// The length of a segment is no multiple of 4.
    Length { segment: u8, length: u32 },
    /// A segment leaves its address space, or its address and its place differ in their low 16 bits.
    Address { segment: u8, load: u32 },
    /// The image needs more bytes than the limit.
    TooLarge { need: u64, limit: u32 },
    /// The bytes end before the image does.
    Short { have: u64, need: u64 },
    /// There are bytes after the image.
    Trailing { have: u64, need: u64 },
    /// The checksum is not that of the data.
    Checksum { stored: u8, computed: u8 },
    /// The digest is not that of the bytes before it.
    Digest,
}
