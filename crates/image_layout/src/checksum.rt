//! The exclusive or of the bytes of an image's data.

ghost use Rattle.std.specs.Prelude.{◌≡◌};
ghost use Rattle.image_layout.specs.Whole.{xor_all};

/// The exclusive or of a number with all bytes. The checksum of an image is that of 0xEF with the data of its segments.
pub fn xor_bytes(sum: u8, bytes: &[u8]) -> u8
    ensures { result ≡ xor_all sum bytes.now }
{
    let mut all = sum;
    for byte in bytes {
        all ^= *byte;
    }
    all
}
