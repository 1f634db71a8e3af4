//! The tear number: which of the torn flashes the program's own device leaves.

ghost use Rattle.std.specs.Prelude.{◌≡◌};
ghost use Rattle.crash_images.specs.Tear.{mask_at, torn_byte_of, with_mask_bits};

/// The byte that is left of `old`, the `i`-th of the range of a step that was cut short.
///
/// Bits 0 to 7 of the tear number are the mask in its window, bits 8 to 15 the mask elsewhere; the
/// window begins at bits 16 to 31 and ends before bits 32 to 47. An erase leaves `old | mask`, and a
/// program of `new` leaves `old & (new | mask)`: tear 0 leaves an erase undone and a program done, and
/// 0xFFFF the contrary.
pub fn torn_byte(old: u8, new: u8, erase: bool, tear: u64, i: u32) -> u8
    ensures exact { result ≡ torn_byte_of old new erase tear i }
{
    let mask = mask_at(tear, i as u64);
    if erase {
        old | mask
    } else {
        old & (new | mask)
    }
}

/// The mask of the i-th byte of the range.
fn mask_at(tear: u64, i: u64) -> u8
    ensures exact { result ≡ mask_at tear i }
{
    let window_start = tear / 65_536 % 65_536;
    let window_end = tear / 4_294_967_296 % 65_536;
    let (window_mask, other_mask) = (tear % 256, tear / 256 % 256);
    if window_start <= i && i < window_end {
        window_mask as u8
    } else {
        other_mask as u8
    }
}

/// Sets the bits of its mask in each byte; the first is byte `first` of the range.
pub(crate) fn set_mask_bits(bytes: &mut [u8], first: u32, tear: u64)
    ensures exact { bytes.new ≡ with_mask_bits tear first bytes.old }
{
    for i in 0..bytes.len() {
        bytes[i] |= mask_at(tear, first as u64 + i as u64);
    }
}
