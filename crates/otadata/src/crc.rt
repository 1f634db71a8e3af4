//! The CRC-32 of a sequence: the reflected polynomial 0xEDB88320, a register that starts at 0, and
//! the result inverted.

ghost use Rattle.std.specs.Prelude.{◌≡◌, ◌<◌, ◌≤◌, ◌+◌, ◌^◌, Bool, List, length, ℕ};
ghost use Rattle.otadata.specs.Polynomial.{IsMonic, IsRemainder, remainder};
ghost use Rattle.otadata.specs.Crc.{crc, divided, generator, read_back, shifted};

/// The polynomial of CRC-32 below x to the power 32, the coefficient of x to the power 31 as bit 0.
const POLYNOMIAL: u32 = 0xEDB8_8320;

/// What the register holds before the first bit.
const START: u32 = 0;

/// The CRC of an entry: of the four bytes of its sequence alone (ESP-IDF,
/// `bootloader_common_ota_select_crc`). It equals the usual CRC-32 of the four complemented bytes.
pub fn crc_of(seq: u32) -> u32
    ensures exact { result ≡ crc seq }
{
    let mut register = START ^ seq;
    for _ in 0..u32::BITS {
        register = shifted(register);
    }
    !register
}

/// The register after one more bit.
fn shifted(register: u32) -> u32
    ensures exact { result ≡ shifted register }
{
    if register & 1 == 0 {
        register >> 1
    } else {
        (register >> 1) ^ POLYNOMIAL
    }
}

/// Polynomials over two values are divided with one remainder.
pub fn division_leaves_one_remainder()
    ensures exists { (p d : List Bool) → IsMonic d → length d ≤ length p + 1
        → IsRemainder p d (remainder p d) }
    ensures unique { (p d r : List Bool) → IsMonic d → IsRemainder p d r → r ≡ remainder p d }
{}

/// The CRC is read from the remainder, whichever way that was found, and has 32 bits.
pub fn crc_is_read_from_the_remainder()
    ensures exists { (seq : ℕ)
        → IsRemainder (divided seq) generator (remainder (divided seq) generator) }
    ensures crc { (seq : ℕ) (r : List Bool) → IsRemainder (divided seq) generator r
        → crc seq ≡ read_back r }
    ensures fits { (seq : ℕ) → crc seq < 2 ^ 32 }
{}

/// The definition computes what other programs compute.
pub fn crc_of_known_sequences()
    ensures zero { crc 0 ≡ 0xFFFF_FFFF }
    ensures one { crc 1 ≡ 0x4743_989A }
    ensures two { crc 2 ≡ 0x55F6_3774 }
    ensures three { crc 3 ≡ 0xED4A_5011 }
    ensures last { crc 0xFFFF_FFFE ≡ 0x99F8_B879 }
{}
