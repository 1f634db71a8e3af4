//! The two address spaces that the flash cache maps.

ghost use Rattle.std.specs.Prelude.{◌≡◌, ◌↔◌, IsTrue};
ghost use Rattle.image_layout.specs.Space.{IsData, IsCode, is_data, is_code};

/// An address space that the cache maps flash pages into.
///
/// On the ESP32 these are the data bus (DROM, from 0x3F40_0000) and the instruction bus (IROM, from
/// 0x400D_0000): ESP32 Technical Reference Manual, "System and Memory".
#[derive(Clone, Copy, Debug, PartialEq, Eq)]
pub enum Space {
    /// Constant data that is read through the cache.
    Data,
    /// Instructions that are run through the cache.
    Code,
}

/// Whether an address lies in the data space, 64 pages from 0x3F40_0000 on.
#[tactic(auto, unfolding(crate::specs::Space::is_data))]
pub fn is_data(at: u32) -> bool
    ensures meaning { IsTrue result ↔ IsData at }
    ensures exact { result ≡ is_data at }
{
    0x3F40_0000 <= at && at < 0x3F80_0000
}

/// Whether an address lies in the code space, 51 pages from 0x400D_0000 on.
#[tactic(auto, unfolding(crate::specs::Space::is_code))]
pub fn is_code(at: u32) -> bool
    ensures meaning { IsTrue result ↔ IsCode at }
    ensures exact { result ≡ is_code at }
{
    0x400D_0000 <= at && at < 0x4040_0000
}
