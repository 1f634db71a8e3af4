//! How many bytes a flash may have.

ghost use Rattle.std.specs.Prelude.{◌≡◌, ◌↔◌, ◌≤◌, IsTrue};
ghost use Rattle.nor_device.specs.FlashSize.{IsFlashSize, is_flash_size};

/// These are as many bytes as a flash may have: 1, 2, 4, 8, 16 or 32 MiB.
#[tactic(auto, unfolding(crate::specs::FlashSize::is_flash_size))]
pub fn is_flash_size(bytes: usize) -> bool
    ensures meaning { IsTrue result ↔ IsFlashSize bytes }
    ensures exact { result ≡ is_flash_size bytes }
    ensures least { IsTrue result → 1048576 ≤ bytes }
    ensures most { IsTrue result → bytes ≤ 33554432 }
{
    matches!(
        bytes,
        1_048_576 | 2_097_152 | 4_194_304 | 8_388_608 | 16_777_216 | 33_554_432
    )
}
