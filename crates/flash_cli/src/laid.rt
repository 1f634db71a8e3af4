//! The layout of a file that is to be a flash.

ghost use Rattle.std.specs.Prelude.{◌≡◌, ◌<◌, ◌^◌, IfOk, OnOk, length};
ghost use Rattle.nor_device.specs.FlashSize.{IsFlashSize};
ghost use Rattle.partition_table.specs.Layout.{IsPlaced};
ghost use Rattle.flash_cli.specs.Laid.{laid};

use flash_text::Refusal;
use nor_device::is_flash_size;
use partition_table::{Layout, layout_in};

/// The layout of a flash, or the first reason why it has none: its size, then its partition table.
#[tactic(auto, unfolding(crate::specs::Laid::laid))]
pub(crate) fn layout_of(flash: &[u8]) -> Result<Layout, Refusal>
    ensures exact { result ≡ laid flash.now }
    ensures size { OnOk result (IsFlashSize (length flash.now)) }
    ensures small { OnOk result (length flash.now < 2 ^ 32) }
    ensures some { IfOk result (λ layout. 0 < length layout.slots) }
    ensures placed { IfOk result (λ layout. IsPlaced layout (length flash.now)) }
{
    if !is_flash_size(flash.len()) {
        return Err(Refusal::FlashSize {
            size: flash.len() as u64,
        });
    }
    match layout_in(flash) {
        Ok(layout) => Ok(layout),
        Err(why) => Err(Refusal::Table(why)),
    }
}
