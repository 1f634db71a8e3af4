//! The device: a flash in memory, and one whose power stays on and that doesn't fail.

ghost use Rattle.std.specs.Prelude.{◌≡◌, None, Some, length};
ghost use Rattle.nor_device.specs.FlashSize.{IsFlashSize};
ghost use Rattle.update_run.specs.Device.{IsSure};

use crash_images::{CutNor, setting_of_cut_nor_over_ram_nor};
use nor_device::{Nor, RamNor};

/// How often each step answers that it still runs.
pub(crate) const POLLS: u32 = 2;

/// The device over the bytes of a flash, which are not copied. It is idle, has made no step, ends
/// none badly, and refuses nothing.
pub fn device_of(flash: Vec<u8>) -> CutNor<RamNor>
    requires size { IsFlashSize (length flash.items) }
    ensures idle { ⟦<CutNor<RamNor> as Nor>⟧.running result ≡ None }
    ensures bytes { ⟦<CutNor<RamNor> as Nor>⟧.bytes result ≡ Some flash.items }
    ensures size { ⟦<CutNor<RamNor> as Nor>⟧.size result ≡ length flash.items }
    ensures steps { ⟦<CutNor<RamNor> as Nor>⟧.steps result ≡ 0 }
    ensures sure { IsSure ⟦<CutNor<RamNor> as Nor>⟧.may_end ⟦<CutNor<RamNor> as Nor>⟧.may_refuse
        (⟦<CutNor<RamNor> as Nor>⟧.setting result) }
{
    setting_of_cut_nor_over_ram_nor();
    CutNor::new(RamNor::of_bytes(flash, POLLS), None, 0, None)
}

/// The bytes of the device, which are not copied.
pub fn bytes_of(device: CutNor<RamNor>) -> Vec<u8>
    requires idle { ⟦<CutNor<RamNor> as Nor>⟧.running device ≡ None }
    ensures exact { ⟦<CutNor<RamNor> as Nor>⟧.bytes device ≡ Some result.items }
{
    device.into_inner().into_bytes()
}
