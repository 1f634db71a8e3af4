//! The end of an update.

ghost use Rattle.std.specs.Prelude.{◌≡◌, ◌≢◌, ◌<◌, ◌^◌, None, Some, length};
ghost use Rattle.partition_table.specs.Layout.{IsPlaced};
ghost use Rattle.boot_select.specs.Boots.{entries_in, images_in};
ghost use Rattle.rollback.specs.Boots.{boots_in};
ghost use Rattle.image_verify.specs.Held.{held};
ghost use Rattle.boot_run.specs.Booted.{IsBoot};
ghost use Rattle.power_cut.specs.Device.{running_in};
ghost use Rattle.power_cut.specs.Whole.{IsClosed};

use crate::legs::Leg;
use crate::outcome::Trial;
use arrayvec::ArrayVec;
use boot_run::{Booted, preview};
use bus_hub::Journal;
use crash_images::CutNor;
use nor_device::RamNor;
use partition_table::Layout;

/// What an update has left that ends with this device.
pub(crate) fn close(
    dev: CutNor<RamNor>,
    layout: &Layout,
    legs: ArrayVec<Leg, 3>,
    session: Journal,
    confirm: Option<Journal>,
) -> Trial
    requires idle { running_in dev ≡ None }
    requires placed { IsPlaced layout.now (length dev.inner.bytes) }
    requires small { length dev.inner.bytes < 2 ^ 32 }
    requires some { boots_in held layout.now dev.inner.bytes ≢ None }
    ensures closed { IsClosed layout.now legs.items session confirm dev result }
{
    let flash = flash_of(dev);
    let after = boots(&flash, layout);
    Trial {
        flash,
        legs,
        session,
        confirm,
        after,
    }
}

/// The bytes of an idle device.
fn flash_of(dev: CutNor<RamNor>) -> Vec<u8>
    requires idle { running_in dev ≡ None }
    ensures exact { result.items ≡ dev.inner.bytes }
{
    dev.into_inner().into_bytes()
}

/// What boots of a flash of which an application boots.
fn boots(flash: &[u8], layout: &Layout) -> Booted
    requires placed { IsPlaced layout.now (length flash.now) }
    requires small { length flash.now < 2 ^ 32 }
    requires some { boots_in held layout.now flash.now ≢ None }
    ensures boots { IsBoot layout.now (images_in held layout.now flash.now)
        (entries_in layout.now flash.now) (Some result) }
{
    match preview(flash, layout) {
        Ok(booted) => booted,
        Err(_) => unreachable!(),
    }
}
