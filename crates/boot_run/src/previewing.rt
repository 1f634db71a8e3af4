//! What a boot of a flash would start.

ghost use Rattle.std.specs.Prelude.{◌≡◌, ◌<◌, ◌≤◌, ◌+◌, ◌^◌, All, IsSome, IfOk, length};
ghost use Rattle.std.specs.Result.{result_ok};
ghost use Rattle.partition_table.specs.Layout.{IsPlaced, row_for};
ghost use Rattle.boot_select.specs.Boots.{entries_in, images_in, slot_in};
ghost use Rattle.rollback.specs.Boot.{boot_writes};
ghost use Rattle.image_verify.specs.Held.{held};
ghost use Rattle.boot_run.specs.Rewriting.{rewrites};
ghost use Rattle.boot_run.specs.Verified.{IsFirst, IsImage, IsVerified};
ghost use Rattle.boot_run.specs.Booted.{IsBoot};

use crate::booted::Booted;
use crate::booting::after;
use boot_select::order;
use image_verify::{ImageInfo, verify_slot};
use otadata::entry_in;
use partition_table::{App, Layout, Row};
use rollback::boot_writes;

/// No application is whole.
#[derive(Clone, Copy, Debug, PartialEq, Eq)]
pub struct NoApp;

/// What [`crate::boot`] would start of a flash with these bytes; `steps` are those that it would
/// make.
pub fn preview(flash: &[u8], layout: &Layout) -> Result<Booted, NoApp>
    requires placed { IsPlaced layout.now (length flash.now) }
    requires small { length flash.now < 2 ^ 32 }
    ensures boots { IsBoot layout.now (images_in held layout.now flash.now)
        (entries_in layout.now flash.now) (result_ok result) }
    ensures steps { IfOk result (λ booted. booted.steps
        ≡ length (rewrites layout.now.otadata (boot_writes (entries_in layout.now flash.now)))) }
{
    let e0 = entry_in(flash, layout.otadata, 0);
    let e1 = entry_in(flash, layout.otadata, 1);
    let writes = boot_writes(&e0, &e1);
    let (first, second) = after(&writes, e0, e1);
    match first_in(flash, layout, &order(layout, &first, &second)) {
        None => Err(NoApp),
        Some((app, info)) => Ok(Booted {
            app,
            info,
            steps: 2 * writes.len() as u32,
        }),
    }
}

/// The first of these applications whose partition holds a whole image, and what the image is.
fn first_in(flash: &[u8], layout: &Layout, apps: &[App]) -> Option<(App, ImageInfo)>
    requires placed { IsPlaced layout.now (length flash.now) }
    requires small { length flash.now < 2 ^ 32 }
    requires known { All (λ app. IsSome (row_for layout.now app)) apps.now }
    ensures first { IsFirst (images_in held layout.now flash.now) apps.now result }
{
    for app in apps {
        if let Some(info) = app_in(flash, layout, *app) {
            return Some((*app, info));
        }
    }
    None
}

/// What the image is that an application's partition holds, where it holds one.
fn app_in(flash: &[u8], layout: &Layout, app: App) -> Option<ImageInfo>
    requires placed { IsPlaced layout.now (length flash.now) }
    requires small { length flash.now < 2 ^ 32 }
    requires known { IsSome (row_for layout.now app) }
    ensures found { IsImage (images_in held layout.now flash.now app) result }
{
    verify_in(flash, &layout.place(app))
}

/// What the image is that the bytes of a partition begin with, or that they begin with none.
fn verify_in(flash: &[u8], row: &Row) -> Option<ImageInfo>
    requires inside { row.now.offset + row.now.size ≤ length flash.now }
    requires small { length flash.now < 2 ^ 32 }
    ensures verified { IsVerified (slot_in flash.now row.now) result }
{
    let start = row.offset as usize;
    verify_slot(&flash[start..start + row.size as usize])
}
