//! The application that is started on a device: the first one whose partition holds a whole image that is no older
//! than a level.

ghost use Rattle.std.specs.Prelude.{◌≡◌, ◌<◌, ◌^◌, ℕ, List, All, Option, false, None, IsSome, IfSome, IfOk, IfErr};
ghost use Rattle.nor_device.specs.Nor.{HasCause, IsIdleAsBefore, KeepsSteps};
ghost use Rattle.partition_table.specs.Layout.{IsPlaced, row_for};
ghost use Rattle.boot_select.specs.Boots.{images_in};
ghost use Rattle.image_verify.specs.Held.{held};
ghost use Rattle.boot_run.specs.Above.{held_above, no_older};
ghost use Rattle.boot_run.specs.Verified.{IsFirst, IsImage};

use crate::verify::verify_on;
use image_verify::ImageInfo;
use nor_device::{Nor, NorFault};
use partition_table::{App, Layout};
use secure_fuse::secure_in;

/// The first of these applications whose partition holds a whole image that is no older than the
/// level, and what the image is. Each is verified at most once, and none after the first.
pub(crate) fn first_on<D: Nor>(
    device: &mut D,
    layout: &Layout,
    apps: &[App],
    level: u32,
) -> Result<Option<(App, ImageInfo)>, NorFault>
    requires idle { D.running device.old ≡ None }
    requires on { D.off device.old ≡ false }
    requires placed { IsPlaced layout.now (D.size device.old) }
    requires small { D.size device.old < 2 ^ 32 }
    requires known { All (λ app. IsSome (row_for layout.now app)) apps.now }
    ensures first { IfOk result (λ started. IfSome (D.bytes device.old)
        (λ flash. IsFirst (images_in (held_above level) layout.now flash) apps.now started)) }
    ensures allowed { IfErr result (D.may_refuse (D.setting device.old) (D.steps device.old)) }
    ensures same { IsIdleAsBefore D.bytes D.running device.old device.new }
    ensures setting { KeepsSteps D.size D.setting D.steps device.old device.new }
    ensures cause { HasCause
        (D.faults device.old) (D.faults device.new) (D.off device.new) result }
{
    for app in apps {
        if let Some(info) = app_above(device, layout, *app, level)? {
            return Ok(Some((*app, info)));
        }
    }
    Ok(None)
}

/// What the image is that an application's partition holds, where it holds one that is no older than
/// the level.
fn app_above<D: Nor>(
    device: &mut D,
    layout: &Layout,
    app: App,
    level: u32,
) -> Result<Option<ImageInfo>, NorFault>
    requires idle { D.running device.old ≡ None }
    requires on { D.off device.old ≡ false }
    requires placed { IsPlaced layout.now (D.size device.old) }
    requires small { D.size device.old < 2 ^ 32 }
    requires known { IsSome (row_for layout.now app) }
    ensures found { IfOk result (λ found. IfSome (D.bytes device.old)
        (λ flash. IsImage (images_in (held_above level) layout.now flash app) found)) }
    ensures allowed { IfErr result (D.may_refuse (D.setting device.old) (D.steps device.old)) }
    ensures same { IsIdleAsBefore D.bytes D.running device.old device.new }
    ensures setting { KeepsSteps D.size D.setting D.steps device.old device.new }
    ensures cause { HasCause
        (D.faults device.old) (D.faults device.new) (D.off device.new) result }
{
    let found = app_on(device, layout, app)?;
    Ok(no_older(found, level))
}

/// What an image is, where it is no older than the level.
#[tactic(auto, using(crate::proofs::AboveLemmas::none_kept, crate::proofs::AboveLemmas::kept_found, crate::proofs::AboveLemmas::older_found))]
fn no_older(found: Option<ImageInfo>, level: u32) -> Option<ImageInfo>
    ensures kept { (image : Option (List ℕ)) → IsImage image found
        → IsImage (no_older level image) result }
{
    match found {
        None => None,
        Some(info) => {
            if secure_in(&info.desc) < level {
                None
            } else {
                Some(info)
            }
        }
    }
}

/// What the image is that an application's partition holds, where it holds one.
pub(crate) fn app_on<D: Nor>(
    device: &mut D,
    layout: &Layout,
    app: App,
) -> Result<Option<ImageInfo>, NorFault>
    requires idle { D.running device.old ≡ None }
    requires on { D.off device.old ≡ false }
    requires placed { IsPlaced layout.now (D.size device.old) }
    requires small { D.size device.old < 2 ^ 32 }
    requires known { IsSome (row_for layout.now app) }
    ensures found { IfOk result (λ found. IfSome (D.bytes device.old)
        (λ flash. IsImage (images_in held layout.now flash app) found)) }
    ensures allowed { IfErr result (D.may_refuse (D.setting device.old) (D.steps device.old)) }
    ensures same { IsIdleAsBefore D.bytes D.running device.old device.new }
    ensures setting { KeepsSteps D.size D.setting D.steps device.old device.new }
    ensures cause { HasCause
        (D.faults device.old) (D.faults device.new) (D.off device.new) result }
{
    verify_on(device, &layout.place(app))
}
