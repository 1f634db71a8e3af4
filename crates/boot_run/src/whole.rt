//! Which applications of a device are whole.

ghost use Rattle.std.specs.Prelude.{◌≡◌, ◌<◌, ◌≤◌, ◌^◌, ℕ, false, None, IfSome, OnOk, IfOk, IfErr, length, slice_index_or};
ghost use Rattle.std.specs.Option.{is_some};
ghost use Rattle.nor_device.specs.Nor.{HasCause, IsIdleAsBefore, KeepsSteps};
ghost use Rattle.partition_table.specs.declared.app.App.TheVariants.{Ota};
ghost use Rattle.partition_table.specs.Layout.{IsPlaced};
ghost use Rattle.boot_select.specs.Candidates.{is_whole};
ghost use Rattle.boot_select.specs.Boots.{AreTold, images_in};
ghost use Rattle.image_verify.specs.Held.{held};

use crate::start::app_on;
use nor_device::{Nor, NorFault};
use partition_table::{App, Layout};

/// Whether the partition of each application holds a whole image: places 0 to 15 are the update
/// slots, 16 the factory application, 17 the test application. Each is verified once.
pub(crate) fn whole_on<D: Nor>(device: &mut D, layout: &Layout) -> Result<[bool; 18], NorFault>
    requires idle { D.running device.old ≡ None }
    requires on { D.off device.old ≡ false }
    requires placed { IsPlaced layout.now (D.size device.old) }
    requires small { D.size device.old < 2 ^ 32 }
    ensures told { IfOk result (λ whole. IfSome (D.bytes device.old) (λ flash.
        AreTold layout.now (is_whole whole) (images_in held layout.now flash))) }
    ensures on { OnOk result (D.off device.new ≡ false) }
    ensures some { OnOk result (0 < length layout.now.slots) }
    ensures allowed { IfErr result (D.may_refuse (D.setting device.old) (D.steps device.old)) }
    ensures same { IsIdleAsBefore D.bytes D.running device.old device.new }
    ensures setting { KeepsSteps D.size D.setting D.steps device.old device.new }
    ensures cause { HasCause
        (D.faults device.old) (D.faults device.new) (D.off device.new) result }
{
    let mut whole = slots_on(device, layout)?;
    whole[16] = app_on(device, layout, App::Factory)?.is_some();
    if layout.test.is_some() {
        whole[17] = app_on(device, layout, App::Test)?.is_some();
    }
    Ok(whole)
}

/// The same of the update slots alone.
fn slots_on<D: Nor>(device: &mut D, layout: &Layout) -> Result<[bool; 18], NorFault>
    requires idle { D.running device.old ≡ None }
    requires on { D.off device.old ≡ false }
    requires placed { IsPlaced layout.now (D.size device.old) }
    requires small { D.size device.old < 2 ^ 32 }
    ensures told { IfOk result (λ whole. (slot : ℕ) → slot < length layout.now.slots
        → IfSome (D.bytes device.old) (λ flash. slice_index_or whole slot false
        ≡ is_some (images_in held layout.now flash (Ota slot)))) }
    ensures long { IfOk result (λ whole. length whole ≡ 18) }
    ensures most { length layout.now.slots ≤ 16 }
    ensures allowed { IfErr result (D.may_refuse (D.setting device.old) (D.steps device.old)) }
    ensures same { IsIdleAsBefore D.bytes D.running device.old device.new }
    ensures on { OnOk result (D.off device.new ≡ false) }
    ensures setting { KeepsSteps D.size D.setting D.steps device.old device.new }
    ensures cause { HasCause
        (D.faults device.old) (D.faults device.new) (D.off device.new) result }
{
    let mut whole = [false; 18];
    for slot in 0..layout.slots.len() as u8 {
        whole[usize::from(slot)] = app_on(device, layout, App::Ota(slot))?.is_some();
    }
    Ok(whole)
}
