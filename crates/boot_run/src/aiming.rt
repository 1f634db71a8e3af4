//! What an update of a device will write: the slot beside the running application, and the entry
//! that announces it.

ghost use Rattle.std.specs.Prelude.{◌≡◌, ◌<◌, ◌^◌, None, Err, IfSome, OnOk, IfOk, IfErr, length as count};
ghost use Rattle.nor_device.specs.Nor.{HasCause, IsIdleAsBefore, KeepsSteps};
ghost use Rattle.partition_table.specs.Layout.{IsPlaced};
ghost use Rattle.boot_select.specs.Choice.{named_of};
ghost use Rattle.boot_select.specs.Settled.{settled_by, waiting_of};
ghost use Rattle.boot_select.specs.Boots.{entries_in, images_in};
ghost use Rattle.image_verify.specs.Held.{held};
ghost use Rattle.boot_run.specs.Aim.{AimsAt, IsAimedBy, aim_answer, aim_at, aim_by, app_started};

use crate::aims::{Aim, AimNo, Unfit};
use crate::entries::read_entries;
use crate::start::first_on;
use boot_select::{Unsettled, order, settled_as, target};
use image_verify::ImageInfo;
use nor_device::{Nor, NorFault};
use otadata::{Entry, NextEntry, next_entry};
use partition_table::{App, Layout};

/// Looks at a device for what an update of so many bytes would write, or why it may not begin.
/// Nothing is written.
pub fn aim<D: Nor>(device: &mut D, layout: &Layout, length: u32) -> Result<Aim, AimNo>
    requires idle { D.running device.old ≡ None }
    requires placed { IsPlaced layout.now (D.size device.old) }
    requires small { D.size device.old < 2 ^ 32 }
    ensures aims { IfOk (aim_answer result) (λ answer. IfSome (D.bytes device.old) (λ flash.
        AimsAt layout.now (images_in held layout.now flash) (entries_in layout.now flash) length
        answer)) }
    ensures allowed { IfErr (aim_answer result)
        (D.may_refuse (D.setting device.old) (D.steps device.old)) }
    ensures stopped { OnOk (aim_answer result)
        (¬ D.must_refuse (D.setting device.old) (D.steps device.old)) }
    ensures same { IsIdleAsBefore D.bytes D.running device.old device.new }
    ensures setting { KeepsSteps D.size D.setting D.steps device.old device.new }
    ensures cause { HasCause
        (D.faults device.old) (D.faults device.new) (D.off device.new) (aim_answer result) }
{
    aimed(aim_on(device, layout, length))
}

/// The answer of a look.
fn aimed(found: Result<Result<Aim, Unfit>, NorFault>) -> Result<Aim, AimNo>
    ensures exact { aim_answer result ≡ found }
{
    match found {
        Ok(Ok(aim)) => Ok(aim),
        Ok(Err(Unfit::NotSettled(why))) => Err(AimNo::NotSettled(why)),
        Ok(Err(Unfit::Conflict { slot })) => Err(AimNo::Conflict { slot }),
        Ok(Err(Unfit::SlotFlags { slot, flags })) => Err(AimNo::SlotFlags { slot, flags }),
        Ok(Err(Unfit::SeqSpent { seq })) => Err(AimNo::SeqSpent { seq }),
        Ok(Err(Unfit::TooLarge { need, limit })) => Err(AimNo::TooLarge { need, limit }),
        Err(NorFault::Failed) => Err(AimNo::Device),
        Err(NorFault::Off) => Err(AimNo::Cut),
    }
}

/// A look; refused inside for what the flash says.
fn aim_on<D: Nor>(
    device: &mut D,
    layout: &Layout,
    length: u32,
) -> Result<Result<Aim, Unfit>, NorFault>
    requires idle { D.running device.old ≡ None }
    requires placed { IsPlaced layout.now (D.size device.old) }
    requires small { D.size device.old < 2 ^ 32 }
    ensures aims { IfOk result (λ answer. IfSome (D.bytes device.old) (λ flash.
        AimsAt layout.now (images_in held layout.now flash) (entries_in layout.now flash) length
        answer)) }
    ensures allowed { IfErr result (D.may_refuse (D.setting device.old) (D.steps device.old)) }
    ensures stopped { OnOk result (¬ D.must_refuse (D.setting device.old) (D.steps device.old)) }
    ensures same { IsIdleAsBefore D.bytes D.running device.old device.new }
    ensures setting { KeepsSteps D.size D.setting D.steps device.old device.new }
    ensures cause { HasCause
        (D.faults device.old) (D.faults device.new) (D.off device.new) result }
{
    let (first, second) = read_entries(device, layout)?;
    let started = first_on(device, layout, &order(layout, &first, &second), 0)?;
    Ok(aim_by(layout, &first, &second, started, length))
}

/// What is aimed at beside the application that is started.
fn aim_by(
    layout: &Layout,
    e0: &Entry,
    e1: &Entry,
    started: Option<(App, ImageInfo)>,
    length: u32,
) -> Result<Aim, Unfit>
    ensures ok { IfOk result (IsAimedBy layout.now e0.now e1.now started length) }
    ensures err { IfErr result (λ why. aim_by layout.now e0.now e1.now length
        (settled_by (waiting_of e0.now e1.now) (named_of layout.now e0.now e1.now)
        (app_started started)) ≡ Err why) }
{
    match started {
        None => Err(Unfit::NotSettled(unsettled(layout, e0, e1))),
        Some((app, info)) => {
            let running = match settled_as(layout, e0, e1, Some(app)) {
                Err(why) => return Err(Unfit::NotSettled(why)),
                Ok(running) => running,
            };
            let slot = target(layout, e0, e1, running);
            let next = aim_at(layout, e0, e1, running, length, slot)?;
            Ok(Aim {
                running,
                info,
                slot,
                next,
                length,
            })
        }
    }
}

/// Why no update may begin where no application is started.
fn unsettled(layout: &Layout, e0: &Entry, e1: &Entry) -> Unsettled
    ensures exact { settled_by (waiting_of e0.now e1.now) (named_of layout.now e0.now e1.now) None
        ≡ Err result }
{
    match settled_as(layout, e0, e1, None) {
        Err(why) => why,
        Ok(_) => unreachable!(),
    }
}

/// The next entry for a slot, where an image of so many bytes may be written there.
fn aim_at(
    layout: &Layout,
    e0: &Entry,
    e1: &Entry,
    running: App,
    long: u32,
    slot: u8,
) -> Result<NextEntry, Unfit>
    requires within { slot < count layout.now.slots }
    ensures exact { result ≡ aim_at layout.now e0.now e1.now running long slot }
{
    if running == App::Ota(slot) {
        return Err(Unfit::Conflict { slot });
    }
    let row = layout.slots[usize::from(slot)];
    if row.flags % 4 != 0 {
        return Err(Unfit::SlotFlags {
            slot,
            flags: row.flags,
        });
    }
    match next_entry(e0, e1, slot, layout.slots.len() as u8) {
        Err(spent) => Err(Unfit::SeqSpent { seq: spent.seq }),
        Ok(_) if row.size < long => Err(Unfit::TooLarge {
            need: long,
            limit: row.size,
        }),
        Ok(next) => Ok(next),
    }
}
