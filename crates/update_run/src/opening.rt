//! What an update begins with, or why it may not begin.

ghost use Rattle.std.specs.Prelude.{◌≡◌, ◌<◌, ◌^◌, None, Err, IfOk, IfErr, IfSome, IsSome, OnOk, length};
ghost use Rattle.nor_device.specs.FlashSize.{IsFlashSize};
ghost use Rattle.nor_device.specs.Nor.{IsIdleAsBefore};
ghost use Rattle.partition_table.specs.Layout.{IsPlaced, layout_of};
ghost use Rattle.partition_table.specs.Rules.{FitsFlash};
ghost use Rattle.core_script.specs.ScriptText.{script_of_text};
ghost use Rattle.update_run.specs.Device.{IsSure};
ghost use Rattle.update_run.specs.Opening.{AimsIn, BeginsUpdate, IsAimRefusal, IsLook, IsScriptRead, OpensUpdate, layout_or_refusal, next_in, rows_in, script_or_refusal, with_need};

use crate::device::{bytes_of, device_of};
use crate::refusal::{OpeningNo, UpdateNo};
use boot_run::{Aim, AimNo, aim};
use core_script::{Script, ScriptNo};
use nor_device::{Nor, is_flash_size};
use partition_table::{Layout, TABLE_OFFSET, TABLE_SIZE, Table};
use std::alloc::Global;

/// What an update begins with: the bytes of its flash, the script of the core beside the driver, the
/// table and the layout of the flash, and what it will write.
#[derive(Drop)]
pub struct Opening {
    pub flash: Vec<u8>,
    pub script: Script,
    pub table: Table,
    pub layout: Layout,
    pub aim: Aim,
}

/// What an update of a flash by an image and the text of a script begins with, or the first reason
/// why it may not begin. The flash is not copied.
pub fn open_update(
    alloc: Global,
    flash: Vec<u8>,
    image: &[u8],
    text: &[u8],
) -> Result<Opening, OpeningNo>
    ensures exact { OpensUpdate flash.items image.now text.now result }
{
    let script = match script_of(alloc, text) {
        Ok(script) => script,
        Err(no) => return Err(no),
    };
    match begin(flash, image, script) {
        Ok(opening) => Ok(opening),
        Err(why) => Err(OpeningNo::Refused(why)),
    }
}

/// What an update of a flash by an image and a script begins with, or the first reason why it may
/// not begin: the size of the flash, its table, its layout, what runs and what is written.
fn begin(flash: Vec<u8>, image: &[u8], script: Script) -> Result<Opening, UpdateNo>
    ensures exact { BeginsUpdate flash.items image.now script result }
{
    let table = match table_in(&flash) {
        Ok(table) => table,
        Err(why) => return Err(why),
    };
    let layout = match layout_by(&table, flash.len()) {
        Ok(layout) => layout,
        Err(why) => return Err(why),
    };
    match aim_at(flash, &layout, image.len()) {
        Ok((aim, flash)) => Ok(Opening {
            flash,
            script,
            table,
            layout,
            aim,
        }),
        Err(why) => Err(why),
    }
}

/// The actions of a script.
fn script_of(alloc: Global, text: &[u8]) -> Result<Script, OpeningNo>
    ensures exact { IsScriptRead (script_or_refusal (script_of_text text.now)) result }
{
    match Script::read(alloc, text) {
        Ok(script) => Ok(script),
        Err(ScriptNo::Bad { line, why }) => Err(OpeningNo::Refused(UpdateNo::Script { line, why })),
        Err(ScriptNo::Memory) => Err(OpeningNo::Memory),
    }
}

/// The table of a flash, or the first reason why it has none: its size, then its table.
#[tactic(auto, unfolding(crate::specs::Opening::rows_in))]
fn table_in(flash: &[u8]) -> Result<Table, UpdateNo>
    ensures exact { result ≡ rows_in flash.now }
    ensures size { OnOk result (IsFlashSize (length flash.now)) }
    ensures small { OnOk result (length flash.now < 2 ^ 32) }
    ensures fits { IfOk result (FitsFlash (length flash.now)) }
{
    if !is_flash_size(flash.len()) {
        return Err(UpdateNo::FlashSize {
            size: flash.len() as u64,
        });
    }
    let at = TABLE_OFFSET as usize;
    let mut bytes = [0; TABLE_SIZE];
    bytes.copy_from_slice(&flash[at..at + TABLE_SIZE]);
    match Table::read(&bytes, flash.len() as u32) {
        Ok(table) => Ok(table),
        Err(why) => Err(UpdateNo::Table(why)),
    }
}

/// The layout by a table of a flash of so many bytes.
fn layout_by(table: &Table, size: usize) -> Result<Layout, UpdateNo>
    requires fits { FitsFlash size table.now }
    ensures exact { result ≡ layout_or_refusal (layout_of table.now) }
    ensures placed { IfOk result (λ layout. IsPlaced layout size) }
{
    match table.layout() {
        Ok(layout) => Ok(layout),
        Err(why) => Err(UpdateNo::Table(why)),
    }
}

/// What an update of so many bytes would write, and the flash, of which nothing is changed.
fn aim_at(flash: Vec<u8>, layout: &Layout, long: usize) -> Result<(Aim, Vec<u8>), UpdateNo>
    requires size { IsFlashSize (length flash.items) }
    requires small { length flash.items < 2 ^ 32 }
    requires placed { IsPlaced layout.now (length flash.items) }
    ensures aims { IfOk result (λ found. AimsIn flash.items layout.now long found.0) }
    ensures same { IfOk result (λ found. found.1.items ≡ flash.items) }
    ensures err { IfErr result
        (λ why. next_in flash.items layout.now long ≡ Err why) }
{
    let mut device = device_of(flash);
    match aim_long(&mut device, layout, long) {
        Ok(aim) => Ok((aim, bytes_of(device))),
        Err(why) => Err(why),
    }
}

/// What an update of so many bytes would write on a device that refuses no call. An image of 4 GiB
/// or more is one that fits no slot.
fn aim_long<D: Nor>(device: &mut D, layout: &Layout, long: usize) -> Result<Aim, UpdateNo>
    requires idle { D.running device.old ≡ None }
    requires placed { IsPlaced layout.now (D.size device.old) }
    requires small { D.size device.old < 2 ^ 32 }
    requires sure { IsSure D.may_end D.may_refuse (D.setting device.old) }
    requires told { IsSome (D.bytes device.old) }
    ensures aims { IfOk result (λ aim. IfSome (D.bytes device.old)
        (λ flash. AimsIn flash layout.now long aim)) }
    ensures err { IfErr result (λ why. IfSome (D.bytes device.old)
        (λ flash. next_in flash layout.now long ≡ Err why)) }
    ensures same { IsIdleAsBefore D.bytes D.running device.old device.new }
{
    if long <= u32::MAX as usize {
        return aim_short(device, layout, long as u32);
    }
    match aim_short(device, layout, u32::MAX) {
        Ok(_) => unreachable!(),
        Err(why) => Err(with_need(long as u64, why)),
    }
}

/// What an update of so many bytes would write on a device that refuses no call.
fn aim_short<D: Nor>(device: &mut D, layout: &Layout, long: u32) -> Result<Aim, UpdateNo>
    requires idle { D.running device.old ≡ None }
    requires placed { IsPlaced layout.now (D.size device.old) }
    requires small { D.size device.old < 2 ^ 32 }
    requires sure { IsSure D.may_end D.may_refuse (D.setting device.old) }
    ensures aims { IfOk result (λ aim. IfSome (D.bytes device.old)
        (λ flash. AimsIn flash layout.now long aim)) }
    ensures err { IfErr result (λ why. IfSome (D.bytes device.old)
        (λ flash. next_in flash layout.now long ≡ Err why)) }
    ensures same { IsIdleAsBefore D.bytes D.running device.old device.new }
{
    match aim(device, layout, long) {
        Ok(aim) => Ok(aim),
        Err(no) => Err(refusal_of(no)),
    }
}

/// The refusal of an update that may not begin.
fn refusal_of(no: AimNo) -> UpdateNo
    requires looked { IsLook no }
    ensures exact { IsAimRefusal no result }
{
    match no {
        AimNo::NotSettled(why) => UpdateNo::NotSettled(why),
        AimNo::Conflict { slot } => UpdateNo::Conflict { slot },
        AimNo::SlotFlags { slot, flags } => UpdateNo::SlotFlags { slot, flags },
        AimNo::SeqSpent { seq } => UpdateNo::SeqSpent { seq },
        AimNo::TooLarge { need, limit } => UpdateNo::TooLarge {
            need: u64::from(need),
            limit,
        },
        AimNo::Device => unreachable!(),
        AimNo::Cut => unreachable!(),
    }
}

/// A refusal, with this length where it is that the image is too long.
fn with_need(need: u64, why: UpdateNo) -> UpdateNo
    ensures exact { result ≡ with_need need why }
{
    match why {
        UpdateNo::TooLarge { need: _, limit } => UpdateNo::TooLarge { need, limit },
        other => other,
    }
}
