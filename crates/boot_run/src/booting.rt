//! A boot: entries are rewritten, and then the first application is started whose image is whole.

ghost use Rattle.std.specs.Prelude.{◌≡◌, ◌<◌, ◌^◌, All, false, None, IfSome, OnOk, OnErr, IfOk, IfErr, length};
ghost use Rattle.nor_device.specs.Nor.{HasCause, IsIdleAsBefore, KeepsSetting, KeepsSteps};
ghost use Rattle.partition_table.specs.Layout.{IsPlaced};
ghost use Rattle.otadata.specs.Entry.{IsStored};
ghost use Rattle.boot_select.specs.Settled.{sectors};
ghost use Rattle.boot_select.specs.Boots.{entries_in, images_in, names};
ghost use Rattle.boot_select.specs.Candidates.{candidates};
ghost use Rattle.rollback.specs.Rewrite.{changed, written};
ghost use Rattle.rollback.specs.Boot.{boot_writes};
ghost use Rattle.image_verify.specs.Held.{held};
ghost use Rattle.boot_run.specs.Made.{AreMade, AreMadeBy, AreMissed};
ghost use Rattle.boot_run.specs.Rewriting.{rewrites};
ghost use Rattle.boot_run.specs.Read.{OfEntries};
ghost use Rattle.boot_run.specs.Above.{StillBootsAbove, held_above};
ghost use Rattle.boot_run.specs.Verified.{IsFirst};
ghost use Rattle.boot_run.specs.Crashed.{IsLeftByVerdicts, StillBoots};
ghost use Rattle.boot_run.specs.Booted.{CountsSteps, IsBoot, boot_answer};
ghost use Rattle.boot_run.specs.Paired.{BootSettles, IsPairIn, KeepsPairs};

use crate::booted::{BootFault, Booted};
use crate::entries::read_entries;
use crate::start::first_on;
use crate::write::write_all;
use boot_select::order;
use image_verify::ImageInfo;
use nor_device::{Nor, NorFault};
use otadata::Entry;
use partition_table::{App, Layout};
use rollback::{Rewrite, boot_writes};

/// Boots a device once: makes the rewrites of its entries, each an erase and one program, and gives
/// the first application whose image is whole.
pub fn boot<D: Nor>(device: &mut D, layout: &Layout) -> Result<Booted, BootFault>
    requires idle { D.running device.old ≡ None }
    requires placed { IsPlaced layout.now (D.size device.old) }
    requires small { D.size device.old < 2 ^ 32 }
    ensures idle { D.running device.new ≡ None }
    ensures setting { KeepsSetting D.size D.setting device.old device.new }
    ensures cause { HasCause
        (D.faults device.old) (D.faults device.new) (D.off device.new) (boot_answer result) }
    ensures stopped { OnOk (boot_answer result)
        (¬ D.must_refuse (D.setting device.old) (D.steps device.old)) }
    ensures steps { OfEntries layout.now (D.bytes device.old) (λ entries.
        let steps = rewrites layout.now.otadata (boot_writes entries) in
        AreMadeBy D.may_end D.may_tear D.may_refuse D.must_refuse (D.setting device.old) steps
        (D.steps device.old) (D.steps device.new) (D.bytes device.old) (D.bytes device.new)
        (boot_answer result)
        × CountsSteps steps (boot_answer result)) }
    ensures boots { IfOk (boot_answer result) (λ booted. IfSome (D.bytes device.old) (λ flash.
        IsBoot layout.now (images_in held layout.now flash) (entries_in layout.now flash) booted)) }
    ensures crash { OnErr (boot_answer result) (IsLeftByVerdicts layout.now
        (λ flash. boot_writes (entries_in layout.now flash))
        (D.bytes device.old) (D.bytes device.new)) }
    ensures still { StillBoots layout.now (D.bytes device.old) (D.bytes device.new) }
    ensures pair { KeepsPairs layout.now (IsPairIn layout.now)
        (λ flash. boot_writes (entries_in layout.now flash)) (BootSettles layout.now)
        (D.bytes device.old) (D.bytes device.new) (boot_answer result) }
{
    booted(boot_on(device, layout, 0))
}

/// The answer of a boot.
pub(crate) fn booted(found: Result<Option<Booted>, NorFault>) -> Result<Booted, BootFault>
    ensures exact { boot_answer result ≡ found }
{
    match found {
        Ok(Some(booted)) => Ok(booted),
        Ok(None) => Err(BootFault::NoApp),
        Err(NorFault::Failed) => Err(BootFault::Device),
        Err(NorFault::Off) => Err(BootFault::Cut),
    }
}

/// A boot above a level; none where no application is whole that is no older.
pub(crate) fn boot_on<D: Nor>(
    device: &mut D,
    layout: &Layout,
    level: u32,
) -> Result<Option<Booted>, NorFault>
    requires idle { D.running device.old ≡ None }
    requires placed { IsPlaced layout.now (D.size device.old) }
    requires small { D.size device.old < 2 ^ 32 }
    ensures idle { D.running device.new ≡ None }
    ensures setting { KeepsSetting D.size D.setting device.old device.new }
    ensures cause { HasCause
        (D.faults device.old) (D.faults device.new) (D.off device.new) result }
    ensures stopped { OnOk result (¬ D.must_refuse (D.setting device.old) (D.steps device.old)) }
    ensures steps { OfEntries layout.now (D.bytes device.old) (λ entries.
        let steps = rewrites layout.now.otadata (boot_writes entries) in
        AreMadeBy D.may_end D.may_tear D.may_refuse D.must_refuse (D.setting device.old) steps
        (D.steps device.old) (D.steps device.new) (D.bytes device.old) (D.bytes device.new) result
        × CountsSteps steps result) }
    ensures boots { IfOk result (λ booted. IfSome (D.bytes device.old) (λ flash.
        IsBoot layout.now (images_in (held_above level) layout.now flash) (entries_in layout.now flash) booted)) }
    ensures crash { OnErr result (IsLeftByVerdicts layout.now
        (λ flash. boot_writes (entries_in layout.now flash))
        (D.bytes device.old) (D.bytes device.new)) }
    ensures still { StillBoots layout.now (D.bytes device.old) (D.bytes device.new) }
    ensures still_above { StillBootsAbove level level layout.now (D.bytes device.old) (D.bytes device.new) }
    ensures pair { KeepsPairs layout.now (IsPairIn layout.now)
        (λ flash. boot_writes (entries_in layout.now flash)) (BootSettles layout.now)
        (D.bytes device.old) (D.bytes device.new) result }
{
    let (first, second) = read_entries(device, layout)?;
    boot_by(device, layout, first, second, level)
}

/// A boot above a level of a device whose OTA data have these entries; none where no application is
/// whole that is no older.
fn boot_by<D: Nor>(
    device: &mut D,
    layout: &Layout,
    e0: Entry,
    e1: Entry,
    level: u32,
) -> Result<Option<Booted>, NorFault>
    requires idle { D.running device.old ≡ None }
    requires on { D.off device.old ≡ false }
    requires placed { IsPlaced layout.now (D.size device.old) }
    requires small { D.size device.old < 2 ^ 32 }
    requires first { IsStored e0 }
    requires second { IsStored e1 }
    ensures idle { D.running device.new ≡ None }
    ensures made { OnOk result (AreMade D.may_end D.may_tear D.may_refuse D.must_refuse
        (D.setting device.old) (rewrites layout.now.otadata (boot_writes (sectors e0 e1)))
        (D.steps device.old) (D.steps device.new) (D.bytes device.old) (D.bytes device.new)) }
    ensures missed { IfErr result (AreMissed D.may_end D.may_tear D.may_refuse D.must_refuse
        (D.setting device.old) (rewrites layout.now.otadata (boot_writes (sectors e0 e1)))
        (D.steps device.old) (D.steps device.new) (D.bytes device.old) (D.bytes device.new)) }
    ensures boots { IfOk result (λ booted. IfSome (D.bytes device.old) (λ flash.
        IsBoot layout.now (images_in (held_above level) layout.now flash) (sectors e0 e1) booted)) }
    ensures steps { IfOk result (λ booted. IfSome booted (λ it. it.steps
        ≡ length (rewrites layout.now.otadata (boot_writes (sectors e0 e1))))) }
    ensures setting { KeepsSetting D.size D.setting device.old device.new }
    ensures cause { HasCause
        (D.faults device.old) (D.faults device.new) (D.off device.new) result }
{
    let writes = boot_writes(&e0, &e1);
    write_all(device, layout.otadata, &writes)?;
    match started_after(device, layout, &writes, e0, e1, level)? {
        None => Ok(None),
        Some((app, info)) => Ok(Some(Booted {
            app,
            info,
            steps: 2 * writes.len() as u32,
        })),
    }
}

/// The application that is started above a level where these rewrites of these entries are made.
fn started_after<D: Nor>(
    device: &mut D,
    layout: &Layout,
    writes: &[Rewrite],
    e0: Entry,
    e1: Entry,
    level: u32,
) -> Result<Option<(App, ImageInfo)>, NorFault>
    requires idle { D.running device.old ≡ None }
    requires on { D.off device.old ≡ false }
    requires placed { IsPlaced layout.now (D.size device.old) }
    requires small { D.size device.old < 2 ^ 32 }
    requires two { All (λ write. write.sector < 2) writes.now }
    ensures first { IfOk result (λ started. IfSome (D.bytes device.old)
        (λ flash. IsFirst (images_in (held_above level) layout.now flash)
        (candidates layout.now (names layout.now (written writes.now (sectors e0 e1)))) started)) }
    ensures allowed { IfErr result (D.may_refuse (D.setting device.old) (D.steps device.old)) }
    ensures same { IsIdleAsBefore D.bytes D.running device.old device.new }
    ensures setting { KeepsSteps D.size D.setting D.steps device.old device.new }
    ensures cause { HasCause
        (D.faults device.old) (D.faults device.new) (D.off device.new) result }
{
    let (first, second) = after(writes, e0, e1);
    first_on(device, layout, &order(layout, &first, &second), level)
}

/// The entries once the rewrites are made.
pub(crate) fn after(writes: &[Rewrite], e0: Entry, e1: Entry) -> (Entry, Entry)
    requires two { All (λ write. write.sector < 2) writes.now }
    ensures first { result.0 ≡ written writes.now (sectors e0 e1) 0 }
    ensures second { result.1 ≡ written writes.now (sectors e0 e1) 1 }
{
    let (mut first, mut second) = (e0, e1);
    for write in writes {
        (first, second) = changed(write, first, second);
    }
    (first, second)
}

/// The entries once the rewrite is made.
fn changed(write: &Rewrite, first: Entry, second: Entry) -> (Entry, Entry)
    requires two { write.now.sector < 2 }
    ensures first { result.0 ≡ changed write.now (sectors first second) 0 }
    ensures second { result.1 ≡ changed write.now (sectors first second) 1 }
{
    if write.sector == 0 {
        (write.entry, second)
    } else {
        (first, write.entry)
    }
}
