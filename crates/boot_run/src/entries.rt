//! The entries of the OTA data, read from a device.

ghost use Rattle.std.specs.Prelude.{◌≡◌, ◌<◌, ◌^◌, None, IfSome, IfErr, IfOk, OnOk};
ghost use Rattle.nor_device.specs.Nor.{HasCause, IsIdleAsBefore, KeepsSteps};
ghost use Rattle.partition_table.specs.Layout.{IsPlaced};
ghost use Rattle.otadata.specs.Entry.{IsStored, entry_in};
ghost use Rattle.boot_select.specs.Boots.{entries_in};
ghost use Rattle.boot_run.specs.Rewriting.{AreSectors};

use nor_device::{Nor, NorFault, SECTOR_SIZE};
use otadata::Entry;
use partition_table::Layout;

/// The entries of both sectors of the OTA data.
pub(crate) fn read_entries<D: Nor>(
    device: &mut D,
    layout: &Layout,
) -> Result<(Entry, Entry), NorFault>
    requires idle { D.running device.old ≡ None }
    requires placed { IsPlaced layout.now (D.size device.old) }
    requires small { D.size device.old < 2 ^ 32 }
    ensures first { IfOk result (λ read. IfSome (D.bytes device.old)
        (λ flash. read.0 ≡ entries_in layout.now flash 0)) }
    ensures second { IfOk result (λ read. IfSome (D.bytes device.old)
        (λ flash. read.1 ≡ entries_in layout.now flash 1)) }
    ensures stored { IfOk result (λ read. IsStored read.0 × IsStored read.1) }
    ensures allowed { IfErr result (D.may_refuse (D.setting device.old) (D.steps device.old)) }
    ensures stopped { OnOk result (¬ D.must_refuse (D.setting device.old) (D.steps device.old)) }
    ensures same { IsIdleAsBefore D.bytes D.running device.old device.new }
    ensures setting { KeepsSteps D.size D.setting D.steps device.old device.new }
    ensures cause { HasCause
        (D.faults device.old) (D.faults device.new) (D.off device.new) result }
{
    let first = read_entry(device, layout.otadata, 0)?;
    let second = read_entry(device, layout.otadata, 1)?;
    Ok((first, second))
}

/// The entry of a sector of the OTA data, which begin at this place of the device.
pub(crate) fn read_entry<D: Nor>(
    device: &mut D,
    otadata: u32,
    sector: u8,
) -> Result<Entry, NorFault>
    requires idle { D.running device.old ≡ None }
    requires placed { AreSectors otadata (D.size device.old) }
    requires two { sector < 2 }
    ensures entry { IfOk result (λ entry. IfSome (D.bytes device.old)
        (λ flash. entry ≡ entry_in flash otadata sector)) }
    ensures stored { IfOk result (λ entry. IsStored entry) }
    ensures allowed { IfErr result (D.may_refuse (D.setting device.old) (D.steps device.old)) }
    ensures stopped { OnOk result (¬ D.must_refuse (D.setting device.old) (D.steps device.old)) }
    ensures same { IsIdleAsBefore D.bytes D.running device.old device.new }
    ensures setting { KeepsSteps D.size D.setting D.steps device.old device.new }
    ensures cause { HasCause
        (D.faults device.old) (D.faults device.new) (D.off device.new) result }
{
    let mut bytes = [0; 32];
    device.read(otadata + SECTOR_SIZE * u32::from(sector), &mut bytes)?;
    Ok(Entry::read(&bytes))
}
