//! A confirmation: the active entry becomes VALID.

ghost use Rattle.std.specs.Prelude.{◌≡◌, ◌<◌, ◌^◌, false, None, IsSome, OnOk, OnErr, IfOk, IfErr};
ghost use Rattle.nor_device.specs.Nor.{HasCause, KeepsSetting};
ghost use Rattle.partition_table.specs.declared.app.App.TheVariants.{Ota};
ghost use Rattle.partition_table.specs.Layout.{IsPlaced};
ghost use Rattle.otadata.specs.Choice.{active_of};
ghost use Rattle.boot_select.specs.Settled.{sectors};
ghost use Rattle.boot_select.specs.Boots.{entries_in, names};
ghost use Rattle.boot_run.specs.Made.{AreMade, AreMadeBy, AreMissed};
ghost use Rattle.boot_run.specs.Rewriting.{rewrites};
ghost use Rattle.boot_run.specs.Read.{OfEntries};
ghost use Rattle.boot_run.specs.Crashed.{IsLeftByVerdicts, StillBoots};
ghost use Rattle.boot_run.specs.Verdict.{Answers, BootsTold, confirm_answer, confirmation, writes_of};
ghost use Rattle.boot_run.specs.Paired.{ConfirmSettles, IsActivePair, KeepsPairs};

use crate::entries::read_entries;
use crate::told::{ConfirmFault, Told};
use crate::write::write_entry;
use boot_select::named;
use nor_device::{Nor, NorFault};
use otadata::Entry;
use partition_table::{App, Layout};
use rollback::{NoOtaApp, confirm_write};

/// Marks the active entry VALID. Nothing is written where it is so already, or where no entry is
/// active. Afterwards the application that is confirmed boots, where its slot holds a whole image.
pub fn confirm<D: Nor>(device: &mut D, layout: &Layout) -> Result<Told, ConfirmFault>
    requires idle { D.running device.old ≡ None }
    requires placed { IsPlaced layout.now (D.size device.old) }
    requires small { D.size device.old < 2 ^ 32 }
    ensures idle { D.running device.new ≡ None }
    ensures setting { KeepsSetting D.size D.setting device.old device.new }
    ensures cause { HasCause
        (D.faults device.old) (D.faults device.new) (D.off device.new) (confirm_answer result) }
    ensures stopped { OnOk (confirm_answer result)
        (¬ D.must_refuse (D.setting device.old) (D.steps device.old)) }
    ensures steps { OfEntries layout.now (D.bytes device.old) (λ entries.
        AreMadeBy D.may_end D.may_tear D.may_refuse D.must_refuse (D.setting device.old)
        (rewrites layout.now.otadata (writes_of (confirmation entries)))
        (D.steps device.old) (D.steps device.new) (D.bytes device.old) (D.bytes device.new)
        (confirm_answer result)
        × IfOk (confirm_answer result) (Answers layout.now.otadata (names layout.now entries)
        (confirmation entries))) }
    ensures crash { OnErr (confirm_answer result) (IsLeftByVerdicts layout.now
        (λ flash. writes_of (confirmation (entries_in layout.now flash)))
        (D.bytes device.old) (D.bytes device.new)) }
    ensures still { StillBoots layout.now (D.bytes device.old) (D.bytes device.new) }
    ensures boots { BootsTold layout.now (D.bytes device.old) (D.bytes device.new)
        (confirm_answer result) }
    ensures pair { KeepsPairs layout.now (IsActivePair layout.now)
        (λ flash. writes_of (confirmation (entries_in layout.now flash)))
        (ConfirmSettles layout.now) (D.bytes device.old) (D.bytes device.new)
        (confirm_answer result) }
{
    confirmed(confirm_on(device, layout))
}

/// The answer of a confirmation.
fn confirmed(found: Result<Result<Told, NoOtaApp>, NorFault>) -> Result<Told, ConfirmFault>
    ensures exact { confirm_answer result ≡ found }
{
    match found {
        Ok(Ok(told)) => Ok(told),
        Ok(Err(_)) => Err(ConfirmFault::NoOtaApp),
        Err(NorFault::Failed) => Err(ConfirmFault::Device),
        Err(NorFault::Off) => Err(ConfirmFault::Cut),
    }
}

/// A confirmation; refused inside where no entry is active.
fn confirm_on<D: Nor>(device: &mut D, layout: &Layout) -> Result<Result<Told, NoOtaApp>, NorFault>
    requires idle { D.running device.old ≡ None }
    requires placed { IsPlaced layout.now (D.size device.old) }
    requires small { D.size device.old < 2 ^ 32 }
    ensures idle { D.running device.new ≡ None }
    ensures setting { KeepsSetting D.size D.setting device.old device.new }
    ensures cause { HasCause
        (D.faults device.old) (D.faults device.new) (D.off device.new) result }
    ensures stopped { OnOk result (¬ D.must_refuse (D.setting device.old) (D.steps device.old)) }
    ensures steps { OfEntries layout.now (D.bytes device.old) (λ entries.
        AreMadeBy D.may_end D.may_tear D.may_refuse D.must_refuse (D.setting device.old)
        (rewrites layout.now.otadata (writes_of (confirmation entries)))
        (D.steps device.old) (D.steps device.new) (D.bytes device.old) (D.bytes device.new) result
        × IfOk result (Answers layout.now.otadata (names layout.now entries)
        (confirmation entries))) }
    ensures crash { OnErr result (IsLeftByVerdicts layout.now
        (λ flash. writes_of (confirmation (entries_in layout.now flash)))
        (D.bytes device.old) (D.bytes device.new)) }
    ensures still { StillBoots layout.now (D.bytes device.old) (D.bytes device.new) }
    ensures boots { BootsTold layout.now (D.bytes device.old) (D.bytes device.new) result }
    ensures pair { KeepsPairs layout.now (IsActivePair layout.now)
        (λ flash. writes_of (confirmation (entries_in layout.now flash)))
        (ConfirmSettles layout.now) (D.bytes device.old) (D.bytes device.new) result }
{
    let (first, second) = read_entries(device, layout)?;
    confirm_by(device, layout, &first, &second)
}

/// A confirmation of a device whose OTA data have these entries.
pub(crate) fn confirm_by<D: Nor>(
    device: &mut D,
    layout: &Layout,
    e0: &Entry,
    e1: &Entry,
) -> Result<Result<Told, NoOtaApp>, NorFault>
    requires idle { D.running device.old ≡ None }
    requires on { D.off device.old ≡ false }
    requires placed { IsPlaced layout.now (D.size device.old) }
    requires small { D.size device.old < 2 ^ 32 }
    ensures idle { D.running device.new ≡ None }
    ensures made { OnOk result (AreMade D.may_end D.may_tear D.may_refuse D.must_refuse
        (D.setting device.old)
        (rewrites layout.now.otadata (writes_of (confirmation (sectors e0.now e1.now))))
        (D.steps device.old) (D.steps device.new) (D.bytes device.old) (D.bytes device.new)) }
    ensures missed { IfErr result (AreMissed D.may_end D.may_tear D.may_refuse D.must_refuse
        (D.setting device.old)
        (rewrites layout.now.otadata (writes_of (confirmation (sectors e0.now e1.now))))
        (D.steps device.old) (D.steps device.new) (D.bytes device.old) (D.bytes device.new)) }
    ensures answers { IfOk result (Answers layout.now.otadata
        (names layout.now (sectors e0.now e1.now)) (confirmation (sectors e0.now e1.now))) }
    ensures setting { KeepsSetting D.size D.setting device.old device.new }
    ensures cause { HasCause
        (D.faults device.old) (D.faults device.new) (D.off device.new) result }
{
    match confirm_write(e0, e1) {
        Err(no) => Ok(Err(no)),
        Ok(None) => Ok(Ok(Told {
            slot: active_slot(layout, e0, e1),
            steps: 0,
        })),
        Ok(Some(write)) => {
            write_entry(device, layout.otadata, &write)?;
            Ok(Ok(Told {
                slot: active_slot(layout, e0, e1),
                steps: 2,
            }))
        }
    }
}

/// The slot that the active entry names.
pub(crate) fn active_slot(layout: &Layout, e0: &Entry, e1: &Entry) -> u8
    requires { IsSome (active_of e0.now e1.now) }
    ensures exact { names layout.now (sectors e0.now e1.now) ≡ Ota result }
{
    match named(layout, e0, e1) {
        App::Ota(slot) => slot,
        App::Factory | App::Test => unreachable!(),
    }
}
