//! A rejection: the active entry becomes INVALID.

ghost use Rattle.std.specs.Prelude.{◌≡◌, ◌<◌, ◌^◌, false, None, OnOk, OnErr, IfOk, IfErr};
ghost use Rattle.nor_device.specs.Nor.{HasCause, KeepsSetting};
ghost use Rattle.partition_table.specs.Layout.{IsPlaced};
ghost use Rattle.boot_select.specs.Candidates.{is_whole};
ghost use Rattle.boot_select.specs.Settled.{sectors};
ghost use Rattle.boot_select.specs.Boots.{entries_in, names};
ghost use Rattle.boot_run.specs.Made.{AreMade, AreMadeBy, AreMissed};
ghost use Rattle.boot_run.specs.Rewriting.{rewrites};
ghost use Rattle.boot_run.specs.Read.{OfWhole, whole_in};
ghost use Rattle.boot_run.specs.Crashed.{IsLeftByVerdicts, StillBoots};
ghost use Rattle.boot_run.specs.Verdict.{Answers, reject_answer, rejection, writes_of};
ghost use Rattle.boot_run.specs.Paired.{IsActivePair, KeepsPairs};

use crate::confirming::active_slot;
use crate::entries::read_entries;
use crate::told::{RejectFault, Told};
use crate::whole::whole_on;
use crate::write::write_entry;
use nor_device::{Nor, NorFault};
use otadata::Entry;
use partition_table::Layout;
use rollback::{RejectNo, reject_write};

/// Marks the active entry INVALID, where another application would be started then. Nothing is
/// written where no entry is active, or where there is nothing else.
pub fn reject<D: Nor>(device: &mut D, layout: &Layout) -> Result<Told, RejectFault>
    requires idle { D.running device.old ≡ None }
    requires placed { IsPlaced layout.now (D.size device.old) }
    requires small { D.size device.old < 2 ^ 32 }
    ensures idle { D.running device.new ≡ None }
    ensures setting { KeepsSetting D.size D.setting device.old device.new }
    ensures cause { HasCause
        (D.faults device.old) (D.faults device.new) (D.off device.new) (reject_answer result) }
    ensures stopped { OnOk (reject_answer result)
        (¬ D.must_refuse (D.setting device.old) (D.steps device.old)) }
    ensures steps { OfWhole layout.now (D.bytes device.old) (λ entries whole.
        AreMadeBy D.may_end D.may_tear D.may_refuse D.must_refuse (D.setting device.old)
        (rewrites layout.now.otadata (writes_of (rejection layout.now whole entries)))
        (D.steps device.old) (D.steps device.new) (D.bytes device.old) (D.bytes device.new)
        (reject_answer result)
        × IfOk (reject_answer result) (Answers layout.now.otadata (names layout.now entries)
        (rejection layout.now whole entries))) }
    ensures crash { OnErr (reject_answer result) (IsLeftByVerdicts layout.now
        (λ flash. writes_of (rejection layout.now (whole_in layout.now flash)
        (entries_in layout.now flash))) (D.bytes device.old) (D.bytes device.new)) }
    ensures still { StillBoots layout.now (D.bytes device.old) (D.bytes device.new) }
    ensures pair { KeepsPairs layout.now (IsActivePair layout.now)
        (λ flash. writes_of (rejection layout.now (whole_in layout.now flash)
        (entries_in layout.now flash))) (λ flash pair left. Unit {0})
        (D.bytes device.old) (D.bytes device.new) (reject_answer result) }
{
    rejected(reject_on(device, layout))
}

/// The answer of a rejection.
fn rejected(found: Result<Result<Told, RejectNo>, NorFault>) -> Result<Told, RejectFault>
    ensures exact { reject_answer result ≡ found }
{
    match found {
        Ok(Ok(told)) => Ok(told),
        Ok(Err(RejectNo::NoOtaApp)) => Err(RejectFault::NoOtaApp),
        Ok(Err(RejectNo::NothingElse)) => Err(RejectFault::NothingElse),
        Err(NorFault::Failed) => Err(RejectFault::Device),
        Err(NorFault::Off) => Err(RejectFault::Cut),
    }
}

/// A rejection; refused inside for the entries or the images.
fn reject_on<D: Nor>(device: &mut D, layout: &Layout) -> Result<Result<Told, RejectNo>, NorFault>
    requires idle { D.running device.old ≡ None }
    requires placed { IsPlaced layout.now (D.size device.old) }
    requires small { D.size device.old < 2 ^ 32 }
    ensures idle { D.running device.new ≡ None }
    ensures setting { KeepsSetting D.size D.setting device.old device.new }
    ensures cause { HasCause
        (D.faults device.old) (D.faults device.new) (D.off device.new) result }
    ensures stopped { OnOk result (¬ D.must_refuse (D.setting device.old) (D.steps device.old)) }
    ensures steps { OfWhole layout.now (D.bytes device.old) (λ entries whole.
        AreMadeBy D.may_end D.may_tear D.may_refuse D.must_refuse (D.setting device.old)
        (rewrites layout.now.otadata (writes_of (rejection layout.now whole entries)))
        (D.steps device.old) (D.steps device.new) (D.bytes device.old) (D.bytes device.new) result
        × IfOk result (Answers layout.now.otadata (names layout.now entries)
        (rejection layout.now whole entries))) }
    ensures crash { OnErr result (IsLeftByVerdicts layout.now
        (λ flash. writes_of (rejection layout.now (whole_in layout.now flash)
        (entries_in layout.now flash))) (D.bytes device.old) (D.bytes device.new)) }
    ensures still { StillBoots layout.now (D.bytes device.old) (D.bytes device.new) }
    ensures pair { KeepsPairs layout.now (IsActivePair layout.now)
        (λ flash. writes_of (rejection layout.now (whole_in layout.now flash)
        (entries_in layout.now flash))) (λ flash pair left. Unit {0})
        (D.bytes device.old) (D.bytes device.new) result }
{
    let (first, second) = read_entries(device, layout)?;
    let whole = whole_on(device, layout)?;
    reject_by(device, layout, &first, &second, &whole)
}

/// A rejection of a device whose OTA data have these entries, by these truth values.
fn reject_by<D: Nor>(
    device: &mut D,
    layout: &Layout,
    e0: &Entry,
    e1: &Entry,
    whole: &[bool; 18],
) -> Result<Result<Told, RejectNo>, NorFault>
    requires idle { D.running device.old ≡ None }
    requires on { D.off device.old ≡ false }
    requires placed { IsPlaced layout.now (D.size device.old) }
    requires small { D.size device.old < 2 ^ 32 }
    ensures idle { D.running device.new ≡ None }
    ensures made { OnOk result (AreMade D.may_end D.may_tear D.may_refuse D.must_refuse
        (D.setting device.old) (rewrites layout.now.otadata
        (writes_of (rejection layout.now (is_whole whole.now) (sectors e0.now e1.now))))
        (D.steps device.old) (D.steps device.new) (D.bytes device.old) (D.bytes device.new)) }
    ensures missed { IfErr result (AreMissed D.may_end D.may_tear D.may_refuse D.must_refuse
        (D.setting device.old) (rewrites layout.now.otadata
        (writes_of (rejection layout.now (is_whole whole.now) (sectors e0.now e1.now))))
        (D.steps device.old) (D.steps device.new) (D.bytes device.old) (D.bytes device.new)) }
    ensures answers { IfOk result (Answers layout.now.otadata
        (names layout.now (sectors e0.now e1.now))
        (rejection layout.now (is_whole whole.now) (sectors e0.now e1.now))) }
    ensures setting { KeepsSetting D.size D.setting device.old device.new }
    ensures cause { HasCause
        (D.faults device.old) (D.faults device.new) (D.off device.new) result }
{
    match reject_write(layout, e0, e1, whole) {
        Err(no) => Ok(Err(no)),
        Ok(write) => {
            write_entry(device, layout.otadata, &write)?;
            Ok(Ok(Told {
                slot: active_slot(layout, e0, e1),
                steps: 2,
            }))
        }
    }
}
