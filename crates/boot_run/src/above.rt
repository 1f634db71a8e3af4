//! A boot under anti-rollback: nothing is started that is older than a level.

ghost use Rattle.std.specs.Prelude.{◌≡◌, ◌<◌, ◌^◌, None, IfSome, OnOk, OnErr, IfOk};
ghost use Rattle.nor_device.specs.Nor.{HasCause, KeepsSetting};
ghost use Rattle.partition_table.specs.Layout.{IsPlaced};
ghost use Rattle.boot_select.specs.Boots.{entries_in, images_in};
ghost use Rattle.rollback.specs.Boot.{boot_writes};
ghost use Rattle.boot_run.specs.Made.{AreMadeBy};
ghost use Rattle.boot_run.specs.Rewriting.{rewrites};
ghost use Rattle.boot_run.specs.Read.{OfEntries};
ghost use Rattle.boot_run.specs.Above.{StillBootsAbove, held_above};
ghost use Rattle.boot_run.specs.Crashed.{IsLeftByVerdicts, StillBoots};
ghost use Rattle.boot_run.specs.Booted.{CountsSteps, IsBoot, boot_answer};
ghost use Rattle.boot_run.specs.Paired.{BootSettles, IsPairIn, KeepsPairs};

use crate::booted::{BootFault, Booted};
use crate::booting::{boot_on, booted};
use nor_device::Nor;
use partition_table::Layout;

/// Boots a device once, as [`crate::boot`], and gives the first application whose image is whole and
/// has a secure version of at least `level`. An entry that is rewritten may name an older one.
pub fn boot_above<D: Nor>(device: &mut D, layout: &Layout, level: u32) -> Result<Booted, BootFault>
    requires idle { D.running device.old ≡ None }
    requires placed { IsPlaced layout.now (D.size device.old) }
    requires small { D.size device.old < 2 ^ 32 }
    ensures idle { D.running device.new ≡ None }
    ensures setting { KeepsSetting D.size D.setting device.old device.new }
    ensures cause { HasCause
        (D.faults device.old) (D.faults device.new) (D.off device.new) (boot_answer result) }
    ensures stopped { OnOk (boot_answer result)
        (¬ D.must_refuse (D.setting device.old) (D.steps device.old)) }
    ensures steps { OfEntries layout.now (D.bytes device.old) (λ entries.
        let steps = rewrites layout.now.otadata (boot_writes entries) in
        AreMadeBy D.may_end D.may_tear D.may_refuse D.must_refuse (D.setting device.old) steps
        (D.steps device.old) (D.steps device.new) (D.bytes device.old) (D.bytes device.new)
        (boot_answer result)
        × CountsSteps steps (boot_answer result)) }
    // What boots above the level; `NoApp` exactly where nothing does.
    ensures boots { IfOk (boot_answer result) (λ booted. IfSome (D.bytes device.old) (λ flash.
        IsBoot layout.now (images_in (held_above level) layout.now flash)
        (entries_in layout.now flash) booted)) }
    ensures crash { OnErr (boot_answer result) (IsLeftByVerdicts layout.now
        (λ flash. boot_writes (entries_in layout.now flash))
        (D.bytes device.old) (D.bytes device.new)) }
    // Whatever the answer, where an application booted, above the level or at all, one boots now.
    ensures still { StillBoots layout.now (D.bytes device.old) (D.bytes device.new) }
    ensures still_above { StillBootsAbove level level layout.now (D.bytes device.old) (D.bytes device.new) }
    ensures pair { KeepsPairs layout.now (IsPairIn layout.now)
        (λ flash. boot_writes (entries_in layout.now flash)) (BootSettles layout.now)
        (D.bytes device.old) (D.bytes device.new) (boot_answer result) }
{
    booted(boot_on(device, layout, level))
}
