//! A confirmation: the entry of the application that runs is rewritten.

ghost use Rattle.std.specs.Prelude.{◌≡◌, IfErr, IfOk, Ok, Err};
ghost use Rattle.bus_hub.specs.declared.did.Base.{Base};
ghost use Rattle.flash_ops.specs.Asked.{CanLook, HasRoomFor};
ghost use Rattle.flash_ops.specs.Moves.{HasRun};
ghost use Rattle.flash_ops.specs.Told.{ToldOf};
ghost use Rattle.ota_session.specs.Stages.{IsToConfirm, confirm_moves};
ghost use Rattle.ota_session.specs.SessionTold.{HasCounted, cause_of};

use crate::duty::UpdateDuty;
use crate::entries::rewrite_entry;
use crate::refusal::Back;
use cache_gate::Core;
use crash_images::Crash;
use flash_ops::{Beat, Pace, StepNo};
use partition_table::Layout;
use rollback::Rewrite;
use std::sync::Wait;

/// Confirms the application that runs: erases the sector of its entry, and programs it in its new
/// state. The first refusal of the device ends it.
pub fn confirm<'w, 'a, R: Wait, D: Crash, P: Pace>(
    rt: &R,
    core: Core<'w, D, UpdateDuty<'a>>,
    beat: &mut Beat<'_, P>,
    layout: &Layout,
    rewrite: &Rewrite,
) -> Result<Core<'w, D, UpdateDuty<'a>>, Back<'w, D, UpdateDuty<'a>, StepNo>>
    requires session { IsToConfirm layout.now rewrite.now core }
    requires room { HasRoomFor core.base core.core core.share
        (confirm_moves layout.now rewrite.now beat.old.probe) }
    requires look { CanLook core.base core.regs beat.old.probe }
    ensures ok { IfOk result (HasRun 0 (confirm_moves layout.now rewrite.now beat.old.probe) (Ok tt)
        core.entry) }
    ensures err { IfErr result (λ back. HasRun 0
        (confirm_moves layout.now rewrite.now beat.old.probe) (Err (cause_of back.no))
        core.entry back.core) }
    ensures probe { beat.new.probe ≡ beat.old.probe }
    ensures pace { beat.new.pace ≡ beat.old.pace }
    ensures ops { HasCounted 2 result beat.old.ops beat.new.ops }
    ensures told { ToldOf (P.told beat.old.pace.now) beat.old.ops beat.new.ops }
{
    let (core, made) = rewrite_entry(rt, core, beat, layout.otadata, rewrite);
    match made {
        Ok(()) => Ok(core),
        Err(no) => Err(Back { core, no }),
    }
}
