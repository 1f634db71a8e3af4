//! The rewrite of an entry on a core.

ghost use Rattle.std.specs.Prelude.{◌≡◌, ◌+◌, ◌*◌, ◌<◌, ◌^◌, ◌%◌};
ghost use Rattle.bus_hub.specs.declared.did.Base.{Base};
ghost use Rattle.boot_run.specs.Rewriting.{rewrite};
ghost use Rattle.cache_gate.specs.Own.{IsInside};
ghost use Rattle.flash_ops.specs.Asked.{CanLook, HasRoomFor, MayMakeAll};
ghost use Rattle.flash_ops.specs.Moves.{HasRun};
ghost use Rattle.flash_ops.specs.Told.{CountsPeriods, ToldOf, fault_of};
ghost use Rattle.ota_session.specs.Course.{Grants, part_after, part_of};
ghost use Rattle.ota_session.specs.Stages.{entry_moves};

use crate::duty::UpdateDuty;
use cache_gate::Core;
use crash_images::Crash;
use flash_ops::{Beat, Pace, StepNo, erase, write};
use nor_device::SECTOR_SIZE;
use rollback::Rewrite;
use std::sync::Wait;

/// Erases the sector of an entry, and programs its 32 bytes, each in a quiet period of its own.
pub(crate) fn rewrite_entry<'w, 'a, R: Wait, D: Crash, P: Pace>(
    rt: &R,
    core: Core<'w, D, UpdateDuty<'a>>,
    beat: &mut Beat<'_, P>,
    otadata: u32,
    change: &Rewrite,
) -> (Core<'w, D, UpdateDuty<'a>>, Result<(), StepNo>)
    requires two { change.now.sector < 2 }
    requires aligned { otadata % 4096 ≡ 0 }
    requires inside { IsInside core.base (otadata + 8192) }
    requires small { otadata + 8192 < 2 ^ 32 }
    requires may { MayMakeAll part_of Grants part_after core.base core.core core.share
        (rewrite otadata change.now) }
    requires room { HasRoomFor core.base core.core core.share
        (entry_moves beat.old.probe otadata change.now) }
    requires look { CanLook core.base core.regs beat.old.probe }
    ensures ran { HasRun 0 (entry_moves beat.old.probe otadata change.now) (fault_of result.1)
        core.entry result.0 }
    ensures probe { beat.new.probe ≡ beat.old.probe }
    ensures pace { beat.new.pace ≡ beat.old.pace }
    ensures ops { CountsPeriods 2 result.1 beat.old.ops beat.new.ops }
    ensures told { ToldOf (P.told beat.old.pace.now) beat.old.ops beat.new.ops }
{
    let at = otadata + SECTOR_SIZE * u32::from(change.sector);
    let mut bytes = [0; 32];
    change.entry.put(&mut bytes);
    let (core, erased) = erase(rt, core, beat, 0, at, SECTOR_SIZE);
    if let Err(no) = erased {
        return (core, Err(no));
    }
    write(rt, core, beat, 0, at, &bytes)
}
