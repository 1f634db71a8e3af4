//! The core that drives an update: it installs an application, or confirms the one that runs.

ghost use Rattle.std.specs.Prelude.{◌≡◌, ◌+◌, ◌≤◌, [], Ok, Err, IfOk, IfErr, MatchResult, length, take, drop};
ghost use Rattle.bus_hub.specs.declared.did.Base.{Base};
ghost use Rattle.flash_ops.specs.Asked.{CanLook, HasRoomFor};
ghost use Rattle.flash_ops.specs.Moves.{HasRun, write_moves};
ghost use Rattle.flash_ops.specs.Told.{ToldOf, count_behind};
ghost use Rattle.ota_session.specs.Stages.{IsToConfirm, IsWriting, confirm_moves, entry_moves, image_of, session_moves};
ghost use Rattle.power_cut.specs.declared.legs.LegEnd.TheVariants.{Done};
ghost use Rattle.power_cut.specs.Update.{session_end, slot_size};
ghost use Rattle.duo_run.specs.Driving.{HasWrittenAll, IsNotAllWritten, IsToInstall, all_moves, closed_end, ended_as, seal_moves, unsealed_as, unwritten_as};
ghost use Rattle.duo_run.specs.Paced.{HasCountedNone, closed_ops, pieces_of, session_ops};

use boot_run::Aim;
use cache_gate::Core;
use crash_images::Crash;
use flash_ops::{Beat, Pace, StepNo};
use ota_session::{Back, EndNo, Ota, UpdateDuty, WriteNo, begin, confirm};
use partition_table::Layout;
use power_cut::LegEnd;
use rollback::Rewrite;
use std::sync::Wait;

/// How many bytes of the image are handed over at a time.
const PIECE: usize = 4096;

/// Installs an image: erases the sectors of the slot, writes the bytes, reads them back, and announces
/// them where they are a whole image. Answers how the session ended, where the device refused
/// nothing.
#[tactic(auto, using(crate::proofs::DrivingLemmas::open_here, crate::proofs::DrivingLemmas::begin_room, crate::proofs::DrivingLemmas::not_begun,))]
pub(crate) fn install<'w, 'a, R: Wait, D: Crash, P: Pace>(
    rt: &R,
    core: Core<'w, D, UpdateDuty<'a>>,
    beat: &mut Beat<'_, P>,
    layout: &Layout,
    aim: &Aim,
    image: &[u8],
) -> (Core<'w, D, UpdateDuty<'a>>, Result<LegEnd, StepNo>)
    requires session { IsToInstall layout.now aim.now image.now core }
    requires room { HasRoomFor core.base core.core core.share
        (all_moves layout.now aim.now beat.old.probe image.now) }
    requires look { CanLook core.base core.regs beat.old.probe }
    ensures ran { HasRun 0 (session_moves layout.now aim.now beat.old.probe image.now)
        (ended_as result.1) core.entry result.0 }
    ensures end { IfOk result.1 (λ end.
        end ≡ session_end (slot_size layout.now aim.now.slot) image.now) }
    ensures ops { IfOk result.1 (λ end.
        beat.new.ops ≡ count_behind beat.old.ops (session_ops layout.now aim.now image.now)) }
    ensures told { ToldOf (P.told beat.old.pace.now) beat.old.ops beat.new.ops }
{
    match begin(rt, core, beat, layout, aim) {
        Err(back) => (back.core, Err(back.no)),
        Ok(ota) => match write_all(rt, ota, beat, image) {
            Err(back) => (back.core, unwritten(back.no)),
            Ok(ota) => seal(rt, ota, beat),
        },
    }
}

/// Writes the whole image, piece by piece.
fn write_all<'w, 'a, R: Wait, D: Crash, P: Pace>(
    rt: &R,
    ota: Ota<'w, D, UpdateDuty<'a>>,
    beat: &mut Beat<'_, P>,
    image: &[u8],
) -> Result<Ota<'w, D, UpdateDuty<'a>>, Back<'w, D, UpdateDuty<'a>, WriteNo>>
    requires session { IsWriting ota }
    requires nothing { ota.written ≡ 0 }
    requires long { ota.target.length ≡ length image.now }
    requires image { image_of ota.core.base ≡ image.now }
    requires room { HasRoomFor ota.core.base ota.core.core ota.core.share
        (write_moves beat.old.probe ota.target.at image.now) }
    requires look { CanLook ota.core.base ota.core.regs beat.old.probe }
    ensures ok { IfOk result (HasWrittenAll beat.old.probe image.now ota.entry) }
    ensures err { IfErr result (λ back.
        IsNotAllWritten beat.old.probe image.now ota.entry back.no back.core) }
    ensures probe { beat.new.probe ≡ beat.old.probe }
    ensures pace { beat.new.pace ≡ beat.old.pace }
    ensures ops { MatchResult result
        (λ _. beat.new.ops ≡ count_behind beat.old.ops (pieces_of (length image.now)))
        (λ back. HasCountedNone back.no beat.old.ops beat.new.ops) }
    ensures told { ToldOf (P.told beat.old.pace.now) beat.old.ops beat.new.ops }
{
    let mut ota = ota;
    let mut rest = image;
    while !rest.is_empty() {
        let (piece, later) = split_at_most(rest, PIECE);
        match ota.write(rt, beat, piece) {
            Ok(next) => ota = next,
            Err(back) => return Err(back),
        }
        rest = later;
    }
    Ok(ota)
}

/// So many bytes at most, and those behind them.
fn split_at_most(bytes: &[u8], most: usize) -> (&[u8], &[u8])
    ensures first { result.0.now ≡ take most bytes.now }
    ensures rest { result.1.now ≡ drop most bytes.now }
{
    if bytes.len() <= most {
        (bytes, &bytes[bytes.len()..])
    } else {
        (&bytes[..most], &bytes[most..])
    }
}

/// How a session ends whose image was not written to its end.
fn unwritten(no: WriteNo) -> Result<LegEnd, StepNo>
    ensures exact { result ≡ unwritten_as no }
{
    match no {
        WriteNo::FirstByte { byte } => Ok(LegEnd::FirstByte { byte }),
        WriteNo::Device => Err(StepNo::Device),
        WriteNo::Cut => Err(StepNo::Cut),
    }
}

/// Reads back what was written, and announces it where it is a whole image.
#[tactic(auto, using(crate::proofs::DrivingLemmas::sealed_room, crate::proofs::DrivingLemmas::sealed_look, crate::proofs::DrivingLemmas::sealed_ran, crate::proofs::DrivingLemmas::sealed_end_is, crate::proofs::DrivingLemmas::not_sealed, crate::proofs::DrivingLemmas::not_sealed_end,))]
fn seal<'w, 'a, R: Wait, D: Crash, P: Pace>(
    rt: &R,
    ota: Ota<'w, D, UpdateDuty<'a>>,
    beat: &mut Beat<'_, P>,
) -> (Core<'w, D, UpdateDuty<'a>>, Result<LegEnd, StepNo>)
    requires session { IsWriting ota }
    requires whole { ota.written ≡ ota.target.length }
    requires room { HasRoomFor ota.core.base ota.core.core ota.core.share
        (entry_moves beat.old.probe ota.target.otadata ota.target.next) }
    requires look { CanLook ota.core.base ota.core.regs beat.old.probe }
    ensures ran { HasRun 0 (seal_moves beat.old.probe ota.entry (image_of ota.entry.core.base))
        (ended_as result.1) ota.entry.core result.0 }
    ensures end { IfOk result.1 (λ end.
        end ≡ closed_end ota.entry.target.size (image_of ota.entry.core.base)) }
    ensures ops { IfOk result.1 (λ end. beat.new.ops ≡ count_behind beat.old.ops
        (closed_ops ota.entry.target.size (image_of ota.entry.core.base))) }
    ensures told { ToldOf (P.told beat.old.pace.now) beat.old.ops beat.new.ops }
{
    match ota.end(rt) {
        Err(back) => (back.core, unsealed(back.no)),
        Ok(sealed) => match sealed.set_boot(rt, beat) {
            Err(back) => (back.core, Err(back.no)),
            Ok(core) => (core, Ok(LegEnd::Done)),
        },
    }
}

/// How a session ends whose image is not announced.
fn unsealed(no: EndNo) -> Result<LegEnd, StepNo>
    ensures exact { result ≡ unsealed_as no }
{
    match no {
        EndNo::Empty => Ok(LegEnd::Empty),
        EndNo::Bad(bad) => Ok(LegEnd::Bad(bad)),
        EndNo::Device => Err(StepNo::Device),
        EndNo::Cut => Err(StepNo::Cut),
    }
}

/// Confirms the application that runs. Answers how the confirmation ended, where the device refused
/// nothing.
pub(crate) fn affirm<'w, 'a, R: Wait, D: Crash, P: Pace>(
    rt: &R,
    core: Core<'w, D, UpdateDuty<'a>>,
    beat: &mut Beat<'_, P>,
    layout: &Layout,
    rewrite: &Rewrite,
) -> (Core<'w, D, UpdateDuty<'a>>, Result<LegEnd, StepNo>)
    requires session { IsToConfirm layout.now rewrite.now core }
    requires room { HasRoomFor core.base core.core core.share
        (confirm_moves layout.now rewrite.now beat.old.probe) }
    requires look { CanLook core.base core.regs beat.old.probe }
    ensures ran { HasRun 0 (confirm_moves layout.now rewrite.now beat.old.probe)
        (ended_as result.1) core.entry result.0 }
    ensures end { IfOk result.1 (λ end. end ≡ Done) }
    ensures ops { IfOk result.1 (λ end. beat.new.ops ≡ count_behind beat.old.ops 2) }
    ensures told { ToldOf (P.told beat.old.pace.now) beat.old.ops beat.new.ops }
{
    match confirm(rt, core, beat, layout, rewrite) {
        Err(back) => (back.core, Err(back.no)),
        Ok(core) => (core, Ok(LegEnd::Done)),
    }
}
