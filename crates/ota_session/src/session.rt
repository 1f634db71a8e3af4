//! A session: the sectors of a slot are erased, and the image is written piece by piece.

ghost use Rattle.std.specs.Prelude.{◌≡◌, ◌<◌, ◌^◌, ◌-◌, ◌+◌, IfErr, IfOk, Err, MatchResult, length};
ghost use Rattle.bus_hub.specs.declared.did.Base.{Base};
ghost use Rattle.flash_ops.specs.Asked.{CanLook, HasRoomFor};
ghost use Rattle.flash_ops.specs.Moves.{HasRun};
ghost use Rattle.flash_ops.specs.Told.{ToldOf, count_behind};
ghost use Rattle.update_steps.specs.Driver.{whole_sectors};
ghost use Rattle.ota_session.specs.Stages.{IsNextPiece, IsOpen, IsWriting, begin_moves};
ghost use Rattle.ota_session.specs.SessionTold.{HasBegun, HasCounted, HasCountedSome, HasWritten, IsNotWritten, begin_periods, cause_of, piece_moves, piece_periods, wrong_byte};

use crate::duty::UpdateDuty;
use crate::refusal::{Back, WriteNo};
use crate::target::Target;
use boot_run::Aim;
use bus_hub::Duty;
use cache_gate::Core;
use crash_images::Crash;
use flash_ops::{Beat, Pace, StepNo, erase, write};
use nor_device::SECTOR_SIZE;
use partition_table::{App, Layout};
use std::marker::Model;
use std::sync::Wait;

/// The first byte of an image.
const MAGIC: u8 = 0xE9;

/// A session whose sectors are erased. Write the image by `write`, and end it by `end`.
#[must_use]
#[derive(Drop)]
pub struct Ota<'w, D: Crash, K: Duty> {
    pub(crate) core: Core<'w, D, K>,
    pub(crate) target: Target,
    pub(crate) written: u32,
}

// Clauses see the core, where the image goes, and how many bytes of it are written.
impl<'w, D: Crash, K: Duty> Model for Ota<'w, D, K> {
    ghost use Rattle.bus_hub.specs.declared.did.Base.{Base};
    ghost use Rattle.ota_session.specs.Stages.{Writing};

    ghost Value = { Writing (Base D.Setting K) };

    ghost view = { λ x. record { core = x.core; target = x.target; written = x.written } };

    ghost invariant = { λ _. Unit {0} };
}

/// Begins a session: erases as many sectors of the slot as the image needs, each in a quiet period
/// of its own. The first refusal of the device ends it.
pub fn begin<'w, 'a, R: Wait, D: Crash, P: Pace>(
    rt: &R,
    core: Core<'w, D, UpdateDuty<'a>>,
    beat: &mut Beat<'_, P>,
    layout: &Layout,
    aim: &Aim,
) -> Result<Ota<'w, D, UpdateDuty<'a>>, Back<'w, D, UpdateDuty<'a>, StepNo>>
    requires session { IsOpen layout.now aim.now core }
    requires room { HasRoomFor core.base core.core core.share
        (begin_moves layout.now aim.now beat.old.probe) }
    requires look { CanLook core.base core.regs beat.old.probe }
    ensures ok { IfOk result (HasBegun layout.now aim.now beat.old.probe core.entry) }
    ensures err { IfErr result (λ back.
        HasRun 0 (begin_moves layout.now aim.now beat.old.probe) (Err (cause_of back.no))
        core.entry back.core) }
    ensures probe { beat.new.probe ≡ beat.old.probe }
    ensures pace { beat.new.pace ≡ beat.old.pace }
    ensures ops { HasCounted (begin_periods aim.now) result beat.old.ops beat.new.ops }
    ensures told { ToldOf (P.told beat.old.pace.now) beat.old.ops beat.new.ops }
{
    let row = layout.place(App::Ota(aim.slot));
    let (core, made) = erase(rt, core, beat, 0, row.offset, bytes_of_sectors(aim.length));
    match made {
        Ok(()) => Ok(Ota {
            core,
            target: Target::of(layout, &row, aim),
            written: 0,
        }),
        Err(no) => Err(Back { core, no }),
    }
}

/// How many bytes the sectors have that so many bytes need.
fn bytes_of_sectors(length: u32) -> u32
    requires small { whole_sectors length < 2 ^ 32 }
    ensures exact { result ≡ whole_sectors length }
{
    length.div_ceil(SECTOR_SIZE) * SECTOR_SIZE
}

/// The first byte of the session, where this piece has it and it is not that of an image.
#[tactic(auto, unfolding(crate::specs::SessionTold::wrong_byte))]
fn wrong_byte(written: u32, piece: &[u8]) -> Option<u8>
    ensures exact { result ≡ wrong_byte written piece.now }
{
    let [byte, ..] = piece else {
        return None;
    };
    if written == 0 && *byte != MAGIC {
        Some(*byte)
    } else {
        None
    }
}

impl<'w, 'a, D: Crash> Ota<'w, D, UpdateDuty<'a>> {
    /// How many bytes of the image are left to write.
    pub fn left(&self) -> u32
        ensures exact { result ≡ self.now.target.length - self.now.written }
    {
        self.target.length.saturating_sub(self.written)
    }

    /// Writes the next bytes of the image: whole pages of 256 bytes, or all that are left. The
    /// session's first byte is looked at before any of them is written. The first refusal of the
    /// device ends it.
    pub fn write<R: Wait, P: Pace>(
        self,
        rt: &R,
        beat: &mut Beat<'_, P>,
        piece: &[u8],
    ) -> Result<Ota<'w, D, UpdateDuty<'a>>, Back<'w, D, UpdateDuty<'a>, WriteNo>>
        requires session { IsWriting self }
        requires next { IsNextPiece self piece.now }
        requires room { HasRoomFor self.core.base self.core.core self.core.share
            (piece_moves beat.old.probe self piece.now) }
        requires look { CanLook self.core.base self.core.regs beat.old.probe }
        ensures ok { IfOk result (HasWritten beat.old.probe piece.now self.entry) }
        ensures err { IfErr result (λ back.
            IsNotWritten beat.old.probe piece.now self.entry back.no back.core) }
        ensures probe { beat.new.probe ≡ beat.old.probe }
        ensures pace { beat.new.pace ≡ beat.old.pace }
        ensures ops { MatchResult result
            (λ _. beat.new.ops ≡ count_behind beat.old.ops (piece_periods self.entry piece.now))
            (λ back. HasCountedSome (piece_periods self.entry piece.now) back.no
            beat.old.ops beat.new.ops) }
        ensures told { ToldOf (P.told beat.old.pace.now) beat.old.ops beat.new.ops }
    {
        let Ota {
            core,
            target,
            written,
        } = self;
        if let Some(byte) = wrong_byte(written, piece) {
            return Err(Back {
                core,
                no: WriteNo::FirstByte { byte },
            });
        }
        let (core, made) = write(rt, core, beat, 0, target.at + written, piece);
        match made {
            Ok(()) => Ok(Ota {
                core,
                target,
                written: written + piece.len() as u32,
            }),
            Err(StepNo::Device) => Err(Back {
                core,
                no: WriteNo::Device,
            }),
            Err(StepNo::Cut) => Err(Back {
                core,
                no: WriteNo::Cut,
            }),
        }
    }
}
