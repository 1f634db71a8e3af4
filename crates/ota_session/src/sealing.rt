//! The end of a session: its bytes are read back, and only where they are a whole image can its entry
//! be written.

ghost use Rattle.std.specs.Prelude.{◌≡◌, ◌+◌, ◌≤◌, ◌<◌, ◌^◌, IfErr, IfOk, Ok, Err, OnOk, MatchResult, length};
ghost use Rattle.bus_hub.specs.declared.did.Base.{Base};
ghost use Rattle.flash_ops.specs.Asked.{CanLook, HasRoomFor};
ghost use Rattle.flash_ops.specs.Moves.{HasRun};
ghost use Rattle.nor_device.specs.declared.nor.NorFault.{NorFault as Why};
ghost use Rattle.flash_ops.specs.Periods.{HasPeriods, read_periods};
ghost use Rattle.flash_ops.specs.Told.{ToldOf};
ghost use Rattle.ota_session.specs.Stages.{IsVerified, IsWriting, entry_moves, image_of};
ghost use Rattle.ota_session.specs.SessionTold.{HasCounted, HasVerified, IsNotVerified, answered_by, cause_of, unread_by};

use crate::duty::UpdateDuty;
use crate::entries::rewrite_entry;
use crate::readback::read_back;
use crate::refusal::{Back, EndNo};
use crate::session::Ota;
use crate::target::Target;
use bus_hub::Duty;
use cache_gate::Core;
use crash_images::Crash;
use flash_ops::{Beat, Pace, StepNo};
use std::marker::Model;
use std::sync::Wait;

/// A session whose bytes are all written, and are a whole image within the slot. Announce it by
/// `set_boot`.
#[must_use]
#[derive(Drop)]
pub struct Sealed<'w, D: Crash, K: Duty> {
    core: Core<'w, D, K>,
    target: Target,
}

// Clauses see the core, and where the image is.
impl<'w, D: Crash, K: Duty> Model for Sealed<'w, D, K> {
    ghost use Rattle.bus_hub.specs.declared.did.Base.{Base};
    ghost use Rattle.ota_session.specs.Stages.{Verified};

    ghost Value = { Verified (Base D.Setting K) };

    ghost view = { λ x. record { core = x.core; target = x.target } };

    ghost invariant = { λ _. Unit {0} };
}

impl<'w, 'a, D: Crash> Ota<'w, D, UpdateDuty<'a>> {
    /// Reads the bytes back that are written, and verifies them.
    pub fn end<R: Wait>(
        self,
        rt: &R,
    ) -> Result<Sealed<'w, D, UpdateDuty<'a>>, Back<'w, D, UpdateDuty<'a>, EndNo>>
        requires session { IsWriting self }
        requires whole { self.written ≡ self.target.length }
        ensures ok { IfOk result (HasVerified self.entry) }
        ensures err { IfErr result (λ back. IsNotVerified (image_of self.entry.core.base) self.entry
            back.no back.core) }
        ensures periods { MatchResult result
            (λ sealed. HasPeriods {E = Why} (read_periods self.entry.written) (Ok tt)
            self.entry.core sealed.core)
            (λ back. HasPeriods (read_periods self.entry.written) (answered_by back.no)
            self.entry.core back.core) }
    {
        let Ota {
            core,
            target,
            written,
        } = self;
        if written == 0 {
            return Err(Back {
                core,
                no: EndNo::Empty,
            });
        }
        let (core, found) = read_back(rt, core, &target);
        let found = match found {
            Ok(found) => found,
            Err(why) => {
                return Err(Back {
                    core,
                    no: unread(why),
                });
            }
        };
        match found {
            None => Ok(Sealed { core, target }),
            Some(bad) => Err(Back {
                core,
                no: EndNo::Bad(bad),
            }),
        }
    }
}

/// Why the bytes are not announced that could not be read back.
fn unread(why: StepNo) -> EndNo
    ensures exact { result ≡ unread_by why }
{
    match why {
        StepNo::Device => EndNo::Device,
        StepNo::Cut => EndNo::Cut,
    }
}

impl<'w, 'a, D: Crash> Sealed<'w, D, UpdateDuty<'a>> {
    /// Announces the image: erases the sector of the new entry, and programs it. The first refusal of
    /// the device ends it.
    pub fn set_boot<R: Wait, P: Pace>(
        self,
        rt: &R,
        beat: &mut Beat<'_, P>,
    ) -> Result<Core<'w, D, UpdateDuty<'a>>, Back<'w, D, UpdateDuty<'a>, StepNo>>
        requires session { IsVerified self }
        requires room { HasRoomFor self.core.base self.core.core self.core.share
            (entry_moves beat.old.probe self.target.otadata self.target.next) }
        requires look { CanLook self.core.base self.core.regs beat.old.probe }
        ensures ok { IfOk result (HasRun 0
            (entry_moves beat.old.probe self.entry.target.otadata self.entry.target.next) (Ok tt)
            self.entry.core) }
        ensures err { IfErr result (λ back. HasRun 0
            (entry_moves beat.old.probe self.entry.target.otadata self.entry.target.next)
            (Err (cause_of back.no)) self.entry.core back.core) }
        ensures probe { beat.new.probe ≡ beat.old.probe }
        ensures pace { beat.new.pace ≡ beat.old.pace }
        ensures ops { HasCounted 2 result beat.old.ops beat.new.ops }
        ensures told { ToldOf (P.told beat.old.pace.now) beat.old.ops beat.new.ops }
    {
        let Sealed { core, target } = self;
        let (core, made) = rewrite_entry(rt, core, beat, target.otadata, &target.next);
        match made {
            Ok(()) => Ok(core),
            Err(no) => Err(Back { core, no }),
        }
    }
}
