//! The lock.
ghost use Rattle.std.specs.Prelude.{◌≡◌, OnOk, OnErr, IfErr, IsNone};
ghost use Rattle.duo_machine.specs.declared.machine.Phase.TheVariants.{Running, Owning};
ghost use Rattle.duo_machine.specs.declared.events.Kind.TheVariants.{Take, Give};
ghost use Rattle.park_words.specs.Views.{in_phase, seat_saw};
ghost use Rattle.park_words.specs.Told.{Makes, SawLock};

use crate::seat::{CoreSeat, Seen};
use crate::steps::{GiveLock, TakeLock};
use crate::words::{LOCK, NOBODY, Words};
use core_state::Records;
use duo_machine::Phase;

impl<V: Records> Words<V> {
    /// Take: the lock, where it is free.
    pub fn take_lock(&self, seat: &mut CoreSeat<V>) -> Result<(), Seen>
        requires table { seat.old.table ≡ self.now }
        requires running { seat.old.view.phase ≡ Running }
        ensures ok { OnOk result (seat.new ≡ in_phase seat.old Owning seat.new.view.seen) }
        ensures event { OnOk result (Makes Take seat.old seat.new) }
        ensures kept { OnErr result (seat.new ≡ seat_saw seat.old seat.new.view.seen) }
        ensures cause { IfErr result (λ e. SawLock 0 e.word seat.old seat.new) }
    {
        let mine = u64::from(seat.core) + 1;
        self.exchange::<TakeLock>(seat, LOCK, NOBODY, mine, Phase::Owning, false)
    }

    /// Give: the lock is free again. It is never refused.
    pub fn give_lock(&self, seat: &mut CoreSeat<V>)
        requires table { seat.old.table ≡ self.now }
        requires owning { seat.old.view.phase ≡ Owning }
        requires unsaved { IsNone seat.old.view.registers.saved }
        ensures exact { seat.new ≡ in_phase seat.old Running seat.new.view.seen }
        ensures event { Makes Give seat.old seat.new }
    {
        let mine = u64::from(seat.core) + 1;
        let Ok(()) = self.exchange::<GiveLock>(seat, LOCK, mine, NOBODY, Phase::Running, false)
        else {
            unreachable!()
        };
    }
}
