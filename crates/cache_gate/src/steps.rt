//! A step from its begin to its end.

ghost use Rattle.std.specs.Prelude.{◌≡◌, ◌+◌, ◌≤◌, ◌^◌, None, IsSome, true, false, [], ◌∷◌};
ghost use Rattle.duo_machine.specs.declared.machine.Phase.TheVariants.{Quiet};
ghost use Rattle.duo_machine.specs.declared.events.Kind.TheVariants as kinds;
ghost use Rattle.nor_device.specs.Flash.{end_of, IsInOnePage};
ghost use Rattle.bus_hub.specs.Shares.{open_from};
ghost use Rattle.cache_gate.specs.Works.{Worked};
ghost use Rattle.cache_gate.specs.Own.{held_of, HasRoom, IsInside, MayMake};
ghost use Rattle.cache_gate.specs.Said.{HasFinished, HasMade, number_of_open};

use crate::turns::{begin, poll};
use bus_hub::{Bus, Duty};
use crash_images::Crash;
use nor_device::{NorFault, Ready, Step};
use park_words::{CoreSeat, Words};
use std::sync::Wait;
use std::thread;

/// Polls the step that runs until it has ended.
fn finish<R: Wait, D: Crash, K: Duty>(
    rt: &R,
    words: &Words<Bus<D, K>>,
    seat: &mut CoreSeat<Bus<D, K>>,
    k: u32,
) -> Result<(), NorFault>
    requires table { seat.old.table ≡ words.now }
    requires quiet { seat.old.view.phase ≡ Quiet }
    requires turn { seat.old.view.turn ≡ false }
    requires stepping { seat.old.view.stepping ≡ true }
    requires base { IsSome seat.old.view.base }
    requires begun { number_of_open (open_from None seat.old.view.share) ≡ k }
    ensures exact { HasFinished k result (held_of seat.old) (held_of seat.new) }
    ensures works { Worked (kinds.Done ∷ []) seat.old.view seat.new.view }
{
    for _ in rt.forever() {
        match poll(rt, words, seat, k) {
            Ok(Ready::Busy) => thread::yield_now(),
            Ok(Ready::Ready) => return Ok(()),
            Err(why) => return Err(why),
        }
    }
    unreachable!()
}

/// Makes the step.
pub(crate) fn make<R: Wait, D: Crash, K: Duty>(
    rt: &R,
    words: &Words<Bus<D, K>>,
    seat: &mut CoreSeat<Bus<D, K>>,
    k: u32,
    step: &Step,
) -> Result<(), NorFault>
    requires table { seat.old.table ≡ words.now }
    requires quiet { seat.old.view.phase ≡ Quiet }
    requires idle { seat.old.view.stepping ≡ false }
    requires paged { IsInOnePage step.now }
    requires small { end_of step.now ≤ 2 ^ 32 }
    requires inside { IsInside seat.old.view.base (end_of step.now) }
    requires may { MayMake K.part K.grants K.moved seat.old.view.base seat.old.view.core
        seat.old.view.share step.now }
    requires room { HasRoom seat.old.view.base seat.old.view.core seat.old.view.share 2 0 }
    ensures { HasMade k step.now result (held_of seat.old) (held_of seat.new) }
{
    if let Err(why) = begin(rt, words, seat, k, step) {
        return Err(why);
    }
    finish(rt, words, seat, k)
}
