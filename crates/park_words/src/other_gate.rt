//! The gate of the other core.
ghost use Rattle.std.specs.Prelude.{◌≡◌, false, OnOk, OnErr, IfErr, IsSome};
ghost use Rattle.duo_machine.specs.declared.machine.Gate.TheVariants.{Rest, Run, Parked};
ghost use Rattle.duo_machine.specs.declared.machine.Phase.TheVariants.{Owning, Asking, Quiet};
ghost use Rattle.duo_machine.specs.declared.events.Kind.TheVariants.{Hold, Ask, See, End};
ghost use Rattle.duo_machine.specs.Machine.{let_go};
ghost use Rattle.park_words.specs.Views.{held_gate, in_phase, in_phase_holding, seat_saw};
ghost use Rattle.park_words.specs.Told.{Makes, SawOther};

use crate::exchange::{gate_number, gate_place};
use crate::seat::{CoreSeat, Seen};
use crate::steps::{AskOther, EndQuiet, HoldOther, Look};
use crate::words::Words;
use core_state::Records;
use duo_machine::{Gate, Phase};

/// The other core's gate, as a quiet core knows it.
fn known_gate(held: bool) -> Gate
    ensures { result ≡ held_gate held }
{
    if held { Gate::Held } else { Gate::Parked }
}

/// The same, once the quiet core is done.
fn gate_let_go(held: bool) -> Gate
    ensures { result ≡ let_go (held_gate held) }
{
    if held { Gate::Rest } else { Gate::Freed }
}

impl<V: Records> Words<V> {
    /// Hold: the masked owner holds the other core's gate shut, where it is at rest.
    pub fn hold(&self, seat: &mut CoreSeat<V>) -> Result<(), Seen>
        requires table { seat.old.table ≡ self.now }
        requires owning { seat.old.view.phase ≡ Owning }
        requires saved { IsSome seat.old.view.registers.saved }
        ensures ok { OnOk result (seat.new ≡ in_phase_holding seat.old Quiet seat.new.view.seen) }
        ensures event { OnOk result (Makes Hold seat.old seat.new) }
        ensures kept { OnErr result (seat.new ≡ seat_saw seat.old seat.new.view.seen) }
        ensures cause { IfErr result (λ e. SawOther Rest e.word seat.old seat.new) }
    {
        let beside = 1 - seat.core;
        self.exchange_gate::<HoldOther>(seat, beside, Gate::Rest, Gate::Held, Phase::Quiet, true)
    }

    /// Ask: the masked owner asks the other core to park, where it runs.
    pub fn ask(&self, seat: &mut CoreSeat<V>) -> Result<(), Seen>
        requires table { seat.old.table ≡ self.now }
        requires owning { seat.old.view.phase ≡ Owning }
        requires saved { IsSome seat.old.view.registers.saved }
        ensures ok { OnOk result (seat.new ≡ in_phase seat.old Asking seat.new.view.seen) }
        ensures event { OnOk result (Makes Ask seat.old seat.new) }
        ensures kept { OnErr result (seat.new ≡ seat_saw seat.old seat.new.view.seen) }
        ensures cause { IfErr result (λ e. SawOther Run e.word seat.old seat.new) }
    {
        let beside = 1 - seat.core;
        self.exchange_gate::<AskOther>(seat, beside, Gate::Run, Gate::Asked, Phase::Asking, false)
    }

    /// See: the core that asked is quiet, where the other one is parked.
    pub fn look(&self, seat: &mut CoreSeat<V>) -> Result<(), Seen>
        requires table { seat.old.table ≡ self.now }
        requires asking { seat.old.view.phase ≡ Asking }
        ensures ok { OnOk result (seat.new ≡ in_phase seat.old Quiet seat.new.view.seen) }
        ensures event { OnOk result (Makes See seat.old seat.new) }
        ensures kept { OnErr result (seat.new ≡ seat_saw seat.old seat.new.view.seen) }
        ensures cause { IfErr result (λ e. SawOther Parked e.word seat.old seat.new) }
    {
        let word = gate_place(1 - seat.core);
        let found = self.table.shared.load::<Look>(&mut seat.seat, word);
        if found != gate_number(Gate::Parked) {
            return Err(Seen { word: found });
        }
        seat.phase = Phase::Quiet;
        seat.held = false;
        Ok(())
    }

    /// End: the quiet core, with no step of its own, lets the other one go. It is never refused.
    pub fn end(&self, seat: &mut CoreSeat<V>)
        requires table { seat.old.table ≡ self.now }
        requires quiet { seat.old.view.phase ≡ Quiet }
        requires no_step { seat.old.view.stepping ≡ false }
        ensures exact { seat.new ≡ in_phase seat.old Owning seat.new.view.seen }
        ensures event { Makes End seat.old seat.new }
    {
        let beside = 1 - seat.core;
        let from = known_gate(seat.held);
        let to = gate_let_go(seat.held);
        let Ok(()) = self.exchange_gate::<EndQuiet>(seat, beside, from, to, Phase::Owning, false)
        else {
            unreachable!()
        };
    }
}
