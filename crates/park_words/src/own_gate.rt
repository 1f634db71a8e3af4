//! The gate of the core itself.
ghost use Rattle.std.specs.Prelude.{◌≡◌, OnOk, OnErr, IfErr, IsSome};
ghost use Rattle.duo_machine.specs.declared.machine.Gate.TheVariants.{Rest as AtRest, Run, Asked, Freed};
ghost use Rattle.duo_machine.specs.declared.machine.Phase.TheVariants.{Resting, Running, Parked};
ghost use Rattle.duo_machine.specs.declared.events.Kind.TheVariants.{Start, Rest, Park, Leave};
ghost use Rattle.park_words.specs.Views.{in_phase, seat_saw};
ghost use Rattle.park_words.specs.Told.{Makes, SawOwn, ReadsAsked};

use crate::exchange::{gate_number, gate_place};
use crate::seat::{CoreSeat, Seen};
use crate::steps::{LeaveGate, Load, ParkCore, RestCore, StartCore};
use crate::words::Words;
use core_state::Records;
use duo_machine::{Gate, Phase};

impl<V: Records> Words<V> {
    /// Start: the core runs, where its gate is at rest.
    pub fn start(&self, seat: &mut CoreSeat<V>) -> Result<(), Seen>
        requires table { seat.old.table ≡ self.now }
        requires resting { seat.old.view.phase ≡ Resting }
        ensures ok { OnOk result (seat.new ≡ in_phase seat.old Running seat.new.view.seen) }
        ensures event { OnOk result (Makes Start seat.old seat.new) }
        ensures kept { OnErr result (seat.new ≡ seat_saw seat.old seat.new.view.seen) }
        ensures cause { IfErr result (λ e. SawOwn AtRest e.word seat.old seat.new) }
    {
        let core = seat.core;
        self.exchange_gate::<StartCore>(seat, core, Gate::Rest, Gate::Run, Phase::Running, false)
    }

    /// Rest: the masked core goes to rest, where nobody asks it to park.
    pub fn rest(&self, seat: &mut CoreSeat<V>) -> Result<(), Seen>
        requires table { seat.old.table ≡ self.now }
        requires running { seat.old.view.phase ≡ Running }
        requires saved { IsSome seat.old.view.registers.saved }
        ensures ok { OnOk result (seat.new ≡ in_phase seat.old Resting seat.new.view.seen) }
        ensures event { OnOk result (Makes Rest seat.old seat.new) }
        ensures kept { OnErr result (seat.new ≡ seat_saw seat.old seat.new.view.seen) }
        ensures cause { IfErr result (λ e. SawOwn Run e.word seat.old seat.new) }
    {
        let core = seat.core;
        self.exchange_gate::<RestCore>(seat, core, Gate::Run, Gate::Rest, Phase::Resting, false)
    }

    /// Park: the masked core parks, where it is asked to.
    pub fn park(&self, seat: &mut CoreSeat<V>) -> Result<(), Seen>
        requires table { seat.old.table ≡ self.now }
        requires running { seat.old.view.phase ≡ Running }
        requires saved { IsSome seat.old.view.registers.saved }
        ensures ok { OnOk result (seat.new ≡ in_phase seat.old Parked seat.new.view.seen) }
        ensures event { OnOk result (Makes Park seat.old seat.new) }
        ensures kept { OnErr result (seat.new ≡ seat_saw seat.old seat.new.view.seen) }
        ensures cause { IfErr result (λ e. SawOwn Asked e.word seat.old seat.new) }
    {
        let core = seat.core;
        self.exchange_gate::<ParkCore>(seat, core, Gate::Asked, Gate::Parked, Phase::Parked, false)
    }

    /// Leave: the parked core runs again, where it is freed.
    pub fn leave(&self, seat: &mut CoreSeat<V>) -> Result<(), Seen>
        requires table { seat.old.table ≡ self.now }
        requires parked { seat.old.view.phase ≡ Parked }
        ensures ok { OnOk result (seat.new ≡ in_phase seat.old Running seat.new.view.seen) }
        ensures event { OnOk result (Makes Leave seat.old seat.new) }
        ensures kept { OnErr result (seat.new ≡ seat_saw seat.old seat.new.view.seen) }
        ensures cause { IfErr result (λ e. SawOwn Freed e.word seat.old seat.new) }
    {
        let core = seat.core;
        self.exchange_gate::<LeaveGate>(seat, core, Gate::Freed, Gate::Run, Phase::Running, false)
    }

    /// Whether the other core asks this one to park. It makes no event.
    pub fn asked(&self, seat: &mut CoreSeat<V>) -> bool
        requires { seat.old.table ≡ self.now }
        ensures kept { seat.new ≡ seat_saw seat.old seat.new.view.seen }
        ensures exact { ReadsAsked result seat.old seat.new }
    {
        let word = gate_place(seat.core);
        let found = self.table.shared.load::<Load>(&mut seat.seat, word);
        found == gate_number(Gate::Asked)
    }
}
