//! The one step that most calls are: an exchange on a word that makes an event, or changes nothing.
ghost use Rattle.std.specs.Prelude.{◌≡◌, ◌<◌, OnOk, OnErr, IfErr};
ghost use Rattle.park_words.specs.Views.{gate_word, gate_place, seat_moved, seat_saw};
ghost use Rattle.park_words.specs.Told.{Makes, SawWord, SawGate, MayExchange, MayPass};

use crate::seat::{CoreSeat, Seen};
use crate::steps::{Exchange, GateEvent};
use crate::words::Words;
use core_state::Records;
use duo_machine::{Gate, Phase};

/// The word of a core's gate.
pub(crate) fn gate_place(core: u8) -> usize
    requires { core < 2 }
    ensures { result ≡ gate_place core }
{
    usize::from(core) + 2
}

/// The number that stands for a gate.
pub(crate) fn gate_number(gate: Gate) -> u64
    ensures { result ≡ gate_word gate }
{
    match gate {
        Gate::Rest => 0,
        Gate::Run => 1,
        Gate::Asked => 2,
        Gate::Parked => 3,
        Gate::Freed => 4,
        Gate::Held => 5,
    }
}

impl<V: Records> Words<V> {
    /// An exchange on a word, from the number that is awaited.
    pub(crate) fn exchange<E: GateEvent>(
        &self,
        seat: &mut CoreSeat<V>,
        word: usize,
        awaited: u64,
        next: u64,
        phase: Phase,
        held: bool,
    ) -> Result<(), Seen>
        requires table { seat.old.table ≡ self.now }
        requires word { word < 4 }
        requires event { (phase ≡ E.phase) × (held ≡ E.held) }
        requires may { MayExchange V.records V.runs V.stands E.kind E.phase E.held
            word awaited next seat.old.view }
        ensures ok { OnOk result (seat.new ≡ seat_moved seat.old phase held seat.new.view.seen) }
        ensures event { OnOk result (Makes E.kind seat.old seat.new) }
        ensures kept { OnErr result (seat.new ≡ seat_saw seat.old seat.new.view.seen) }
        ensures cause { IfErr result (λ e. SawWord word awaited e.word seat.old seat.new) }
    {
        let found = self
            .table
            .shared
            .compare_exchange::<Exchange<E>>(&mut seat.seat, word, awaited, next);
        if found != awaited {
            return Err(Seen { word: found });
        }
        seat.phase = phase;
        seat.held = held;
        Ok(())
    }

    /// An exchange on a core's gate, from the one that is awaited.
    pub(crate) fn exchange_gate<E: GateEvent>(
        &self,
        seat: &mut CoreSeat<V>,
        core: u8,
        from: Gate,
        to: Gate,
        phase: Phase,
        held: bool,
    ) -> Result<(), Seen>
        requires table { seat.old.table ≡ self.now }
        requires core { core < 2 }
        requires event { (phase ≡ E.phase) × (held ≡ E.held) }
        requires may { MayPass V.records V.runs V.stands E.kind E.phase E.held
            core from to seat.old }
        ensures ok { OnOk result (seat.new ≡ seat_moved seat.old phase held seat.new.view.seen) }
        ensures event { OnOk result (Makes E.kind seat.old seat.new) }
        ensures kept { OnErr result (seat.new ≡ seat_saw seat.old seat.new.view.seen) }
        ensures cause { IfErr result (λ e. SawGate core from e.word seat.old seat.new) }
    {
        let word = gate_place(core);
        let awaited = gate_number(from);
        let next = gate_number(to);
        self.exchange::<E>(seat, word, awaited, next, phase, held)
    }
}
