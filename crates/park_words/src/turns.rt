//! Taking the turn with the value, and giving both back.
ghost use Rattle.std.specs.Prelude.{◌≡◌, true, OnOk, OnErr, IfOk, IfErr};
ghost use Rattle.park_words.specs.Views.{seat_saw};
ghost use Rattle.park_words.specs.Told.{Work, HasTaken, Known, TookTurn, SawTurn, Gives, HasGiven, GaveTurn};

use crate::seat::{CoreSeat, Seen};
use crate::steps::{GiveTurn, TakeTurn, Worked};
use crate::words::{NOBODY, TURN, Words};
use core_state::Records;
use std::marker::Brand;

impl<V: Records> Words<V> {
    /// The value, where nobody has the turn. It has the seat's registers, and stands for what the
    /// core did so far and for what the other core did.
    pub fn take_turn(&self, seat: &mut CoreSeat<V>) -> Result<V, Seen>
        requires { seat.old.table ≡ self.now }
        ensures ok { OnOk result (HasTaken seat.old seat.new) }
        ensures value { IfOk result (λ x. Known V.records V.runs V.stands x seat.new.view) }
        ensures event { OnOk result (TookTurn seat.old seat.new) }
        ensures kept { OnErr result (seat.new ≡ seat_saw seat.old seat.new.view.seen) }
        ensures cause { IfErr result (λ e. SawTurn e.word seat.old seat.new) }
    {
        let shared = &self.table.shared;
        let mine = u64::from(seat.core) + 1;
        let word = shared.compare_exchange::<TakeTurn>(&mut seat.seat, TURN, NOBODY, mine);
        if word != NOBODY {
            return Err(Seen { word });
        }
        let slot = shared.exchange(&mut seat.seat, 0, None);
        seat.turn = true;
        let Some(value) = slot else { unreachable!() };
        Ok(value)
    }

    /// The value goes home and the turn is free. The value differs from what was taken by the event
    /// that the caller names: Save, Back, Set, Fetch, Begin, Done or none.
    pub fn give_turn(&self, seat: &mut CoreSeat<V>, value: V)
        ghost work: { Work V.Did }
        requires table { seat.old.table ≡ self.now }
        requires turn { seat.old.view.turn ≡ true }
        requires value { Gives V.records V.runs V.stands seat.old.view value work }
        ensures exact { HasGiven V.records V.runs value work seat.old seat.new }
        ensures event { GaveTurn work seat.old seat.new }
    {
        self.give::<Brand>(seat, value)
    }

    /// The same, for a caller whose work depends on what it did: it hands that in, for the proof
    /// alone.
    pub fn give_said<T>(&self, seat: &mut CoreSeat<V>, value: V, _said: &T)
        ghost work: { Work V.Did }
        requires table { seat.old.table ≡ self.now }
        requires turn { seat.old.view.turn ≡ true }
        requires value { Gives V.records V.runs V.stands seat.old.view value work }
        ensures exact { HasGiven V.records V.runs value work seat.old seat.new }
        ensures event { GaveTurn work seat.old seat.new }
    {
        self.give_turn(seat, value)
    }

    /// The value goes home and the turn is free, with the work that the type names.
    fn give<J: Worked<V::Did>>(&self, seat: &mut CoreSeat<V>, value: V)
        requires table { seat.old.table ≡ self.now }
        requires turn { seat.old.view.turn ≡ true }
        requires value { Gives V.records V.runs V.stands seat.old.view value J.work }
        ensures exact { HasGiven V.records V.runs value J.work seat.old seat.new }
        ensures event { GaveTurn J.work seat.old seat.new }
    {
        let shared = &self.table.shared;
        let registers = value.record(seat.core);
        let empty = shared.exchange(&mut seat.seat, 0, Some(value));
        shared.store::<GiveTurn<J>>(&mut seat.seat, TURN, NOBODY);
        seat.registers = registers;
        seat.turn = false;
        let None = empty else { unreachable!() };
    }
}
