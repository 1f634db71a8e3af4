//! The rule of the table.
ghost use Rattle.park_words.specs.Views.{fresh};
ghost use Rattle.park_words.specs.Story.{StoriesAreSafe, TurnsAreOfOneCore};
ghost use Rattle.park_words.specs.Rule.{Ruled, StandForOneSafeMachine};

use crate::view::View;
use atomic_table::TableRule;
use core_state::Records;
use std::marker::PhantomData;
use std::snapshot::Snapshot;

/// The four words, the value at home and the views stand for one machine, and one run of both cores
/// leads there. The key is the value handed in.
pub struct Rule<V> {
    of: PhantomData<V>,
}

impl<V: Records> TableRule<Option<V>, View<V::Base, V::Did>, Snapshot<V>> for Rule<V> {
    ghost holds = { λ key. Ruled V.records V.runs V.stands key.value };

    ghost first = { λ _. fresh };
}

/// Whatever state meets the rule with two views in it, words and views stand for one machine, it is
/// safe, and so is the run that leads to it.
pub fn words_stand_for_one_safe_machine<V: Records>()
    ensures { StandForOneSafeMachine V.records V.runs V.stands }
{}

/// Over every interleaving of both cores' steps no core fetched while a step ran, a step ran with
/// both cores masked, and each core kept its own registers.
pub fn every_run_of_the_words_is_safe()
    ensures { StoriesAreSafe }
{}

/// From the turn taken to the turn given back, what is done to the value is of one core.
pub fn every_turn_is_of_one_core()
    ensures { TurnsAreOfOneCore }
{}
