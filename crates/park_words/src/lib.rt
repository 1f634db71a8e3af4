//! The lock, the turn and the gates of the two cores in four shared words: each step on them is one
//! event of the parking machine, or takes or gives the turn.
#![tactic(auto)]

mod exchange;
mod lock;
mod other_gate;
mod own_gate;
mod rule;
mod seat;
mod steps;
#[cfg(test)]
mod tests;
mod turns;
mod view;
mod words;

pub use rule::{
    every_run_of_the_words_is_safe, every_turn_is_of_one_core, words_stand_for_one_safe_machine,
};
pub use seat::{CoreSeat, Seen};
pub use view::{Act, Entry, Stage, View};
pub use words::{NoWords, Words};
