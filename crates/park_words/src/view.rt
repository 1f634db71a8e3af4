//! What a seat knows of the shared words, and what a step on them was.
use core_state::Record;
use duo_machine::{Kind, Phase};
use std::collections::LinkedList;

/// For which cores a view stands.
pub enum Stage {
    /// For both, before the seats are dealt.
    New,
    /// For one core.
    One,
    /// For both again, once the seats are back.
    Both,
    /// For none: the seat was taken in by the other one.
    Spent,
}

/// What a step on the words was.
pub enum Act {
    /// An event of the machine.
    Made(Kind),
    /// The turn was taken.
    Took,
    /// The turn was given back.
    Gave,
}

/// One entry of the run of both cores: a core, 0 or 1, and what its step was. No value of it is
/// made.
pub struct Entry {
    pub core: u8,
    pub act: Act,
}

/// What a seat knows. No value of it is made.
pub struct View<B, D> {
    pub stage: Stage,
    pub core: u8,
    pub phase: Phase,
    /// Its core's registers, in force and saved.
    pub registers: Record,
    /// Whether a step of its core runs.
    pub stepping: bool,
    /// What its core did to the value.
    pub share: LinkedList<D>,
    /// What was fixed when the words were made.
    pub base: Option<B>,
    /// Whether it has the turn.
    pub turn: bool,
    /// The other core's registers, as taken with the turn.
    pub other: Record,
    /// What the other core did, as taken with the turn.
    pub other_share: LinkedList<D>,
    /// The core whose step runs, as taken with the turn.
    pub running: Option<u8>,
    /// Whether it holds the other core at rest. A quiet core that does not has it parked.
    pub held: bool,
    /// The run of both cores so far, as of its own last step.
    pub seen: LinkedList<Entry>,
    /// The same of the other core, once its seat was taken in.
    pub other_seen: LinkedList<Entry>,
}
