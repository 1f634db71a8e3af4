//! What a seat knows of the pending words, and what a step on them was.
use std::collections::LinkedList;

/// For which cores a view stands.
pub enum Stage {
    /// For both, before the seats are dealt.
    New,
    /// For one core.
    One,
    /// For both again, once the seats are back.
    Both,
    /// For none: the seat was taken in by the other one.
    Spent,
}

/// What a step on the words was.
pub enum Act {
    /// These lines of a core were raised.
    Raised(u8, u32),
    /// The lines of a core within this mask were served.
    Served(u8, u32),
}

/// One entry of the run of both cores: by which core, 0 or 1, and what its step was. No value of it
/// is made.
pub struct Entry {
    pub by: u8,
    pub act: Act,
}

/// What a seat knows. No value of it is made.
pub struct View {
    pub stage: Stage,
    pub core: u8,
    /// The other core.
    pub other: u8,
    /// The run of both cores so far, as of its own last step.
    pub seen: LinkedList<Entry>,
    /// The same of the other core, once its seat was taken in.
    pub other_seen: LinkedList<Entry>,
}
