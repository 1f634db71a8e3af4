//! What may happen next in the two-core machine.
use core_state::Regs;
use image_layout::Space;

/// What a core does. The other core is the one that is not the event's.
#[derive(Clone, Copy, Debug, PartialEq, Eq)]
pub enum Kind {
    /// A resting core begins to run.
    Start,
    /// A running core goes to rest.
    Rest,
    /// It takes the lock.
    Take,
    /// It gives the lock back.
    Give,
    /// It saves its registers and masks them.
    Save,
    /// It puts its registers back in force.
    Back,
    /// It holds the other core at rest.
    Hold,
    /// It asks the other core to park.
    Ask,
    /// It parks, as it was asked.
    Park,
    /// It sees the other core parked.
    See,
    /// A step on the flash begins.
    Begin,
    /// The step is done.
    Done,
    /// It lets the other core go.
    End,
    /// A freed core runs again.
    Leave,
    /// It sets its registers.
    Set(Regs),
    /// It reads through the cache.
    Fetch(Space),
}

/// An event of a core, 0 or 1.
#[derive(Clone, Copy, Debug, PartialEq, Eq)]
pub struct Event {
    pub core: u8,
    pub kind: Kind,
}
