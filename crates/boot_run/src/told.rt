//! What a confirmation and a rejection tell, or why they were refused.

/// The application that was confirmed or rejected.
#[derive(Clone, Copy, Debug, PartialEq, Eq)]
pub struct Told {
    /// The slot that the active entry names.
    pub slot: u8,
    /// How many steps the rewrite was; 0 where there was none.
    pub steps: u32,
}

/// Why an application was not confirmed.
#[derive(Clone, Copy, Debug, PartialEq, Eq)]
pub enum ConfirmFault {
    /// No entry is active.
    NoOtaApp,
    /// The device failed, and counted it.
    Device,
    /// The power is off.
    Cut,
}

/// Why an application was not rejected: the first reason, in this order.
#[derive(Clone, Copy, Debug, PartialEq, Eq)]
pub enum RejectFault {
    /// No entry is active.
    NoOtaApp,
    /// Without it no application would be started, or the one of the same slot.
    NothingElse,
    /// The device failed, and counted it.
    Device,
    /// The power is off.
    Cut,
}
