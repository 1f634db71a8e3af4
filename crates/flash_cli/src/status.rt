//! How a call of the program ends.

ghost use Rattle.std.specs.Prelude.{◌≡◌};
ghost use Rattle.flash_cli.specs.Status.{code_of};

use flash_text::Refusal;

/// How a call of the program ends.
#[derive(Clone, Copy, Debug, PartialEq, Eq)]
pub(crate) enum Status {
    /// The command was carried out.
    Done,
    /// The words are no command.
    Usage,
    /// The command was refused.
    Refused(Refusal),
    /// The store failed.
    StoreFault,
    /// The device failed in this step.
    DeviceFault { step: u64 },
    /// Power was lost in this step.
    PowerCut { step: u64 },
    /// There was no memory.
    Memory,
    /// The sink failed.
    SinkFault,
}

impl Status {
    /// The code with which the program ends.
    pub(crate) fn code(self) -> u8
        ensures exact { result ≡ code_of self }
    {
        match self {
            Status::Done => 0,
            Status::Usage => 1,
            Status::Refused(_) => 2,
            Status::StoreFault => 3,
            Status::DeviceFault { .. } => 4,
            Status::PowerCut { .. } => 5,
            Status::Memory => 6,
            Status::SinkFault => 7,
        }
    }
}
