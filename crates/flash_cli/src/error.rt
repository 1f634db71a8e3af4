//! Why a command came to no answer.

ghost use Rattle.std.specs.Prelude.{◌≡◌};

use crate::status::Status;
use flash_text::Refusal;
use image_verify::BadImage;
use pipe_ends::Memory;

/// What failed, so that the program couldn't go on.
#[derive(Clone, Copy, Debug, PartialEq, Eq)]
pub(crate) enum Failure {
    /// The store failed, and counted it.
    Store,
    /// Out of memory.
    Memory,
}

impl Failure {
    /// The status of a call that ends by it.
    pub(crate) fn status(self) -> Status
        ensures store { self ≡ Failure.Store → result ≡ Status.StoreFault }
        ensures memory { self ≡ Failure.Memory → result ≡ Status.Memory }
    {
        match self {
            Failure::Store => Status::StoreFault,
            Failure::Memory => Status::Memory,
        }
    }
}

/// Why a command was not carried out.
#[derive(Debug, PartialEq, Eq, Drop)]
pub(crate) enum CommandError {
    /// The store has no file of this name. Files are numbered from 0, as the command reads them.
    Absent { file: u32, name: String },
    /// Something is wrong in the files that it reads.
    Refused(Refusal),
    /// The program couldn't go on.
    Failed(Failure),
}

impl From<Memory> for Failure {
    ghost use Rattle.flash_cli.specs.declared.error.Failure.TheVariants.{Memory};

    ghost from_gives = { λ _ failure. failure ≡ Memory };

    /// Out of memory.
    fn from(_none: Memory) -> Failure {
        Failure::Memory
    }
}

impl From<Refusal> for CommandError {
    ghost use Rattle.flash_cli.specs.declared.error.CommandError.TheVariants.{Refused};

    ghost from_gives = { λ why error. error ≡ Refused why };

    /// The refusal of the command.
    fn from(why: Refusal) -> CommandError {
        CommandError::Refused(why)
    }
}

impl From<BadImage> for CommandError {
    ghost use Rattle.flash_cli.specs.declared.error.CommandError.TheVariants.{Refused};
    ghost use Rattle.flash_text.specs.declared.refusal.Refusal.TheVariants.{Image};

    ghost from_gives = { λ why error. error ≡ Refused (Image why) };

    /// The refusal of a file that is no whole image.
    fn from(why: BadImage) -> CommandError {
        CommandError::Refused(Refusal::Image(why))
    }
}

impl From<Failure> for CommandError {
    ghost use Rattle.flash_cli.specs.declared.error.CommandError.TheVariants.{Failed};

    ghost from_gives = { λ failure error. error ≡ Failed failure };

    /// The failure.
    fn from(failure: Failure) -> CommandError {
        CommandError::Failed(failure)
    }
}

impl From<Memory> for CommandError {
    ghost use Rattle.flash_cli.specs.declared.error.CommandError.TheVariants.{Failed};
    ghost use Rattle.flash_cli.specs.declared.error.Failure.TheVariants.{Memory};

    ghost from_gives = { λ _ error. error ≡ Failed Memory };

    /// Out of memory.
    fn from(_none: Memory) -> CommandError {
        CommandError::Failed(Failure::Memory)
    }
}
