//! Why an update or a sweep may not begin, as a refusal of the program.

ghost use Rattle.std.specs.Prelude.{◌≡◌};
ghost use Rattle.flash_cli.specs.Unbegun.{error_of, refusal_of};

use crate::error::{CommandError, Failure};
use flash_text::Refusal;
use update_run::{OpeningNo, UpdateNo};

/// The refusal of an update or of a sweep that may not begin.
pub(crate) fn refusal_of(no: UpdateNo) -> Refusal
    ensures exact { result ≡ refusal_of no }
{
    match no {
        UpdateNo::Script { line, why } => Refusal::Script { line, why },
        UpdateNo::FlashSize { size } => Refusal::FlashSize { size },
        UpdateNo::Table(why) => Refusal::Table(why),
        UpdateNo::NotSettled(why) => Refusal::NotSettled(why),
        UpdateNo::Conflict { slot } => Refusal::Conflict { slot },
        UpdateNo::SlotFlags { slot, flags } => Refusal::SlotFlags { slot, flags },
        UpdateNo::SeqSpent { seq } => Refusal::SeqSpent { seq },
        UpdateNo::TooLarge { need, limit } => Refusal::TooLarge { need, limit },
        UpdateNo::SweepLimit { length, limit } => Refusal::SweepLimit { length, limit },
    }
}

/// The error of a command that may not begin, or for which memory ran out.
pub(crate) fn error_of(no: OpeningNo) -> CommandError
    ensures exact { result ≡ error_of no }
{
    match no {
        OpeningNo::Refused(why) => CommandError::Refused(refusal_of(why)),
        OpeningNo::Memory => CommandError::Failed(Failure::Memory),
    }
}
