//! Every step on the table, as a type that says what the step tells.
ghost use Rattle.irq_lines.specs.Views.{dealt, both_of, spent};
ghost use Rattle.irq_lines.specs.Told.{TellsRaised, TellsServed};

use crate::view::View;
use atomic_table::{Join, Play, Split};

/// Two cores in place of one view.
pub(crate) struct Deal;

impl Split<View> for Deal {
    ghost left = { λ _. dealt 0 1 };

    ghost right = { λ _. dealt 1 0 };
}

/// One view in place of two.
pub(crate) struct Close;

impl Join<View> for Close {
    ghost both = { both_of };

    ghost spent = { spent };
}

/// The bits of the operand are set.
pub(crate) struct Raise;

impl Play<(), View> for Raise {
    ghost then = { TellsRaised };
}

/// All bits but those of the operand are cleared.
pub(crate) struct Serve;

impl Play<(), View> for Serve {
    ghost then = { TellsServed };
}
