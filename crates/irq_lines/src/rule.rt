//! The rule of the table.
ghost use Rattle.irq_lines.specs.Views.{fresh};
ghost use Rattle.irq_lines.specs.Rule.{Ruled, EveryStateBalances};

use crate::view::View;
use atomic_table::TableRule;

/// One run of both cores leads to the pending words, and each view has seen a beginning of it.
pub struct Rule;

impl TableRule<(), View, ()> for Rule {
    ghost holds = { λ _. Ruled };

    ghost first = { λ _. fresh };
}

/// Whatever state meets the rule, of each line of each core the raises that found it clear, summed
/// over what the seats have seen, are its serves and what is pending; they are at most the calls, and
/// there is one where there was a call.
pub fn every_state_balances()
    ensures { EveryStateBalances (Unit {0}) }
{}
