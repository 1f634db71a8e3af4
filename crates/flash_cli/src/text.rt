//! The lines that the program prints of its own: what a flash chooses and boots, and how it is
//! called.

ghost use Rattle.std.specs.Prelude.{◌≡◌, ◌++◌, OnOk, codes, map};
ghost use Rattle.flash_cli.specs.Text.{choice_text, usage_line};
ghost use Rattle.flash_cli.specs.Command.{joined, shown_row};

use crate::choice::Choice;
use crate::command::{Row, table};
use flash_text::{put_boots, put_entry, put_names, put_text};
use pipe_ends::Memory;

/// Appends the lines of a choice: both entries, the application that they name, and the one that
/// boots.
#[tactic(auto, unfolding(crate::specs::Text::choice_text))]
pub(crate) fn put_choice(out: &mut Vec<u8>, choice: &Choice) -> Result<(), Memory>
    ensures ok { OnOk result (out.new.items ≡ out.old.items ++ choice_text choice.now) }
{
    put_entry(out, 0, &choice.first)?;
    put_entry(out, 1, &choice.second)?;
    put_names(out, choice.app)?;
    put_boots(out, choice.boots, u64::from(choice.length))
}

/// Appends the line that says how the program is called: the words of the table of commands.
#[tactic(auto, unfolding(crate::specs::Text::usage_line))]
pub(crate) fn put_usage(out: &mut Vec<u8>) -> Result<(), Memory>
    ensures ok { OnOk result (out.new.items ≡ out.old.items ++ usage_line) }
{
    put_text(out, "usage: flash_cli ")?;
    put_words(out, &table())?;
    put_text(out, "\n")
}

/// Appends the words of rows of the table of commands, with a bar between two.
fn put_words(out: &mut Vec<u8>, rows: &[Row]) -> Result<(), Memory>
    ensures ok { OnOk result (out.new.items ≡ out.old.items ++ joined (map shown_row rows.now)) }
{
    match rows {
        [] => Ok(()),
        [row] => put_text(out, row.word),
        [row, more @ ..] => {
            put_text(out, row.word)?;
            put_text(out, "|")?;
            put_words(out, more)
        }
    }
}
