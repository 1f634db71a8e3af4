//! The command `choose FLASH`.

ghost use Rattle.std.specs.Prelude.{◌≡◌, ◌≤◌};
ghost use Rattle.flash_cli.specs.Command.{Choose};
ghost use Rattle.flash_cli.specs.Choose.{choose_answer};
ghost use Rattle.flash_cli.specs.Report.{IsEnd, IsWorkedOut, reading_of};

use crate::answer::Answer;
use crate::choice::choose;
use crate::error::CommandError;
use crate::files::needed_file;
use crate::text::put_choice;
use pipe_ends::Store;
use std::alloc::Global;

/// Carries out `choose`: the lines of what the OTA data choose, or why there are none.
pub(crate) fn run_choose<S: Store>(
    alloc: Global,
    store: &mut S,
    flash: &str,
) -> Result<Answer, CommandError>
    ensures exact { IsEnd (S.files store.old) 0 (reading_of (Choose flash.now))
        (S.faults store.old) (S.faults store.new) result }
    ensures same { S.files store.new ≡ S.files store.old }
    ensures later { S.faults store.old ≤ S.faults store.new }
{
    let flash = needed_file(alloc, store, 0, flash)?;
    choose_lines(alloc, &flash)
}

/// The lines of what the OTA data of a flash choose.
fn choose_lines(alloc: Global, flash: &[u8]) -> Result<Answer, CommandError>
    ensures exact { IsWorkedOut (choose_answer flash.now) result }
{
    let choice = choose(flash)?;
    let mut text = Vec::new(alloc);
    put_choice(&mut text, &choice)?;
    Ok(Answer::text_only(alloc, text))
}
