//! The command `table-show FILE`.

ghost use Rattle.std.specs.Prelude.{◌≡◌, ◌≤◌, IfOk, IfErr};
ghost use Rattle.partition_table.specs.Rules.{FitsFlash};
ghost use Rattle.flash_cli.specs.Command.{TableShow};
ghost use Rattle.flash_cli.specs.TableShow.{file_rows, table_show_answer};
ghost use Rattle.flash_cli.specs.Report.{IsEnd, IsWorkedOut, reading_of};

use crate::answer::Answer;
use crate::error::CommandError;
use crate::files::needed_file;
use crate::table_make::LARGEST_FLASH;
use flash_text::{Refusal, put_rows_lines};
use partition_table::{TABLE_SIZE, Table};
use pipe_ends::Store;
use std::alloc::Global;

/// Carries out `table-show`: the lines of a table's partitions, or why it has none.
pub(crate) fn run_table_show<S: Store>(
    alloc: Global,
    store: &mut S,
    file: &str,
) -> Result<Answer, CommandError>
    ensures exact { IsEnd (S.files store.old) 0 (reading_of (TableShow file.now))
        (S.faults store.old) (S.faults store.new) result }
    ensures same { S.files store.new ≡ S.files store.old }
    ensures later { S.faults store.old ≤ S.faults store.new }
{
    let file = needed_file(alloc, store, 0, file)?;
    show_table(alloc, &file)
}

/// The lines of the partitions of a table file.
fn show_table(alloc: Global, file: &[u8]) -> Result<Answer, CommandError>
    ensures exact { IsWorkedOut (table_show_answer file.now) result }
{
    let table = file_table(file, LARGEST_FLASH)?;
    let mut text = Vec::new(alloc);
    put_rows_lines(&mut text, table.rows())?;
    Ok(Answer::text_only(alloc, text))
}

/// The table of a file, for a flash of this size, or why it has none.
#[tactic(auto, unfolding(crate::specs::TableShow::file_rows))]
pub(crate) fn file_table(file: &[u8], flash: u32) -> Result<Table, Refusal>
    ensures ok { IfOk result (λ table. file_rows file.now flash ≡ Ok table) }
    ensures fits { IfOk result (FitsFlash flash) }
    ensures err { IfErr result (λ why. file_rows file.now flash ≡ Err why) }
{
    if file.len() != TABLE_SIZE {
        return Err(Refusal::TableLength {
            length: file.len() as u64,
        });
    }
    let mut bytes = [0; TABLE_SIZE];
    bytes.copy_from_slice(file);
    match Table::read(&bytes, flash) {
        Ok(table) => Ok(table),
        Err(why) => Err(Refusal::Table(why)),
    }
}
