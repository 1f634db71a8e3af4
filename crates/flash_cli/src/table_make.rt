//! The command `table-make CSV OUT`.

ghost use Rattle.std.specs.Prelude.{◌≡◌, ◌≤◌, IfOk};
ghost use Rattle.partition_table.specs.Table.{table_text};
ghost use Rattle.flash_cli.specs.Command.{TableMake};
ghost use Rattle.flash_cli.specs.TableMake.{table_make_answer, csv_refusal};
ghost use Rattle.flash_cli.specs.Report.{IsEnd, IsWorkedOut, reading_of};

use crate::answer::Answer;
use crate::error::{CommandError, Failure};
use crate::files::needed_file;
use flash_text::{Refusal, put_count};
use part_csv::{CsvNo, read_csv};
use partition_table::{TABLE_SIZE, Table};
use pipe_ends::{Memory, Store};
use std::alloc::Global;

/// The size of the largest flash, which the tables of files are for.
pub(crate) const LARGEST_FLASH: u32 = 33_554_432;

/// Carries out `table-make`: the file with the table that a source means, or why it means none.
pub(crate) fn run_table_make<S: Store>(
    alloc: Global,
    store: &mut S,
    csv: &str,
    out: &str,
) -> Result<Answer, CommandError>
    ensures exact { IsEnd (S.files store.old) 0 (reading_of (TableMake csv.now out.now))
        (S.faults store.old) (S.faults store.new) result }
    ensures same { S.files store.new ≡ S.files store.old }
    ensures later { S.faults store.old ≤ S.faults store.new }
{
    let csv = needed_file(alloc, store, 0, csv)?;
    make_table(alloc, &csv, out)
}

/// The table that a source means, as the file that is put, and how many rows it has.
fn make_table(alloc: Global, csv: &[u8], out: &str) -> Result<Answer, CommandError>
    ensures exact { IsWorkedOut (table_make_answer out.now csv.now) result }
{
    let table = match read_csv(alloc, csv, LARGEST_FLASH) {
        Ok(table) => table,
        Err(CsvNo::At { number, why }) => return Err(Refusal::Csv { number, why }.into()),
        Err(CsvNo::Rules(bad)) => return Err(Refusal::Table(bad).into()),
        Err(CsvNo::Memory) => return Err(Failure::Memory.into()),
    };
    let mut text = Vec::new(alloc);
    put_count(&mut text, table.rows())?;
    Answer::with_file(alloc, text, out, table_bytes(alloc, &table)?)
}

/// The bytes of a table.
fn table_bytes(alloc: Global, table: &Table) -> Result<Vec<u8>, Memory>
    ensures exact { IfOk result (λ bytes. bytes.items ≡ table_text table.now) }
{
    let mut bytes = [0; TABLE_SIZE];
    table.put(&mut bytes);
    Ok(Vec::from_slice(alloc, &bytes)?)
}
