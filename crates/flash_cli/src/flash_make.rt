//! The command `flash-make TABLE APP SIZE OUT`.

ghost use Rattle.std.specs.Prelude.{◌≡◌, ◌≤◌, ◌+◌, IfOk, OnOk, length};
ghost use Rattle.partition_table.specs.Rules.{FitsFlash};
ghost use Rattle.partition_table.specs.Layout.{layout_of};
ghost use Rattle.flash_cli.specs.Command.{FlashMake};
ghost use Rattle.flash_cli.specs.FlashMake.{erased_flash, flash_by_layout, flash_in_factory, flash_make_answer, flash_with, made_flash, with_at};
ghost use Rattle.flash_cli.specs.Report.{AreWorkedOut, IsEnd, IsWorkedOut, reading_of};

use crate::answer::Answer;
use crate::error::CommandError;
use crate::files::needed_file;
use crate::table_show::file_table;
use crate::verified::verified;
use flash_text::{Refusal, put_length};
use nor_device::is_flash_size;
use partition_table::{Row, TABLE_OFFSET, TABLE_SIZE, Table};
use pipe_ends::{Memory, Store};
use std::alloc::Global;

/// Carries out `flash-make`: the file with a flash of so many bytes that has a table and an image
/// in its factory partition, or why there is none.
pub(crate) fn run_flash_make<S: Store>(
    alloc: Global,
    store: &mut S,
    table: &str,
    image: &str,
    size: u64,
    out: &str,
) -> Result<Answer, CommandError>
    ensures exact { IsEnd (S.files store.old) 0
        (reading_of (FlashMake table.now image.now size out.now))
        (S.faults store.old) (S.faults store.new) result }
    ensures same { S.files store.new ≡ S.files store.old }
    ensures later { S.faults store.old ≤ S.faults store.new }
{
    let table = needed_file(alloc, store, 0, table)?;
    let image = needed_file(alloc, store, 1, image)?;
    put_flash(alloc, &table, &image, size, out)
}

/// The flash as the file that is put, and how long the image is.
fn put_flash(
    alloc: Global,
    table: &[u8],
    image: &[u8],
    size: u64,
    out: &str,
) -> Result<Answer, CommandError>
    ensures exact { IsWorkedOut (flash_make_answer table.now image.now size out.now) result }
{
    let flash = make_flash(alloc, table, image, size)?;
    let mut text = Vec::new(alloc);
    put_length(&mut text, image.len() as u64)?;
    Answer::with_file(alloc, text, out, flash)
}

/// The flash of so many bytes with the table of a table file and an image in factory.
#[tactic(auto, unfolding(crate::specs::FlashMake::made_flash))]
fn make_flash(alloc: Global, table: &[u8], image: &[u8], size: u64) -> Result<Vec<u8>, CommandError>
    ensures exact { AreWorkedOut (made_flash table.now image.now size) result }
{
    if !is_flash_size(size as usize) {
        return Err(Refusal::FlashSize { size }.into());
    }
    let size = size as u32;
    let table = file_table(table, size)?;
    flash_of_table(alloc, &table, size, image)
}

/// The flash of so many bytes with a table and an image in factory.
fn flash_of_table(
    alloc: Global,
    table: &Table,
    size: u32,
    image: &[u8],
) -> Result<Vec<u8>, CommandError>
    requires fits { FitsFlash size table.now }
    requires least { 0x8C00 ≤ size }
    ensures exact { AreWorkedOut
        (flash_by_layout size table.now (layout_of table.now) image.now) result }
{
    match table.layout() {
        Ok(layout) => flash_in_factory(alloc, table, size, &layout.factory, image),
        Err(why) => Err(Refusal::Table(why).into()),
    }
}

/// The flash of so many bytes with a table, and with an image in this partition, which has to have
/// room for it.
fn flash_in_factory(
    alloc: Global,
    table: &Table,
    size: u32,
    factory: &Row,
    image: &[u8],
) -> Result<Vec<u8>, CommandError>
    requires least { 0x8C00 ≤ size }
    requires inside { factory.now.offset + factory.now.size ≤ size }
    ensures exact { AreWorkedOut (flash_in_factory size table.now factory.now image.now) result }
{
    verified(image, factory.size)?;
    let flash = flash_with(alloc, size as usize, table, factory.offset as usize, image)?;
    Ok(flash)
}

/// An erased flash of so many bytes with a table, and with an image at this place.
#[tactic(auto, unfolding(crate::specs::FlashMake::flash_with))]
fn flash_with(
    alloc: Global,
    size: usize,
    table: &Table,
    at: usize,
    image: &[u8],
) -> Result<Vec<u8>, Memory>
    requires least { 0x8C00 ≤ size }
    requires inside { at + length image.now ≤ size }
    ensures exact { IfOk result (λ flash. flash.items ≡ flash_with size table.now at image.now) }
{
    let mut bytes = [0; TABLE_SIZE];
    table.put(&mut bytes);
    let mut flash = erased_flash(alloc, size)?;
    put_at(&mut flash, TABLE_OFFSET as usize, &bytes);
    put_at(&mut flash, at, image);
    Ok(flash)
}

/// An erased flash of so many bytes.
#[tactic(auto, unfolding(crate::specs::FlashMake::erased_flash))]
fn erased_flash(alloc: Global, size: usize) -> Result<Vec<u8>, Memory>
    ensures exact { IfOk result (λ flash. flash.items ≡ erased_flash size) }
    ensures length { IfOk result (λ flash. length flash.items ≡ size) }
{
    match vec![in alloc; 0xFFu8; size] {
        Ok(flash) => Ok(flash),
        Err(_) => Err(Memory),
    }
}

/// Writes bytes at a place of a flash.
fn put_at(flash: &mut [u8], at: usize, bytes: &[u8])
    requires { at + length bytes.now ≤ length flash.old }
    ensures exact { flash.new ≡ with_at at bytes.now flash.old }
    ensures length { length flash.new ≡ length flash.old }
{
    flash[at..at + bytes.len()].copy_from_slice(bytes);
}
