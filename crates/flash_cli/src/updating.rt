//! The command `update FLASH IMAGE SCRIPT OUT`: its files, and the update of them.

ghost use Rattle.std.specs.Prelude.{◌≡◌, ◌≤◌, IfOk};
ghost use Rattle.update_run.specs.Options.{AreOptions};
ghost use Rattle.flash_cli.specs.Served.{AreReadable};
ghost use Rattle.flash_cli.specs.UpdateWords.{shown_update};
ghost use Rattle.flash_cli.specs.Updating.{IsUpdateEnd, UpdateOf};
ghost use Rattle.flash_cli.specs.Paced.{IsPacedUpdate, PacedOf};

use crate::error::{CommandError, Failure};
use crate::files::needed_file;
use crate::unbegun::error_of;
use crate::update_words::Update;
use flash_ops::Pace;
use pipe_ends::Store;
use power_cut::Trial;
use std::alloc::Global;
use std::sync::Wait;
use std::thread::Threads;
use update_run::{Options, make_update, open_update};

/// Reads the files of an update and makes it, or tells why it was not made.
pub(crate) fn run_update<S: Store, P: Pace + Sync, R: Threads + Wait + Sync>(
    rt: &R,
    alloc: Global,
    store: &mut S,
    update: &Update<'_>,
    pace: &P,
) -> Result<Trial, CommandError>
    requires options { AreOptions update.now.options }
    ensures exact { IsUpdateEnd (S.files store.old) (shown_update update.now)
        (S.faults store.old) (S.faults store.new) result }
    ensures readable { IfOk result AreReadable }
    ensures told { IfOk result
        (IsPacedUpdate (P.told pace.now) (S.files store.old) (shown_update update.now)) }
    ensures same { S.files store.new ≡ S.files store.old }
    ensures later { S.faults store.old ≤ S.faults store.new }
{
    let flash = needed_file(alloc, store, 0, update.flash)?;
    let image = needed_file(alloc, store, 1, update.image)?;
    let text = needed_file(alloc, store, 2, update.script)?;
    update_of(rt, alloc, flash, &image, &text, &update.options, pace)
}

/// Makes an update of these files, or tells why it may not begin.
fn update_of<P: Pace + Sync, R: Threads + Wait + Sync>(
    rt: &R,
    alloc: Global,
    flash: Vec<u8>,
    image: &[u8],
    text: &[u8],
    options: &Options,
    pace: &P,
) -> Result<Trial, CommandError>
    requires options { AreOptions options.now }
    ensures exact { UpdateOf flash.items image.now text.now options.now result }
    ensures readable { IfOk result AreReadable }
    ensures told { IfOk result
        (PacedOf (P.told pace.now) flash.items image.now text.now options.now) }
{
    let opening = match open_update(alloc, flash, image, text) {
        Ok(opening) => opening,
        Err(no) => return Err(error_of(no)),
    };
    match make_update(rt, alloc, opening, image, options, pace) {
        Ok(trial) => Ok(trial),
        Err(_) => Err(CommandError::Failed(Failure::Memory)),
    }
}
