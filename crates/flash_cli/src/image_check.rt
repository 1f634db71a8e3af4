//! The command `image-check FILE`.

ghost use Rattle.std.specs.Prelude.{◌≡◌, ◌≤◌};
ghost use Rattle.flash_cli.specs.Command.{ImageCheck};
ghost use Rattle.flash_cli.specs.ImageCheck.{image_check_answer};
ghost use Rattle.flash_cli.specs.Report.{IsEnd, IsWorkedOut, reading_of};

use crate::answer::Answer;
use crate::error::CommandError;
use crate::files::needed_file;
use crate::verified::verified;
use flash_text::put_image;
use pipe_ends::Store;
use std::alloc::Global;

/// The greatest length of an image.
const LARGEST_IMAGE: u32 = 16_777_216;

/// Carries out `image-check`: the lines of what a file is as a whole image, or the first fault that
/// it shows.
pub(crate) fn run_image_check<S: Store>(
    alloc: Global,
    store: &mut S,
    file: &str,
) -> Result<Answer, CommandError>
    ensures exact { IsEnd (S.files store.old) 0 (reading_of (ImageCheck file.now))
        (S.faults store.old) (S.faults store.new) result }
    ensures same { S.files store.new ≡ S.files store.old }
    ensures later { S.faults store.old ≤ S.faults store.new }
{
    let file = needed_file(alloc, store, 0, file)?;
    check_image(alloc, &file)
}

/// The lines of what a file is as a whole image.
fn check_image(alloc: Global, file: &[u8]) -> Result<Answer, CommandError>
    ensures exact { IsWorkedOut (image_check_answer file.now) result }
{
    let info = verified(file, LARGEST_IMAGE)?;
    let mut text = Vec::new(alloc);
    put_image(&mut text, &info)?;
    Ok(Answer::text_only(alloc, text))
}
