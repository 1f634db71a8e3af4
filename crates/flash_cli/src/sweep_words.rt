//! The words of `sweep`: its names and its option.

ghost use Rattle.std.specs.Prelude.{◌≡◌, option_map};
ghost use Rattle.flash_cli.specs.Command.{words_of};
ghost use Rattle.flash_cli.specs.SweepWords.{shown_sweep, sweep_made, sweep_named, sweep_of};

use crate::command::{Kind, row_of, table};
use crate::update_words::{tear_by, value_of};

/// A sweep: the names of its files as they stand in the words, and the number of the bytes that
/// each cut step leaves.
#[derive(Clone, Copy, Debug, PartialEq, Eq)]
pub(crate) struct Sweep<'a> {
    pub(crate) flash: &'a str,
    pub(crate) image: &'a str,
    pub(crate) script: &'a str,
    pub(crate) tear: u64,
}

impl<'a> Sweep<'a> {
    /// The sweep that words are, where they are one.
    pub(crate) fn read(words: &'a [String]) -> Option<Sweep<'a>>
        ensures exact { option_map shown_sweep result ≡ sweep_of (words_of words.now) }
    {
        let [word, words @ ..] = words else {
            return None;
        };
        let row = row_of(&table(), word.as_str())?;
        if row.cores && row.fits(words) {
            Sweep::made(row.kind, &words[..row.names], &words[row.names..])
        } else {
            None
        }
    }

    /// The sweep that a command of this kind is, with these names and options.
    fn made(kind: Kind, names: &'a [String], options: &[String]) -> Option<Sweep<'a>>
        ensures exact { option_map shown_sweep result
            ≡ sweep_made kind (words_of names.now) (words_of options.now) }
    {
        match kind {
            Kind::Sweep => {
                let tear = tear_by(value_of("--tear", options))?;
                Sweep::named(names, tear)
            }
            _ => None,
        }
    }

    /// The sweep of these names with this tear number.
    fn named(names: &'a [String], tear: u64) -> Option<Sweep<'a>>
        ensures exact { option_map shown_sweep result ≡ sweep_named (words_of names.now) tear }
    {
        match names {
            [flash, image, script] => Some(Sweep {
                flash: flash.as_str(),
                image: image.as_str(),
                script: script.as_str(),
                tear,
            }),
            _ => None,
        }
    }
}
