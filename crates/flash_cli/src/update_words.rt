//! The words of `update`: its names and its options.

ghost use Rattle.std.specs.Prelude.{◌≡◌, ◌≤◌, IfSome, option_map, option_copied};
ghost use Rattle.crash_images.specs.Cut.{IsAhead};
ghost use Rattle.flash_cli.specs.Command.{words_of};
ghost use Rattle.update_run.specs.Options.{AreOptions};
ghost use Rattle.flash_cli.specs.UpdateWords.{are_both, driver_by, named, options_of, shown_update, step_by, tear_by, update_made, update_of, upto_by, upto_named, value_of};

use crate::command::{Kind, row_of, table};
use pipe_ends::{number_up_to, read_number};
use power_cut::Upto;
use update_run::Options;

/// An update: the names of its files as they stand in the words, and its options.
#[derive(Clone, Copy, Debug, PartialEq, Eq)]
pub(crate) struct Update<'a> {
    pub(crate) flash: &'a str,
    pub(crate) image: &'a str,
    pub(crate) script: &'a str,
    pub(crate) out: &'a str,
    pub(crate) options: Options,
}

impl<'a> Update<'a> {
    /// The update that words are, where they are one.
    pub(crate) fn read(words: &'a [String]) -> Option<Update<'a>>
        ensures exact { option_map shown_update result ≡ update_of (words_of words.now) }
        ensures sound { IfSome result (λ update. AreOptions update.options) }
    {
        let [word, words @ ..] = words else {
            return None;
        };
        let row = row_of(&table(), word.as_str())?;
        if row.cores && row.fits(words) {
            Update::made(row.kind, &words[..row.names], &words[row.names..])
        } else {
            None
        }
    }

    /// The update that a command of this kind is, with these names and options.
    fn made(kind: Kind, names: &'a [String], options: &[String]) -> Option<Update<'a>>
        ensures exact { option_map shown_update result
            ≡ update_made kind (words_of names.now) (words_of options.now) }
        ensures sound { IfSome result (λ update. AreOptions update.options) }
    {
        match kind {
            Kind::Update => {
                let options = options_of(options)?;
                Update::named(names, options)
            }
            _ => None,
        }
    }

    /// The update of these names with these options.
    fn named(names: &'a [String], options: Options) -> Option<Update<'a>>
        requires sound { AreOptions options }
        ensures exact { option_map shown_update result ≡ named (words_of names.now) options }
        ensures sound { IfSome result (λ update. AreOptions update.options) }
    {
        match names {
            [flash, image, script, out] => Some(Update {
                flash: flash.as_str(),
                image: image.as_str(),
                script: script.as_str(),
                out: out.as_str(),
                options,
            }),
            _ => None,
        }
    }
}

/// The options that words are, where each value is one, and at most one step is to end badly.
#[tactic(auto, unfolding(crate::specs::UpdateWords::options_of))]
fn options_of(words: &[String]) -> Option<Options>
    ensures exact { result ≡ options_of (words_of words.now) }
    ensures sound { IfSome result AreOptions }
{
    let driver = driver_by(value_of("--driver", words))?;
    let cut = step_by(value_of("--cut", words))?;
    let tear = tear_by(value_of("--tear", words))?;
    let fail = step_by(value_of("--fail", words))?;
    let upto = upto_by(value_of("--upto", words))?;
    if are_both(cut, fail) {
        return None;
    }
    Some(Options {
        driver,
        cut,
        tear,
        fail,
        upto,
    })
}

/// The value of an option among options with their values, if it is there.
pub(crate) fn value_of<'a>(option: &str, words: &'a [String]) -> Option<&'a str>
    ensures exact { option_copied result ≡ value_of option.now (words_of words.now) }
{
    let mut left = words;
    while let [word, value, more @ ..] = left {
        if word.as_str() == option {
            return Some(value.as_str());
        }
        left = more;
    }
    None
}

/// The core that writes: 0 or 1, and 0 where nothing is said.
fn driver_by(value: Option<&str>) -> Option<u8>
    ensures exact { result ≡ driver_by (option_copied value.entry) }
    ensures most { IfSome result (λ driver. driver ≤ 1) }
{
    match value {
        None => Some(0),
        Some(word) => match number_up_to(1, word.as_bytes()) {
            Some(driver) => Some(driver as u8),
            None => None,
        },
    }
}

/// The number of a step, from 1, which may be left out.
fn step_by(value: Option<&str>) -> Option<Option<u64>>
    ensures exact { result ≡ step_by (option_copied value.entry) }
    ensures some { IfSome result (λ step. IsAhead step 0) }
{
    match value {
        None => Some(None),
        Some(word) => match read_number(word.as_bytes()) {
            None => None,
            Some(step) => { if step == 0 { None } else { Some(Some(step)) } }
        },
    }
}

/// The number of the bytes that a broken step leaves, 0 where nothing is said.
pub(crate) fn tear_by(value: Option<&str>) -> Option<u64>
    ensures exact { result ≡ tear_by (option_copied value.entry) }
{
    match value {
        None => Some(0),
        Some(word) => read_number(word.as_bytes()),
    }
}

/// How far an update is to go: to its end where nothing is said.
fn upto_by(value: Option<&str>) -> Option<Upto>
    ensures exact { result ≡ upto_by (option_copied value.entry) }
{
    match value {
        None => Some(Upto::Confirm),
        Some(word) => upto_named(word),
    }
}

/// How far the update that a word names is to go.
fn upto_named(word: &str) -> Option<Upto>
    ensures exact { result ≡ upto_named word.now }
{
    if word == "session" {
        Some(Upto::Session)
    } else if word == "boot" {
        Some(Upto::Boot)
    } else if word == "confirm" {
        Some(Upto::Confirm)
    } else {
        None
    }
}

/// Whether both a step is given in which the power goes off, and one in which the device fails.
fn are_both(cut: Option<u64>, fail: Option<u64>) -> bool
    ensures exact { result ≡ are_both cut fail }
{
    match (cut, fail) {
        (Some(_), Some(_)) => true,
        (Some(_), None) => false,
        (None, _) => false,
    }
}
