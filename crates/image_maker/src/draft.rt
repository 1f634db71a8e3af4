//! The lines of a plan, one after the other.

ghost use Rattle.std.specs.Prelude.{◌≡◌, ◌==◌, ◌≤◌, ◌<◌, ◌+◌, ◌^◌, [], true, false, length, vec_len, IfOk, IfErr, IfSome, OnOk, MatchOption, Ok, Err};
ghost use Rattle.image_maker.specs.PlanText.{IsPlanOrMemory, IsRefusedAt, after_line, after_setting, choice_of, drafted, entry_of, flash_of, hash_of, is_name, nothing, part_in, plan_by, plan_of_text, with_part};
ghost use Rattle.pipe_ends.specs.Words.{words_of};

use crate::part::{Flash, PartLine};
use crate::plan::Plan;
use crate::refusal::{PlanNo, PlanWhy};
use pipe_ends::{begins_with, has_words, is_skipped, next_line, number_up_to, word_at};
use std::alloc::Global;

/// What the lines of a plan said so far.
#[derive(Debug, Drop)]
pub(crate) struct Draft {
    pub(crate) entry: Option<u32>,
    pub(crate) flash: Option<Flash>,
    pub(crate) hash: Option<bool>,
    pub(crate) lines: Vec<PartLine>,
}

/// A segment that a line names.
#[derive(Clone, Copy)]
struct NamedPart<'a> {
    load: u32,
    name: &'a str,
}

/// The choice of a word.
#[tactic(auto, unfolding(crate::specs::PlanText::choice_of))]
fn choice_of(word: &[u8]) -> Option<bool>
    ensures exact { result ≡ choice_of word.now }
{
    if word == b"on".as_slice() {
        Some(true)
    } else if word == b"off".as_slice() {
        Some(false)
    } else {
        None
    }
}

/// The name of a file that a word is.
#[tactic(auto, unfolding(crate::specs::PlanText::is_name))]
fn name_of(word: &[u8]) -> Option<&str>
    ensures exact { MatchOption result (is_name word.now ≡ false)
        (λ name. (is_name word.now ≡ true) × (name.now ≡ word.now)) }
{
    if begins_with(word, b'-') {
        return None;
    }
    match str::from_utf8(word) {
        Ok(name) => Some(name),
        Err(_) => None,
    }
}

/// The entry address of a line.
#[tactic(auto, unfolding(crate::specs::PlanText::entry_of))]
fn entry_of(line: &[u8], old: Option<u32>) -> Result<u32, PlanWhy>
    ensures exact { result ≡ entry_of (words_of line.now) old }
{
    if !has_words(line, 2) {
        return Err(PlanWhy::Count);
    }
    let Some(entry) = number_up_to(0xFFFF_FFFF, word_at(line, 1)) else {
        return Err(PlanWhy::Number);
    };
    if old.is_some() {
        return Err(PlanWhy::Twice);
    }
    Ok(entry as u32)
}

/// What a line says of the flash.
#[tactic(auto, unfolding(crate::specs::PlanText::flash_of))]
fn flash_of(line: &[u8], old: Option<Flash>) -> Result<Flash, PlanWhy>
    ensures exact { result ≡ flash_of (words_of line.now) old }
{
    if !has_words(line, 3) {
        return Err(PlanWhy::Count);
    }
    let Some(mode) = number_up_to(255, word_at(line, 1)) else {
        return Err(PlanWhy::Number);
    };
    let Some(size_freq) = number_up_to(255, word_at(line, 2)) else {
        return Err(PlanWhy::Number);
    };
    if old.is_some() {
        return Err(PlanWhy::Twice);
    }
    Ok(Flash {
        mode: mode as u8,
        size_freq: size_freq as u8,
    })
}

/// What a line says of the digest.
#[tactic(auto, unfolding(crate::specs::PlanText::hash_of))]
fn hash_of(line: &[u8], old: Option<bool>) -> Result<bool, PlanWhy>
    ensures exact { result ≡ hash_of (words_of line.now) old }
{
    if !has_words(line, 2) {
        return Err(PlanWhy::Count);
    }
    let Some(on) = choice_of(word_at(line, 1)) else {
        return Err(PlanWhy::Choice);
    };
    if old.is_some() {
        return Err(PlanWhy::Twice);
    }
    Ok(on)
}

/// The segment of a line, where so many came before.
#[tactic(auto, unfolding(crate::specs::PlanText::part_in))]
fn part_in(line: &[u8], count: usize) -> Result<NamedPart<'_>, PlanWhy>
    ensures ok { IfOk result (λ part. part_in (words_of line.now) count
        ≡ Ok (record { load = part.load; name = part.name.now })) }
    ensures err { IfErr result (λ why. part_in (words_of line.now) count ≡ Err why) }
    ensures room { OnOk result (count < 64) }
{
    if !has_words(line, 3) {
        return Err(PlanWhy::Count);
    }
    let Some(load) = number_up_to(0xFFFF_FFFF, word_at(line, 1)) else {
        return Err(PlanWhy::Number);
    };
    if count >= 64 {
        return Err(PlanWhy::TooMany);
    }
    let Some(name) = name_of(word_at(line, 2)) else {
        return Err(PlanWhy::Name);
    };
    Ok(NamedPart {
        load: load as u32,
        name,
    })
}

impl Draft {
    /// No line came yet.
    fn new(alloc: Global) -> Draft
        ensures exact { drafted result ≡ nothing }
        ensures few { vec_len result.lines ≤ 64 }
    {
        Draft {
            entry: None,
            flash: None,
            hash: None,
            lines: Vec::new(alloc),
        }
    }

    /// Takes a line of another kind than a segment.
    #[tactic(auto, unfolding(crate::specs::PlanText::after_setting))]
    fn set(&mut self, line: &[u8]) -> Result<(), PlanWhy>
        ensures ok { OnOk result (after_setting (drafted self.old) (words_of line.now)
            ≡ Ok (drafted self.new)) }
        ensures err { IfErr result (λ why. after_setting (drafted self.old) (words_of line.now)
            ≡ Err why) }
        ensures few { vec_len self.new.lines ≡ vec_len self.old.lines }
    {
        let key = word_at(line, 0);
        if key == b"entry".as_slice() {
            self.entry = Some(entry_of(line, self.entry)?);
            Ok(())
        } else if key == b"flash".as_slice() {
            self.flash = Some(flash_of(line, self.flash)?);
            Ok(())
        } else if key == b"hash".as_slice() {
            self.hash = Some(hash_of(line, self.hash)?);
            Ok(())
        } else {
            Err(PlanWhy::Word)
        }
    }

    /// Takes the line of this number.
    #[tactic(auto, unfolding(crate::specs::PlanText::after_line))]
    fn add(&mut self, alloc: Global, number: u64, line: &[u8]) -> Result<(), PlanNo>
        requires { vec_len self.old.lines ≤ 64 }
        ensures ok { OnOk result (after_line (drafted self.old) (words_of line.now)
            ≡ Ok (drafted self.new)) }
        ensures err { IfErr result (IsRefusedAt number
            (after_line (drafted self.old) (words_of line.now))) }
        ensures few { vec_len self.new.lines ≤ 64 }
    {
        if is_skipped(line) {
            return Ok(());
        }
        if word_at(line, 0) == b"segment".as_slice() {
            return self.add_part(alloc, number, line);
        }
        match self.set(line) {
            Ok(()) => Ok(()),
            Err(why) => Err(PlanNo::Bad { line: number, why }),
        }
    }

    /// Takes the line of a segment.
    fn add_part(&mut self, alloc: Global, number: u64, line: &[u8]) -> Result<(), PlanNo>
        requires { vec_len self.old.lines ≤ 64 }
        ensures ok { OnOk result (with_part (drafted self.old) (words_of line.now)
            ≡ Ok (drafted self.new)) }
        ensures err { IfErr result (IsRefusedAt number
            (with_part (drafted self.old) (words_of line.now))) }
        ensures few { vec_len self.new.lines ≤ 64 }
    {
        let part = match part_in(line, self.lines.len()) {
            Ok(part) => part,
            Err(why) => return Err(PlanNo::Bad { line: number, why }),
        };
        let load = part.load;
        let name = String::from_str(alloc, part.name)?;
        if self.lines.push(PartLine { load, name }).is_err() {
            return Err(PlanNo::Memory);
        }
        Ok(())
    }

    /// The plan after so many lines, all that there are.
    fn finish(self, count: u64) -> Result<Plan, PlanNo>
        requires { vec_len self.lines ≤ 64 }
        ensures exact { result ≡ plan_by count (drafted self) self.entry }
    {
        let Draft {
            entry,
            flash,
            hash,
            lines,
        } = self;
        let Some(entry) = entry else {
            return Err(PlanNo::Bad {
                line: count,
                why: PlanWhy::NoEntry,
            });
        };
        let flash = flash.unwrap_or(Flash {
            mode: 0x02,
            size_freq: 0x20,
        });
        Ok(Plan::new(entry, flash, hash.unwrap_or(true), lines))
    }
}

/// The plan that a text means, or the first reason why it means none.
pub(crate) fn read_plan(alloc: Global, text: &[u8]) -> Result<Plan, PlanNo>
    ensures exact { IsPlanOrMemory result (plan_of_text text.now) }
{
    let mut draft = Draft::new(alloc);
    let mut number = 0;
    let mut left = text;
    while let Some((line, rest)) = next_line(left) {
        number += 1;
        draft.add(alloc, number, line)?;
        left = rest;
    }
    draft.finish(number)
}
