//! The action of one line.

ghost use Rattle.std.specs.Prelude.{◌≡◌, ◌⊎◌, ◌==◌, ◌≤◌, ◌+◌, ◌%◌, ◌&&◌, ◌^◌, ◌<◌, true, false, nat_le, length, option_map, Ok, Err, IfOk, IfErr, IfSome, MatchOption};
ghost use Rattle.pipe_ends.specs.Number.{is_among};
ghost use Rattle.pipe_ends.specs.Words.{word_in, words_of};
ghost use Rattle.core_script.specs.Action.{IsInBounds};
ghost use Rattle.core_script.specs.ScriptText.{IsRefusedAt, action_of, erase_of, fetch_of, irq_of, label_of, map_of, mask_of, number_in, plain_of, space_of, spelled_bytes, unmap_of, write_of};

use crate::action::{Action, Label};
use crate::refusal::{ScriptNo, ScriptWhy};
use hex::FromHexError;
use image_layout::Space;
use nor_device::Page;
use pipe_ends::{has_words, number_up_to, word_at};
use std::alloc::Global;

/// The number of 32 bits that the word of this number spells.
fn number_in(number: usize, line: &[u8]) -> Option<u32>
    ensures exact { result ≡ number_in number (words_of line.now) }
{
    match number_up_to(0xFFFF_FFFF, word_at(line, number)) {
        Some(n) => Some(n as u32),
        None => None,
    }
}

/// The space that a word names.
#[tactic(auto, unfolding(crate::specs::ScriptText::space_of))]
fn space_of(word: &[u8]) -> Option<Space>
    ensures exact { result ≡ space_of word.now }
{
    if word == b"data".as_slice() {
        Some(Space::Data)
    } else if word == b"code".as_slice() {
        Some(Space::Code)
    } else {
        None
    }
}

/// The label that a word is.
fn label_of(word: &[u8]) -> Option<Label>
    ensures exact { result ≡ label_of word.now }
{
    match Label::try_from(word) {
        Ok(label) => Some(label),
        Err(_) => None,
    }
}

/// The action of a line `fetch ADDR LEN`.
#[tactic(auto, unfolding(crate::specs::ScriptText::fetch_of))]
fn fetch_of(line: &[u8]) -> Result<Action, ScriptWhy>
    ensures exact { result ≡ fetch_of (words_of line.now) }
    ensures bounds { IfOk result IsInBounds }
{
    if !has_words(line, 3) {
        return Err(ScriptWhy::Count);
    }
    let Some(at) = number_in(1, line) else {
        return Err(ScriptWhy::Number);
    };
    let Some(len) = number_in(2, line) else {
        return Err(ScriptWhy::Number);
    };
    if len < 1 || 256 < len {
        return Err(ScriptWhy::Length);
    }
    Ok(Action::Fetch { at, len })
}

/// The action of a line `mask N`.
#[tactic(auto, unfolding(crate::specs::ScriptText::mask_of))]
fn mask_of(line: &[u8]) -> Result<Action, ScriptWhy>
    ensures exact { result ≡ mask_of (words_of line.now) }
    ensures bounds { IfOk result IsInBounds }
{
    if !has_words(line, 2) {
        return Err(ScriptWhy::Count);
    }
    let Some(mask) = number_in(1, line) else {
        return Err(ScriptWhy::Number);
    };
    if mask > 3 {
        return Err(ScriptWhy::Length);
    }
    Ok(Action::Mask(mask as u8))
}

/// The action of a line `irq N`.
#[tactic(auto, unfolding(crate::specs::ScriptText::irq_of))]
fn irq_of(line: &[u8]) -> Result<Action, ScriptWhy>
    ensures exact { result ≡ irq_of (words_of line.now) }
    ensures bounds { IfOk result IsInBounds }
{
    if !has_words(line, 2) {
        return Err(ScriptWhy::Count);
    }
    let Some(irq) = number_in(1, line) else {
        return Err(ScriptWhy::Number);
    };
    Ok(Action::Irq(irq))
}

/// The action of a line `map data PAGE N` or `map code PAGE N`.
#[tactic(auto, unfolding(crate::specs::ScriptText::map_of))]
fn map_of(line: &[u8]) -> Result<Action, ScriptWhy>
    ensures exact { result ≡ map_of (words_of line.now) }
    ensures bounds { IfOk result IsInBounds }
{
    if !has_words(line, 4) {
        return Err(ScriptWhy::Count);
    }
    let Some(space) = space_of(word_at(line, 1)) else {
        return Err(ScriptWhy::Space);
    };
    let Some(page) = number_in(2, line) else {
        return Err(ScriptWhy::Number);
    };
    let Some(n) = number_in(3, line) else {
        return Err(ScriptWhy::Number);
    };
    let Some(n) = run_of(page, n) else {
        return Err(ScriptWhy::Length);
    };
    Ok(Action::Map { space, page, n })
}

/// The length of a run of flash pages from `page` on, if it is in its bounds.
fn run_of(page: u32, n: u32) -> Option<u8>
    ensures exact { MatchOption result
        ((is_among 1 64 n && nat_le (page + n) 256) ≡ false)
        (λ run. (run ≡ n) × ((is_among 1 64 n && nat_le (page + n) 256) ≡ true)) }
    ensures bounds { IfSome result (λ run. (1 ≤ run) × (run ≤ 64) × (page + run ≤ 256)) }
{
    if n < 1 || 64 < n || 256 < n || 256 - n < page {
        return None;
    }
    Some(n as u8)
}

/// The action of a line `unmap ADDR`.
#[tactic(auto, unfolding(crate::specs::ScriptText::unmap_of))]
fn unmap_of(line: &[u8]) -> Result<Action, ScriptWhy>
    ensures exact { result ≡ unmap_of (words_of line.now) }
    ensures bounds { IfOk result IsInBounds }
{
    if !has_words(line, 2) {
        return Err(ScriptWhy::Count);
    }
    let Some(at) = number_in(1, line) else {
        return Err(ScriptWhy::Number);
    };
    Ok(Action::Unmap { at })
}

/// The action of a line `erase LABEL OFFSET LEN`.
#[tactic(auto, unfolding(crate::specs::ScriptText::erase_of))]
fn erase_of(line: &[u8]) -> Result<Action, ScriptWhy>
    ensures exact { result ≡ erase_of (words_of line.now) }
    ensures bounds { IfOk result IsInBounds }
{
    if !has_words(line, 4) {
        return Err(ScriptWhy::Count);
    }
    let Some(offset) = number_in(2, line) else {
        return Err(ScriptWhy::Number);
    };
    let Some(len) = number_in(3, line) else {
        return Err(ScriptWhy::Number);
    };
    let Some(label) = label_of(word_at(line, 1)) else {
        return Err(ScriptWhy::Label);
    };
    if len < 1 {
        return Err(ScriptWhy::Length);
    }
    Ok(Action::Erase { label, offset, len })
}

/// The action of a line of another kind than `write`.
#[tactic(auto, unfolding(crate::specs::ScriptText::plain_of))]
fn plain_of(line: &[u8]) -> Result<Action, ScriptWhy>
    ensures exact { result ≡ plain_of (words_of line.now) }
    ensures bounds { IfOk result IsInBounds }
{
    let key = word_at(line, 0);
    if key == b"fetch".as_slice() {
        fetch_of(line)
    } else if key == b"mask".as_slice() {
        mask_of(line)
    } else if key == b"irq".as_slice() {
        irq_of(line)
    } else if key == b"map".as_slice() {
        map_of(line)
    } else if key == b"unmap".as_slice() {
        unmap_of(line)
    } else if key == b"erase".as_slice() {
        erase_of(line)
    } else {
        Err(ScriptWhy::Word)
    }
}

/// The refusal of the line of this number.
fn refused(line: u64, why: ScriptWhy) -> ScriptNo
    ensures exact { result ≡ ScriptNo.Bad line why }
{
    ScriptNo::Bad { line, why }
}

/// The bytes of a write at this offset, if they stay inside one page of 256 bytes.
fn page_of(offset: u32, bytes: &[u8]) -> Option<Page>
    ensures exact { MatchOption result
        ((is_among 1 256 (length bytes.now) && nat_le (offset % 256 + length bytes.now) 256)
        ≡ false)
        (λ page. (page ≡ bytes.now)
        × ((is_among 1 256 (length bytes.now)
        && nat_le (offset % 256 + length bytes.now) 256) ≡ true)) }
    ensures bounds { IfSome result (λ page. (1 ≤ length page)
        × (offset % 256 + length page ≤ 256)) }
{
    let page = Page::of(bytes)?;
    if bytes.len() <= 256 - offset as usize % 256 {
        Some(page)
    } else {
        None
    }
}

/// The bytes that a word spells, if it does.
#[tactic(auto, unfolding(crate::specs::ScriptText::spelled_bytes))]
fn bytes_of(alloc: Global, number: u64, word: &[u8]) -> Result<Vec<u8>, ScriptNo>
    ensures ok { IfOk result (λ bytes. spelled_bytes word.now ≡ Some bytes.items) }
    ensures err { IfErr result (λ no. (no ≡ ScriptNo.Memory)
        ⊎ ((no ≡ ScriptNo.Bad number ScriptWhy.Hex) × (spelled_bytes word.now ≡ None))) }
{
    match hex::decode(alloc, word) {
        Ok(bytes) => Ok(bytes),
        Err(FromHexError::OutOfMemory) => Err(ScriptNo::Memory),
        Err(_) => Err(refused(number, ScriptWhy::Hex)),
    }
}

/// The action of a line `write LABEL OFFSET HEX`.
#[tactic(auto, unfolding(crate::specs::ScriptText::write_of))]
fn write_of(alloc: Global, number: u64, line: &[u8]) -> Result<Action, ScriptNo>
    ensures ok { IfOk result (λ action. write_of (words_of line.now) ≡ Ok action) }
    ensures err { IfErr result (IsRefusedAt number (write_of (words_of line.now))) }
    ensures bounds { IfOk result IsInBounds }
{
    if !has_words(line, 4) {
        return Err(refused(number, ScriptWhy::Count));
    }
    let Some(offset) = number_in(2, line) else {
        return Err(refused(number, ScriptWhy::Number));
    };
    let Some(label) = label_of(word_at(line, 1)) else {
        return Err(refused(number, ScriptWhy::Label));
    };
    let spelled = bytes_of(alloc, number, word_at(line, 3))?;
    let Some(bytes) = page_of(offset, &spelled) else {
        return Err(refused(number, ScriptWhy::Length));
    };
    Ok(Action::Write {
        label,
        offset,
        bytes,
    })
}

/// The action of a line that is not skipped, which has this number.
#[tactic(auto, unfolding(crate::specs::ScriptText::action_of))]
pub(crate) fn action_of(alloc: Global, number: u64, line: &[u8]) -> Result<Action, ScriptNo>
    ensures ok { IfOk result (λ action. action_of (words_of line.now) ≡ Ok action) }
    ensures err { IfErr result (IsRefusedAt number (action_of (words_of line.now))) }
    ensures bounds { IfOk result IsInBounds }
{
    if word_at(line, 0) == b"write".as_slice() {
        return write_of(alloc, number, line);
    }
    match plain_of(line) {
        Ok(action) => Ok(action),
        Err(why) => Err(refused(number, why)),
    }
}
