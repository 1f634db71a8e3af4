//! What the columns of a record spell.

ghost use Rattle.std.specs.Prelude.{◌≡◌, ◌≤◌, ◌<◌, ◌^◌, ◌-◌, ◌*◌, [], length, option_map};
ghost use Rattle.std.specs.List.{list_any};
ghost use Rattle.pipe_ends.specs.Number.{within};
ghost use Rattle.part_csv.specs.Words.{app_subtype, data_subtype, late_slot_of, or_small, digits_value, flag_of, flags_of, flags_or, front_of, is_strange, kind_of, label_of, last_unit, number_of, slot_of, small_of, subtype_of, unit_of, words_from};

use partition_table::padded_label;
use pipe_ends::value_of;

/// What the letter behind a number multiplies it by.
#[tactic(auto, unfolding(crate::specs::Words::unit_of))]
fn unit_of(c: u8) -> u64
    ensures exact { result ≡ unit_of c }
    ensures some { 1 ≤ result }
    ensures most { result ≤ 0x100000 }
{
    if c == b'K' || c == b'k' {
        1024
    } else if c == b'M' || c == b'm' {
        1_048_576
    } else {
        1
    }
}

/// What the last letter of a text multiplies by.
#[tactic(auto, unfolding(crate::specs::Words::unit_of))]
fn last_unit(text: &[u8]) -> u64
    ensures exact { result ≡ last_unit text.now }
    ensures some { 1 ≤ result }
    ensures most { result ≤ 0x100000 }
{
    if text.len() == 0 {
        return 1;
    }
    unit_of(text[text.len() - 1])
}

/// A text without its last letter, where that multiplies.
#[tactic(auto, unfolding(crate::specs::Words::front_of))]
fn front_of(text: &[u8]) -> &[u8]
    ensures exact { result.now ≡ front_of text.now }
{
    if text.len() == 0 || last_unit(text) == 1 {
        return text;
    }
    &text[..text.len() - 1]
}

/// The value of decimal digits, or of `0x` or `0X` and hex digits, where it fits 64 bits.
#[tactic(auto, unfolding(crate::specs::Words::digits_value))]
fn digits_value(text: &[u8]) -> Option<u64>
    ensures exact { result ≡ within (2 ^ 64 - 1) (digits_value text.now) }
{
    if text.starts_with(b"0x".as_slice()) || text.starts_with(b"0X".as_slice()) {
        value_of(&text[2..], 16)
    } else {
        value_of(text, 10)
    }
}

/// A value so many times, where it fits 32 bits.
fn scaled(value: Option<u64>, unit: u64) -> Option<u32>
    requires some { 1 ≤ unit }
    requires most { unit ≤ 0x100000 }
    ensures exact { result ≡ within 0xFFFFFFFF (option_map (λ n. n * unit) value) }
{
    let value = value?;
    if value > 0xFFFF_FFFF || value * unit > 0xFFFF_FFFF {
        return None;
    }
    Some((value * unit) as u32)
}

/// The number that a text spells: digits, and at most one letter behind them.
pub(crate) fn number_of(text: &[u8]) -> Option<u32>
    ensures exact { result ≡ number_of text.now }
{
    scaled(digits_value(front_of(text)), last_unit(text))
}

/// A number of a type or subtype.
#[tactic(auto, unfolding(crate::specs::Words::small_of))]
fn small_of(text: &[u8]) -> Option<u8>
    ensures exact { result ≡ small_of text.now }
{
    let number = number_of(text)?;
    if number > 254 {
        return None;
    }
    Some(number as u8)
}

/// Whether a byte is none of a name's.
#[tactic(auto, unfolding(crate::specs::Words::is_strange))]
fn is_strange(c: u8) -> bool
    ensures exact { result ≡ is_strange c }
{
    !(0x21 <= c && c <= 0x7E)
}

/// Whether a text has such a byte.
fn has_strange(text: &[u8]) -> bool
    ensures exact { result ≡ list_any is_strange text.now }
{
    for i in 0..text.len() {
        if is_strange(text[i]) {
            return true;
        }
    }
    false
}

/// The label of a name: its 1 to 16 bytes, and zeros behind them.
#[tactic(auto, unfolding(crate::specs::Words::label_of))]
pub(crate) fn label_of(text: &[u8]) -> Option<[u8; 16]>
    ensures exact { result ≡ label_of text.now }
{
    if text.len() == 0 || text.len() > 16 || has_strange(text) {
        return None;
    }
    Some(padded_label(text))
}

/// The type of a partition.
#[tactic(auto, unfolding(crate::specs::Words::kind_of))]
pub(crate) fn kind_of(text: &[u8]) -> Option<u8>
    ensures exact { result ≡ kind_of text.now }
{
    if text == b"app".as_slice() {
        Some(0)
    } else if text == b"data".as_slice() {
        Some(1)
    } else {
        small_of(text)
    }
}

/// The number of an update slot by its name.
#[tactic(auto, unfolding(crate::specs::Words::slot_of))]
fn slot_of(text: &[u8]) -> Option<u8>
    ensures exact { result ≡ slot_of text.now }
{
    if text == b"ota_0".as_slice() {
        Some(0x10)
    } else if text == b"ota_1".as_slice() {
        Some(0x11)
    } else if text == b"ota_2".as_slice() {
        Some(0x12)
    } else if text == b"ota_3".as_slice() {
        Some(0x13)
    } else if text == b"ota_4".as_slice() {
        Some(0x14)
    } else if text == b"ota_5".as_slice() {
        Some(0x15)
    } else if text == b"ota_6".as_slice() {
        Some(0x16)
    } else if text == b"ota_7".as_slice() {
        Some(0x17)
    } else if text == b"ota_8".as_slice() {
        Some(0x18)
    } else if text == b"ota_9".as_slice() {
        Some(0x19)
    } else {
        late_slot_of(text)
    }
}

/// The number of an update slot from 10 on by its name.
#[tactic(auto, unfolding(crate::specs::Words::late_slot_of))]
fn late_slot_of(text: &[u8]) -> Option<u8>
    ensures exact { result ≡ late_slot_of text.now }
{
    if text == b"ota_10".as_slice() {
        Some(0x1A)
    } else if text == b"ota_11".as_slice() {
        Some(0x1B)
    } else if text == b"ota_12".as_slice() {
        Some(0x1C)
    } else if text == b"ota_13".as_slice() {
        Some(0x1D)
    } else if text == b"ota_14".as_slice() {
        Some(0x1E)
    } else if text == b"ota_15".as_slice() {
        Some(0x1F)
    } else {
        None
    }
}

/// The subtype of an application by its name.
#[tactic(auto, unfolding(crate::specs::Words::app_subtype))]
fn app_subtype(text: &[u8]) -> Option<u8>
    ensures exact { result ≡ app_subtype text.now }
{
    if text == b"factory".as_slice() {
        Some(0x00)
    } else if text == b"test".as_slice() {
        Some(0x20)
    } else {
        slot_of(text)
    }
}

/// The subtype of data by its name; no name is the undefined one.
#[tactic(auto, unfolding(crate::specs::Words::data_subtype))]
fn data_subtype(text: &[u8]) -> Option<u8>
    ensures exact { result ≡ data_subtype text.now }
{
    if text.len() == 0 {
        Some(0x06)
    } else if text == b"ota".as_slice() {
        Some(0x00)
    } else if text == b"phy".as_slice() {
        Some(0x01)
    } else if text == b"nvs".as_slice() {
        Some(0x02)
    } else if text == b"coredump".as_slice() {
        Some(0x03)
    } else if text == b"nvs_keys".as_slice() {
        Some(0x04)
    } else if text == b"fat".as_slice() {
        Some(0x81)
    } else if text == b"spiffs".as_slice() {
        Some(0x82)
    } else {
        None
    }
}

/// A subtype by its name, else by its number.
fn or_small(named: Option<u8>, text: &[u8]) -> Option<u8>
    ensures exact { result ≡ or_small named text.now }
{
    match named {
        Some(subtype) => Some(subtype),
        None => small_of(text),
    }
}

/// The subtype of a partition of this type.
#[tactic(auto, unfolding(crate::specs::Words::subtype_of))]
pub(crate) fn subtype_of(kind: u8, text: &[u8]) -> Option<u8>
    ensures exact { result ≡ subtype_of kind text.now }
{
    if kind == 0 {
        or_small(app_subtype(text), text)
    } else if kind == 1 {
        or_small(data_subtype(text), text)
    } else {
        small_of(text)
    }
}

/// The flag of a word.
#[tactic(auto, unfolding(crate::specs::Words::flag_of))]
fn flag_of(word: &[u8]) -> Option<u32>
    ensures exact { result ≡ flag_of word.now }
{
    if word == b"encrypted".as_slice() {
        Some(1)
    } else if word == b"readonly".as_slice() {
        Some(2)
    } else {
        None
    }
}

/// The flags of words that colons separate.
fn words_flags(text: &[u8]) -> Option<u32>
    ensures exact { result ≡ flags_or 0 (words_from [] text.now) }
{
    let mut flags = 0;
    let mut from = 0;
    for i in 0..text.len() {
        if text[i] != b':' {
            continue;
        }
        flags |= flag_of(&text[from..i])?;
        from = i + 1;
    }
    Some(flags | flag_of(&text[from..])?)
}

/// The flags of a partition.
#[tactic(auto, unfolding(crate::specs::Words::flags_of))]
pub(crate) fn flags_of(text: &[u8]) -> Option<u32>
    ensures exact { result ≡ flags_of text.now }
{
    if text.len() == 0 {
        return Some(0);
    }
    words_flags(text)
}
