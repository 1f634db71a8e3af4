//! What no clause says: rows from outside, and each call once with ample memory.

use crate::{Action, Label, Script, ScriptNo, ScriptWhy};
use image_layout::Space;
use nor_device::Page;
use std::alloc::Global;
use std::test::Fail;

/// Why a text is no script, where it is none.
fn refusal(alloc: Global, text: &[u8]) -> Option<ScriptNo> {
    match Script::read(alloc, text) {
        Ok(_) => None,
        Err(no) => Some(no),
    }
}

#[test]
fn a_text_is_refused_at_its_first_fault(rt: HostRuntime) {
    for (text, line, why) in [
        (b"fetch 1 4\nfech 1 4".as_slice(), 2, ScriptWhy::Word),
        (b"#fetch\r\n \t\n\nFetch 1 4", 4, ScriptWhy::Word),
        (b"write\r", 1, ScriptWhy::Word),
        (b"fetch 1", 1, ScriptWhy::Count),
        (b"fetch x 0 1", 1, ScriptWhy::Count),
        (b"fetch x 0", 1, ScriptWhy::Number),
        (b"fetch 1 4\r", 1, ScriptWhy::Number),
        (b"fetch 1 0X4", 1, ScriptWhy::Number),
        (b"fetch 0x100000000 0", 1, ScriptWhy::Number),
        (b"fetch 1 0", 1, ScriptWhy::Length),
        (b"fetch 1 257", 1, ScriptWhy::Length),
        (b"mask", 1, ScriptWhy::Count),
        (b"mask -1", 1, ScriptWhy::Number),
        (b"mask 4", 1, ScriptWhy::Length),
        (b"irq 0 0", 1, ScriptWhy::Count),
        (b"irq 4294967296", 1, ScriptWhy::Number),
        (b"map heap 1", 1, ScriptWhy::Count),
        (b"map Data x 0", 1, ScriptWhy::Space),
        (b"map code x 0", 1, ScriptWhy::Number),
        (b"map code 256 x", 1, ScriptWhy::Number),
        (b"map code 0 0", 1, ScriptWhy::Length),
        (b"map code 0 65", 1, ScriptWhy::Length),
        (b"map data 256 1", 1, ScriptWhy::Length),
        (b"map data 193 64", 1, ScriptWhy::Length),
        (b"map data 4294967295 1", 1, ScriptWhy::Length),
        (b"unmap", 1, ScriptWhy::Count),
        (b"unmap 0x", 1, ScriptWhy::Number),
        (b"write nvs 0", 1, ScriptWhy::Count),
        (b"write nvs 0 01 02", 1, ScriptWhy::Count),
        (b"write seventeen_letters x 0", 1, ScriptWhy::Number),
        (b"write seventeen_letters 0 0", 1, ScriptWhy::Label),
        (b"write nvs 0 0", 1, ScriptWhy::Hex),
        (b"write nvs 255 01020g", 1, ScriptWhy::Hex),
        (b"write nvs 0 0x", 1, ScriptWhy::Hex),
        (b"write nvs 255 0102", 1, ScriptWhy::Length),
        (b"write nvs 4294967295 0102", 1, ScriptWhy::Length),
        (b"erase nvs 0", 1, ScriptWhy::Count),
        (b"erase seventeen_letters 0 x", 1, ScriptWhy::Number),
        (b"erase seventeen_letters 0 0", 1, ScriptWhy::Label),
        (b"erase nvs 0 0", 1, ScriptWhy::Length),
        (b"erase nvs 0 268435457", 1, ScriptWhy::TooMuch),
        (
            b"erase nvs 0 268431361\nmask 0\nerase nvs 0 1",
            3,
            ScriptWhy::TooMuch,
        ),
    ] {
        let want = Some(ScriptNo::Bad { line, why });
        assert_eq!(rt; refusal(rt.alloc(), text), want, "at {text:?}");
    }
}

#[test]
fn a_write_has_at_most_256_bytes(rt: HostRuntime) -> Result<(), Fail> {
    let alloc = rt.alloc();
    let mut text = Vec::from_slice(alloc, b"write nvs 512 ")?;
    for _ in 0..256 {
        text.extend_from_slice(b"9a")?;
    }
    assert_eq!(rt; refusal(alloc, text.as_slice()), None);
    for (more, why) in [
        (b"9".as_slice(), ScriptWhy::Hex),
        (b"A", ScriptWhy::Length),
        (b"0", ScriptWhy::Hex),
        (b"G", ScriptWhy::Hex),
    ] {
        text.extend_from_slice(more)?;
        let want = Some(ScriptNo::Bad { line: 1, why });
        assert_eq!(rt; refusal(alloc, text.as_slice()), want, "at {more:?}");
    }
    Ok(())
}

#[test]
fn the_4097th_action_is_one_too_many(rt: HostRuntime) -> Result<(), Fail> {
    let alloc = rt.alloc();
    let mut text = Vec::from_slice(alloc, b"# 4,096 times\n")?;
    for _ in 0..4096 {
        text.extend_from_slice(b"mask 0\n")?;
    }
    let script = Script::read(alloc, text.as_slice())?;
    assert_eq!(rt; script.len(), 4096);
    let long = text.len();
    for (line, why) in [
        (b"mask 0".as_slice(), ScriptWhy::TooMany),
        (b"erase nvs 0 268435457", ScriptWhy::TooMany),
        (b"mask 4", ScriptWhy::Length),
    ] {
        text.truncate(long);
        text.extend_from_slice(line)?;
        let want = Some(ScriptNo::Bad { line: 4098, why });
        assert_eq!(rt; refusal(alloc, text.as_slice()), want, "at {line:?}");
    }
    Ok(())
}

/// Whether two actions are the same.
fn same(one: &Action, other: &Action) -> bool {
    match one {
        Action::Fetch { at, len } => {
            matches!(other, Action::Fetch { at: a, len: l } if a == at && l == len)
        }
        Action::Mask(mask) => matches!(other, Action::Mask(m) if m == mask),
        Action::Irq(irq) => matches!(other, Action::Irq(i) if i == irq),
        Action::Map { space, page, n } => {
            matches!(other, Action::Map { space: s, page: p, n: m }
                if s == space && p == page && m == n)
        }
        Action::Unmap { at } => matches!(other, Action::Unmap { at: a } if a == at),
        Action::Write {
            label,
            offset,
            bytes,
        } => {
            matches!(other, Action::Write { label: l, offset: o, bytes: b }
                if l == label && o == offset && b.bytes() == bytes.bytes())
        }
        Action::Erase { label, offset, len } => {
            matches!(other, Action::Erase { label: l, offset: o, len: n }
                if l == label && o == offset && n == len)
        }
    }
}

#[test]
fn a_script_has_the_actions_of_its_lines(rt: HostRuntime) -> Result<(), Fail> {
    let text = b"fetch 0x3F400020 256\r\n# next\n\tmask 3\nirq 0xFFFFFFFF\nmap data 192 64
map code 255 1 \nunmap 0x3f400000\nwrite sixteen_letters_ 4294967295 aF
erase nvs 1 268435456";
    let script = Script::read(rt.alloc(), text.as_slice())?;
    let wanted = [
        Action::Fetch {
            at: 0x3F40_0020,
            len: 256,
        },
        Action::Mask(3),
        Action::Irq(0xFFFF_FFFF),
        Action::Map {
            space: Space::Data,
            page: 192,
            n: 64,
        },
        Action::Map {
            space: Space::Code,
            page: 255,
            n: 1,
        },
        Action::Unmap { at: 0x3F40_0000 },
        Action::Write {
            label: label(b"sixteen_letters_")?,
            offset: 0xFFFF_FFFF,
            bytes: Page::of(&[0xAF]).ok_or("one byte is a page")?,
        },
        Action::Erase {
            label: label(b"nvs")?,
            offset: 1,
            len: 0x1000_0000,
        },
    ];
    assert_eq!(rt; script.len(), 8);
    for i in 0..8 {
        if i < script.len() {
            let action = script.action(i);
            assert!(rt; same(&action, &wanted[i as usize]), "at {i}");
        }
    }
    Ok(())
}

/// A label.
fn label(text: &[u8]) -> Result<Label, Fail> {
    match Label::try_from(text) {
        Ok(label) => Ok(label),
        Err(_) => Err(Fail::from("a label of more than 16 bytes")),
    }
}
