//! What no clause says: values from outside, and each call once with ample memory.

use crate::{MakeNo, Plan, PlanNo, PlanWhy, make};
use std::alloc::Global;
use std::test::Fail;

/// Why a text is no plan, where it is none.
fn refusal(alloc: Global, text: &[u8]) -> Option<PlanNo> {
    match Plan::read(alloc, text) {
        Ok(_) => None,
        Err(no) => Some(no),
    }
}

#[test]
fn a_text_is_refused_at_its_first_fault(rt: HostRuntime) -> Result<(), Fail> {
    for (text, line, why) in [
        (b"".as_slice(), 0, PlanWhy::NoEntry),
        (b"hash off\n", 1, PlanWhy::NoEntry),
        (b"\n# entry 1\n\n", 3, PlanWhy::NoEntry),
        (b"#\n\r\n \t\nentri 1", 4, PlanWhy::Word),
        (b"Entry 1", 1, PlanWhy::Word),
        (b"entry", 1, PlanWhy::Count),
        (b"entry x y", 1, PlanWhy::Count),
        (b"entry x", 1, PlanWhy::Number),
        (b"entry 0X1", 1, PlanWhy::Number),
        (b"entry 4294967296", 1, PlanWhy::Number),
        (b"entry 1\r", 1, PlanWhy::Number),
        (b"entry 1\r\r\n", 1, PlanWhy::Number),
        (b"entry 1\nentry x", 2, PlanWhy::Number),
        (b"entry 1\r\nentry 1\r\n", 2, PlanWhy::Twice),
        (b"flash 2", 1, PlanWhy::Count),
        (b"flash 2 256", 1, PlanWhy::Number),
        (b"flash 2 32\nflash 2 32", 2, PlanWhy::Twice),
        (b"hash yes", 1, PlanWhy::Choice),
        (b"hash on\nhash off", 2, PlanWhy::Twice),
        (b"segment 1 a b", 1, PlanWhy::Count),
        (b"segment 0x100000000 -a", 1, PlanWhy::Number),
        (b"segment 1 -a", 1, PlanWhy::Name),
        (b"segment 1 \xC3", 1, PlanWhy::Name),
    ] {
        let want = Some(PlanNo::Bad { line, why });
        assert_eq!(rt; refusal(rt.alloc(), text), want, "at {text:?}");
    }
    for text in [
        b"entry 1".as_slice(),
        b" \tentry\t 0xFFFFFFFF \r\n# and\r",
        b"segment 1 a-\nentry 1\nflash 255 0\nhash on\n",
    ] {
        assert_eq!(rt; refusal(rt.alloc(), text), None, "at {text:?}");
    }
    Ok(())
}

#[test]
fn the_65th_segment_is_one_too_many(rt: HostRuntime) -> Result<(), Fail> {
    let alloc = rt.alloc();
    let mut text = Vec::from_slice(alloc, b"entry 1\n")?;
    for i in 0..65 {
        let full = Plan::read(alloc, text.as_slice());
        match full {
            Ok(plan) => assert_eq!(rt; plan.parts(), i, "lines"),
            Err(no) => assert_eq!(rt; Some(no), None, "at {i}"),
        }
        text.extend_from_slice(b"segment 1 a\n")?;
    }
    let want = PlanNo::Bad {
        line: 66,
        why: PlanWhy::TooMany,
    };
    assert_eq!(rt; refusal(alloc, text.as_slice()), Some(want));
    Ok(())
}

/// The image of a plan whose files have these bytes.
fn image(alloc: Global, text: &[u8], files: &[Vec<u8>]) -> Result<Result<Vec<u8>, MakeNo>, Fail> {
    let plan = Plan::read(alloc, text)?;
    if plan.parts() as usize != files.len() {
        return Err(Fail::from("other files"));
    }
    Ok(make(alloc, &plan, files))
}

/// The length of the image of a plan whose files have so many zeros.
fn length(alloc: Global, text: &[u8], lengths: &[usize]) -> Result<Result<usize, MakeNo>, Fail> {
    let mut files = Vec::new(alloc);
    for length in lengths {
        files.push(vec![in alloc; 0u8; *length]?)?;
    }
    Ok(match image(alloc, text, &files)? {
        Ok(image) => Ok(image.len()),
        Err(no) => Err(no),
    })
}

const APPLICATION: &[u8] = b"entry 0x40080400
segment 0x3F400020 drom
segment 0x3FFB0000 dram
segment 0x40080000 iram
segment 0x400D0020 irom
segment 0x40084000 more
";

#[test]
fn an_image_has_its_length_or_its_first_fault(rt: HostRuntime) -> Result<(), Fail> {
    for (text, lengths, want) in [
        (
            APPLICATION,
            [0x8000, 0x2000, 0x4000, 0x18000, 0x1000].as_slice(),
            Ok(168_016),
        ),
        (b"entry 1\nsegment 0x3F400020 a", &[199_932], Ok(200_000)),
        (
            b"entry 1\nsegment 0x3FFB0000 a\nhash off",
            &[1_048_540],
            Ok(1_048_576),
        ),
        (
            b"entry 1\nsegment 0x3FFB0000 a\nhash off",
            &[1_048_556],
            Ok(1_048_592),
        ),
        (
            b"entry 1\nsegment 0x3F400020 a\nsegment 0x3F400020 b",
            &[4, 0],
            Ok(80),
        ),
        (
            b"entry 1\nhash off\nsegment 0x3F400024 a",
            &[4],
            Ok(0x10030),
        ),
        (b"entry 1", &[], Err(MakeNo::NoSegments)),
        (
            b"entry 1\nsegment 0x3F400021 a",
            &[6],
            Err(MakeNo::OddLength { segment: 0 }),
        ),
        (
            b"entry 1\nsegment 1 a\nsegment 0x3F400021 a",
            &[8, 8],
            Err(MakeNo::OddAddress { segment: 1 }),
        ),
        (b"entry 1\nsegment 0x3F7FFFFC a", &[4], Ok(0x10030)),
        (
            b"entry 1\nsegment 0x3F7FFFFC a",
            &[8],
            Err(MakeNo::SpaceEnd { segment: 0 }),
        ),
        (
            b"entry 1\nsegment 0x403FFFFC a",
            &[8],
            Err(MakeNo::SpaceEnd { segment: 0 }),
        ),
        (
            b"entry 1\nsegment 8 a\nsegment 0 b\nsegment 4 c",
            &[8, 8, 8],
            Err(MakeNo::Overlap { a: 0, b: 2 }),
        ),
        (
            b"entry 1\nsegment 0x3FFB0000 a",
            &[16_777_216],
            Err(MakeNo::TooLong { n: 16_777_296 }),
        ),
    ] {
        assert_eq!(rt; length(rt.alloc(), text, lengths)?, want, "at {text:?}");
    }
    Ok(())
}

#[test]
fn sixteen_segments_are_the_most(rt: HostRuntime) -> Result<(), Fail> {
    let alloc = rt.alloc();
    let mut text = Vec::from_slice(alloc, b"entry 1\nhash off\n")?;
    let mut lengths = Vec::new(alloc);
    for (line, want) in [
        (b"segment 0x00 a\n".as_slice(), Ok(48)),
        (b"segment 0x04 a\n", Ok(64)),
        (b"segment 0x08 a\n", Ok(64)),
        (b"segment 0x0C a\n", Ok(80)),
        (b"segment 0x10 a\n", Ok(96)),
        (b"segment 0x14 a\n", Ok(112)),
        (b"segment 0x18 a\n", Ok(112)),
        (b"segment 0x1C a\n", Ok(128)),
        (b"segment 0x20 a\n", Ok(144)),
        (b"segment 0x24 a\n", Ok(160)),
        (b"segment 0x28 a\n", Ok(160)),
        (b"segment 0x2C a\n", Ok(176)),
        (b"segment 0x30 a\n", Ok(192)),
        (b"segment 0x34 a\n", Ok(208)),
        (b"segment 0x38 a\n", Ok(208)),
        (b"segment 0x3C a\n", Ok(224)),
        (b"segment 0x40 a\n", Err(MakeNo::TooManySegments { n: 17 })),
    ] {
        text.extend_from_slice(line)?;
        lengths.push(4)?;
        assert_eq!(rt;
            length(alloc, text.as_slice(), lengths.as_slice())?,
            want,
            "at {line:?}"
        );
    }
    Ok(())
}

#[test]
fn an_image_is_as_another_program_makes_it(rt: HostRuntime) -> Result<(), Fail> {
    let alloc = rt.alloc();
    let files = vec![in alloc; vec![in alloc; 1u8, 2, 3, 4]?]?;
    let text = b"entry 0x40080400\nsegment 0x3F400020 a.bin\n";
    let made = image(alloc, text, &files)??;
    assert_eq!(rt;
        made.as_slice(),
        [
            0xE9, 0x01, 0x02, 0x20, 0x00, 0x04, 0x08, 0x40, 0xEE, 0x00, 0x00, 0x00, 0x00, 0x00,
            0x00, 0x00, 0x00, 0x00, 0x00, 0x00, 0x00, 0x00, 0x00, 0x01, 0x20, 0x00, 0x40, 0x3F,
            0x04, 0x00, 0x00, 0x00, 0x01, 0x02, 0x03, 0x04, 0x00, 0x00, 0x00, 0x00, 0x00, 0x00,
            0x00, 0x00, 0x00, 0x00, 0x00, 0xEB, 0xAC, 0x8D, 0x70, 0x32, 0x6E, 0xE8, 0xA1, 0xD1,
            0x93, 0x08, 0x6C, 0x8B, 0x06, 0xC5, 0xEB, 0x67, 0x2E, 0xE9, 0x1A, 0x20, 0xC3, 0xE4,
            0xB3, 0xD6, 0x2D, 0xBD, 0x7D, 0xAC, 0x93, 0xA8, 0xA6, 0xEB,
        ]
        .as_slice()
    );
    Ok(())
}

#[test]
fn a_header_has_what_the_plan_says_of_the_flash(rt: HostRuntime) -> Result<(), Fail> {
    let alloc = rt.alloc();
    let files = vec![in alloc; vec![in alloc; 1u8, 2, 3, 4]?]?;
    for (text, want) in [
        (
            b"flash 3 0x4F\nentry 1\nsegment 0x3F400020 a".as_slice(),
            [0x03, 0x4F],
        ),
        (b"entry 1\nsegment 0x3F400020 a\nflash 255 0", [0xFF, 0x00]),
        (b"entry 1\nsegment 0x3F400020 a", [0x02, 0x20]),
    ] {
        let made = image(alloc, text, &files)??;
        assert_eq!(rt; made.get(2..4), Some(want.as_slice()), "at {text:?}");
    }
    Ok(())
}

#[test]
fn padding_brings_code_to_its_page(rt: HostRuntime) -> Result<(), Fail> {
    let alloc = rt.alloc();
    let mut files = Vec::new(alloc);
    for length in [0x8000, 0x2000, 0x4000, 0x18000, 0x1000] {
        files.push(vec![in alloc; 0u8; length]?)?;
    }
    let made = image(alloc, APPLICATION, &files)??;
    // Three segments end at 0xE030, and a fourth has 0x1FE0 zeros.
    assert_eq!(rt;
        made.get(0xE030..0xE038),
        Some([0, 0, 0, 0, 0xE0, 0x1F, 0, 0].as_slice()),
        "padding"
    );
    assert_eq!(rt;
        made.get(0x10018..0x10020),
        Some([0x20, 0, 0x0D, 0x40, 0, 0x80, 1, 0].as_slice()),
        "code"
    );
    Ok(())
}

#[test]
fn a_plan_names_its_files(rt: HostRuntime) -> Result<(), Fail> {
    let plan = Plan::read(rt.alloc(), b"entry 1\nsegment 8 a.bin\nsegment 4 dir/b")?;
    if plan.parts() != 2 {
        return Err(Fail::from("other parts"));
    }
    assert_eq!(rt; plan.part_name(0), "a.bin");
    assert_eq!(rt; plan.part_name(1), "dir/b");
    Ok(())
}
