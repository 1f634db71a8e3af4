//! Dialogues in hex, with digests by Python's `hashlib.md5`, whose bytes are fed whole and in pieces.

ghost use Rattle.std.specs.Prelude.{◌≡◌, ◌≤◌, None, IfOk, length};
ghost use Rattle.crash_images.specs.Cut.{IsAhead};

use crate::*;
use crash_images::{Crash, CutNor};
use nor_device::{Nor, RamNor};
use partition_table::{Row, Table};
use std::alloc::{AllocError, Global};
use std::test::Fail;

const SIZE: usize = 4_194_304;

/// A SYNC.
const SYNC: &str = "\
> C0 00 08 24 00*5 07 07 12 20 55*32 C0
< C0 01 08 02 00*7 C0
";

/// FLASH_BEGIN of 256 bytes in one block at 0x210000, and its block.
const BLOCK: &str = "\
> C0 00 02 10 00*6 01 00 00 01 00 00 00 00 01 00 00 00 00 21 00 C0
< C0 01 02 02 00*7 C0
> C0 00 03 10 01 EF 00 00 00 00 01 00*270 C0
< C0 01 03 02 00*7 C0
";

/// The same with a block of number 1.
const OTHER_NUMBER: &str = "\
> C0 00 02 10 00*6 01 00 00 01 00 00 00 00 01 00 00 00 00 21 00 C0
< C0 01 02 02 00*7 C0
> C0 00 03 10 01 EF 00 00 00 00 01 00 00 01 00*267 C0
< C0 01 03 02 00*5 01 0A C0
";

/// Bytes outside of frames, and frames that are dropped.
const NO_REQUESTS: &str = "\
> 08 00 C0 C0
> 00 08 00*5 C0 01 08 24 00*5 07 07 12 20 55*32 C0
> 00 08 02 00*5 07 C0 00 08 DB 00*6 C0
> 00 08 00*6 DB C0 00 08 00 00
";

/// A command that is escaped, and another that no one knows.
const UNKNOWN: &str = "\
> C0 00 DB DC 00*6 C0
< C0 01 DB DC 02 00*5 01 05 C0
> C0 00 DB DD 00*6 C0
< C0 01 DB DD 02 00*5 01 05 C0
> C0 00 09 01 00*5 01 C0
< C0 01 09 02 00*5 01 05 C0
";

/// A SYNC with other data, and a C0 between two requests that both use.
const OTHER_SYNC: &str = "\
> C0 00 08 24 00*5 07 07 12 20 55*31 54 C0
> 00 08 23 00*5 07 07 12 20 55*31 C0 00 08 00*6 C0
< C0 01 08 02 00*5 01 05 C0
< C0 01 08 02 00*5 01 05 C0
< C0 01 08 02 00*5 01 05 C0
";

/// Begins out of form and out of bounds.
const BEGINS: &str = "\
> C0 00 02 0F 00*6 01 00 00 01 00 00 00 00 01 00*5 C0
< C0 01 02 02 00*5 01 05 C0
> C0 00 02 10 00*5 80 00 00 00 01 00 00 00 80 00*5 21 00 C0
< C0 01 02 02 00*5 01 06 C0
> C0 00 02 10 00*9 01 00*9 21 00 C0
< C0 01 02 02 00*5 01 06 C0
> C0 00 02 10 00*5 01 01 00 00 01 00 00 00 01 01 00 00 00 00 21 00 C0
< C0 01 02 02 00*5 01 06 C0
> C0 00 02 10 00*6 20 00 00 01 00 00 00 00 20 00 00 00 00 21 00 C0
< C0 01 02 02 00*5 01 06 C0
> C0 00 02 10 00*5 01 01 00 00 01 00 00 00 00 01 00 00 00 00 21 00 C0
< C0 01 02 02 00*5 01 06 C0
> C0 00 02 10 00*6 01 00 00 01 00 00 00 00 01 00 00 00 01 21 00 C0
< C0 01 02 02 00*5 01 06 C0
> C0 00 02 10 00*6 01 00 00 01 00 00 00 00 01 00 00 00 00 40 00 C0
< C0 01 02 02 00*5 01 06 C0
> C0 00 02 10 00*6 11 00 00 11 00 00 00 00 01 00 00 00 F0 3F 00 C0
< C0 01 02 02 00*5 01 06 C0
> C0 00 02 10 00*6 01 00 00 FF FF FF FF 00 10 00*6 C0
< C0 01 02 02 00*5 01 06 C0
";

/// Data without a begin, and an end.
const NO_BEGIN: &str = "\
> C0 00 03 10 01 EF 00 00 00 00 01 00*270 C0
< C0 01 03 02 00*5 01 09 C0
> C0 00 03 0F 00*20 C0
< C0 01 03 02 00*5 01 05 C0
> C0 00 03 11 00 EE 00 00 00 02 00*15 01 C0
< C0 01 03 02 00*5 01 05 C0
> C0 00 04 04 00*9 C0
< C0 01 04 02 00*5 01 09 C0
> C0 00 04 03 00*8 C0
< C0 01 04 02 00*5 01 05 C0
";

/// A begin of two blocks, each error of its data, and an end in between.
const BLOCKS: &str = "\
> C0 00 02 10 00*6 02 00 00 02 00 00 00 00 01 00 00 00 00 21 00 C0
< C0 01 02 02 00*7 C0
> C0 00 03 10 01 EF 00 00 00 00 01 00 00 01 00*267 C0
< C0 01 03 02 00*5 01 0A C0
> C0 00 03 11 01 EF 00 00 00 01 01 00*271 C0
< C0 01 03 02 00*5 01 06 C0
> C0 00 03 10 01 EE 00 00 00 00 01 00*270 C0
< C0 01 03 02 00*5 01 07 C0
> C0 00 03 10 01 EF 01 00 00 00 01 00*270 C0
< C0 01 03 02 00*5 01 07 C0
> C0 00 04 04 00*9 C0
< C0 01 04 02 00*5 01 09 C0
> C0 00 03 10 01 EF 00 00 00 00 01 00*270 C0
< C0 01 03 02 00*7 C0
> C0 00 03 10 01 EF 00 00 00 00 01 00*270 C0
< C0 01 03 02 00*5 01 0A C0
> C0 00 03 10 01 F4 00 00 00 00 01 00 00 01 00*11 DB DC DB DD 00*254 C0
< C0 01 03 02 00*7 C0
> C0 00 03 10 01 EF 00 00 00 00 01 00 00 02 00*267 C0
< C0 01 03 02 00*5 01 0A C0
> C0 00 04 04 00*9 C0
< C0 01 04 02 00*7 C0
> C0 00 04 04 00*9 C0
< C0 01 04 02 00*5 01 09 C0
";

/// A begin of no block, at the end of the flash and beyond it.
const NO_BLOCK: &str = "\
> C0 00 02 10 00*14 01 00 00 00 00 40 00 C0
< C0 01 02 02 00*7 C0
> C0 00 03 10 01 EF 00 00 00 00 01 00*270 C0
< C0 01 03 02 00*5 01 0A C0
> C0 00 04 04 00*9 C0
< C0 01 04 02 00*7 C0
> C0 00 02 10 00*14 01 00 00 00 10 40 00 C0
< C0 01 02 02 00*5 01 06 C0
";

/// A begin that is refused leaves the open one, and one that is accepted replaces it.
const SECOND_BEGIN: &str = "\
> C0 00 02 10 00*6 01 00 00 01 00 00 00 00 01 00 00 00 00 21 00 C0
< C0 01 02 02 00*7 C0
> C0 00 02 10 00*6 01 00 00 01 00 00 00 00 01 00 00 01 00 21 00 C0
< C0 01 02 02 00*5 01 06 C0
> C0 00 03 10 01 EF 00 00 00 00 01 00*270 C0
< C0 01 03 02 00*7 C0
> C0 00 02 10 00*6 02 00 00 02 00 00 00 00 01 00 00 00 00 22 00 C0
< C0 01 02 02 00*7 C0
> C0 00 02 10 00*5 01 10 00 00 11 00 00 00 00 01 00 00 00 10 21 00 C0
< C0 01 02 02 00*7 C0
> C0 00 03 10 01 EF 00 00 00 00 01 00*270 C0
< C0 01 03 02 00*7 C0
> C0 00 04 04 00*9 C0
< C0 01 04 02 00*5 01 09 C0
";

/// Digests before and behind a block.
const DIGESTS: &str = "\
> C0 00 13 10 00*7 21 00 00 01 00*10 C0
< C0 01 13 12 00*5 82 7F 26 3E F9 FB 63 D0 54 99 D1 4F CE F3 2F 60 00 00 C0
> C0 00 02 10 00*6 01 00 00 01 00 00 00 00 01 00 00 00 00 21 00 C0
< C0 01 02 02 00*7 C0
> C0 00 03 10 01 EF 00 00 00 00 01 00*270 C0
< C0 01 03 02 00*7 C0
> C0 00 04 04 00*9 C0
< C0 01 04 02 00*7 C0
> C0 00 13 10 00*7 21 00 00 01 00*10 C0
< C0 01 13 12 00*5 34 8A 97 91 DC 41 B8 97 96 EC 38 08 B5 B5 26 2F 00 00 C0
> C0 00 13 10 00*5 01 00 21 00 00 01 00*10 C0
< C0 01 13 12 00*5 40 28 99 00 00 4E 16 58 EC 8D BB A4 0B 85 AC 31 00 00 C0
> C0 00 13 10 00*7 40 00*13 C0
< C0 01 13 12 00*5 D4 1D 8C D9 8F 00 B2 04 E9 80 09 98 EC F8 42 7E 00 00 C0
> C0 00 13 10 00*5 FF FF 3F 00 02 00*11 C0
< C0 01 13 02 00*5 01 06 C0
> C0 00 13 10 00*5 01 00 40 00*13 C0
< C0 01 13 02 00*5 01 06 C0
> C0 00 13 10 00*5 FF*8 00*8 C0
< C0 01 13 02 00*5 01 06 C0
> C0 00 13 0C 00*17 C0
< C0 01 13 02 00*5 01 05 C0
";

/// Blocks of 4,096 bytes, and a digest of more than one piece.
const LONG_BLOCKS: &str = "\
> C0 00 02 10 00*6 20 00 00 02 00 00 00 00 10 00 00 00 00 21 00 C0
< C0 01 02 02 00*7 C0
> C0 00 03 10 10 EF 00 00 00 00 10 00*14 AA*4096 C0
< C0 01 03 02 00*7 C0
> C0 00 03 10 10 EF 00 00 00 00 10 00 00 01 00*11 55*4096 C0
< C0 01 03 02 00*7 C0
> C0 00 13 10 00*7 21 00 00 20 00*10 C0
< C0 01 13 12 00*5 80 1B 56 F6 95 73 12 68 3D 36 1F 61 03 14 1A 27 00 00 C0
";

/// The longest frame, and one that is a byte longer.
const LONG_FRAMES: &str = "\
> C0 00 09 10 10 00 00 00 00 01*4112 C0
> C0 00 09 11 10 00 00 00 00 01*4113 C0
> C0 00 08 24 00*5 07 07 12 20 55*32 C0
< C0 01 09 02 00*5 01 05 C0
< C0 01 08 02 00*7 C0
";

/// Begins beside and in an encrypted partition of 4,096 bytes at 0x211000.
const REGIONS: &str = "\
> C0 00 02 10 00*6 10 00 00 01 00 00 00 00 10 00 00 00 00 21 00 C0
< C0 01 02 02 00*7 C0
> C0 00 02 10 00*6 10 00 00 01 00 00 00 00 10 00 00 00 20 21 00 C0
< C0 01 02 02 00*7 C0
> C0 00 02 10 00*6 01 00 00 11 00 00 00 00 01 00 00 00 00 21 00 C0
< C0 01 02 02 00*5 01 08 C0
> C0 00 02 10 00*6 01 00 00 01 00 00 00 00 01 00 00 00 10 21 00 C0
< C0 01 02 02 00*5 01 08 C0
";

/// Each dialogue, with the number of its steps.
const DIALOGUES: [(&str, u64); 14] = [
    (SYNC, 0),
    (BLOCK, 2),
    (OTHER_NUMBER, 1),
    (NO_REQUESTS, 0),
    (UNKNOWN, 0),
    (OTHER_SYNC, 0),
    (BEGINS, 0),
    (NO_BEGIN, 0),
    (BLOCKS, 3),
    (NO_BLOCK, 0),
    (SECOND_BEGIN, 6),
    (DIGESTS, 2),
    (LONG_BLOCKS, 34),
    (LONG_FRAMES, 0),
];

/// Puts the bytes of a word: `00` is one, and `00*256` are 256 of them.
fn put_word(bytes: &mut Vec<u8>, word: &str) -> Result<(), Fail> {
    let (digits, times) = match word.split_once('*') {
        Some((digits, times)) => (digits, times.parse::<usize>().map_err(|_| "no number")?),
        None => (word, 1),
    };
    let byte = u8::from_str_radix(digits, 16).map_err(|_| "no byte")?;
    for _ in 0..times {
        bytes.push(byte)?;
    }
    Ok(())
}

/// The bytes of the lines with this mark: `> ` are sent, and `< ` are answers.
fn side(alloc: Global, dialogue: &str, mark: &str) -> Result<Vec<u8>, Fail> {
    let mut bytes = Vec::new(alloc);
    for line in dialogue.lines() {
        if let Some(words) = line.strip_prefix(mark) {
            for word in words.split_whitespace() {
                put_word(&mut bytes, word)?;
            }
        }
    }
    Ok(bytes)
}

/// As many bytes of one value.
fn filled(alloc: Global, byte: u8, size: usize) -> Result<Vec<u8>, AllocError>
    ensures length { IfOk result (λ bytes. length bytes.items ≡ size) }
{
    Ok(vec![in alloc; byte; size]?)
}

/// A flash of 4 MiB of 0xFF, in whose step of this number the power goes off.
fn device(alloc: Global, cut: Option<u64>) -> Result<CutNor<RamNor>, Fail>
    requires cut { IsAhead cut 0 }
    ensures idle { IfOk result (λ device. ⟦<CutNor<RamNor> as Nor>⟧.running device ≡ None) }
    ensures size { IfOk result (λ device. ⟦<CutNor<RamNor> as Nor>⟧.size device ≡ 4194304) }
{
    let inner = RamNor::of_bytes(filled(alloc, 0xFF, SIZE)?, 0);
    Ok(CutNor::new(inner, cut, 0, None))
}

/// Feeds a piece, keeps what is answered, and returns how many bytes were taken.
fn feed_once<D: Crash>(
    loader: &mut Loader,
    device: &mut D,
    piece: &[u8],
    heard: &mut Vec<u8>,
) -> Result<usize, Fail>
    requires idle { D.running device.old ≡ None }
    requires size { D.size device.old ≡ loader.old.state.size }
    requires some { 1 ≤ length piece.now }
    ensures idle { D.running device.new ≡ None }
    ensures size { D.size device.new ≡ loader.new.state.size }
    ensures taken { IfOk result (λ taken. (1 ≤ taken) × (taken ≤ length piece.now)) }
{
    match loader.feed(device, piece) {
        Ok(fed) => {
            if let Some(reply) = &fed.reply {
                heard.extend_from_slice(reply.as_slice())?;
            }
            Ok(fed.taken)
        }
        Err(_) => Err(Fail::new("the device refuses")),
    }
}

/// Feeds a stream in pieces of at most so many bytes, and returns the answers.
fn answers<D: Crash>(
    alloc: Global,
    loader: &mut Loader,
    device: &mut D,
    stream: &[u8],
    most: usize,
) -> Result<Vec<u8>, Fail>
    requires idle { D.running device.old ≡ None }
    requires size { D.size device.old ≡ loader.old.state.size }
    requires some { 1 ≤ most }
{
    let mut heard = Vec::new(alloc);
    let mut at = 0;
    while at < stream.len() {
        let end = at + most.min(stream.len() - at);
        at += feed_once(loader, device, &stream[at..end], &mut heard)?;
    }
    Ok(heard)
}

#[test]
fn each_dialogue_is_the_same_in_any_pieces(rt: HostRuntime) -> Result<(), Fail> {
    for (number, (dialogue, steps)) in DIALOGUES.iter().enumerate() {
        let sent = side(rt.alloc(), *dialogue, "> ")?;
        let wanted = side(rt.alloc(), *dialogue, "< ")?;
        for most in [9000, 1, 7] {
            let mut device = device(rt.alloc(), None)?;
            let mut loader = Loader::new(4_194_304, None);
            let heard = answers(rt.alloc(), &mut loader, &mut device, &sent, most)?;
            assert_eq!(rt;
                heard.as_slice(),
                wanted.as_slice(),
                "dialogue {number} in pieces of {most}"
            );
            assert_eq!(rt; device.steps(), *steps, "its steps in pieces of {most}");
        }
    }
    Ok(())
}

#[test]
fn an_encrypted_partition_is_refused_by_the_region(rt: HostRuntime) -> Result<(), Fail> {
    let row = Row {
        kind: 1,
        subtype: 2,
        offset: 0x211000,
        size: 0x1000,
        label: [0; 16],
        flags: 1,
    };
    let mut device = device(rt.alloc(), None)?;
    let table = Table::of_rows(&[row], 4_194_304).map_err(|_| "the rows are no table")?;
    let mut loader = Loader::new(4_194_304, Some(table));
    let sent = side(rt.alloc(), REGIONS, "> ")?;
    let wanted = side(rt.alloc(), REGIONS, "< ")?;
    let heard = answers(rt.alloc(), &mut loader, &mut device, &sent, 9000)?;
    assert_eq!(rt; heard.as_slice(), wanted.as_slice(), "the answers");
    assert_eq!(rt; device.steps(), 2, "the steps");
    Ok(())
}

/// Whether a piece is answered by the loss of power.
fn is_cut<D: Crash>(loader: &mut Loader, device: &mut D, piece: &[u8]) -> bool
    requires idle { D.running device.old ≡ None }
    requires size { D.size device.old ≡ loader.old.state.size }
    ensures idle { D.running device.new ≡ None }
    ensures size { D.size device.new ≡ loader.new.state.size }
{
    loader.feed(device, piece).map(|fed| fed.taken) == Err(LoadNo::Cut)
}

#[test]
fn a_loss_of_power_is_answered_from_then_on(rt: HostRuntime) -> Result<(), Fail> {
    let mut device = device(rt.alloc(), Some(2))?;
    let mut loader = Loader::new(4_194_304, None);
    let sent = side(rt.alloc(), BLOCK, "> ")?;
    if sent.is_empty() {
        return Err(Fail::new("nothing is sent"));
    }
    let mut heard = Vec::new(rt.alloc());
    let taken = feed_once(&mut loader, &mut device, &sent, &mut heard)?;
    assert_eq!(rt; taken, 26, "the bytes of the begin");
    assert!(rt;
        is_cut(&mut loader, &mut device, &sent[taken..]),
        "the block"
    );
    assert!(rt; is_cut(&mut loader, &mut device, &sent), "the begin again");
    assert!(rt; is_cut(&mut loader, &mut device, &[]), "no byte");
    assert_eq!(rt; device.steps(), 2, "the steps");
    Ok(())
}
