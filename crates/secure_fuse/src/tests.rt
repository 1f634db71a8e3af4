//! What no clause says: that the rows come out, and the generic call at concrete fuses.

ghost use Rattle.std.specs.Prelude.{◌≡◌, Any};

use crate::*;
use std::alloc::{AllocError, Global};
use std::test::Fail;

/// Fuses that note what a loss of power may leave of each call. One call is refused although it burns its bit.
#[derive(Drop)]
struct Noted {
    bits: u32,
    words: Vec<u32>,
    refused: u64,
    calls: u64,
    faults: u64,
}

impl Fuses for Noted {
    ghost burnt = { λ f. f.bits };

    ghost left = { λ f bits. Any (λ word. word ≡ bits) f.words.items };

    ghost calls = { λ f. f.calls };

    ghost faults = { λ f. f.faults };

    fn bits(&self) -> u32 {
        self.bits
    }

    fn burn(&mut self, bit: u8) -> Result<(), FuseNo> {
        self.calls = self.calls.saturating_add(1);
        let burnt = self.bits | 1 << bit;
        if self.words.push(self.bits).is_err() || self.words.push(burnt).is_err() {
            self.faults = self.faults.saturating_add(1);
            return Err(FuseNo::Failed);
        }
        self.bits = burnt;
        if self.calls == self.refused {
            self.faults = self.faults.saturating_add(1);
            return Err(FuseNo::Failed);
        }
        Ok(())
    }
}

/// Fuses with these bits, one of whose calls fails.
fn failing_at(alloc: Global, bits: u32, call: u64) -> Result<RamFuse, AllocError> {
    Ok(RamFuse::new(bits, vec![in alloc; call]?))
}

#[test]
fn the_level_is_the_number_of_burnt_bits(rt: HostRuntime) {
    for (bits, want) in [(0, 0), (1, 1), (0b101, 2), (0x8000_0000, 1), (u32::MAX, 32)] {
        assert_eq!(rt; level(bits), want, "the level of {bits}");
    }
}

#[test]
fn the_lowest_clear_bits_are_burnt_with_no_call_in_vain(rt: HostRuntime) -> Result<(), Fail> {
    for (bits, want, after, calls) in [
        (1, 2, 3, 1),
        (7, 3, 7, 0),
        (7, 0, 7, 0),
        (0b101, 3, 7, 1),
        (0x8000_0001, 4, 0x8000_0007, 2),
        (0, 32, u32::MAX, 32),
        (u32::MAX, 32, u32::MAX, 0),
    ] {
        let mut fuse = failing_at(rt.alloc(), bits, calls + 1)?;
        assert_eq!(rt; raise_to(&mut fuse, want), Ok(()), "from {bits} to {want}");
        assert_eq!(rt; fuse.bits(), after, "the bits from {bits} to {want}");
        assert_eq!(rt;
            fuse.burn(31),
            Err(FuseNo::Failed),
            "the next call from {bits}"
        );
    }
    Ok(())
}

#[test]
fn each_call_that_fails_ends_it_and_a_second_try_goes_on(rt: HostRuntime) -> Result<(), Fail> {
    for (call, left) in [(1, 0b101), (2, 0b111), (3, 0b1111)] {
        let mut fuse = failing_at(rt.alloc(), 0b101, call)?;
        assert_eq!(rt; raise_to(&mut fuse, 5), Err(FuseNo::Failed), "call {call}");
        assert_eq!(rt; fuse.bits(), left, "the bits after call {call}");
        assert_eq!(rt; raise_to(&mut fuse, 5), Ok(()), "again after call {call}");
        assert_eq!(rt; fuse.bits(), 0b11111, "the bits after both");
    }
    Ok(())
}

#[test]
fn at_each_moment_a_word_on_the_way_is_left(rt: HostRuntime) -> Result<(), Fail> {
    let mut fuse = Noted {
        bits: 0b101,
        words: Vec::new(rt.alloc()),
        refused: 2,
        calls: 0,
        faults: 0,
    };
    assert_eq!(rt;
        raise_to(&mut fuse, 5),
        Err(FuseNo::Failed),
        "the second call"
    );
    assert_eq!(rt; raise_to(&mut fuse, 5), Ok(()), "the third call");
    assert_eq!(rt; fuse.calls, 3, "a call a level");
    let words = [0b101, 0b111, 0b111, 0b1111, 0b1111, 0b11111];
    assert_eq!(rt; fuse.words.as_slice(), words.as_slice(), "what may be left");
    Ok(())
}

#[test]
fn an_image_has_the_secure_version_of_its_description(rt: HostRuntime) {
    let mut image = [0; 112];
    assert_eq!(rt; secure_of(&image), 0, "no mark");
    image[32..40].copy_from_slice(&[0x32, 0x54, 0xCD, 0xAB, 2, 1, 0, 0]);
    assert_eq!(rt; secure_of(&image), 258, "little-endian");
    assert_eq!(rt; secure_of(&image[..111]), 0, "a byte too short");
}
