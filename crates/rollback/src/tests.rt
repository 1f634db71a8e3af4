//! A value for each case of the rewrites, with CRCs of another program.

use super::*;
use arrayvec::ArrayVec;
use otadata::Entry;
use partition_table::{Layout, Row};

/// States, as ESP-IDF numbers them.
const NEW: u32 = 0;

const PENDING_VERIFY: u32 = 1;

const VALID: u32 = 2;

const INVALID: u32 = 3;

const ABORTED: u32 = 4;

/// An entry of this sequence, state and CRC, with a label of its own.
fn entry(seq: u32, state: u32, crc: u32) -> Entry {
    Entry {
        seq,
        label: [0xA5; 20],
        state,
        crc,
    }
}

/// An entry of sequence 1.
fn one(state: u32) -> Entry {
    entry(1, state, 0x4743_989A)
}

/// An entry of sequence 2.
fn two(state: u32) -> Entry {
    entry(2, state, 0x55F6_3774)
}

/// The entry of an erased sector.
fn blank() -> Entry {
    entry(0xFFFF_FFFF, 0xFFFF_FFFF, 0xFFFF_FFFF)
}

/// A layout of two slots.
fn layout() -> Layout {
    let mut slots = ArrayVec::new();
    slots.push(Row::default());
    slots.push(Row::default());
    Layout {
        otadata: 0xD000,
        factory: Row::default(),
        slots,
        test: None,
    }
}

/// The rewrite of a sector with this entry.
fn rewrite(sector: u8, entry: Entry) -> Rewrite {
    Rewrite { sector, entry }
}

#[test]
fn a_boot_aborts_what_waits_and_then_lets_a_new_one_wait(rt: HostRuntime) {
    let torn = entry(2, PENDING_VERIFY, 0);
    let torn_aborted = entry(2, ABORTED, 0);
    for (first, second, want, why) in [
        (blank(), blank(), &[][..], "no update yet"),
        (one(VALID), two(INVALID), &[][..], "one that was rejected"),
        (
            one(NEW),
            blank(),
            &[rewrite(0, one(PENDING_VERIFY))][..],
            "a new one is active",
        ),
        (one(NEW), two(VALID), &[][..], "a new one is not active"),
        (
            one(PENDING_VERIFY),
            blank(),
            &[rewrite(0, one(ABORTED))][..],
            "one waits",
        ),
        (
            one(PENDING_VERIFY),
            two(PENDING_VERIFY),
            &[rewrite(0, one(ABORTED)), rewrite(1, two(ABORTED))][..],
            "both wait",
        ),
        (
            one(NEW),
            two(PENDING_VERIFY),
            &[rewrite(1, two(ABORTED)), rewrite(0, one(PENDING_VERIFY))][..],
            "the new one is active once the other is aborted",
        ),
        (
            one(VALID),
            torn,
            &[rewrite(1, torn_aborted)][..],
            "one waits whose CRC is wrong",
        ),
    ] {
        assert_eq!(rt; boot_writes(&first, &second).as_slice(), want, "{why}");
    }
}

#[test]
fn a_confirmation_rewrites_the_active_entry(rt: HostRuntime) {
    for (first, second, want, why) in [
        (blank(), two(ABORTED), Err(NoOtaApp), "no entry is active"),
        (
            one(VALID),
            two(ABORTED),
            Ok(None),
            "it is confirmed already",
        ),
        (
            one(PENDING_VERIFY),
            blank(),
            Ok(Some(rewrite(0, one(VALID)))),
            "it waits",
        ),
        (
            one(VALID),
            two(NEW),
            Ok(Some(rewrite(1, two(VALID)))),
            "the second one is active",
        ),
        (
            two(NEW),
            two(NEW),
            Ok(Some(rewrite(0, two(VALID)))),
            "a tie takes the first",
        ),
        (
            one(77),
            blank(),
            Ok(Some(rewrite(0, one(VALID)))),
            "a state without a name",
        ),
    ] {
        assert_eq!(rt; confirm_write(&first, &second), want, "{why}");
    }
}

#[test]
fn a_rejection_needs_another_application(rt: HostRuntime) {
    let all = [true; 18];
    let mut without_factory = all;
    without_factory[16] = false;
    let mut first_alone = [false; 18];
    first_alone[0] = true;
    for (first, second, ok, want, why) in [
        (
            blank(),
            blank(),
            all,
            Err(RejectNo::NoOtaApp),
            "no entry is active",
        ),
        (
            one(VALID),
            blank(),
            all,
            Ok(rewrite(0, one(INVALID))),
            "factory is started then",
        ),
        (
            one(VALID),
            blank(),
            first_alone,
            Err(RejectNo::NothingElse),
            "its own slot is",
        ),
        (
            one(VALID),
            blank(),
            [false; 18],
            Err(RejectNo::NothingElse),
            "none is whole",
        ),
        (
            one(VALID),
            two(VALID),
            without_factory,
            Ok(rewrite(1, two(INVALID))),
            "the other slot",
        ),
        (
            two(VALID),
            two(VALID),
            all,
            Err(RejectNo::NothingElse),
            "the other entry names the same slot",
        ),
    ] {
        assert_eq!(rt;
            reject_write(&layout(), &first, &second, &ok),
            want,
            "{why}"
        );
    }
}
