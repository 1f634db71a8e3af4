//! A value for each case of the rules, with CRCs of another program.

use super::*;
use arrayvec::ArrayVec;
use otadata::Entry;
use partition_table::{App, Layout, Row};

/// States, as ESP-IDF numbers them.
const NEW: u32 = 0;

const PENDING_VERIFY: u32 = 1;

const VALID: u32 = 2;

const INVALID: u32 = 3;

const ABORTED: u32 = 4;

/// A layout of so many slots, from 1 to 16, with a test application or without.
fn layout(count: u8, test: bool) -> Layout {
    let mut slots = ArrayVec::new();
    slots.push(Row::default());
    for _slot in 1..count {
        if slots.len() < 16 {
            slots.push(Row::default());
        }
    }
    Layout {
        otadata: 0xD000,
        factory: Row::default(),
        slots,
        test: test.then_some(Row::default()),
    }
}

/// An entry of this sequence, state and CRC.
fn entry(seq: u32, state: u32, crc: u32) -> Entry {
    Entry {
        seq,
        label: [0xFF; 20],
        state,
        crc,
    }
}

/// The truth values where the images at these places are not whole.
fn without(broken: &[usize]) -> [bool; 18] {
    let mut ok = [true; 18];
    for place in broken {
        if *place < 18 {
            ok[*place] = false;
        }
    }
    ok
}

/// The entry of an erased sector.
fn blank() -> Entry {
    entry(0xFFFF_FFFF, 0xFFFF_FFFF, 0xFFFF_FFFF)
}

/// An entry of sequence 1.
fn one(state: u32) -> Entry {
    entry(1, state, 0x4743_989A)
}

/// An entry of sequence 2.
fn two(state: u32) -> Entry {
    entry(2, state, 0x55F6_3774)
}

/// An entry of sequence 3.
fn three(state: u32) -> Entry {
    entry(3, state, 0xED4A_5011)
}

/// An entry of sequence 4.
fn four(state: u32) -> Entry {
    entry(4, state, 0x709D_68A8)
}

#[test]
fn the_active_entry_names_its_slot(rt: HostRuntime) {
    let zero = entry(0, VALID, 0xFFFF_FFFF);
    let rejected_five = entry(5, INVALID, 0xC821_0FCD);
    for (first, second, count, app, why) in [
        (zero, zero, 2, App::Factory, "no entry is valid"),
        (one(VALID), zero, 2, App::Ota(0), "the first alone is valid"),
        (two(VALID), two(VALID), 2, App::Ota(1), "a tie"),
        (
            two(VALID),
            three(VALID),
            2,
            App::Ota(0),
            "the second is greater",
        ),
        (
            rejected_five,
            four(VALID),
            2,
            App::Ota(1),
            "the greater is rejected",
        ),
        (two(VALID), three(VALID), 3, App::Ota(2), "three slots"),
        (blank(), four(NEW), 16, App::Ota(3), "sixteen slots"),
    ] {
        assert_eq!(rt; named(&layout(count, false), &first, &second), app, "{why}");
    }
}

#[test]
fn candidates_go_down_from_the_named_slot_and_then_up(rt: HostRuntime) {
    let none = layout(3, true);
    let from_factory = order(&none, &blank(), &blank());
    assert_eq!(rt;
        from_factory.as_slice(),
        &[
            App::Factory,
            App::Ota(0),
            App::Ota(1),
            App::Ota(2),
            App::Test
        ][..],
        "no entry is valid"
    );
    let from_the_middle = order(&layout(4, true), &two(VALID), &three(VALID));
    assert_eq!(rt;
        from_the_middle.as_slice(),
        &[
            App::Ota(2),
            App::Ota(1),
            App::Ota(0),
            App::Factory,
            App::Ota(3),
            App::Test
        ][..],
        "from slot 2 of four"
    );
    let from_the_last = order(&layout(2, false), &two(VALID), &blank());
    assert_eq!(rt;
        from_the_last.as_slice(),
        &[App::Ota(1), App::Ota(0), App::Factory][..],
        "from the last slot, without a test application"
    );
    let most = order(&layout(16, true), &one(VALID), &blank());
    assert_eq!(rt; most.len(), 18, "every application of the largest layout");
}

#[test]
fn the_first_whole_candidate_is_started(rt: HostRuntime) {
    let all = layout(3, true);
    for (broken, app, why) in [
        (&[][..], Some(App::Ota(1)), "all are whole"),
        (&[1][..], Some(App::Ota(0)), "the named one is not"),
        (&[0, 1][..], Some(App::Factory), "nor the one below"),
        (&[0, 1, 16][..], Some(App::Ota(2)), "nor factory"),
        (
            &[0, 1, 2, 16][..],
            Some(App::Test),
            "the test application alone",
        ),
        (&[0, 1, 2, 16, 17][..], None, "none is whole"),
    ] {
        let ok = without(broken);
        assert_eq!(rt; choose(&all, &two(VALID), &blank(), &ok), app, "{why}");
    }
}

#[test]
fn an_update_may_begin_where_nothing_waits_and_the_named_one_runs(rt: HostRuntime) {
    let torn = entry(1, PENDING_VERIFY, 0);
    let waiting = |entry, state| Err(Unsettled::Waiting { entry, state });
    for (first, second, broken, want, why) in [
        (blank(), blank(), &[][..], Ok(App::Factory), "no update yet"),
        (
            one(VALID),
            two(ABORTED),
            &[][..],
            Ok(App::Ota(0)),
            "one that was given up",
        ),
        (
            two(VALID),
            one(NEW),
            &[][..],
            Ok(App::Ota(1)),
            "a new one that isn't active",
        ),
        (
            one(PENDING_VERIFY),
            blank(),
            &[][..],
            waiting(0, 1),
            "the first waits",
        ),
        (
            one(VALID),
            torn,
            &[][..],
            waiting(1, 1),
            "the second does, whatever its CRC",
        ),
        (torn, one(PENDING_VERIFY), &[][..], waiting(0, 1), "both do"),
        (
            one(NEW),
            torn,
            &[][..],
            waiting(1, 1),
            "waiting is told before new",
        ),
        (
            one(NEW),
            blank(),
            &[][..],
            waiting(0, 0),
            "the active one is new",
        ),
        (
            one(VALID),
            two(NEW),
            &[][..],
            waiting(1, 0),
            "the second is active, and new",
        ),
        (
            one(NEW),
            blank(),
            &[0, 1, 16][..],
            waiting(0, 0),
            "that is told before none whole",
        ),
        (
            one(VALID),
            blank(),
            &[0, 1, 16][..],
            Err(Unsettled::NoApp),
            "none is whole",
        ),
        (
            one(VALID),
            blank(),
            &[0][..],
            Err(Unsettled::Fallback {
                named: App::Ota(0),
                started: App::Factory,
            }),
            "another one is started",
        ),
    ] {
        let ok = without(broken);
        assert_eq!(rt;
            settled(&layout(2, false), &first, &second, &ok),
            want,
            "{why}"
        );
    }
}

/// The slot that an update writes, where this application may run.
fn target_beside(layout: &Layout, first: &Entry, second: &Entry, running: App) -> Option<u8> {
    match running {
        App::Ota(slot) => {
            if usize::from(slot) < layout.slots.len() {
                Some(target(layout, first, second, running))
            } else {
                None
            }
        }
        App::Factory => Some(target(layout, first, second, running)),
        App::Test => None,
    }
}

#[test]
fn an_update_writes_the_slot_of_an_entry_that_may_revive_or_the_next_one(rt: HostRuntime) {
    for (count, first, second, running, slot, why) in [
        (
            3,
            three(INVALID),
            two(INVALID),
            App::Factory,
            2,
            "the first names slot 2",
        ),
        (3, blank(), blank(), App::Factory, 0, "nothing to revive"),
        (
            3,
            one(VALID),
            three(INVALID),
            App::Ota(0),
            2,
            "the other one names slot 2",
        ),
        (3, one(VALID), blank(), App::Ota(0), 1, "the next slot"),
        (
            3,
            four(VALID),
            three(INVALID),
            App::Ota(0),
            1,
            "the other one is below",
        ),
        (3, blank(), three(VALID), App::Ota(2), 0, "round"),
        (
            2,
            one(VALID),
            three(ABORTED),
            App::Ota(0),
            1,
            "the other one names what runs",
        ),
        (
            2,
            one(VALID),
            two(ABORTED),
            App::Ota(0),
            1,
            "an update that was given up",
        ),
        (1, one(VALID), blank(), App::Ota(0), 0, "one slot"),
    ] {
        let found = target_beside(&layout(count, false), &first, &second, running);
        assert_eq!(rt; found, Some(slot), "{why}");
    }
}
