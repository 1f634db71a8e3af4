//! Values from outside: CRCs of another program, published bytes, and the choice around a tie.

use super::*;

/// Numbers of states, as ESP-IDF has them in `esp_ota_img_states_t`.
const NEW: u32 = 0;

const PENDING_VERIFY: u32 = 1;

const VALID: u32 = 2;

const INVALID: u32 = 3;

const ABORTED: u32 = 4;

const UNDEFINED: u32 = 0xFFFF_FFFF;

/// Sequences with the CRCs that another program computes, by Python:
/// `zlib.crc32(bytes(byte ^ 0xFF for byte in seq.to_bytes(4, "little")))`.
const CRCS: [(u32, u32); 6] = [
    (0, 0xFFFF_FFFF),
    (1, 0x4743_989A),
    (2, 0x55F6_3774),
    (3, 0xED4A_5011),
    (0xFFFF_FFFE, 0x99F8_B879),
    (0xFFFF_FFFF, 0x2144_DF1C),
];

/// An entry of these numbers, with the label of a new one.
fn entry(seq: u32, state: u32, crc: u32) -> Entry {
    Entry {
        seq,
        label: [0xFF; 20],
        state,
        crc,
    }
}

#[test]
fn a_crc_is_the_one_that_another_program_computes(rt: HostRuntime) {
    for (seq, want) in CRCS {
        assert_eq!(rt; crc_of(seq), want, "at sequence {seq}");
    }
}

#[test]
fn the_first_entry_has_its_well_known_bytes(rt: HostRuntime) {
    let first = entry(1, NEW, 0x4743_989A);
    let mut bytes = [0; 32];
    first.put(&mut bytes);
    let mut want = [0xFF; 32];
    want[..4].copy_from_slice(&[1, 0, 0, 0]);
    want[24..].copy_from_slice(&[0, 0, 0, 0, 0x9A, 0x98, 0x43, 0x47]);
    assert_eq!(rt; bytes, want);
    assert_eq!(rt; Entry::read(&bytes), first);
    let mut flash = [0xFF; 0x3000];
    flash[0x2000..0x2020].copy_from_slice(&want);
    assert_eq!(rt; entry_in(&flash, 0x1000, 1), first, "the second sector");
    let erased = entry(0xFFFF_FFFF, 0xFFFF_FFFF, 0xFFFF_FFFF);
    assert_eq!(rt; entry_in(&flash, 0x1000, 0), erased, "the first sector");
    assert_eq!(rt; Entry::default().seq, 0);
}

#[test]
fn an_entry_is_valid_by_its_crc_its_sequence_and_its_state(rt: HostRuntime) {
    for (seq, state, crc, matches, valid) in [
        (1, NEW, 0x4743_989A, true, true),
        (1, PENDING_VERIFY, 0x4743_989A, true, true),
        (1, VALID, 0x4743_989A, true, true),
        (1, INVALID, 0x4743_989A, true, false),
        (1, ABORTED, 0x4743_989A, true, false),
        (1, UNDEFINED, 0x4743_989A, true, true),
        (1, 77, 0x4743_989A, true, true),
        (1, VALID, 0x4743_989B, false, false),
        (0, VALID, 0xFFFF_FFFF, false, false),
        (0xFFFF_FFFE, VALID, 0x99F8_B879, true, true),
        (0xFFFF_FFFF, UNDEFINED, 0xFFFF_FFFF, false, false),
        (0xFFFF_FFFF, VALID, 0x2144_DF1C, false, false),
    ] {
        let entry = entry(seq, state, crc);
        assert_eq!(rt; entry.matches(), matches, "{seq} in state {state}");
        assert_eq!(rt; entry.is_valid(), valid, "{seq} in state {state}");
    }
}

#[test]
fn the_valid_entry_of_the_greater_sequence_is_active(rt: HostRuntime) {
    let zero = entry(0, VALID, 0xFFFF_FFFF);
    let one = entry(1, VALID, 0x4743_989A);
    let two = entry(2, VALID, 0x55F6_3774);
    let three = entry(3, VALID, 0xED4A_5011);
    let erased = entry(0xFFFF_FFFF, VALID, 0x2144_DF1C);
    let aborted_one = entry(1, ABORTED, 0x4743_989A);
    let aborted_two = entry(2, ABORTED, 0x55F6_3774);
    let aborted_three = entry(3, ABORTED, 0xED4A_5011);
    for (first, second, want) in [
        (two, three, Some(1)),
        (three, two, Some(0)),
        (two, two, Some(0)),
        (aborted_two, two, Some(1)),
        (two, aborted_three, Some(0)),
        (aborted_three, two, Some(1)),
        (zero, one, Some(1)),
        (one, erased, Some(0)),
        (zero, aborted_one, None),
    ] {
        assert_eq!(rt;
            active(&first, &second),
            want,
            "at {} and {}",
            first.seq,
            second.seq
        );
    }
}

#[test]
fn a_sequence_names_the_slots_in_turn(rt: HostRuntime) {
    for (seq, slots, want) in [
        (1, 2, 0),
        (2, 2, 1),
        (3, 2, 0),
        (1, 1, 0),
        (16, 16, 15),
        (0xFFFF_FFFE, 16, 13),
    ] {
        assert_eq!(rt; slot_of(seq, slots), want, "sequence {seq} of {slots}");
    }
}

#[test]
fn the_next_entry_is_new_and_names_its_slot(rt: HostRuntime) {
    let blank = entry(0xFFFF_FFFF, UNDEFINED, 0xFFFF_FFFF);
    let one = entry(1, VALID, 0x4743_989A);
    let rejected_two = entry(2, INVALID, 0x55F6_3774);
    let three = entry(3, VALID, 0xED4A_5011);
    let rejected_three = entry(3, INVALID, 0xED4A_5011);
    let last = entry(0xFFFF_FFFE, VALID, 0x99F8_B879);
    for (first, second, slot, slots, want, why) in [
        (
            blank,
            blank,
            0,
            3,
            Ok((0, 1, 0x4743_989A)),
            "no entry is active",
        ),
        (
            rejected_three,
            rejected_two,
            2,
            3,
            Ok((0, 3, 0xED4A_5011)),
            "none is, but two match",
        ),
        (
            one,
            blank,
            1,
            2,
            Ok((1, 2, 0x55F6_3774)),
            "the first is active",
        ),
        (
            one,
            three,
            1,
            2,
            Ok((0, 4, 0x709D_68A8)),
            "the second is active",
        ),
        (
            one,
            three,
            0,
            2,
            Ok((0, 3, 0xED4A_5011)),
            "the slot is the active one",
        ),
        (
            last,
            blank,
            1,
            2,
            Ok((1, 0xFFFF_FFFE, 0x99F8_B879)),
            "the last sequence again",
        ),
        (
            last,
            blank,
            0,
            2,
            Err(SeqSpent { seq: 0xFFFF_FFFE }),
            "no sequence is left",
        ),
    ] {
        let next = next_entry(&first, &second, slot, slots);
        let want = match want {
            Ok((sector, seq, crc)) => Ok(NextEntry {
                sector,
                entry: entry(seq, NEW, crc),
            }),
            Err(spent) => Err(spent),
        };
        assert_eq!(rt; next, want, "{why}");
    }
}
