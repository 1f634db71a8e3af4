//! Tables as bytes with digests of another program, and the first refusal of each kind.

ghost use Rattle.std.specs.Prelude.{◌≤◌};

use crate::*;

/// The digest of the six rows, by Python's `hashlib.md5`.
const DIGEST: [u8; 16] = [
    0xBF, 0x25, 0x82, 0x2C, 0x0F, 0xA6, 0xD8, 0x64, 0x1B, 0xD9, 0x30, 0x25, 0x1E, 0x06, 0xB4, 0xC4,
];
/// The digest of 94 rows of `AA 50` and thirty zeros.
const DIGEST_94: [u8; 16] = [
    0xF9, 0x70, 0x73, 0x10, 0x5E, 0xB9, 0xCB, 0xF8, 0xD1, 0xAB, 0xA0, 0x9F, 0xA7, 0x80, 0x82, 0x8A,
];
/// The digest of 95 such rows.
const DIGEST_95: [u8; 16] = [
    0x8C, 0x15, 0xE6, 0xD9, 0xBF, 0x6C, 0x7C, 0xC0, 0xDC, 0x04, 0x50, 0xF0, 0xCF, 0x57, 0x93, 0x28,
];

/// A row of these numbers, without label and flags.
fn row(kind: u8, subtype: u8, offset: u32, size: u32) -> Row {
    Row {
        kind,
        subtype,
        offset,
        size,
        label: [0; 16],
        flags: 0,
    }
}

/// The same row with this label.
fn labelled(row: Row, text: &[u8]) -> Row {
    let mut label = [0; 16];
    if text.len() <= 16 {
        label[..text.len()].copy_from_slice(text);
    }
    Row { label, ..row }
}

/// The rows of a factory application and two update slots.
fn six() -> [Row; 6] {
    [
        labelled(row(1, 0x02, 0x9000, 0x4000), b"nvs"),
        labelled(row(1, 0x00, 0xD000, 0x2000), b"otadata"),
        labelled(row(1, 0x01, 0xF000, 0x1000), b"phy_init"),
        labelled(row(0, 0x00, 0x10000, 0x100000), b"factory"),
        labelled(row(0, 0x10, 0x110000, 0x100000), b"ota_0"),
        labelled(row(0, 0x11, 0x210000, 0x100000), b"ota_1"),
    ]
}

/// Bytes at a place of a table, as far as it has it.
fn write(table: &mut [u8], at: usize, bytes: &[u8]) {
    if at <= table.len() && bytes.len() <= table.len() - at {
        table[at..at + bytes.len()].copy_from_slice(bytes);
    }
}

/// The bytes of a row.
fn write_row(table: &mut [u8], at: usize, row: &Row)
    requires { at ≤ 0xC00 }
{
    write(table, at, &[0xAA, 0x50, row.kind, row.subtype]);
    write(table, at + 4, &row.offset.to_le_bytes());
    write(table, at + 8, &row.size.to_le_bytes());
    write(table, at + 12, &row.label);
    write(table, at + 28, &row.flags.to_le_bytes());
}

/// The bytes of the six rows, their digest and the end row.
fn six_bytes() -> [u8; 0xC00] {
    let mut table = [0xFF; 0xC00];
    for (i, row) in six().iter().enumerate() {
        write_row(&mut table, 32 * i, row);
    }
    write(&mut table, 0xC0, &[0xEB, 0xEB]);
    write(&mut table, 0xD0, &DIGEST);
    table
}

/// The bytes of so many rows of `AA 50` and zeros, and a digest behind them.
fn many_bytes(count: usize, digest: &[u8]) -> [u8; 0xC00] {
    let mut table = [0xFF; 0xC00];
    for i in 0..96 {
        if i < count {
            write(&mut table, 32 * i, &[0; 32]);
            write(&mut table, 32 * i, &[0xAA, 0x50]);
        }
        if i == count {
            write(&mut table, 32 * i, &[0xEB, 0xEB]);
            write(&mut table, 32 * i + 16, digest);
        }
    }
    table
}

#[test]
fn a_table_is_read_and_written_as_its_bytes(rt: HostRuntime) {
    let bytes = six_bytes();
    let Ok(table) = Table::read(&bytes, 0x400000) else {
        panic!(rt; "the table is refused");
    };
    assert_eq!(rt; table.rows(), six().as_slice());
    let mut written = [0; 0xC00];
    table.put(&mut written);
    assert_eq!(rt; written, bytes);
    for (label, want) in [
        (b"nvs".as_slice(), Some(0)),
        (b"ota_1".as_slice(), Some(5)),
        (b"ota".as_slice(), None),
        (b"ota_1\0".as_slice(), Some(5)),
        (b"abcdefghijklmnopq".as_slice(), None),
    ] {
        assert_eq!(rt; table.find(label), want);
    }
}

#[test]
fn a_changed_byte_is_told_by_the_first_rule_that_it_breaks(rt: HostRuntime) {
    for (at, value, flash, want) in [
        (0x00, 0x00, 0x400000, TableBad::Magic { row: 0 }),
        (0xA1, 0x00, 0x400000, TableBad::Magic { row: 5 }),
        (0xC0, 0xFF, 0x400000, TableBad::Magic { row: 6 }),
        (0xC2, 0x00, 0x400000, TableBad::Md5 { row: 6 }),
        (0xD3, 0x00, 0x400000, TableBad::Md5 { row: 6 }),
        (0xA4, 0x01, 0x400000, TableBad::Md5 { row: 6 }),
        (0xE0, 0x00, 0x400000, TableBad::Magic { row: 7 }),
        (0xC00, 0x00, 0x30FFFF, TableBad::Range { row: 5 }),
    ] {
        let mut bytes = six_bytes();
        write(&mut bytes, at, &[value]);
        assert_eq!(rt; Table::read(&bytes, flash), Err(want), "byte {at}");
    }
    let mut behind = six_bytes();
    write(&mut behind, 0x100, &[0x00]);
    assert!(rt;
        Table::read(&behind, 0x400000).is_ok(),
        "a byte behind the end row"
    );
}

#[test]
fn a_table_has_room_for_94_rows(rt: HostRuntime) {
    for (count, digest, want) in [
        (0, DIGEST, TableBad::Md5 { row: 0 }),
        (94, DIGEST_94, TableBad::Align { row: 0 }),
        (94, DIGEST_95, TableBad::Md5 { row: 94 }),
        (95, DIGEST_95, TableBad::NoEnd),
        (95, DIGEST_94, TableBad::Md5 { row: 95 }),
        (96, DIGEST_95, TableBad::NoEnd),
    ] {
        let read = Table::read(&many_bytes(count, &digest), 0x400000);
        assert_eq!(rt; read, Err(want), "{count} rows");
    }
    assert_eq!(rt;
        Table::read(&[0xFF; 0xC00], 0x400000),
        Err(TableBad::Md5 { row: 0 })
    );
}

#[test]
fn rows_are_refused_by_the_first_rule_that_they_break(rt: HostRuntime) {
    let data = row(1, 2, 0x9000, 0x2000);
    let app = row(0, 0x20, 0x10000, 0x10000);
    for (first, second, want, why) in [
        (
            data,
            row(0, 1, 0x11000, 0x1000),
            TableBad::Align { row: 1 },
            "64 KiB",
        ),
        (
            data,
            row(1, 1, 0xB800, 0x1000),
            TableBad::Align { row: 1 },
            "a sector",
        ),
        (
            data,
            row(1, 1, 0xB000, 0x800),
            TableBad::Align { row: 1 },
            "a size",
        ),
        (
            data,
            row(1, 1, 0xB000, 0),
            TableBad::Align { row: 1 },
            "no size",
        ),
        (
            row(1, 1, 0x8000, 0x1000),
            data,
            TableBad::Range { row: 0 },
            "before 0x9000",
        ),
        (
            data,
            row(1, 1, 0x3FF000, 0x2000),
            TableBad::Range { row: 1 },
            "the end",
        ),
        (
            data,
            row(1, 1, 0xFFFFF000, 0x1000),
            TableBad::Range { row: 1 },
            "32 bits",
        ),
        (
            row(1, 1, 0xA000, 0x1000),
            data,
            TableBad::Overlap { a: 0, b: 1 },
            "overlap",
        ),
        (
            app,
            row(0, 0x20, 0x20000, 0x10000),
            TableBad::TwoOf { a: 0, b: 1 },
            "two tests",
        ),
        (
            row(0, 0x00, 0x10000, 0x10000),
            row(0, 0x00, 0x20000, 0x10000),
            TableBad::TwoOf { a: 0, b: 1 },
            "two factories",
        ),
        (
            row(0, 0x10, 0x10000, 0x10000),
            row(0, 0x10, 0x20000, 0x10000),
            TableBad::TwoOf { a: 0, b: 1 },
            "two of ota_0",
        ),
        (
            row(0, 0x1F, 0x10000, 0x10000),
            row(0, 0x1F, 0x20000, 0x10000),
            TableBad::TwoOf { a: 0, b: 1 },
            "two of ota_15",
        ),
        (
            row(1, 0x00, 0x9000, 0x2000),
            row(1, 0x00, 0xB000, 0x2000),
            TableBad::TwoOf { a: 0, b: 1 },
            "two of OTA data",
        ),
    ] {
        assert_eq!(rt;
            Table::of_rows(&[first, second], 0x400000),
            Err(want),
            "{why}"
        );
    }
    let third = row(1, 6, 0x9000, 0x1000);
    let apart = Table::of_rows(&[data, app, third], 0x400000);
    assert_eq!(rt;
        apart,
        Err(TableBad::Overlap { a: 0, b: 2 }),
        "no neighbours"
    );
    let touching = row(1, 6, 0xB000, 0x1000);
    assert!(rt;
        Table::of_rows(&[data, app, touching], 0x400000).is_ok(),
        "touching rows"
    );
    for (kind, subtype) in [(0, 0x0F), (0, 0x21), (1, 0x01), (1, 0x10), (2, 0x00)] {
        let (first, second) = (
            row(kind, subtype, 0x10000, 0x10000),
            row(kind, subtype, 0x20000, 0x10000),
        );
        assert!(rt;
            Table::of_rows(&[first, second], 0x400000).is_ok(),
            "two of type {kind} and subtype {subtype}"
        );
    }
}

#[test]
fn a_layout_is_refused_by_the_first_part_that_it_lacks(rt: HostRuntime) {
    let data = row(1, 0, 0x9000, 0x2000);
    let factory = row(0, 0, 0x10000, 0x10000);
    let slot = |number: u8, offset| row(0, number, offset, 0x10000);
    let readonly = Row { flags: 2, ..data };
    let small = row(1, 0, 0x9000, 0x1000);
    let (zero, one, two) = (
        slot(0x10, 0x20000),
        slot(0x11, 0x20000),
        slot(0x12, 0x30000),
    );
    for (rows, want, why) in [
        ([factory, zero, two], TableBad::NoOtadata, "no OTA data"),
        (
            [small, factory, zero],
            TableBad::OtadataSize { size: 0x1000 },
            "one sector",
        ),
        (
            [readonly, factory, zero],
            TableBad::OtadataFlags { flags: 2 },
            "readonly",
        ),
        ([data, zero, two], TableBad::NoFactory, "no factory"),
        (
            [data, factory, one],
            TableBad::SlotGap { slot: 0 },
            "no ota_0",
        ),
        (
            [data, factory, row(0, 0x20, 0x20000, 0x10000)],
            TableBad::SlotGap { slot: 0 },
            "test",
        ),
    ] {
        let Ok(table) = Table::of_rows(&rows, 0x400000) else {
            panic!(rt; "the rows are refused: {why}");
        };
        assert_eq!(rt; table.layout(), Err(want), "{why}");
    }
    let gap = Table::of_rows(&[data, factory, zero, two], 0x400000);
    let Ok(gap) = gap else {
        panic!(rt; "a gap between slots");
    };
    assert_eq!(rt;
        gap.layout(),
        Err(TableBad::SlotGap { slot: 1 }),
        "ota_1 is missing"
    );
}

#[test]
fn an_application_ends_in_the_first_16_mebibytes(rt: HostRuntime) {
    let data = row(1, 0, 0x9000, 0x2000);
    let factory = row(0, 0, 0x10000, 0x10000);
    let zero = row(0, 0x10, 0x20000, 0x10000);
    let below = row(0, 0x11, 0xFF0000, 0x10000);
    let across = row(0, 0x11, 0xFF0000, 0x11000);
    let behind = row(0, 0x11, 0x1000000, 0x10000);
    let other = row(0, 0x40, 0x1010000, 0x1000);
    let gap = row(0, 0x12, 0x1020000, 0x10000);
    let storage = row(1, 0x82, 0x1000000, 0x1000000);
    for (last, want, why) in [
        (below, None, "it ends there"),
        (across, Some(TableBad::AppHigh { row: 3 }), "a sector above"),
        (
            behind,
            Some(TableBad::AppHigh { row: 3 }),
            "all of it above",
        ),
        (
            other,
            Some(TableBad::AppHigh { row: 3 }),
            "an application of no slot",
        ),
        (
            gap,
            Some(TableBad::SlotGap { slot: 1 }),
            "the gap comes first",
        ),
        (storage, None, "data may stand there"),
    ] {
        let Ok(table) = Table::of_rows(&[data, factory, zero, last], 0x2000000) else {
            panic!(rt; "the rows are refused: {why}");
        };
        assert_eq!(rt; table.layout().err(), want, "{why}");
    }
    let Ok(two) = Table::of_rows(&[data, factory, other, zero, behind], 0x2000000) else {
        panic!(rt; "two high rows");
    };
    assert_eq!(rt;
        two.layout(),
        Err(TableBad::AppHigh { row: 2 }),
        "the first one"
    );
}

#[test]
fn a_layout_has_its_slots_in_order(rt: HostRuntime) {
    let test = row(0, 0x20, 0x310000, 0x10000);
    let [nvs, otadata, phy, factory, first, second] = six();
    let rows = [test, second, nvs, otadata, phy, factory, first];
    let Ok(table) = Table::of_rows(&rows, 0x400000) else {
        panic!(rt; "the rows are refused");
    };
    let Ok(layout) = table.layout() else {
        panic!(rt; "the layout is refused");
    };
    assert_eq!(rt; layout.otadata, 0xD000);
    assert_eq!(rt; layout.slots.as_slice(), [first, second].as_slice());
    assert_eq!(rt; layout.test, Some(test));
    assert_eq!(rt; layout.place(App::Factory), factory);
}

#[test]
fn sixteen_slots_are_a_layout(rt: HostRuntime) {
    let mut rows = [row(1, 0, 0x9000, 0x2000); 18];
    rows[1] = row(0, 0, 0x10000, 0x10000);
    for slot in 0..16 {
        rows[2 + slot] = row(
            0,
            0x10 + slot as u8,
            0x20000 + 0x10000 * slot as u32,
            0x10000,
        );
    }
    let Ok(table) = Table::of_rows(&rows, 0x400000) else {
        panic!(rt; "the rows are refused");
    };
    let Ok(layout) = table.layout() else {
        panic!(rt; "the layout is refused");
    };
    assert_eq!(rt; layout.slots.as_slice(), &rows[2..]);
}
