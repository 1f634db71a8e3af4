//! What no clause says: rows from outside.

use crate::{PartNo, check_erase, check_write, is_open, lies_in, next_program};
use nor_device::Step;
use partition_table::{Row, Table, padded_label};
use std::test::Fail;

/// A row with a label of at most 16 bytes.
fn row(kind: u8, subtype: u8, offset: u32, size: u32, label: &[u8], flags: u32) -> Row {
    let label = if label.len() <= 16 {
        padded_label(label)
    } else {
        [0; 16]
    };
    Row {
        kind,
        subtype,
        offset,
        size,
        label,
        flags,
    }
}

/// Two update slots, and partitions that are flagged.
fn table() -> Result<Table, Fail> {
    let rows = [
        row(1, 2, 0x9000, 0x4000, b"nvs", 0),
        row(1, 0, 0xD000, 0x2000, b"otadata", 0),
        row(1, 1, 0xF000, 0x1000, b"phy_init", 0),
        row(1, 2, 0x10000, 0x1000, b"cfg", 2),
        row(1, 2, 0x11000, 0x1000, b"key", 1),
        row(1, 2, 0x12000, 0x1000, b"both", 3),
        row(0, 0x00, 0x20000, 0x100000, b"factory", 0),
        row(0, 0x10, 0x120000, 0x100000, b"ota_0", 0),
        row(0, 0x11, 0x220000, 0x100000, b"ota_1", 2),
    ];
    match Table::of_rows(&rows, 0x400000) {
        Ok(table) => Ok(table),
        Err(_) => Err(Fail::from("these rows are a table")),
    }
}

#[test]
fn a_write_is_refused_by_the_first_rule_against_it(rt: HostRuntime) -> Result<(), Fail> {
    let table = table()?;
    for (label, offset, length, want) in [
        (b"none".as_slice(), 0, 1, Err(PartNo::NoLabel)),
        (b"", 0, 1, Err(PartNo::NoLabel)),
        (b"seventeen_letters", 0, 1, Err(PartNo::NoLabel)),
        (b"otadata", 0, 1, Err(PartNo::Dangerous)),
        (b"factory", 0x200000, 1, Err(PartNo::Dangerous)),
        (b"ota_1", 0, 1, Err(PartNo::Dangerous)),
        (b"cfg", 0, 1, Err(PartNo::ReadOnly)),
        (b"both", 0x2000, 1, Err(PartNo::ReadOnly)),
        (b"key", 0x2000, 1, Err(PartNo::Encrypted)),
        (b"nvs", 0x4000, 1, Err(PartNo::Range)),
        (b"nvs", 0x3FFF, 2, Err(PartNo::Range)),
        (b"nvs", 0xFFFF_FFFF, 1, Err(PartNo::Range)),
        (b"nvs", 0, 0xFFFF_FFFF_FFFF_FFFF, Err(PartNo::Range)),
        (b"nvs", 0x3FFF, 1, Ok(0x9000)),
        (b"phy_init", 0, 0x1000, Ok(0xF000)),
    ] {
        let found = check_write(&table, label, offset, length);
        assert_eq!(rt; place_of(found), want, "{label:?} at {offset}");
    }
    Ok(())
}

#[test]
fn an_erase_is_refused_by_the_first_rule_against_it(rt: HostRuntime) -> Result<(), Fail> {
    let table = table()?;
    for (label, offset, len, want) in [
        (b"none".as_slice(), 1, 1, Err(PartNo::NoLabel)),
        (b"ota_0", 1, 1, Err(PartNo::Dangerous)),
        (b"cfg", 1, 1, Err(PartNo::ReadOnly)),
        (b"key", 1, 1, Err(PartNo::Encrypted)),
        (b"nvs", 1, 0x1000, Err(PartNo::Unaligned)),
        (b"nvs", 0, 0x1800, Err(PartNo::Unaligned)),
        (b"nvs", 0x8001, 0x1000, Err(PartNo::Unaligned)),
        (b"nvs", 0x4000, 0x1000, Err(PartNo::Range)),
        (b"nvs", 0xFFFF_F000, 0x1000, Err(PartNo::Range)),
        (b"nvs", 0x1000, 0x3000, Ok(0x9000)),
        (b"nvs", 0, 0x4000, Ok(0x9000)),
    ] {
        let found = check_erase(&table, label, offset, len);
        assert_eq!(rt; place_of(found), want, "{label:?} at {offset}");
    }
    Ok(())
}

/// Where a partition begins.
fn place_of(found: Result<Row, PartNo>) -> Result<u32, PartNo> {
    match found {
        Ok(row) => Ok(row.offset),
        Err(why) => Err(why),
    }
}

/// How many bytes the first program of a write has, and how many are left behind it.
fn first_of(at: u32, bytes: &[u8]) -> Option<(usize, usize)> {
    let (step, rest) = next_program(at, bytes)?;
    match step {
        Step::Program { bytes, .. } => Some((bytes.bytes().len(), rest.len())),
        _ => None,
    }
}

#[test]
fn a_write_is_cut_at_the_ends_of_pages(rt: HostRuntime) {
    let bytes = [0xA5; 600];
    for (done, at, want) in [
        (0, 0x1F0, Some((16, 584))),
        (16, 0x200, Some((256, 328))),
        (272, 0x300, Some((256, 72))),
        (528, 0x400, Some((72, 0))),
        (600, 0x448, None),
        (599, 0xFFFF_FFFF, Some((1, 0))),
    ] {
        if done <= bytes.len() {
            assert_eq!(rt; first_of(at, &bytes[done..]), want, "at {at}");
        }
    }
}

#[test]
fn a_step_is_open_where_one_partition_that_may_be_changed_has_it_all(
    rt: HostRuntime,
) -> Result<(), Fail> {
    let table = table()?;
    let rows = table.rows();
    assert!(rt; is_open(rows, &Step::Erase { sector: 0xC }), "nvs");
    assert!(rt; !is_open(rows, &Step::Erase { sector: 0xD }), "OTA data");
    assert!(rt; !is_open(rows, &Step::Erase { sector: 0x10 }), "readonly");
    assert!(rt;
        !is_open(rows, &Step::Erase { sector: 0xF_FFFF }),
        "no partition"
    );
    assert!(rt; !is_open(rows, &Step::Block { block: 0 }), "more than nvs");
    assert!(rt; !is_open(rows, &Step::Block { block: 2 }), "an application");
    let storage = row(1, 0x82, 0x10000, 0x20000, b"storage", 0);
    assert!(rt;
        lies_in(&storage, &Step::Block { block: 2 }),
        "the last block"
    );
    assert!(rt; !lies_in(&storage, &Step::Block { block: 3 }), "behind it");
    assert!(rt;
        lies_in(&storage, &Step::Erase { sector: 0x10 }),
        "the first sector"
    );
    Ok(())
}
