//! Sources with the tables that they mean, and refusals by record and cause.

use crate::{CsvNo, CsvWhy, read_csv};
use partition_table::{Row, TableBad};
use std::alloc::{AllocError, Global};
use std::test::Fail;

/// A source of a factory application and two update slots.
const SOURCE: &str = "# Name, Type, SubType, Offset, Size, Flags
nvs, data, nvs, , 0x4000,
otadata, data, ota, , 0x2000,
phy_init, data, phy, , 0x1000,
factory, app, factory, , 1M,
ota_0, app, ota_0, , 1M,
ota_1, app, ota_1, , 1M,
";

/// A row of these numbers and this label.
fn row(kind: u8, subtype: u8, offset: u32, size: u32, text: &str, flags: u32) -> Row {
    let text = text.as_bytes();
    let mut label = [0; 16];
    if text.len() <= 16 {
        label[..text.len()].copy_from_slice(text);
    }
    Row {
        kind,
        subtype,
        offset,
        size,
        label,
        flags,
    }
}

#[test]
fn a_source_means_its_rows(rt: HostRuntime) -> Result<(), Fail> {
    let table = read_csv(rt.alloc(), SOURCE.as_bytes(), 0x400000)
        .ok()
        .ok_or("the source is refused")?;
    let want = [
        row(1, 0x02, 0x9000, 0x4000, "nvs", 0),
        row(1, 0x00, 0xD000, 0x2000, "otadata", 0),
        row(1, 0x01, 0xF000, 0x1000, "phy_init", 0),
        row(0, 0x00, 0x10000, 0x100000, "factory", 0),
        row(0, 0x10, 0x110000, 0x100000, "ota_0", 0),
        row(0, 0x11, 0x210000, 0x100000, "ota_1", 0),
    ];
    assert_eq!(rt; table.rows(), want.as_slice());
    Ok(())
}

#[test]
fn a_record_is_read_as_the_format_says(rt: HostRuntime) -> Result<(), Fail> {
    for (text, want) in [
        ("a,data,nvs,,4k,", row(1, 2, 0x9000, 0x1000, "a", 0)),
        ("a,data,nvs,,0X1000", row(1, 2, 0x9000, 0x1000, "a", 0)),
        ("a,data,,0xA000,4096", row(1, 6, 0xA000, 0x1000, "a", 0)),
        ("a,1,,0xA000,4K", row(1, 6, 0xA000, 0x1000, "a", 0)),
        ("a,0x1,spiffs,,4K", row(1, 0x82, 0x9000, 0x1000, "a", 0)),
        ("a,0,ota_15,,64K", row(0, 0x1F, 0x10000, 0x10000, "a", 0)),
        ("a,app,test,,4K", row(0, 0x20, 0x10000, 0x1000, "a", 0)),
        ("a,64,254,,4K", row(64, 254, 0x9000, 0x1000, "a", 0)),
        ("a,app,1,,1m", row(0, 1, 0x10000, 0x100000, "a", 0)),
        ("a,app,1,,1M", row(0, 1, 0x10000, 0x100000, "a", 0)),
        ("a,data,1,,4096", row(1, 1, 0x9000, 0x1000, "a", 0)),
        ("a,data,1,36k,0x4k", row(1, 1, 0x9000, 0x1000, "a", 0)),
        ("a,data,1,36K,4K", row(1, 1, 0x9000, 0x1000, "a", 0)),
        ("!,data,1,,4K", row(1, 1, 0x9000, 0x1000, "!", 0)),
        ("~,data,1,,4K", row(1, 1, 0x9000, 0x1000, "~", 0)),
        (
            "a,data,fat,,4K,readonly:encrypted",
            row(1, 0x81, 0x9000, 0x1000, "a", 3),
        ),
        (
            "a,data,fat,,4K,encrypted:encrypted",
            row(1, 0x81, 0x9000, 0x1000, "a", 1),
        ),
        (
            " \ta\t ,\tdata , nvs,\t, 4K ,,\t, ",
            row(1, 2, 0x9000, 0x1000, "a", 0),
        ),
        (
            "\u{FEFF}\"a\",data,nvs,,4K",
            row(1, 2, 0x9000, 0x1000, "\"a\"", 0),
        ),
        (
            "\n\r\n \n # x\r\na,data,nvs,,4K\r",
            row(1, 2, 0x9000, 0x1000, "a", 0),
        ),
    ] {
        let table = read_csv(rt.alloc(), text.as_bytes(), 0x400000)
            .ok()
            .ok_or(text)?;
        assert_eq!(rt; table.rows(), [want].as_slice(), "{text}");
    }
    Ok(())
}

#[test]
fn each_subtype_has_its_number(rt: HostRuntime) -> Result<(), Fail> {
    for (name, subtype) in [
        ("app,factory", 0x00),
        ("app,ota_0", 0x10),
        ("app,ota_1", 0x11),
        ("app,ota_2", 0x12),
        ("app,ota_3", 0x13),
        ("app,ota_4", 0x14),
        ("app,ota_5", 0x15),
        ("app,ota_6", 0x16),
        ("app,ota_7", 0x17),
        ("app,ota_8", 0x18),
        ("app,ota_9", 0x19),
        ("app,ota_10", 0x1A),
        ("app,ota_11", 0x1B),
        ("app,ota_12", 0x1C),
        ("app,ota_13", 0x1D),
        ("app,ota_14", 0x1E),
        ("app,ota_15", 0x1F),
        ("app,test", 0x20),
        ("data,ota", 0x00),
        ("data,phy", 0x01),
        ("data,nvs", 0x02),
        ("data,coredump", 0x03),
        ("data,nvs_keys", 0x04),
        ("data,", 0x06),
        ("data,fat", 0x81),
        ("data,spiffs", 0x82),
    ] {
        let text = format!(in rt.alloc(); "a,{name},0x10000,64K")?;
        let table = read_csv(rt.alloc(), text.as_bytes(), 0x400000)
            .ok()
            .ok_or(name)?;
        let kind = if name.starts_with("app") { 0 } else { 1 };
        let want = row(kind, subtype, 0x10000, 0x10000, "a", 0);
        assert_eq!(rt; table.rows(), [want].as_slice(), "{name}");
    }
    Ok(())
}

#[test]
fn a_source_is_refused_by_record_and_cause(rt: HostRuntime) {
    let at = |number, why| CsvNo::At { number, why };
    for (text, want) in [
        ("a,data,nvs,,4K,,x", at(1, CsvWhy::Fields)),
        (",data,nvs,,4K", at(1, CsvWhy::Name)),
        ("abcdefghijklmnopq,data,nvs,,4K", at(1, CsvWhy::Name)),
        ("a b,data,nvs,,4K", at(1, CsvWhy::Name)),
        (" ,data,nvs,,4K", at(1, CsvWhy::Name)),
        ("\u{7F},data,nvs,,4K", at(1, CsvWhy::Name)),
        ("a,apple,nvs,,4K", at(1, CsvWhy::Kind)),
        ("a,255,1,,4K", at(1, CsvWhy::Kind)),
        ("a, app, , , 1M,", at(1, CsvWhy::Subtype)),
        ("a,app,nvs,,1M", at(1, CsvWhy::Subtype)),
        ("a,app,ota_16,,1M", at(1, CsvWhy::Subtype)),
        ("a,data,efuse,,4K", at(1, CsvWhy::Subtype)),
        ("a,data,undefined,,4K", at(1, CsvWhy::Subtype)),
        ("a,data,nvs,x,4K", at(1, CsvWhy::Offset)),
        (
            "a,data,nvs,0xFFFFFFFF,0xFFFFFFFF\nb,data,nvs,,4K",
            at(2, CsvWhy::Offset),
        ),
        ("a,data,nvs,,", at(1, CsvWhy::Size)),
        ("a,data,nvs,,4G", at(1, CsvWhy::Size)),
        ("a,data,nvs,,4096M", at(1, CsvWhy::Size)),
        ("a,data,nvs,,-1", at(1, CsvWhy::Size)),
        ("a,data,nvs,,4K,read", at(1, CsvWhy::Flag)),
        ("a,data,nvs,,4K,readonly:", at(1, CsvWhy::Flag)),
        (
            "#\n\n \na,data,nvs,,4K\na,data,nvs,,4K",
            at(4, CsvWhy::SameName),
        ),
        (
            "a, data, nvs, 0x9000, 0x2000,\nb, data, nvs, 0xA000, 0x1000,\n",
            CsvNo::Rules(TableBad::Overlap { a: 0, b: 1 }),
        ),
        (
            "a,app,0,0x10000,0",
            CsvNo::Rules(TableBad::Align { row: 0 }),
        ),
        ("a,data,nvs,,8M", CsvNo::Rules(TableBad::Range { row: 0 })),
        (
            "a,app,test,,64K\nb,app,32,,64K",
            CsvNo::Rules(TableBad::TwoOf { a: 0, b: 1 }),
        ),
    ] {
        let read = read_csv(rt.alloc(), text.as_bytes(), 0x400000);
        assert_eq!(rt; read, Err(want), "{text}");
    }
}

/// So many lines of different names.
fn many(alloc: Global, count: u32) -> Result<String, AllocError> {
    let mut text = String::new(alloc);
    for i in 0..count {
        let line = format!(in alloc; "r{i},data,nvs,,0x1000\n")?;
        text.push_str(line.as_str())?;
    }
    Ok(text)
}

#[test]
fn a_table_has_room_for_94_rows(rt: HostRuntime) -> Result<(), Fail> {
    let text = many(rt.alloc(), 94)?;
    let table = read_csv(rt.alloc(), text.as_bytes(), 0x400000)
        .ok()
        .ok_or("94 rows are refused")?;
    assert_eq!(rt; table.rows().len(), 94);
    let text = many(rt.alloc(), 95)?;
    let why = CsvWhy::TooManyRows;
    let read = read_csv(rt.alloc(), text.as_bytes(), 0x400000);
    assert_eq!(rt; read, Err(CsvNo::At { number: 95, why }));
    Ok(())
}
