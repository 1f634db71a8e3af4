//! Where a bootloader finds its parts.

ghost use Rattle.std.specs.Prelude.{◌≡◌, ◌≤◌, ◌<◌, ◌^◌, ◌+◌, IsSome, Some, IfOk, IfSome, length, option_copied};
ghost use Rattle.std.specs.List.{list_any};
ghost use Rattle.partition_table.specs.First.{first_place};
ghost use Rattle.partition_table.specs.Layout.{IsPlaced, is_behind, is_gap, is_high, is_of, layout_in, layout_of, row_for, row_with, slots_from, with_factory, with_slots};

use crate::app::App;
use crate::bad::TableBad;
use crate::row::Row;
use crate::table::{TABLE_OFFSET, TABLE_SIZE, Table};
use arrayvec::ArrayVec;
use std::marker::Model;

/// The parts of a flash that a bootloader reads.
#[derive(Debug, Drop, PartialEq, Eq)]
pub struct Layout {
    /// Where the two sectors of OTA data begin.
    pub otadata: u32,
    /// The partition of the factory application.
    pub factory: Row,
    /// The partitions of the update slots, from slot 0 on; there is at least one.
    pub slots: ArrayVec<Row, 16>,
    /// The partition of the test application, where there is one.
    pub test: Option<Row>,
}

// Clauses see the slots as a list.
impl Model for Layout {
    ghost use Rattle.std.specs.Prelude.{◌<◌, ◌≤◌, length};
    ghost use Rattle.partition_table.specs.Layout.{Places};

    ghost Value = { Places };

    ghost view = { λ l. record {
      otadata = l.otadata;
      factory = l.factory;
      slots = l.slots.items;
      test = l.test;
    } };

    ghost invariant = { λ l. (0 < length l.slots.items) × (length l.slots.items ≤ 16) };

    ghost inverse = { λ p. record {
      otadata = p.otadata;
      factory = p.factory;
      slots = record { items = p.slots };
      test = p.test;
    } };
}

impl Layout {
    /// The partition of an application of the layout.
    pub fn place(&self, app: App) -> Row
        requires found { IsSome (row_for self.now app) }
        ensures exact { row_for self.now app ≡ Some result }
    {
        match app {
            App::Ota(slot) => self.slots[usize::from(slot)],
            App::Factory => self.factory,
            App::Test => match self.test {
                Some(row) => row,
                None => unreachable!(),
            },
        }
    }
}

/// The layout of a flash by the table at 0x8000.
#[tactic(auto, unfolding(crate::specs::Layout::layout_in))]
pub fn layout_in(flash: &[u8]) -> Result<Layout, TableBad>
    requires least { 0x8C00 ≤ length flash.now }
    requires most { length flash.now < 2 ^ 32 }
    ensures exact { result ≡ layout_in flash.now }
    ensures placed { IfOk result (λ layout. IsPlaced layout (length flash.now)) }
{
    let at = TABLE_OFFSET as usize;
    let mut bytes = [0; TABLE_SIZE];
    bytes.copy_from_slice(&flash[at..at + TABLE_SIZE]);
    Table::read(&bytes, flash.len() as u32)?.layout()
}

/// Where a bootloader finds its parts by the rows of a table, or the first reason why it can't.
#[tactic(auto, unfolding(crate::specs::Layout::layout_of))]
pub(crate) fn layout_of(rows: &[Row]) -> Result<Layout, TableBad>
    requires few { length rows.now ≤ 94 }
    ensures exact { result ≡ layout_of rows.now }
{
    let Some(otadata) = row_with(rows, 1, 0) else {
        return Err(TableBad::NoOtadata);
    };
    if otadata.size != 0x2000 {
        return Err(TableBad::OtadataSize { size: otadata.size });
    }
    if otadata.flags % 4 != 0 {
        return Err(TableBad::OtadataFlags {
            flags: otadata.flags,
        });
    }
    let Some(factory) = row_with(rows, 0, 0) else {
        return Err(TableBad::NoFactory);
    };
    with_slots(otadata.offset, factory, slots_of(rows, 16), rows)
}

/// The layout with these slots, or the least number of a slot that is missing, or else the first
/// application that ends above 16 MiB.
#[tactic(auto, unfolding(crate::specs::Layout::with_slots, crate::specs::Layout::is_gap))]
fn with_slots(
    otadata: u32,
    factory: Row,
    slots: ArrayVec<Row, 16>,
    rows: &[Row],
) -> Result<Layout, TableBad>
    requires few { length rows.now ≤ 94 }
    ensures exact { result ≡ with_slots otadata factory slots.items rows.now }
{
    let count = slots.len() as u8;
    if is_gap(rows, count) {
        return Err(TableBad::SlotGap { slot: count });
    }
    if let Some(row) = first_high(rows) {
        return Err(TableBad::AppHigh { row });
    }
    Ok(Layout {
        otadata,
        factory,
        slots,
        test: row_with(rows, 0, 0x20),
    })
}

/// The row of this type and subtype.
fn row_with(rows: &[Row], kind: u8, subtype: u8) -> Option<Row>
    ensures exact { result ≡ row_with kind subtype rows.now }
{
    for i in 0..rows.len() {
        if is_of(&rows[i], kind, subtype) {
            return Some(rows[i]);
        }
    }
    None
}

/// Whether a row is of this type and subtype.
#[tactic(auto, unfolding(crate::specs::Layout::is_of))]
fn is_of(row: &Row, kind: u8, subtype: u8) -> bool
    ensures exact { result ≡ is_of kind subtype row.now }
{
    row.kind == kind && row.subtype == subtype
}

/// The rows of up to `most` update slots, up to the first number that has none.
fn slots_of(rows: &[Row], most: u8) -> ArrayVec<Row, 16>
    requires { most ≤ 16 }
    ensures exact { result.items ≡ slots_from most 0 rows.now }
{
    let mut slots = ArrayVec::new();
    for k in 0..most {
        match row_with(rows, 0, 0x10 + k) {
            Some(row) => slots.push(row),
            None => return slots,
        }
    }
    slots
}

/// Whether an update slot of this number is wanted: it is the first one, or there is a greater one.
#[tactic(auto, unfolding(crate::specs::Layout::is_gap))]
fn is_gap(rows: &[Row], slot: u8) -> bool
    requires { slot ≤ 16 }
    ensures exact { result ≡ is_gap slot rows.now }
{
    slot == 0 || has_behind(rows, slot)
}

/// Whether there is an update slot with a greater number.
fn has_behind(rows: &[Row], slot: u8) -> bool
    requires { slot ≤ 16 }
    ensures exact { result ≡ list_any (is_behind slot) rows.now }
{
    for i in 0..rows.len() {
        if is_behind(&rows[i], slot) {
            return true;
        }
    }
    false
}

/// Whether a row is an update slot with a greater number.
#[tactic(auto, unfolding(crate::specs::Layout::is_behind))]
fn is_behind(row: &Row, slot: u8) -> bool
    requires { slot ≤ 16 }
    ensures exact { result ≡ is_behind slot row.now }
{
    row.kind == 0 && 0x10 + slot < row.subtype && row.subtype < 0x20
}

/// The first row that is an application and ends above 16 MiB.
fn first_high(rows: &[Row]) -> Option<u8>
    requires few { length rows.now ≤ 94 }
    ensures exact { result ≡ first_place is_high 0 rows.now }
{
    for i in 0..rows.len() {
        if is_high(&rows[i]) {
            return Some(i as u8);
        }
    }
    None
}

/// Whether a row is an application that ends above 16 MiB, where the cache can't map it.
#[tactic(auto, unfolding(crate::specs::Layout::is_high))]
fn is_high(row: &Row) -> bool
    ensures exact { result ≡ is_high row.now }
{
    row.kind == 0 && u64::from(row.offset) + u64::from(row.size) > 0x1000000
}
