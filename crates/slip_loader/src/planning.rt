//! Which requests are accepted, and what they ask for.

ghost use Rattle.std.specs.Prelude.{◌≡◌, ◌≤◌, ◌-◌, ◌+◌, ◌==◌, ◌*◌, ◌&&◌, ◌%◌, ℕ, List, nat_le, true, length, IfOk};
ghost use Rattle.std.specs.List.{list_any};
ghost use Rattle.slip_loader.specs.Plans.{AreBegun, IsBegun, LiesIn, begin_of, begin_planned, block_of, block_planned, block_sum, checksum_of, data_planned, digest_planned, end_planned, field_of, is_bounded, meets_any, meets_encrypted, plan_begin, plan_data, plan_digest, plan_end, plan_of, plan_sync, region_of, sectors_of};
ghost use Rattle.slip_loader.specs.PlanFacts.{IsPlanIn};

use crate::plan::{Begun, Plan, Refusal, Work};
use crate::request::{Begin, begin_of, command_of, field_of, is_summed, is_sync};
use partition_table::{Row, Table};

/// The bytes of the sectors that a FLASH_BEGIN erases.
fn region_of(begin: &Begin) -> u64
    ensures exact { result ≡ region_of begin.now }
    ensures whole { region_of begin.now % 4096 ≡ 0 }
    ensures most { begin.now.blocks * begin.now.block_size ≤ region_of begin.now }
{
    (u64::from(begin.blocks) * u64::from(begin.block_size)).div_ceil(4096) * 4096
}

/// Whether a FLASH_BEGIN is within its bounds in a flash of this size.
#[tactic(auto, unfolding(crate::specs::Plans::is_bounded))]
fn is_bounded(size: u32, begin: &Begin) -> bool
    ensures exact { result ≡ is_bounded size begin.now }
    ensures block { result ≡ true → begin.now.block_size ≤ 4096 }
    ensures sector { result ≡ true → begin.now.offset % 4096 ≡ 0 }
    ensures inside { result ≡ true → begin.now.offset + region_of begin.now ≤ size }
{
    begin.block_size % 256 == 0
        && 256 <= begin.block_size
        && begin.block_size <= 4096
        && u64::from(begin.size) <= u64::from(begin.blocks) * u64::from(begin.block_size)
        && begin.offset % 4096 == 0
        && u64::from(begin.offset) + region_of(begin) <= u64::from(size)
}

/// Whether a range has an address in an encrypted partition.
#[tactic(auto, unfolding(crate::specs::Plans::meets_encrypted, flash_steps::specs::Rules::is_encrypted))]
fn meets_encrypted(at: u32, len: u32, row: &Row) -> bool
    ensures exact { result ≡ meets_encrypted at len row.now }
{
    let end = u64::from(at) + u64::from(len);
    let row_end = u64::from(row.offset) + u64::from(row.size);
    row.flags % 2 == 1 && u64::from(at.max(row.offset)) < end.min(row_end)
}

/// Whether a range has an address in an encrypted partition among these.
fn meets_one(at: u32, len: u32, rows: &[Row]) -> bool
    ensures exact { result ≡ list_any (meets_encrypted at len) rows.now }
{
    rows.iter().any(|row| meets_encrypted(at, len, row))
}

/// Whether a range has an address in an encrypted partition of the table.
fn meets_any(at: u32, len: u32, table: &Option<Table>) -> bool
    ensures exact { result ≡ meets_any at len table.now }
{
    match table {
        None => false,
        Some(table) => meets_one(at, len, table.rows()),
    }
}

/// A FLASH_BEGIN of sixteen bytes.
#[tactic(auto, unfolding(crate::specs::Plans::begin_planned))]
fn begin_planned(size: u32, table: &Option<Table>, begin: &Begin) -> Result<Plan, Refusal>
    ensures exact { result ≡ begin_planned size table.now begin.now }
    ensures inside { IfOk result (λ plan. (block : List ℕ) → IsPlanIn size block plan) }
{
    if !is_bounded(size, begin) {
        return Err(Refusal::Bounds);
    }
    let len = region_of(begin) as u32;
    if meets_any(begin.offset, len, table) {
        return Err(Refusal::Encrypted);
    }
    Ok(Plan {
        work: Work::Erase {
            at: begin.offset,
            len,
        },
        begun: Some(Begun {
            at: begin.offset,
            blocks: begin.blocks,
            block_size: begin.block_size,
            next: 0,
        }),
    })
}

/// A block of this number, length and checksum while a begin is open.
#[tactic(auto, unfolding(crate::specs::Plans::block_planned))]
fn block_planned(begun: &Begun, number: u32, len: u32, summed: bool) -> Result<Plan, Refusal>
    requires inside { begun.now.at + begun.now.blocks * begun.now.block_size ≤ 4294967295 }
    requires block { begun.now.block_size ≤ 4096 }
    ensures exact { result ≡ block_planned begun.now number len summed }
    ensures inside { IfOk result (λ plan. (size : ℕ) (block : List ℕ) → IsBegun size begun.now
        → length block ≡ len → IsPlanIn size block plan) }
{
    if number != begun.next || begun.blocks <= begun.next {
        return Err(Refusal::Order);
    }
    if len != begun.block_size {
        return Err(Refusal::Bounds);
    }
    if !summed {
        return Err(Refusal::Checksum);
    }
    Ok(Plan {
        work: Work::Program {
            at: begun.at + begun.next * begun.block_size,
        },
        begun: Some(Begun {
            next: begun.next + 1,
            ..*begun
        }),
    })
}

/// The same where none may be open.
#[tactic(auto, unfolding(crate::specs::Plans::data_planned))]
fn data_planned(
    size: u32,
    begun: Option<Begun>,
    number: u32,
    len: u32,
    summed: bool,
) -> Result<Plan, Refusal>
    requires begun { AreBegun size begun }
    ensures exact { result ≡ data_planned begun number len summed }
    ensures inside { IfOk result (λ plan. (block : List ℕ)
        → length block ≡ len → IsPlanIn size block plan) }
{
    match begun {
        None => Err(Refusal::NotOpen),
        Some(begun) => block_planned(&begun, number, len, summed),
    }
}

/// A FLASH_END of four bytes.
fn end_planned(begun: Option<Begun>) -> Result<Plan, Refusal>
    ensures exact { result ≡ end_planned begun }
    ensures inside { IfOk result (λ plan. (size : ℕ) (block : List ℕ) → IsPlanIn size block plan) }
{
    match begun {
        Some(begun) if begun.blocks <= begun.next => Ok(Plan {
            work: Work::Nothing,
            begun: None,
        }),
        _ => Err(Refusal::NotOpen),
    }
}

/// A SPI_FLASH_MD5 of sixteen bytes.
#[tactic(auto, unfolding(crate::specs::Plans::digest_planned))]
fn digest_planned(size: u32, begun: Option<Begun>, at: u32, len: u32) -> Result<Plan, Refusal>
    requires begun { AreBegun size begun }
    ensures exact { result ≡ digest_planned size begun at len }
    ensures inside { IfOk result (λ plan. (block : List ℕ) → IsPlanIn size block plan) }
{
    if u64::from(at) + u64::from(len) <= u64::from(size) {
        Ok(Plan {
            work: Work::Digest { at, len },
            begun,
        })
    } else {
        Err(Refusal::Bounds)
    }
}

/// Plans a SYNC.
#[tactic(auto, unfolding(crate::specs::Plans::plan_sync))]
fn plan_sync(begun: Option<Begun>, frame: &[u8]) -> Result<Plan, Refusal>
    ensures exact { result ≡ plan_sync begun frame.now }
    ensures inside { IfOk result (λ plan. (size : ℕ) (block : List ℕ) → AreBegun size begun
        → IsPlanIn size block plan) }
{
    if is_sync(frame) {
        Ok(Plan {
            work: Work::Nothing,
            begun,
        })
    } else {
        Err(Refusal::Form)
    }
}

/// Plans a FLASH_BEGIN.
#[tactic(auto, unfolding(crate::specs::Plans::plan_begin))]
fn plan_begin(size: u32, table: &Option<Table>, frame: &[u8]) -> Result<Plan, Refusal>
    ensures exact { result ≡ plan_begin size table.now frame.now }
    ensures inside { IfOk result (λ plan. (block : List ℕ) → IsPlanIn size block plan) }
{
    if frame.len() == 24 {
        begin_planned(size, table, &begin_of(frame))
    } else {
        Err(Refusal::Form)
    }
}

/// Plans a FLASH_DATA.
#[tactic(auto, unfolding(crate::specs::Plans::plan_data))]
fn plan_data(size: u32, begun: Option<Begun>, frame: &[u8]) -> Result<Plan, Refusal>
    requires begun { AreBegun size begun }
    ensures exact { result ≡ plan_data begun frame.now }
    ensures inside { IfOk result (IsPlanIn size (block_of frame.now)) }
{
    if frame.len() < 24 || field_of(frame, 0) as usize + 24 != frame.len() {
        return Err(Refusal::Form);
    }
    data_planned(
        size,
        begun,
        field_of(frame, 1),
        field_of(frame, 0),
        is_summed(frame),
    )
}

/// Plans a FLASH_END.
#[tactic(auto, unfolding(crate::specs::Plans::plan_end))]
fn plan_end(begun: Option<Begun>, frame: &[u8]) -> Result<Plan, Refusal>
    ensures exact { result ≡ plan_end begun frame.now }
    ensures inside { IfOk result (λ plan. (size : ℕ) (block : List ℕ) → IsPlanIn size block plan) }
{
    if frame.len() == 12 {
        end_planned(begun)
    } else {
        Err(Refusal::Form)
    }
}

/// Plans a SPI_FLASH_MD5.
#[tactic(auto, unfolding(crate::specs::Plans::plan_digest))]
fn plan_digest(size: u32, begun: Option<Begun>, frame: &[u8]) -> Result<Plan, Refusal>
    requires begun { AreBegun size begun }
    ensures exact { result ≡ plan_digest size begun frame.now }
    ensures inside { IfOk result (λ plan. (block : List ℕ) → IsPlanIn size block plan) }
{
    if frame.len() == 24 {
        digest_planned(size, begun, field_of(frame, 0), field_of(frame, 1))
    } else {
        Err(Refusal::Form)
    }
}

/// What a request asks for, or the first reason against it.
#[tactic(auto, unfolding(crate::specs::Plans::plan_of))]
pub(crate) fn plan_of(
    size: u32,
    table: &Option<Table>,
    begun: Option<Begun>,
    frame: &[u8],
) -> Result<Plan, Refusal>
    requires head { 8 ≤ length frame.now }
    requires begun { AreBegun size begun }
    ensures exact { result ≡ plan_of size table.now begun frame.now }
    ensures inside { IfOk result (IsPlanIn size (block_of frame.now)) }
{
    match command_of(frame) {
        0x08 => plan_sync(begun, frame),
        0x02 => plan_begin(size, table, frame),
        0x03 => plan_data(size, begun, frame),
        0x04 => plan_end(begun, frame),
        0x13 => plan_digest(size, begun, frame),
        _ => Err(Refusal::Form),
    }
}
