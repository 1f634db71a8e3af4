//! The rules on rows by themselves and on each two of them.

ghost use Rattle.std.specs.Prelude.{◌≡◌, ◌≤◌, ◌<◌, ◌+◌, ◌↔◌, ℕ, Bool, List, length, drop, None, Some};
ghost use Rattle.partition_table.specs.declared.row.Row.{Row as Shown};
ghost use Rattle.partition_table.specs.First.{IsFirstPair, first_at, first_pair, first_place};
ghost use Rattle.partition_table.specs.Rules.{FitsFlash, alignment_of, are_two_of, is_aligned, is_single, is_within, meets_of, ranges_meet, row_bad, rows_bad};

use crate::bad::TableBad;
use crate::row::Row;

/// A rule on each two rows of a table.
#[derive(Clone, Copy, Debug, PartialEq, Eq)]
pub(crate) enum PairRule {
    /// No address is in both.
    Overlap,
    /// They aren't both of a type and subtype that a table has once at most.
    TwoOf,
}

impl PairRule {
    /// Whether two rows break the rule.
    fn meets(self, a: &Row, b: &Row) -> bool
        ensures exact { result ≡ meets_of self a.now b.now }
    {
        match self {
            PairRule::Overlap => ranges_meet(a, b),
            PairRule::TwoOf => are_two_of(a, b),
        }
    }
}

/// Of what the offset of a partition is a multiple.
#[tactic(auto, unfolding(crate::specs::Rules::alignment_of))]
pub fn alignment_of(kind: u8) -> u32
    ensures exact { result ≡ alignment_of kind }
    ensures some { 0 < result }
    ensures most { result ≤ 0x10000 }
{
    if kind == 0 { 0x10000 } else { 0x1000 }
}

/// Whether a row begins at such a multiple, and its size is some sectors.
#[tactic(auto, unfolding(crate::specs::Rules::is_aligned))]
fn is_aligned(row: &Row) -> bool
    ensures exact { result ≡ is_aligned row.now }
{
    row.offset % alignment_of(row.kind) == 0 && row.size != 0 && row.size % 0x1000 == 0
}

/// Whether a row lies behind the table and ends inside a flash of `flash` bytes.
#[tactic(auto, unfolding(crate::specs::Rules::is_within))]
fn is_within(row: &Row, flash: u32) -> bool
    ensures exact { result ≡ is_within flash row.now }
{
    row.offset >= 0x9000 && u64::from(row.offset) + u64::from(row.size) <= u64::from(flash)
}

/// Whether two rows have an address in common.
#[tactic(auto, unfolding(crate::specs::Rules::ranges_meet))]
fn ranges_meet(a: &Row, b: &Row) -> bool
    ensures exact { result ≡ ranges_meet a.now b.now }
{
    u64::from(a.offset) < u64::from(b.offset) + u64::from(b.size)
        && u64::from(b.offset) < u64::from(a.offset) + u64::from(a.size)
}

/// Whether a table has at most one row of this type and subtype.
#[tactic(auto, unfolding(crate::specs::Rules::is_single))]
fn is_single(kind: u8, subtype: u8) -> bool
    ensures exact { result ≡ is_single kind subtype }
{
    (kind == 0 && (subtype == 0 || (0x10 <= subtype && subtype <= 0x20)))
        || (kind == 1 && subtype == 0)
}

/// Whether two rows are of one such type and subtype.
#[tactic(auto, unfolding(crate::specs::Rules::are_two_of))]
fn are_two_of(a: &Row, b: &Row) -> bool
    ensures exact { result ≡ are_two_of a.now b.now }
{
    a.kind == b.kind && a.subtype == b.subtype && is_single(a.kind, a.subtype)
}

/// What is wrong with a row by itself.
#[tactic(auto, unfolding(crate::specs::Rules::row_bad))]
fn row_bad(flash: u32, i: u8, row: &Row) -> Option<TableBad>
    ensures exact { result ≡ row_bad flash i row.now }
{
    if !is_aligned(row) {
        Some(TableBad::Align { row: i })
    } else if !is_within(row, flash) {
        Some(TableBad::Range { row: i })
    } else {
        None
    }
}

/// The first row that breaks a rule by itself.
fn first_row_bad(rows: &[Row], flash: u32) -> Option<TableBad>
    requires { length rows.now ≤ 94 }
    ensures exact { result ≡ first_at (row_bad flash) 0 rows.now }
{
    for i in 0..rows.len() {
        if let Some(why) = row_bad(flash, i as u8, &rows[i]) {
            return Some(why);
        }
    }
    None
}

/// The first row from a number on with which this row breaks a rule.
fn first_partner(rows: &[Row], rule: PairRule, row: &Row, from: usize) -> Option<u8>
    requires few { length rows.now ≤ 94 }
    requires within { from ≤ length rows.now }
    ensures exact { result ≡ first_place (meets_of rule row.now) from (drop from rows.now) }
{
    for j in from..rows.len() {
        if rule.meets(row, &rows[j]) {
            return Some(j as u8);
        }
    }
    None
}

/// The first pair of rows that breaks a rule.
fn first_pair(rows: &[Row], rule: PairRule) -> Option<(u8, u8)>
    requires { length rows.now ≤ 94 }
    ensures exact { result ≡ first_pair (meets_of rule) 0 rows.now }
{
    for i in 0..rows.len() {
        if let Some(j) = first_partner(rows, rule, &rows[i], i + 1) {
            return Some((i as u8, j));
        }
    }
    None
}

/// The first rule that rows break in a flash of `flash` bytes.
#[tactic(auto, unfolding(crate::specs::Rules::rows_bad))]
pub(crate) fn rows_bad(rows: &[Row], flash: u32) -> Option<TableBad>
    requires { length rows.now ≤ 94 }
    ensures exact { result ≡ rows_bad flash rows.now }
{
    if let Some(why) = first_row_bad(rows, flash) {
        return Some(why);
    }
    if let Some((a, b)) = first_pair(rows, PairRule::Overlap) {
        return Some(TableBad::Overlap { a, b });
    }
    let (a, b) = first_pair(rows, PairRule::TwoOf)?;
    Some(TableBad::TwoOf { a, b })
}

/// No rule is broken exactly where rows obey the rules, and the pair that is told is the first.
pub fn rules_are_decided()
    ensures fits { (flash : ℕ) (rows : List Shown)
        → (rows_bad flash rows ≡ None) ↔ FitsFlash flash rows }
    ensures least { (meets : Shown → Shown → Bool) (rows : List Shown) (a b : ℕ)
        → first_pair meets 0 rows ≡ Some (a, b) → IsFirstPair meets rows a b }
{}
