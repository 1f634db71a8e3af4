//! The pages of one space: runs that are found free, written and freed.

ghost use Rattle.std.specs.Prelude.{◌≡◌, ◌+◌, ◌<◌, ◌≤◌, ◌^◌, length, replicate, IfOk, IfErr, OnOk, OnErr};
ghost use Rattle.mmu_map.specs.declared.page_use.PageUse.TheVariants.{Free};
ghost use Rattle.mmu_map.specs.Runs.{AreFree, AreWhole, IsLowest, IsLongest, IsRunAt, extended, use_at, run_length, fixed_run, later_run, mapped_run, with_run, flash_page_of, IsFound, after_found, IsFreed, after_freed};

use crate::page_use::PageUse;

/// Why pages were not mapped: so many are not free in a row.
#[derive(Clone, Copy, Debug, PartialEq, Eq)]
pub struct NoPages {
    /// How many pages the longest free run has.
    pub longest: u8,
}

/// Why nothing was freed: no run that was mapped begins there.
#[derive(Clone, Copy, Debug, PartialEq, Eq)]
pub struct NotMapped;

/// How many free pages end with this one, where `run` end with the one before.
fn extended_by(used: PageUse, run: usize) -> usize
    requires small { run + 1 < 2 ^ 64 }
    ensures exact { result ≡ extended used run }
{
    match used {
        PageUse::Free => run + 1,
        _ => 0,
    }
}

/// The number of the first of the lowest `n` free pages, or how many the longest free run has.
#[tactic(auto, using(crate::proofs::Free::found, crate::proofs::Free::scanned, crate::proofs::Free::ended, crate::proofs::Free::scanned_none))]
fn lowest_free(uses: &[PageUse], n: usize) -> Result<usize, usize>
    requires some { 1 ≤ n }
    ensures ok { IfOk result (λ first. IsLowest uses.now n first) }
    ensures err { IfErr result (λ longest. IsLongest uses.now longest) }
    ensures short { IfErr result (λ longest. longest < n) }
{
    let mut run = 0;
    let mut longest = 0;
    for i in 0..uses.len() {
        run = extended_by(uses[i], run);
        if run == n {
            return Ok(i + 1 - n);
        }
        longest = longest.max(run);
    }
    Err(longest)
}

/// Puts flash pages for good.
fn put_fixed(part: &mut [PageUse], flash_page: u32)
    requires flash { flash_page + length part.old ≤ 256 }
    ensures exact { part.new ≡ fixed_run flash_page (length part.old) }
{
    for i in 0..part.len() {
        part[i] = PageUse::Fixed {
            flash_page: (flash_page + i as u32) as u8,
        };
    }
}

/// Puts flash pages behind a first one.
fn put_later(part: &mut [PageUse], flash_page: u32)
    requires flash { flash_page + length part.old ≤ 256 }
    ensures exact { part.new ≡ later_run flash_page (length part.old) }
{
    for i in 0..part.len() {
        part[i] = PageUse::Later {
            flash_page: (flash_page + i as u32) as u8,
        };
    }
}

/// Puts flash pages that are mapped together.
fn put_mapped(part: &mut [PageUse], flash_page: u32, n: u8)
    requires length { length part.old ≡ n }
    requires some { 1 ≤ n }
    requires flash { flash_page + n ≤ 256 }
    ensures exact { part.new ≡ mapped_run flash_page n }
{
    put_later(&mut part[1..], flash_page + 1);
    part[0] = PageUse::First {
        flash_page: flash_page as u8,
        n,
    };
}

/// Leaves the pages free.
fn put_free(part: &mut [PageUse])
    ensures exact { part.new ≡ replicate (length part.old) Free }
{
    for i in 0..part.len() {
        part[i] = PageUse::Free;
    }
}

/// Puts flash pages for good, from the page on.
pub(crate) fn fix_in(uses: &mut [PageUse], first: usize, n: u8, flash_page: u32)
    requires free { AreFree uses.old first n }
    requires whole { AreWhole uses.old }
    requires flash { flash_page + n ≤ 256 }
    ensures exact { uses.new ≡ with_run uses.old first (fixed_run flash_page n) }
    ensures whole { AreWhole uses.new }
{
    let end = first + n as usize;
    put_fixed(&mut uses[first..end], flash_page);
}

/// Maps the lowest run of free pages. Answers the number of its first page.
pub(crate) fn map_in(uses: &mut [PageUse], n: u8, flash_page: u32) -> Result<usize, NoPages>
    requires whole { AreWhole uses.old }
    requires some { 1 ≤ n }
    requires flash { flash_page + n ≤ 256 }
    ensures answer { IsFound uses.old n result }
    ensures exact { uses.new ≡ after_found uses.old flash_page n result }
    ensures whole { AreWhole uses.new }
{
    let first = match lowest_free(uses, n as usize) {
        Ok(first) => first,
        Err(longest) => {
            return Err(NoPages {
                longest: longest as u8,
            });
        }
    };
    let end = first + n as usize;
    put_mapped(&mut uses[first..end], flash_page, n);
    Ok(first)
}

/// Frees the run of pages that were mapped together and begin with this one.
pub(crate) fn free_in(uses: &mut [PageUse], first: usize) -> Result<(), NotMapped>
    requires inside { first < length uses.old }
    requires whole { AreWhole uses.old }
    ensures answer { IsFreed uses.old first result }
    ensures exact { uses.new ≡ after_freed uses.old first result }
    ensures whole { AreWhole uses.new }
{
    let PageUse::First { n, .. } = uses[first] else {
        return Err(NotMapped);
    };
    let end = first + n as usize;
    put_free(&mut uses[first..end]);
    Ok(())
}

/// The flash page behind a page.
pub(crate) fn flash_page_in(uses: &[PageUse], page: usize) -> Option<u8>
    requires inside { page < length uses.now }
    ensures exact { result ≡ flash_page_of (use_at uses.now page) }
{
    match uses[page] {
        PageUse::Free => None,
        PageUse::Fixed { flash_page } => Some(flash_page),
        PageUse::First { flash_page, .. } => Some(flash_page),
        PageUse::Later { flash_page } => Some(flash_page),
    }
}
