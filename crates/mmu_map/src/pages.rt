//! The pages of both spaces, which are fixed, mapped and freed in runs.

ghost use Rattle.std.specs.Prelude.{◌≡◌, ◌≢◌, ◌⊎◌, ◌↔◌, ℕ, ◌+◌, ◌-◌, ◌*◌, ◌<◌, ◌≤◌, ◌^◌, Some, None, IfSome, IfOk};
ghost use Rattle.mmu_map.specs.Place.{pages_in};
ghost use Rattle.mmu_map.specs.Runs.{IsFound, after_found, IsFreed, after_freed};

use crate::page_use::PageUse;
use crate::place::{CODE_PAGES, DATA_PAGES, PAGE_SIZE, Place};
use crate::runs::{NoPages, NotMapped, fix_in, flash_page_in, free_in, map_in};
use image_layout::Space;
use std::marker::Model;

/// The pages of both spaces: 64 of the data space from 0x3F40_0000 on, and 51 of the code space
/// from 0x400D_0000 on.
#[derive(Drop)]
pub struct Pages {
    data_uses: [PageUse; DATA_PAGES],
    code_uses: [PageUse; CODE_PAGES],
}

// Clauses see what each page is used for.
impl Model for Pages {
    ghost use Rattle.mmu_map.specs.Map.{Map};

    ghost Value = { Map };

    ghost use Rattle.mmu_map.specs.View.{map_of, IsPages};

    ghost view = { map_of };

    ghost invariant = { IsPages };
}

impl Pages {
    ghost use Rattle.mmu_map.specs.Map.{IsWhole, empty, uses_in, with_uses, translated, IsFreeRun, fixed, IsMapAnswer, after_map, IsUnmapAnswer, after_unmap};

    /// No page is mapped.
    pub fn new() -> Pages
        ensures exact { result ≡ empty }
    {
        Pages {
            data_uses: [PageUse::Free; DATA_PAGES],
            code_uses: [PageUse::Free; CODE_PAGES],
        }
    }

    /// Every map of pages is whole.
    pub fn whole(&self)
        ensures { IsWhole self.now }
    {
        let _data: &[PageUse] = &self.data_uses;
        let _code: &[PageUse] = &self.code_uses;
    }

    /// Maps `n` pages from the address on to the flash pages from `flash_page` on, for good.
    pub fn fix(&mut self, at: u32, flash_page: u32, n: u8)
        requires free { IsFreeRun self.old at n }
        requires flash { flash_page + n ≤ 256 }
        ensures exact { self.new ≡ fixed self.old at flash_page n }
    {
        let Some(place) = Place::of(at) else {
            unreachable!()
        };
        match place.space {
            Space::Data => fix_in(&mut self.data_uses, place.page, n, flash_page),
            Space::Code => fix_in(&mut self.code_uses, place.page, n, flash_page),
        }
    }

    /// Maps the lowest `n` free pages of the space. Answers the number of the first one.
    fn map_in(&mut self, flash_page: u32, n: u8, space: Space) -> Result<usize, NoPages>
        requires some { 1 ≤ n }
        requires flash { flash_page + n ≤ 256 }
        ensures answer { IsFound (uses_in self.old space) n result }
        ensures within { IfOk result (λ page. page < pages_in space) }
        ensures exact { self.new ≡ with_uses self.old space
            (after_found (uses_in self.old space) flash_page n result) }
    {
        match space {
            Space::Data => map_in(&mut self.data_uses, n, flash_page),
            Space::Code => map_in(&mut self.code_uses, n, flash_page),
        }
    }

    /// Maps the lowest `n` free pages of the space to the flash pages from `flash_page` on. Answers
    /// the address of the first one.
    #[tactic(auto, using(crate::proofs::Maps::map_answer, crate::proofs::Maps::map_exact))]
    pub fn map(&mut self, flash_page: u32, n: u8, space: Space) -> Result<u32, NoPages>
        requires some { 1 ≤ n }
        requires flash { flash_page + n ≤ 256 }
        ensures answer { IsMapAnswer self.old n space result }
        ensures exact { self.new ≡ after_map self.old flash_page n result }
    {
        let page = self.map_in(flash_page, n, space)?;
        Ok(Place { space, page }.address())
    }

    /// Frees the run of `map` that begins with the page.
    fn free_at(&mut self, place: Place) -> Result<(), NotMapped>
        requires within { place.page < pages_in place.space }
        ensures answer { IsFreed (uses_in self.old place.space) place.page result }
        ensures exact { self.new ≡ with_uses self.old place.space
            (after_freed (uses_in self.old place.space) place.page result) }
    {
        match place.space {
            Space::Data => free_in(&mut self.data_uses, place.page),
            Space::Code => free_in(&mut self.code_uses, place.page),
        }
    }

    /// Frees the run of `map` that begins at the address. What was fixed stays.
    #[tactic(auto, using(crate::proofs::Maps::unmap_answer, crate::proofs::Maps::unmap_exact))]
    pub fn unmap(&mut self, at: u32) -> Result<(), NotMapped>
        ensures answer { IsUnmapAnswer self.old at result }
        ensures exact { self.new ≡ after_unmap self.old at result }
    {
        if at % PAGE_SIZE != 0 {
            return Err(NotMapped);
        }
        let Some(place) = Place::of(at) else {
            return Err(NotMapped);
        };
        self.free_at(place)
    }

    /// The flash address behind an address, where its page is mapped.
    pub fn translate(&self, at: u32) -> Option<u32>
        ensures exact { result ≡ translated self.now at }
        ensures fits { IfSome result (λ to. to < 2 ^ 24) }
        ensures low { IfSome result (λ to. at < 0x40400000) }
    {
        let place = Place::of(at)?;
        let flash_page = match place.space {
            Space::Data => flash_page_in(&self.data_uses, place.page)?,
            Space::Code => flash_page_in(&self.code_uses, place.page)?,
        };
        Some(u32::from(flash_page) * PAGE_SIZE + at % PAGE_SIZE)
    }
}
