//! The pages of both spaces, under the turn of a core.

ghost use Rattle.std.specs.Prelude.{◌≡◌, ◌+◌, ◌<◌, ◌≤◌, [], ◌∷◌, None};
ghost use Rattle.core_state.specs.Sharing.{GoesOn};
ghost use Rattle.mmu_map.specs.Map.{IsMapAnswer, after_map, IsUnmapAnswer, after_unmap};
ghost use Rattle.bus_hub.specs.declared.did.Did.TheVariants.{Mapping, Unmapping};
ghost use Rattle.bus_hub.specs.Told.{IsSafe};
ghost use Rattle.bus_hub.specs.Hub.{Fits};

use crate::bus::Bus;
use crate::duty::Duty;
use core_state::Records;
use crash_images::Crash;
use image_layout::Space;
use mmu_map::{NoPages, NotMapped};

impl<D: Crash, K: Duty> Bus<D, K> {
    /// Maps the pages.
    fn map_pages(&mut self, flash_page: u32, n: u8, space: Space) -> Result<u32, NoPages>
        requires some { 1 ≤ n }
        requires flash { flash_page + n ≤ 256 }
        ensures answer { IsMapAnswer self.old.map n space result }
        ensures exact { self.new
            ≡ record self.old { map = after_map self.old.map flash_page n result } }
    {
        self.pages.map(flash_page, n, space)
    }

    /// Maps the lowest `n` free pages of the space to the flash pages from `flash_page` on. Answers
    /// the address of the first one.
    #[tactic(auto, using(crate::proofs::Quiet::maps))]
    pub fn map(&mut self, c: u8, flash_page: u32, n: u8, space: Space) -> Result<u32, NoPages>
        requires core { c < 2 }
        requires idle { self.old.running ≡ None }
        requires some { 1 ≤ n }
        requires flash { flash_page + n ≤ 256 }
        ensures stands { GoesOn ⟦<Bus<D, K> as Records>⟧.stands Fits self.old self.new c
            (Mapping flash_page n space result ∷ []) }
        ensures answer { IsMapAnswer self.old.map n space result }
        ensures exact { self.new
            ≡ record self.old { map = after_map self.old.map flash_page n result } }
        ensures leaves { IsSafe ⟦<Bus<D, K> as Records>⟧.stands D.may_leave K.good self.new }
    {
        let answer = self.map_pages(flash_page, n, space);
        self.safe();
        answer
    }

    /// Frees the pages.
    fn unmap_pages(&mut self, at: u32) -> Result<(), NotMapped>
        ensures answer { IsUnmapAnswer self.old.map at result }
        ensures exact { self.new ≡ record self.old { map = after_unmap self.old.map at result } }
    {
        self.pages.unmap(at)
    }

    /// Frees the run of pages that was mapped from the address on.
    #[tactic(auto, using(crate::proofs::Quiet::unmaps))]
    pub fn unmap(&mut self, c: u8, at: u32) -> Result<(), NotMapped>
        requires core { c < 2 }
        requires idle { self.old.running ≡ None }
        ensures stands { GoesOn ⟦<Bus<D, K> as Records>⟧.stands Fits self.old self.new c
            (Unmapping at result ∷ []) }
        ensures answer { IsUnmapAnswer self.old.map at result }
        ensures exact { self.new ≡ record self.old { map = after_unmap self.old.map at result } }
        ensures leaves { IsSafe ⟦<Bus<D, K> as Records>⟧.stands D.may_leave K.good self.new }
    {
        let answer = self.unmap_pages(at);
        self.safe();
        answer
    }
}
