//! Where an address lies.

ghost use Rattle.std.specs.Prelude.{◌≡◌, ◌<◌, ◌*◌, IfSome};
ghost use Rattle.mmu_map.specs.Place.{place_of, address_of, pages_in};

use image_layout::{Space, is_code, is_data};

/// The bytes of a page.
pub(crate) const PAGE_SIZE: u32 = 0x1_0000;
/// The pages of the data space.
pub(crate) const DATA_PAGES: usize = 64;
/// The pages of the code space.
pub(crate) const CODE_PAGES: usize = 51;
/// The first address of the data space.
const DATA_START: u32 = 0x3F40_0000;
/// The first address of the code space.
const CODE_START: u32 = 0x400D_0000;

/// A page of a space, by its number from 0.
#[derive(Clone, Copy)]
pub struct Place {
    pub space: Space,
    pub page: usize,
}

impl Place {
    /// The page in which the address lies, where it lies in a space.
    pub(crate) fn of(at: u32) -> Option<Place>
        ensures exact { result ≡ place_of at }
        ensures within { IfSome result (λ place. place.page < pages_in place.space) }
        ensures low { IfSome result (λ place. at < 0x40400000) }
    {
        if is_data(at) {
            return Some(Place {
                space: Space::Data,
                page: ((at - DATA_START) / PAGE_SIZE) as usize,
            });
        }
        if is_code(at) {
            return Some(Place {
                space: Space::Code,
                page: ((at - CODE_START) / PAGE_SIZE) as usize,
            });
        }
        None
    }

    /// The first address of the page.
    pub(crate) fn address(self) -> u32
        requires within { self.page < pages_in self.space }
        ensures exact { result ≡ address_of self.space self.page }
    {
        let start = match self.space {
            Space::Data => DATA_START,
            Space::Code => CODE_START,
        };
        start + self.page as u32 * PAGE_SIZE
    }
}
