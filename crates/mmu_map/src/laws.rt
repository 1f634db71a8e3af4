//! What holds after every list of calls.

ghost use Rattle.std.specs.Prelude.{◌≡◌, ℕ, ◌+◌, ◌-◌, ◌*◌, ◌%◌, ◌<◌, ◌≤◌, List, None, Some};
ghost use Rattle.mmu_map.specs.Place.{place_of};
ghost use Rattle.mmu_map.specs.Map.{Map, IsWhole, IsFixedAt, IsFreeRun, empty, fixed, translated, use_in};
ghost use Rattle.mmu_map.specs.Calls.{Call, CanMakeAll, after_calls, leads_after};

/// After every list of calls each address leads where the last call about its page says, and
/// nowhere where there was none.
pub fn each_address_goes_by_its_calls()
    ensures { (calls : List Call) (a : ℕ) → CanMakeAll empty calls
        → translated (after_calls empty calls) a ≡ leads_after calls a None }
{}

/// Addresses of one page lead to addresses of one flash page, each as much further on.
pub fn a_page_leads_to_one_flash_page()
    ensures { (m : Map) (at i to : ℕ) → translated m at ≡ Some to → at % 65536 + i < 65536
        → translated m (at + i) ≡ Some (to + i) }
{}

/// A page that is fixed stays as it is, whatever is fixed, mapped and freed later.
pub fn what_is_fixed_stays()
    ensures { (m : Map) (calls : List Call) (at : ℕ) → IsWhole m → CanMakeAll m calls
        → IsFixedAt m at
        → use_in (after_calls m calls) (place_of at) ≡ use_in m (place_of at) }
{}

/// Each address of pages that were just fixed lies in a fixed page and leads to its flash page.
pub fn fixed_pages_lead_to_their_flash_pages()
    ensures fixed { (m : Map) (at flash_page n a : ℕ) → IsWhole m → IsFreeRun m at n → at ≤ a
        → a < at + n * 65536 → IsFixedAt (fixed m at flash_page n) a }
    ensures leads { (m : Map) (at flash_page n a : ℕ) → IsWhole m → IsFreeRun m at n → at ≤ a
        → a < at + n * 65536
        → translated (fixed m at flash_page n) a ≡ Some (flash_page * 65536 + (a - at)) }
{}
