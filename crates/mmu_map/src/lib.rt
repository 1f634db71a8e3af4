//! The pages of the two address spaces that the cache maps, and the flash pages behind them.
#![tactic(auto)]

mod laws;
mod page_use;
mod pages;
mod place;
mod runs;
#[cfg(test)]
mod tests;

pub use laws::{
    a_page_leads_to_one_flash_page, each_address_goes_by_its_calls,
    fixed_pages_lead_to_their_flash_pages, what_is_fixed_stays,
};
pub use page_use::PageUse;
pub use pages::Pages;
pub use runs::{NoPages, NotMapped};
