//! A key store in a partition: which keys its bytes hold, and what a change of them leaves.
#![tactic(auto)]

mod bank;
mod header;
mod laws;
mod place;
mod record;
mod steps;
#[cfg(test)]
mod tests;

pub use bank::{Bank, active_bank, other_bank};
pub use header::{generation_of, header_of, next_header};
pub use laws::{
    a_change_keeps_the_keys_before_or_after, a_change_puts_a_record_or_exchanges_the_banks,
    a_format_leaves_none_or_the_empty_map, acknowledged_changes_are_kept,
    an_exchange_of_banks_keeps_the_keys, changes_set_one_key, headers_give_their_generation,
    live_changes_give_the_map, records_give_their_change,
};
pub use place::{Place, is_store_row};
pub use record::{removal_of, setting_of};
pub use steps::{erase_step, format_step, put_step};
