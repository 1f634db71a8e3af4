//! The partition table of a flash, and where a bootloader finds its parts.
#![tactic(auto)]

mod app;
mod bad;
mod find;
mod layout;
mod put;
mod read;
mod row;
mod rules;
mod table;
#[cfg(test)]
mod tests;
mod write;

pub use app::App;
pub use bad::TableBad;
pub use find::padded_label;
pub use layout::{Layout, layout_in};
pub use row::Row;
pub use rules::{alignment_of, rules_are_decided};
pub use table::{TABLE_OFFSET, TABLE_SIZE, Table, tables_are_their_texts};
