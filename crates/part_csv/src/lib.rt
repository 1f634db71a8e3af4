//! The source of a partition table: a text of comma-separated values, and the table that it means.
#![tactic(auto)]

mod record;
mod records;
mod refusal;
mod source;
#[cfg(test)]
mod tests;
mod trim;
mod words;

pub use refusal::{CsvNo, CsvWhy};
pub use source::read_csv;
