//! The lines that the program prints: what stands in its files, and what is wrong with them.
#![tactic(auto)]

mod boot_text;
mod image_text;
mod load_text;
mod refusal;
mod start_text;
mod sweep_text;
mod table_text;
#[cfg(test)]
mod tests;
mod text;
mod update_text;
mod worker_text;

pub use boot_text::{put_booted, put_boots, put_confirmed, put_rejected};
pub use image_text::{put_image, put_length};
pub use load_text::put_loaded;
pub use refusal::Refusal;
pub use sweep_text::put_sweep;
pub use table_text::{put_count, put_rows_lines};
pub use text::{put_entry, put_names, put_refusal, put_text};
pub use update_text::put_update;
