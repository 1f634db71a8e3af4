//! The flash device of every layer: its steps, what a call of it means, and a device in memory.
#![tactic(auto)]

mod begun_step;
mod flash_size;
mod laws;
mod make;
mod marked_flash;
mod marks;
mod nor;
mod page;
mod ram;
mod step;

pub use flash_size::is_flash_size;
pub use laws::{laws_of_erases, laws_of_marks, laws_of_sizes, laws_of_steps, laws_of_torn_flashes};
pub use make::{finish, make_step};
pub use nor::{Nor, NorFault, Ready, StepEnd};
pub use page::{PAGE_SIZE, Page};
pub use ram::RamNor;
pub use step::{BLOCK_SIZE, SECTOR_SIZE, Step};

#[cfg(test)]
mod tests;
