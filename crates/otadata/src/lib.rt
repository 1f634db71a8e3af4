//! OTA data: the two entries that say which application slot the bootloader starts.
#![tactic(auto)]

mod choice;
mod crc;
mod entry;
mod next;
pub mod state;
#[cfg(test)]
mod tests;

pub use choice::{active, choices_are_decided, slot_of};
pub use crc::{
    crc_is_read_from_the_remainder, crc_of, crc_of_known_sequences, division_leaves_one_remainder,
};
pub use entry::{BLANK, Entry, entries_are_their_bytes, entry_in};
pub use next::{NextEntry, SeqSpent, next_entry, next_sequences_are_the_least};
