//! The two ends of a program: a store of files and a sink of bytes, in memory and outside; and what texts are made of:
//! lines, words and numbers.
#![tactic(auto)]

mod calls;
mod digits;
mod edge;
mod fault;
mod file;
mod mem_sink;
mod mem_store;
mod number;
mod sink;
mod store;
mod whole_file;
mod word_laws;
mod words;

pub use digits::{hex_digits_spell_their_number, put_hex, put_number};
pub use edge::{DirStore, StdSink};
pub use fault::{GetFault, Memory, PushFault, PutFault};
pub use file::File;
pub use mem_sink::MemSink;
pub use mem_store::MemStore;
pub use number::{number_up_to, read_number, value_of};
pub use sink::Sink;
pub use store::Store;
pub use word_laws::{lines_are_their_words, texts_are_their_lines};
pub use words::{begins_with, has_words, is_skipped, next_line, word_at};

#[cfg(test)]
mod failing_disk;
#[cfg(test)]
mod tests;
