//! A file with its name.

/// A file of a store in memory.
#[derive(Debug, PartialEq, Eq, Drop)]
pub struct File {
    /// What `get` and `put` call it.
    pub name: String,
    /// What it holds.
    pub bytes: Vec<u8>,
}
