//! Why a text is no script.

/// Why a line of a script is refused: the first reason in this order.
#[derive(Clone, Copy, Debug, PartialEq, Eq)]
pub enum ScriptWhy {
    /// No line begins with this word.
    Word,
    /// A line of this kind has another number of words.
    Count,
    /// A space is neither `data` nor `code`.
    Space,
    /// A number is none, or is too large.
    Number,
    /// A label has more than 16 bytes.
    Label,
    /// The bytes are not hex digits, two for each.
    Hex,
    /// A bound of such a line is broken.
    Length,
    /// There are 4,096 actions already.
    TooMany,
    /// The erases of all lines so far take more than 65,536 sectors.
    TooMuch,
}

/// Why a text is no script.
#[derive(Clone, Copy, Debug, PartialEq, Eq)]
pub enum ScriptNo {
    /// This line, counted from 1, is refused.
    Bad { line: u64, why: ScriptWhy },
    /// Out of memory.
    Memory,
}
