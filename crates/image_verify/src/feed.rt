//! The answer to a piece of an image.

use crate::bad::BadImage;

/// What a piece showed.
#[derive(Clone, Copy, Debug, PartialEq, Eq)]
pub enum Fed {
    /// No fault so far.
    More,
    /// This fault, in this piece or before it. No more bytes will change it.
    Bad(BadImage),
}
