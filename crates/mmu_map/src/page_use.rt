//! What one page of an address space is used for.

/// What a page of an address space is used for. A flash page is named by its number.
#[derive(Clone, Copy, Debug, PartialEq, Eq)]
pub enum PageUse {
    /// Nothing is mapped there.
    Free,
    /// A flash page that stays there for good.
    Fixed { flash_page: u8 },
    /// The first of `n` pages that were mapped together.
    First { flash_page: u8, n: u8 },
    /// A page behind such a first one.
    Later { flash_page: u8 },
}
