//! The data of one program: 1 to 256 bytes, the most that a serial NOR flash takes in one page program.

ghost use Rattle.std.specs.Prelude.{◌≡◌, ◌↔◌, ◌<◌, ◌≤◌, ◌*◌, length, replicate, IsNone, IfSome};

use std::marker::Model;

/// The bytes of a flash page: a program keeps to one of them.
pub const PAGE_SIZE: usize = 256;

/// The data of one program, 1 to 256 bytes.
#[derive(Drop)]
pub struct Page {
    bytes: [u8; 256],
    len: usize,
}

// Clauses see a page as the list of its bytes.
impl Model for Page {
    ghost use Rattle.std.specs.Prelude.{◌≤◌, ℕ, List, take};

    ghost Value = { List ℕ };

    ghost view = { λ p. take p.len p.bytes };

    ghost invariant = { λ p. (1 ≤ p.len) × (p.len ≤ 256) };
}

impl Page {
    ghost use Rattle.nor_device.specs.Flash.{IsPageLength};

    /// A page of these bytes, or `None` where there are not 1 to 256 of them.
    pub fn of(bytes: &[u8]) -> Option<Page>
        ensures some { IfSome result (λ page. page ≡ bytes.now) }
        ensures fits { IfSome result (λ page. IsPageLength page) }
        ensures none { IsNone result ↔ (IsPageLength bytes.now → ⊥) }
    {
        // A full page, which is nearly every one, is copied without room that is zeroed first.
        if let Some(full) = bytes.as_array::<256>() {
            return Some(Page {
                bytes: *full,
                len: PAGE_SIZE,
            });
        }
        if bytes.is_empty() || bytes.len() > PAGE_SIZE {
            return None;
        }
        let mut page = [0; 256];
        page[..bytes.len()].copy_from_slice(bytes);
        Some(Page {
            bytes: page,
            len: bytes.len(),
        })
    }

    /// A page of 0xFF, which no program needs.
    pub(crate) fn blank() -> Page
        ensures exact { result ≡ replicate 256 255 }
    {
        Page {
            bytes: [0xFF; 256],
            len: PAGE_SIZE,
        }
    }

    /// Becomes a copy of the other page.
    pub(crate) fn take_over(&mut self, other: &Page)
        ensures exact { self.new ≡ other.now }
    {
        self.bytes = other.bytes;
        self.len = other.len;
    }

    /// The bytes.
    pub fn bytes(&self) -> &[u8]
        ensures bytes { result.now ≡ self.now }
        ensures fits { IsPageLength self.now }
    {
        &self.bytes[..self.len]
    }

    /// A copy of the page.
    pub fn copy(&self) -> Page
        ensures exact { result ≡ self.now }
    {
        Page {
            bytes: self.bytes,
            len: self.len,
        }
    }
}
