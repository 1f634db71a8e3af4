//! What the second core does, one action after the other.

ghost use Rattle.std.specs.Prelude.{◌≡◌, ◌≤◌};
ghost use Rattle.core_script.specs.Action.{sectors_in};

use arrayvec::ArrayVec;
use image_layout::Space;
use nor_device::Page;

/// The label of a partition, without zeros behind it.
pub type Label = ArrayVec<u8, 16>;

/// One action of the second core.
#[derive(Drop)]
pub enum Action {
    /// Fetches `len` bytes, 1 to 256, from a mapped address on.
    Fetch {
        at: u32,
        len: u32,
    },
    /// Sets the core's cache mask: bit 0 is the data space, bit 1 the code space.
    Mask(u8),
    /// Sets the core's enabled interrupt lines.
    Irq(u32),
    /// Maps `n` flash pages, 1 to 64, from `page` on; they end at most at page 256.
    Map {
        space: Space,
        page: u32,
        n: u8,
    },
    /// Gives back the run of pages that begins at this address.
    Unmap {
        at: u32,
    },
    /// Programs bytes of a partition, which stay inside one 256-byte page of it.
    Write {
        label: Label,
        offset: u32,
        bytes: Page,
    },
    /// Erases `len` bytes of a partition, at least one.
    Erase {
        label: Label,
        offset: u32,
        len: u32,
    },
}

impl Action {
    /// A copy of the action.
    pub fn copy(&self) -> Action
        ensures exact { result ≡ self.now }
    {
        match self {
            Action::Fetch { at, len } => Action::Fetch { at: *at, len: *len },
            Action::Mask(mask) => Action::Mask(*mask),
            Action::Irq(irq) => Action::Irq(*irq),
            Action::Map { space, page, n } => Action::Map {
                space: *space,
                page: *page,
                n: *n,
            },
            Action::Unmap { at } => Action::Unmap { at: *at },
            Action::Write {
                label,
                offset,
                bytes,
            } => Action::Write {
                label: copy_label(label),
                offset: *offset,
                bytes: bytes.copy(),
            },
            Action::Erase { label, offset, len } => Action::Erase {
                label: copy_label(label),
                offset: *offset,
                len: *len,
            },
        }
    }

    /// How many sectors of 4096 bytes the action erases, at most.
    pub(crate) fn sectors(&self) -> u32
        ensures exact { result ≡ sectors_in self.now }
        ensures few { result ≤ 1048576 }
    {
        match self {
            Action::Erase { len, .. } => len.div_ceil(4096),
            _ => 0,
        }
    }
}

/// A copy of a label.
fn copy_label(label: &Label) -> Label
    ensures exact { result ≡ label.now }
{
    match Label::try_from(label.as_slice()) {
        Ok(copy) => copy,
        Err(_) => unreachable!(),
    }
}
