//! The commands that change a NOR flash: the erase of a sector or a block sets bits, a program clears some.

ghost use Rattle.std.specs.Prelude.{◌≡◌, ◌≤◌, ◌^◌};

use crate::page::Page;

/// The bytes of a sector, the least that one erase sets to 0xFF.
pub const SECTOR_SIZE: u32 = 4096;

/// The bytes of a block, the most that one erase sets to 0xFF: sixteen sectors.
pub const BLOCK_SIZE: u32 = 65_536;

/// One change of the flash.
#[derive(Drop)]
pub enum Step {
    /// Sets the 4096 bytes of a sector to 0xFF. Sector n begins at address 4096 n.
    Erase { sector: u32 },
    /// ANDs the bytes into the flash from the address on.
    Program { at: u32, bytes: Page },
    /// Sets the 65,536 bytes of a block to 0xFF. Block n begins at address 65,536 n.
    Block { block: u32 },
}

impl Step {
    ghost use Rattle.nor_device.specs.Flash.{start_of, len_of, end_of};

    /// The first address and the length of what the step may change.
    pub fn range(&self) -> (u32, u32)
        requires small { end_of self.now ≤ 2 ^ 32 }
        ensures first { result.0 ≡ start_of self.now }
        ensures length { result.1 ≡ len_of self.now }
    {
        match self {
            Step::Erase { sector } => (*sector * SECTOR_SIZE, SECTOR_SIZE),
            Step::Program { at, bytes } => (*at, bytes.bytes().len() as u32),
            Step::Block { block } => (*block * BLOCK_SIZE, BLOCK_SIZE),
        }
    }

    /// A copy of the step.
    pub fn copy(&self) -> Step
        ensures exact { result ≡ self.now }
    {
        match self {
            Step::Erase { sector } => Step::Erase { sector: *sector },
            Step::Program { at, bytes } => Step::Program {
                at: *at,
                bytes: bytes.copy(),
            },
            Step::Block { block } => Step::Block { block: *block },
        }
    }
}
