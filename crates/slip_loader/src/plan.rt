//! What a request asks for.

ghost use Rattle.std.specs.Prelude.{◌≡◌};
ghost use Rattle.slip_loader.specs.Answers.{number_of};

/// An accepted FLASH_BEGIN that is not closed yet.
#[derive(Clone, Copy, Debug, PartialEq, Eq)]
pub(crate) struct Begun {
    /// Where block 0 begins in the flash.
    pub(crate) at: u32,
    /// How many blocks there are.
    pub(crate) blocks: u32,
    /// How many bytes each of them has.
    pub(crate) block_size: u32,
    /// The number of the block that is awaited.
    pub(crate) next: u32,
}

/// What is to be done.
#[derive(Clone, Copy, Debug, PartialEq, Eq)]
pub(crate) enum Work {
    /// Nothing.
    Nothing,
    /// Erases of the sectors of a range.
    Erase { at: u32, len: u32 },
    /// Programs of the request's block.
    Program { at: u32 },
    /// The digest of a range.
    Digest { at: u32, len: u32 },
}

/// What an accepted request asks for.
#[derive(Clone, Copy, Debug, PartialEq, Eq)]
pub(crate) struct Plan {
    /// What is to be done.
    pub(crate) work: Work,
    /// What is open behind it.
    pub(crate) begun: Option<Begun>,
}

/// Why a request is refused.
#[derive(Clone, Copy, Debug, PartialEq, Eq)]
pub(crate) enum Refusal {
    /// No such command, or data of another form.
    Form,
    /// A range or a size out of bounds.
    Bounds,
    /// The checksum is not that of the block.
    Checksum,
    /// The region meets an encrypted partition.
    Encrypted,
    /// No begin is open, or blocks are missing.
    NotOpen,
    /// Not the block that is awaited.
    Order,
}

impl Refusal {
    /// The error number of the protocol.
    pub(crate) fn number(self) -> u8
        ensures exact { result ≡ number_of self }
    {
        match self {
            Refusal::Form => 5,
            Refusal::Bounds => 6,
            Refusal::Checksum => 7,
            Refusal::Encrypted => 8,
            Refusal::NotOpen => 9,
            Refusal::Order => 10,
        }
    }
}
