//! Why a call on a store or a sink was refused.
use std::alloc::{AllocError, AllocFailed};

/// Why a store gave no bytes.
#[derive(Clone, Copy, Debug, PartialEq, Eq)]
pub enum GetFault {
    /// No file has the name.
    Absent,
    /// The store failed, and counted it.
    Failed,
    /// Out of memory for the bytes.
    Memory,
}

/// Why a store took no bytes.
#[derive(Clone, Copy, Debug, PartialEq, Eq)]
pub enum PutFault {
    /// The store failed, and counted it.
    Failed,
    /// Out of memory for the file.
    Memory,
}

/// Why a sink took not all bytes.
#[derive(Clone, Copy, Debug, PartialEq, Eq)]
pub enum PushFault {
    /// The sink failed, and counted it.
    Failed,
    /// Out of memory for the bytes.
    Memory,
}

/// Out of memory.
#[derive(Clone, Copy, Debug, PartialEq, Eq)]
pub struct Memory;

impl From<AllocError> for GetFault {
    ghost use Rattle.std.specs.Prelude.{◌≡◌};
    ghost use Rattle.pipe_ends.specs.declared.fault.GetFault.TheVariants.{Memory};

    ghost from_gives = { λ _ e. e ≡ Memory };

    /// Out of memory.
    fn from(_refused: AllocError) -> GetFault {
        GetFault::Memory
    }
}

impl From<AllocError> for PutFault {
    ghost use Rattle.std.specs.Prelude.{◌≡◌};
    ghost use Rattle.pipe_ends.specs.declared.fault.PutFault.TheVariants.{Memory};

    ghost from_gives = { λ _ e. e ≡ Memory };

    /// Out of memory.
    fn from(_refused: AllocError) -> PutFault {
        PutFault::Memory
    }
}

impl<T: Drop> From<AllocFailed<T>> for PutFault {
    ghost use Rattle.std.specs.Prelude.{◌≡◌};
    ghost use Rattle.pipe_ends.specs.declared.fault.PutFault.TheVariants.{Memory};

    ghost from_gives = { λ _ e. e ≡ Memory };

    /// Out of memory.
    fn from(_refused: AllocFailed<T>) -> PutFault {
        PutFault::Memory
    }
}

impl From<AllocError> for PushFault {
    ghost use Rattle.std.specs.Prelude.{◌≡◌};
    ghost use Rattle.pipe_ends.specs.declared.fault.PushFault.TheVariants.{Memory};

    ghost from_gives = { λ _ e. e ≡ Memory };

    /// Out of memory.
    fn from(_refused: AllocError) -> PushFault {
        PushFault::Memory
    }
}

impl From<AllocError> for Memory {
    /// Out of memory.
    fn from(_refused: AllocError) -> Memory {
        Memory
    }
}
