//! What a core did to the bus, as contracts tell it. No value of it is made but the running step.

use crate::entry::Act;
use crate::journal::Room;
use core_state::Regs;
use image_layout::Space;
use mmu_map::{NoPages, NotMapped, Pages};
use nor_device::{NorFault, Step};
use std::collections::LinkedList;

/// The step that runs: its core, the number of the action, and the step itself.
#[derive(Drop)]
pub struct Running {
    pub core: u8,
    pub k: u32,
    pub step: Step,
}

/// One thing that a core did to the bus: an entry of the journal, or a mark.
pub enum Did {
    /// A step was begun.
    Opened {
        k: u32,
        regs: Regs,
        step: Step,
    },
    /// It ended whole.
    Closed {
        k: u32,
        regs: Regs,
    },
    /// It was broken off, and left this flash.
    Broken {
        k: u32,
        regs: Regs,
        why: NorFault,
        left: LinkedList<u8>,
    },
    /// These bytes were read through the cache.
    Fetched {
        k: u32,
        regs: Regs,
        at: u32,
        bytes: LinkedList<u8>,
    },
    /// Another entry.
    Noted {
        k: u32,
        regs: Regs,
        act: Act,
    },
    /// A mark: a read or the start of a step was refused.
    Denied {
        why: NorFault,
    },
    /// A mark: pages were asked for.
    Mapping {
        flash_page: u32,
        n: u8,
        space: Space,
        answer: Result<u32, NoPages>,
    },
    /// A mark: a run of pages was to be freed.
    Unmapping {
        at: u32,
        answer: Result<(), NotMapped>,
    },
    /// A mark: a fetch was refused, since its range is not mapped.
    Missed {
        at: u32,
        len: u32,
    },
    /// A mark: a fetch was refused, since the mask does not serve its space.
    Masked {
        at: u32,
        len: u32,
    },
    /// A mark: a fetch came to the device, which refused.
    Unfetched {
        at: u32,
        len: u32,
        why: NorFault,
    },
}

/// What is fixed when the bus is made: flash, pages, duty, the rooms of both cores, and of the
/// device its setting, number of steps, count of faults and whether its power is off. No value of
/// it is made.
pub struct Base<S, K> {
    pub flash: LinkedList<u8>,
    pub map: Pages,
    pub duty: K,
    pub left_room: Room,
    pub right_room: Room,
    pub setting: S,
    pub steps: u64,
    pub faults: u64,
    pub off: bool,
}
