//! Giving the turn back: what was done travels as an argument that only the proof reads.

ghost use Rattle.std.specs.Prelude.{◌≡◌, true};
ghost use Rattle.park_words.specs.Told.{Gives, HasGiven};
ghost use Rattle.cache_gate.specs.Works.{Worked, told_in};
ghost use Rattle.cache_gate.specs.Said.{work_by};

use bus_hub::{Act, Bus, Duty, FetchNo};
use core_state::{Records, Regs};
use crash_images::Crash;
use image_layout::Space;
use mmu_map::{NoPages, NotMapped};
use nor_device::{NorFault, Ready};
use park_words::{CoreSeat, Words};

/// What a core did while it had the turn.
#[derive(Drop)]
pub(crate) enum Said {
    /// Its registers were saved and cleared.
    Saved,
    /// They are in force again.
    Restored,
    /// They were set.
    Set {
        k: u32,
        regs: Regs,
    },
    /// An entry was noted.
    Noting {
        k: u32,
        regs: Regs,
        act: Act,
    },
    /// Bytes were fetched, or not.
    Fetched {
        k: u32,
        regs: Regs,
        at: u32,
        len: u32,
        answer: Result<(), FetchNo>,
    },
    /// A step was begun, or not.
    Starting {
        regs: Regs,
        answer: Result<(), NorFault>,
    },
    /// The step was polled.
    Polled {
        k: u32,
        regs: Regs,
        answer: Result<Ready, NorFault>,
    },
    /// The device was read.
    Looked {
        answer: Result<(), NorFault>,
    },
    /// Pages were mapped, or not.
    Mapped {
        flash_page: u32,
        n: u8,
        space: Space,
        answer: Result<u32, NoPages>,
    },
    /// A run of pages was freed, or not.
    Freed {
        at: u32,
        answer: Result<(), NotMapped>,
    },
}

/// Gives the bus back, with what was done to it.
#[tactic(auto, using(crate::proofs::Walks::gave))]
pub(crate) fn give<D: Crash, K: Duty>(
    words: &Words<Bus<D, K>>,
    seat: &mut CoreSeat<Bus<D, K>>,
    bus: Bus<D, K>,
    said: &Said,
)
    requires table { seat.old.table ≡ words.now }
    requires turn { seat.old.view.turn ≡ true }
    requires value { Gives ⟦<Bus<D, K> as Records>⟧.records ⟦<Bus<D, K> as Records>⟧.runs
        ⟦<Bus<D, K> as Records>⟧.stands seat.old.view bus (work_by D.bytes said.now bus) }
    ensures exact { HasGiven ⟦<Bus<D, K> as Records>⟧.records ⟦<Bus<D, K> as Records>⟧.runs
        bus (work_by D.bytes said.now bus) seat.old seat.new }
    ensures works { Worked (told_in (work_by D.bytes said.now bus).event)
        seat.old.view seat.new.view }
{
    words.give_said(seat, bus, said);
}
