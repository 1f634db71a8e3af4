//! The steps of a record and of a format, one by one.

ghost use Rattle.std.specs.Prelude.{◌≡◌, ◌≤◌, ◌<◌, ◌+◌, ◌%◌, ◌^◌, length, slice_get};
ghost use Rattle.nor_device.specs.declared.step.Step.TheVariants.{Program};
ghost use Rattle.nor_device.specs.Flash.{IsPageLength};
ghost use Rattle.flash_steps.specs.Steps.{erase_steps};
ghost use Rattle.nvs_keys.specs.Banks.{bank_at};
ghost use Rattle.nvs_keys.specs.Steps.{format_steps, put_steps};

use crate::bank::Bank;
use crate::header::header_of;
use crate::place::Place;
use nor_device::{Page, Step};

/// How many bytes one erase sets to 0xFF.
const SECTOR: u32 = 4096;

/// The program of 1 to 256 bytes at an address.
fn program(at: u32, bytes: &[u8]) -> Step
    requires page { IsPageLength bytes.now }
    ensures exact { result ≡ Program at bytes.now }
{
    let page = Page::of(bytes).unwrap();
    Step::Program { at, bytes: page }
}

/// The step of this number, from 0 on, that puts a record into the slot at an address: first its
/// bytes 1 to 51, then its gate.
pub fn put_step(at: u32, bytes: &[u8], number: u32) -> Option<Step>
    requires page { IsPageLength bytes.now }
    requires small { at + 1 < 2 ^ 32 }
    ensures exact { result ≡ slice_get (put_steps at bytes.now) number }
{
    match number {
        0 => Some(program(at + 1, bytes)),
        1 => Some(program(at, &[0])),
        _ => None,
    }
}

/// The step of this number, from 0 on, of the erase of a bank: its first sector first.
pub fn erase_step(place: Place, bank: Bank, number: u32) -> Option<Step>
    requires inside { place.at + place.half + place.half ≤ 2 ^ 32 }
    ensures exact { result ≡ slice_get (erase_steps (bank_at place bank) place.half) number }
{
    if number < place.half / SECTOR {
        let sector = place.bank(bank) / SECTOR + number;
        Some(Step::Erase { sector })
    } else {
        None
    }
}

/// The step of this number, from 0 on, of a format: the first sector of the second bank is erased,
/// then the first bank, and last the first bank gets the header of generation 1.
pub fn format_step(place: Place, number: u32) -> Option<Step>
    requires inside { place.at + place.half + place.half ≤ 2 ^ 32 }
    requires some { 0 < place.half }
    ensures exact { result ≡ slice_get (format_steps place) number }
{
    let sectors = place.half / SECTOR;
    if number == 0 {
        let sector = place.bank(Bank::Second) / SECTOR;
        Some(Step::Erase { sector })
    } else if number <= sectors {
        erase_step(place, Bank::First, number - 1)
    } else if number == sectors + 1 {
        Some(program(place.at, header_of(1).as_slice()))
    } else {
        None
    }
}
