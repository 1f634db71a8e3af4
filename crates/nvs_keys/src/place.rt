//! Where a store lies.

ghost use Rattle.std.specs.Prelude.{◌≡◌, ◌<◌, ◌+◌, ◌^◌};
ghost use Rattle.nvs_keys.specs.Banks.{bank_at};
ghost use Rattle.nvs_keys.specs.Rows.{is_store_row, place_of};

use crate::bank::Bank;
use partition_table::Row;

/// Where a store lies in a flash.
#[derive(Clone, Copy, Debug, PartialEq, Eq)]
pub struct Place {
    /// The first address.
    pub at: u32,
    /// How many bytes each bank has.
    pub half: u32,
}

impl Place {
    /// The place of a row.
    pub fn of(row: &Row) -> Place
        ensures exact { result ≡ place_of row.now }
    {
        Place {
            at: row.offset,
            half: row.size / 2,
        }
    }

    /// Where a bank begins.
    pub fn bank(self, bank: Bank) -> u32
        requires { self.at + self.half < 2 ^ 32 }
        ensures exact { result ≡ bank_at self bank }
    {
        match bank {
            Bank::First => self.at,
            Bank::Second => self.at + self.half,
        }
    }
}

/// Whether a store may lie in a row: it is of type data, but not the OTA data, has flag bits 0 and 1
/// clear, and a size from 0x2000 to 0x10000 that is a multiple of 0x2000.
#[tactic(auto, unfolding(crate::specs::Rows::is_store_row))]
pub fn is_store_row(row: &Row) -> bool
    ensures exact { result ≡ is_store_row row.now }
{
    row.kind == 1
        && row.subtype != 0
        && row.flags % 4 == 0
        && row.size % 0x2000 == 0
        && 0x2000 <= row.size
        && row.size <= 0x10000
}
