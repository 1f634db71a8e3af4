//! An entry of the OTA data: the first 32 bytes of a sector, as sequence (4 bytes), label (20),
//! state (4) and CRC (4), each number with its lowest byte first.

ghost use Rattle.std.specs.Prelude.{◌≡◌, ◌<◌, ◌≤◌, ◌+◌, ◌*◌, ◌++◌, ◌↔◌, IsTrue, List, ℕ, All, length, take};
ghost use Rattle.otadata.specs.declared.entry.Entry.{Entry};
ghost use Rattle.otadata.specs.Entry.{IsSized, IsStored, entry_bytes, entry_in, entry_of};
ghost use Rattle.otadata.specs.Choice.{Matches, IsValid, matches, is_valid};

use crate::crc::crc_of;
use crate::state;
use byteorder::{ByteOrder, LittleEndian};

/// The sequence that an erased sector reads as.
pub const BLANK: u32 = 0xFFFF_FFFF;

/// What a sector of the OTA data says (ESP-IDF, `esp_ota_select_entry_t`).
#[derive(Clone, Copy, Debug, Default, PartialEq, Eq)]
pub struct Entry {
    /// Counts the updates from 1, and so names the slot.
    pub seq: u32,
    /// Twenty 0xFF in a new entry. No rule reads it.
    pub label: [u8; 20],
    /// How far the application has come: one of [`state`], or any other number.
    pub state: u32,
    /// The CRC of the sequence.
    pub crc: u32,
}

impl Entry {
    /// The entry that 32 bytes are.
    pub fn read(bytes: &[u8; 32]) -> Entry
        ensures exact { result ≡ entry_of bytes.now }
        ensures bytes { entry_bytes result ≡ bytes.now }
        ensures stored { IsStored result }
    {
        let mut label = [0; 20];
        label.copy_from_slice(&bytes[4..24]);
        Entry {
            seq: LittleEndian::read_u32(bytes),
            label,
            state: LittleEndian::read_u32(&bytes[24..28]),
            crc: LittleEndian::read_u32(&bytes[28..32]),
        }
    }

    /// Writes the 32 bytes of the entry.
    pub fn put(&self, out: &mut [u8; 32])
        ensures bytes { out.new ≡ entry_bytes self.now }
        ensures same { entry_of out.new ≡ self.now }
    {
        let Entry {
            seq,
            label,
            state,
            crc,
        } = *self;
        LittleEndian::write_u32(out, seq);
        out[4..24].copy_from_slice(&label);
        LittleEndian::write_u32(&mut out[24..28], state);
        LittleEndian::write_u32(&mut out[28..32], crc);
    }

    /// Whether the CRC is that of the sequence, and the sequence is neither 0 nor that of an erased
    /// sector.
    #[tactic(auto, unfolding(crate::specs::Choice::matches))]
    pub fn matches(&self) -> bool
        ensures fact { IsTrue result ↔ Matches self.now }
        ensures exact { result ≡ matches self.now }
    {
        self.crc == crc_of(self.seq) && self.seq != 0 && self.seq != BLANK
    }

    /// Whether the entry matches and its application is neither rejected nor given up.
    #[tactic(auto, unfolding(crate::specs::Choice::is_valid))]
    pub fn is_valid(&self) -> bool
        ensures fact { IsTrue result ↔ IsValid self.now }
        ensures exact { result ≡ is_valid self.now }
    {
        self.matches() && self.state != state::INVALID && self.state != state::ABORTED
    }
}

/// The entry of a sector of the OTA data, which begin at this place of the flash.
pub fn entry_in(flash: &[u8], otadata: u32, sector: u8) -> Entry
    requires two { sector < 2 }
    requires within { otadata + 8192 ≤ length flash.now }
    ensures exact { result ≡ entry_in flash.now otadata sector }
    ensures stored { IsStored result }
{
    let at = otadata as usize + 4096 * usize::from(sector);
    let mut bytes = [0; 32];
    bytes.copy_from_slice(&flash[at..at + 32]);
    Entry::read(&bytes)
}

/// Entries and their bytes say the same: an entry is read where its bytes stand first, and its
/// bytes are those that it was read from.
pub fn entries_are_their_bytes()
    ensures entry { (e : Entry) (rest : List ℕ) → IsSized e → entry_of (entry_bytes e ++ rest) ≡ e }
    ensures bytes { (bytes : List ℕ) → 32 ≤ length bytes → All (λ b. b < 256) bytes
        → entry_bytes (entry_of bytes) ≡ take 32 bytes }
{}
