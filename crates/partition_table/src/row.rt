//! A row of the table: 32 bytes, numbers with their lowest byte first (ESP-IDF Programming Guide,
//! "Partition Tables").
//!
//! | place | bytes | field |
//! |---|---|---|
//! | 0 | 2 | the mark `AA 50` |
//! | 2 | 1 | type |
//! | 3 | 1 | subtype |
//! | 4 | 4 | offset |
//! | 8 | 4 | size |
//! | 12 | 16 | label, zeros behind the text |
//! | 28 | 4 | flags: bit 0 encrypted, bit 1 readonly |

ghost use Rattle.std.specs.Prelude.{◌≡◌, ◌≤◌, ◌<◌, [], ◌∷◌, length};
ghost use Rattle.byteorder.specs.Endian.{little_bytes};
ghost use Rattle.partition_table.specs.Row.{IsSized, is_partition, row_of, row_text};

use crate::put::put_at;
use byteorder::{ByteOrder, LittleEndian};

/// The two bytes with which a partition's row begins.
const MARK: [u8; 2] = [0xAA, 0x50];

/// A partition.
#[derive(Clone, Copy, Debug, Default, PartialEq, Eq)]
pub struct Row {
    /// 0 for an application, 1 for data; others are carried as they are.
    pub kind: u8,
    /// What the partition is for, by its type.
    pub subtype: u8,
    /// Where it begins in the flash.
    pub offset: u32,
    /// How many bytes it takes.
    pub size: u32,
    /// Its name, with zeros behind it.
    pub label: [u8; 16],
    /// Bit 0: encrypted. Bit 1: readonly.
    pub flags: u32,
}

impl Row {
    /// The row that the first 32 bytes are, whatever their mark.
    #[tactic(auto, unfolding(crate::specs::Row::row_of))]
    pub(crate) fn read(bytes: &[u8]) -> Row
        requires { 32 ≤ length bytes.now }
        ensures exact { result ≡ row_of bytes.now }
    {
        let mut label = [0; 16];
        label.copy_from_slice(&bytes[12..28]);
        Row {
            kind: bytes[2],
            subtype: bytes[3],
            offset: LittleEndian::read_u32(&bytes[4..]),
            size: LittleEndian::read_u32(&bytes[8..]),
            label,
            flags: LittleEndian::read_u32(&bytes[28..]),
        }
    }

    /// The 32 bytes of the row.
    #[tactic(auto, unfolding(crate::specs::Row::row_text))]
    pub(crate) fn text(&self) -> [u8; 32]
        ensures exact { result ≡ row_text self.now }
        ensures sized { IsSized self.now }
    {
        let Row {
            kind,
            subtype,
            offset,
            size,
            label,
            flags,
        } = *self;
        let mut text = [0; 32];
        put_at(&mut text, 0, &head(kind, subtype));
        put_at(&mut text, 4, &number(offset));
        put_at(&mut text, 8, &number(size));
        put_at(&mut text, 12, &label);
        put_at(&mut text, 28, &number(flags));
        text
    }
}

/// The mark of a partition, its type and its subtype.
fn head(kind: u8, subtype: u8) -> [u8; 4]
    ensures exact { result ≡ 0xAA ∷ 0x50 ∷ kind ∷ subtype ∷ [] }
    ensures kind { kind < 256 }
    ensures subtype { subtype < 256 }
{
    [MARK[0], MARK[1], kind, subtype]
}

/// The four bytes of a number.
fn number(value: u32) -> [u8; 4]
    ensures exact { result ≡ little_bytes 4 value }
{
    let mut bytes = [0; 4];
    LittleEndian::write_u32(&mut bytes, value);
    bytes
}

/// Whether bytes begin with the mark of a partition.
#[tactic(auto, unfolding(crate::specs::Row::is_partition))]
pub(crate) fn is_partition(bytes: &[u8]) -> bool
    requires { 2 ≤ length bytes.now }
    ensures exact { result ≡ is_partition bytes.now }
{
    bytes[0] == MARK[0] && bytes[1] == MARK[1]
}
