//! The fields of a request.

ghost use Rattle.std.specs.Prelude.{◌≡◌, ◌≤◌, ◌+◌, ◌*◌, ◌==◌, length};
ghost use Rattle.std.specs.List.{list_all};
ghost use Rattle.slip_loader.specs.Plans.{begin_of, begins_sync, block_of, block_sum, checksum_of, command_of, field_of, is_sync, xor_from};

use byteorder::{ByteOrder, LittleEndian};

/// The numbers of a FLASH_BEGIN.
#[derive(Clone, Copy, Debug, PartialEq, Eq)]
pub(crate) struct Begin {
    /// How many bytes are to be written.
    pub(crate) size: u32,
    /// In how many blocks they come.
    pub(crate) blocks: u32,
    /// How many bytes each block has.
    pub(crate) block_size: u32,
    /// Where the first block begins in the flash.
    pub(crate) offset: u32,
}

/// The command of a request.
pub(crate) fn command_of(frame: &[u8]) -> u8
    requires { 8 ≤ length frame.now }
    ensures exact { result ≡ command_of frame.now }
{
    frame[1]
}

/// The checksum field of a request.
fn checksum_of(frame: &[u8]) -> u32
    requires { 8 ≤ length frame.now }
    ensures exact { result ≡ checksum_of frame.now }
{
    LittleEndian::read_u32(&frame[4..])
}

/// The n-th number of a request's data.
pub(crate) fn field_of(frame: &[u8], n: usize) -> u32
    requires few { n ≤ 3 }
    requires long { 12 + 4 * n ≤ length frame.now }
    ensures exact { result ≡ field_of frame.now n }
{
    LittleEndian::read_u32(&frame[8 + 4 * n..])
}

/// The block behind the four numbers of a FLASH_DATA, where there is one.
pub(crate) fn block_of(frame: &[u8]) -> &[u8]
    ensures exact { result.now ≡ block_of frame.now }
{
    if frame.len() < 24 { &[] } else { &frame[24..] }
}

/// The numbers of a FLASH_BEGIN.
#[tactic(auto, unfolding(crate::specs::Plans::begin_of))]
pub(crate) fn begin_of(frame: &[u8]) -> Begin
    requires { 24 ≤ length frame.now }
    ensures exact { result ≡ begin_of frame.now }
{
    Begin {
        size: field_of(frame, 0),
        blocks: field_of(frame, 1),
        block_size: field_of(frame, 2),
        offset: field_of(frame, 3),
    }
}

/// Whether the data of a request begin as those of a SYNC.
#[tactic(auto, unfolding(crate::specs::Plans::begins_sync))]
fn begins_sync(frame: &[u8]) -> bool
    requires { 12 ≤ length frame.now }
    ensures exact { result ≡ begins_sync frame.now }
{
    frame[8] == 0x07 && frame[9] == 0x07 && frame[10] == 0x12 && frame[11] == 0x20
}

/// Whether all bytes are those that fill a SYNC.
fn are_filling(bytes: &[u8]) -> bool
    ensures exact { result ≡ list_all (λ byte. byte == 0x55) bytes.now }
{
    bytes.iter().all(|byte| *byte == 0x55)
}

/// Whether a request has the data of a SYNC.
#[tactic(auto, unfolding(crate::specs::Plans::is_sync))]
pub(crate) fn is_sync(frame: &[u8]) -> bool
    ensures exact { result ≡ is_sync frame.now }
{
    frame.len() == 44 && begins_sync(frame) && are_filling(&frame[12..])
}

/// The exclusive or of a number with all bytes.
fn xor_from(sum: u8, bytes: &[u8]) -> u8
    ensures exact { result ≡ xor_from sum bytes.now }
{
    let mut all = sum;
    for byte in bytes {
        all ^= *byte;
    }
    all
}

/// Whether the checksum field of a request is that of its block.
pub(crate) fn is_summed(frame: &[u8]) -> bool
    requires { 24 ≤ length frame.now }
    ensures exact { result ≡ (checksum_of frame.now == block_sum (block_of frame.now)) }
{
    checksum_of(frame) == u32::from(xor_from(0xEF, block_of(frame)))
}
