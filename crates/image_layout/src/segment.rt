//! The head of a segment: load address (4 bytes) and length of the data (4), each with its lowest byte first.

ghost use Rattle.std.specs.Prelude.{◌≡◌, length};
ghost use Rattle.image_layout.specs.Segment.{IsHead, head_of, head_bytes};

use byteorder::{ByteOrder, LittleEndian};

/// What stands before the data of a segment (esptool, "Firmware Image Format").
#[derive(Clone, Copy, Debug, Default, PartialEq, Eq)]
pub struct SegmentHead {
    /// The address that the data are loaded to, or mapped at.
    pub load: u32,
    /// The length of the data in bytes.
    pub length: u32,
}

impl SegmentHead {
    /// The head that 8 bytes are.
    pub fn read(bytes: &[u8; 8]) -> SegmentHead
        ensures exact { result ≡ head_of bytes.now }
        ensures bytes { head_bytes result ≡ bytes.now }
    {
        read_head(bytes)
    }

    /// Writes the 8 bytes of the head.
    pub fn put(&self, out: &mut [u8; 8])
        ensures bytes { out.new ≡ head_bytes self.now }
        ensures exact { head_of out.new ≡ self.now }
    {
        put_head(self, out);
    }
}

/// The head that 8 bytes are.
#[tactic(auto, unfolding(crate::specs::Segment::head_of))]
fn read_head(bytes: &[u8]) -> SegmentHead
    requires { length bytes.now ≡ 8 }
    ensures { result ≡ head_of bytes.now }
{
    SegmentHead {
        load: LittleEndian::read_u32(bytes),
        length: LittleEndian::read_u32(&bytes[4..]),
    }
}

/// Writes the 8 bytes of the head.
#[tactic(auto, unfolding(crate::specs::Segment::head_bytes))]
fn put_head(head: &SegmentHead, out: &mut [u8])
    requires { length out.old ≡ 8 }
    ensures bytes { out.new ≡ head_bytes head.now }
    ensures sized { IsHead head.now }
{
    let SegmentHead { load, length } = *head;
    LittleEndian::write_u32(out, load);
    LittleEndian::write_u32(&mut out[4..], length);
}
