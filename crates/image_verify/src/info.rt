//! What a verified image is.

ghost use Rattle.std.specs.Prelude.{◌≡◌};
ghost use Rattle.image_verify.specs.Info.{is_mapped, mapped_in};

use arrayvec::ArrayVec;
use image_layout::{AppDesc, Space, is_code, is_data};

/// A segment, and where its data begin in the image.
#[derive(Clone, Copy, Debug, Default, PartialEq, Eq)]
pub struct SegmentNote {
    /// The load address.
    pub load: u32,
    /// The length of the data in bytes.
    pub length: u32,
    /// The place of the data in the image.
    pub place: u32,
}

/// What a whole image is: its length, where it starts, its segments and its description.
#[derive(Clone, Debug, Drop)]
pub struct ImageInfo {
    /// The length in bytes, the digest included.
    pub length: u32,
    /// The address at which the application starts.
    pub entry: u32,
    /// Whether a digest is appended.
    pub flagged: bool,
    /// The segments, in order.
    pub segments: ArrayVec<SegmentNote, 16>,
    /// The description, where there is one.
    pub desc: Option<AppDesc>,
}

impl ImageInfo {
    /// The last segment that is mapped into a space: one that has data, and whose load address lies there.
    pub fn mapped(&self, space: Space) -> Option<SegmentNote>
        ensures { result ≡ mapped_in space self.now.segments.items }
    {
        let notes = self.segments.as_slice();
        let mut last = None;
        for note in notes {
            if is_mapped(space, note) {
                last = Some(*note);
            }
        }
        last
    }
}

/// Whether a segment has data, and its load address lies in a space.
fn is_mapped(space: Space, note: &SegmentNote) -> bool
    ensures { result ≡ is_mapped space note.now }
{
    let inside = match space {
        Space::Data => is_data(note.load),
        Space::Code => is_code(note.load),
    };
    (note.length > 0) & inside
}
