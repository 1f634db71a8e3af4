//! The image that a slot of a flash holds.

ghost use Rattle.std.specs.Prelude.{◌≡◌, ◌<◌, ◌^◌, MatchOption, None, length};
ghost use Rattle.image_verify.specs.Held.{held};
ghost use Rattle.image_verify.specs.Info.{HoldsWith};

use crate::info::ImageInfo;
use crate::verifier::Verifier;

/// What the image is that the bytes of a slot begin with, where they begin with a whole one.
///
/// No byte after the image is read.
pub fn verify_slot(slot: &[u8]) -> Option<ImageInfo>
    requires { length slot.now < 2 ^ 32 }
    ensures exact { MatchOption result (held slot.now ≡ None) (HoldsWith slot.now) }
{
    let mut verifier = Verifier::new(slot.len() as u32);
    let mut done = 0;
    let mut more = (verifier.wanted() as usize).min(slot.len());
    while more > 0 {
        let _ = verifier.feed(&slot[done..done + more]);
        done += more;
        more = (verifier.wanted() as usize).min(slot.len() - done);
    }
    verifier.finish().ok()
}
