//! What a file is as an application image.

ghost use Rattle.std.specs.Prelude.{◌≡◌, ◌≤◌, None, Some, IfOk, IfErr, OnOk, length};
ghost use Rattle.image_verify.specs.Bad.{bad};
ghost use Rattle.image_verify.specs.Info.{IsInfo};

use image_verify::{BadImage, ImageInfo, Verifier, whole_images_show_no_fault};

/// What a file is as a whole image of at most so many bytes, or the first fault that it shows.
pub(crate) fn verified(file: &[u8], limit: u32) -> Result<ImageInfo, BadImage>
    ensures ok { IfOk result (IsInfo file.now) }
    ensures none { OnOk result (bad limit file.now ≡ None) }
    ensures fits { OnOk result (length file.now ≤ limit) }
    ensures err { IfErr result (λ why. bad limit file.now ≡ Some why) }
{
    whole_images_show_no_fault();
    let mut verifier = Verifier::new(limit);
    let _ = verifier.feed(file);
    verifier.finish()
}
