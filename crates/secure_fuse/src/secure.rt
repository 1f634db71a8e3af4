//! The secure version of an image.

ghost use Rattle.std.specs.Prelude.{◌≡◌};
ghost use Rattle.secure_fuse.specs.Secure.{secure_in, secure_of};

use image_layout::AppDesc;

/// The secure version of a description, 0 without one.
pub fn secure_in(desc: &Option<AppDesc>) -> u32
    ensures exact { result ≡ secure_in desc.now }
{
    match desc {
        Some(desc) => desc.secure,
        None => 0,
    }
}

/// The secure version of an image, 0 where it has no description.
pub fn secure_of(image: &[u8]) -> u32
    ensures exact { result ≡ secure_of image.now }
{
    secure_in(&AppDesc::read(image))
}
