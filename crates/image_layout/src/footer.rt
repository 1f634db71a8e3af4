//! Where an image's checksum ends.

ghost use Rattle.std.specs.Prelude.{◌≡◌, ◌≤◌, ◌^◌};
ghost use Rattle.image_layout.specs.Footer.{footer_end};

/// The place after the checksum byte of an image whose data end at `n`: the least multiple of 16 above `n`.
pub fn footer_end(n: u64) -> u64
    requires { n ≤ 2 ^ 63 }
    ensures { result ≡ footer_end n }
{
    (n / 16 + 1) * 16
}
