//! Numbers as text.
ghost use Rattle.std.specs.Prelude.{◌≡◌, ℕ, ◌+◌, ◌^◌, ◌<◌, ◌≤◌, ◌++◌, OnOk, OnErr};
ghost use Rattle.std.specs.Fmt.{decimal};
ghost use Rattle.std.specs.Str.Parse.{digits_value};
ghost use Rattle.pipe_ends.specs.Hex.{hex_glyph, hex_text};

use crate::fault::Memory;

/// Appends the decimal digits of `n`, with no leading zero.
pub fn put_number(out: &mut Vec<u8>, n: u64) -> Result<(), Memory>
    ensures ok { OnOk result (out.new.items ≡ out.old.items ++ decimal n) }
    ensures kept { OnErr result (out.new.items ≡ out.old.items) }
{
    let text = format!(in *out.allocator(); "{n}")?;
    out.extend_from_slice(text.as_bytes())?;
    Ok(())
}

/// Appends `n` as exactly this many upper-case hex digits.
pub fn put_hex(out: &mut Vec<u8>, n: u64, digits: u8) -> Result<(), Memory>
    requires some { 1 ≤ digits }
    requires most { digits ≤ 16 }
    requires fits { n < 16 ^ digits }
    ensures ok { OnOk result (out.new.items ≡ out.old.items ++ hex_text digits n) }
    ensures kept { OnErr result (out.new.items ≡ out.old.items) }
{
    out.reserve(usize::from(digits))?;
    for place in (0..digits).rev() {
        out.push_reserved(hex_digit((n >> (4 * place)) & 0xF));
    }
    Ok(())
}

/// Over every number: as many hex digits as it needs spell it, and no other number.
#[tactic(auto, using(crate::proofs::HexLemmas::hex_text_spells))]
pub fn hex_digits_spell_their_number()
    ensures { (digits number : ℕ) → number < 16 ^ digits
        → digits_value 16 (hex_text digits number) ≡ number }
{}

/// The character of a digit from 0 to 15.
fn hex_digit(digit: u64) -> u8
    requires { digit < 16 }
    ensures { result ≡ hex_glyph digit }
{
    if digit < 10 {
        b'0' + digit as u8
    } else {
        b'A' - 10 + digit as u8
    }
}
