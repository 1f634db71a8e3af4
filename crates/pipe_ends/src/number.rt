//! Reading a number by its digits.

ghost use Rattle.std.specs.Prelude.{◌≡◌, ◌≤◌, ◌<◌, ◌+◌, ◌-◌, ◌*◌, ◌^◌, IfSome, option_map};
ghost use Rattle.pipe_ends.specs.Number.{digit, number_of_text, number_up_to, value_from, value_of, within};

/// The number that a text spells by decimal digits, or by `0x` and hex digits of either case.
#[tactic(auto, unfolding(crate::specs::Number::number_of_text, crate::specs::Number::spelled_value))]
pub fn read_number(text: &[u8]) -> Option<u64>
    ensures exact { result ≡ number_of_text text.now }
{
    if text.starts_with(b"0x".as_slice()) {
        value_of(&text[2..], 16)
    } else {
        value_of(text, 10)
    }
}

/// The number that a text spells, if it is at most so great.
pub fn number_up_to(most: u64, text: &[u8]) -> Option<u64>
    ensures exact { result ≡ number_up_to most text.now }
    ensures most { IfSome result (λ n. n ≤ most) }
{
    let number = read_number(text)?;
    if number <= most { Some(number) } else { None }
}

/// The value of one or more digits to this base.
#[tactic(auto, unfolding(crate::specs::Number::value_of))]
pub fn value_of(text: &[u8], base: u64) -> Option<u64>
    requires least { 10 ≤ base }
    requires most { base ≤ 16 }
    ensures exact { result ≡ within (2 ^ 64 - 1) (value_of base text.now) }
{
    if text.len() == 0 {
        return None;
    }
    digits_value(text, base)
}

/// The value of digits to this base.
fn digits_value(text: &[u8], base: u64) -> Option<u64>
    requires least { 10 ≤ base }
    requires most { base ≤ 16 }
    ensures exact { result ≡ within (2 ^ 64 - 1) (value_from base 0 text.now) }
{
    let mut value = 0;
    for c in text {
        value = joined(base, value, *c)?;
    }
    Some(value)
}

/// The value with one more digit, if it is one and the value fits.
fn joined(base: u64, value: u64, c: u8) -> Option<u64>
    ensures exact { result
        ≡ within (2 ^ 64 - 1) (option_map (λ d. value * base + d) (digit base c)) }
    ensures fits { IfSome result (λ n. n < 2 ^ 64) }
{
    value.checked_mul(base)?.checked_add(digit(base, c)?)
}

/// The value of a digit to this base.
#[tactic(auto, unfolding(crate::specs::Number::digit))]
fn digit(base: u64, c: u8) -> Option<u64>
    ensures exact { result ≡ digit base c }
    ensures most { IfSome result (λ d. d < 16) }
{
    match c {
        b'0'..=b'9' => Some(u64::from(c - b'0')),
        b'A'..=b'F' if base == 16 => Some(u64::from(c - 55)),
        b'a'..=b'f' if base == 16 => Some(u64::from(c - 87)),
        _ => None,
    }
}

#[cfg(test)]
mod tests {
    use super::read_number;

    #[test]
    fn a_number_is_decimal_or_hex_and_fits_64_bits(rt: HostRuntime) {
        for (text, want) in [
            (b"0".as_slice(), Some(0)),
            (b"0012".as_slice(), Some(12)),
            (
                b"18446744073709551615".as_slice(),
                Some(0xFFFF_FFFF_FFFF_FFFF),
            ),
            (b"18446744073709551616".as_slice(), None),
            (b"0x0".as_slice(), Some(0)),
            (b"0xaF".as_slice(), Some(175)),
            (
                b"0xFFFFFFFFFFFFFFFF".as_slice(),
                Some(0xFFFF_FFFF_FFFF_FFFF),
            ),
            (b"0x10000000000000000".as_slice(), None),
            (b"0x".as_slice(), None),
            (b"0X1".as_slice(), None),
            (b"".as_slice(), None),
            (b"-1".as_slice(), None),
            (b"1 ".as_slice(), None),
            (b"A".as_slice(), None),
        ] {
            assert_eq!(rt; read_number(text), want);
        }
    }
}
