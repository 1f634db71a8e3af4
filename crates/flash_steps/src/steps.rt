//! The steps of a write, one after the other.

ghost use Rattle.std.specs.Prelude.{◌≡◌, ◌≤◌, ◌<◌, ◌+◌, ◌^◌, [], ◌∷◌, length, take, drop, IfSome, MatchOption};
ghost use Rattle.nor_device.specs.Flash.{IsInOnePage, end_of, start_of};
ghost use Rattle.flash_steps.specs.Steps.{room_at, write_steps};

use nor_device::{Page, Step};

/// The first program of a write of bytes from an address on, and the bytes behind it, which are
/// written where it ends; none where there is no byte.
pub fn next_program(at: u32, bytes: &[u8]) -> Option<(Step, &[u8])>
    ensures exact { MatchOption result (write_steps at bytes.now ≡ [])
        (λ next. write_steps at bytes.now
        ≡ next.0 ∷ write_steps (end_of next.0) next.1.now) }
    ensures begins { IfSome result (λ next. start_of next.0 ≡ at) }
    ensures ends { IfSome result (λ next.
        end_of next.0 + length next.1.now ≡ at + length bytes.now) }
    ensures page { IfSome result (λ next. IsInOnePage next.0) }
    ensures shorter { IfSome result (λ next. length next.1.now < length bytes.now) }
{
    let (first, rest) = split_at_page(at, bytes);
    match Page::of(first) {
        Some(bytes) => Some((Step::Program { at, bytes }, rest)),
        None => None,
    }
}

/// The bytes up to the end of their first page, and those behind it.
fn split_at_page(at: u32, bytes: &[u8]) -> (&[u8], &[u8])
    ensures first { result.0.now ≡ take (room_at at) bytes.now }
    ensures rest { result.1.now ≡ drop (room_at at) bytes.now }
{
    let room = 256 - at as usize % 256;
    if bytes.len() <= room {
        (bytes, &bytes[bytes.len()..])
    } else {
        (&bytes[..room], &bytes[room..])
    }
}
