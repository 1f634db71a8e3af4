//! Answers as frames.

ghost use Rattle.std.specs.Prelude.{◌≡◌, ◌≤◌, ◌+◌, ◌*◌, [], ◌∷◌, ◌++◌, length, Ok, Err};
ghost use Rattle.std.specs.List.{flat_map};
ghost use Rattle.byteorder.specs.Endian.{little_bytes};
ghost use Rattle.slip_loader.specs.Answers.{answer_text, escaped, framed, number_of};

use crate::plan::Refusal;
use arrayvec::ArrayVec;

/// Appends a byte as it stands in a frame.
fn put(out: &mut ArrayVec<u8, 64>, byte: u8)
    requires room { length out.old.items + 2 ≤ 64 }
    ensures exact { out.new.items ≡ out.old.items ++ escaped byte }
    ensures most { length out.new.items ≤ length out.old.items + 2 }
{
    match byte {
        0xC0 => {
            out.push(0xDB);
            out.push(0xDC);
        }
        0xDB => {
            out.push(0xDB);
            out.push(0xDD);
        }
        _ => out.push(byte),
    }
}

/// Bytes as a frame.
fn framed(bytes: &[u8]) -> ArrayVec<u8, 64>
    requires few { length bytes.now ≤ 26 }
    ensures exact { result.items ≡ framed bytes.now }
{
    let mut out = ArrayVec::new();
    out.push(0xC0);
    for byte in bytes {
        put(&mut out, *byte);
    }
    out.push(0xC0);
    out
}

/// An answer before it is a frame. The data are a digest of 16 bytes or none, status and error.
fn answer_text(command: u8, digest: &[u8], status: u8, error: u8) -> ArrayVec<u8, 26>
    requires short { length digest.now ≤ 16 }
    ensures exact { result.items ≡ answer_text command digest.now status error }
    ensures few { length result.items ≤ 26 }
{
    let size = digest.len() as u8 + 2;
    let mut text = ArrayVec::new();
    let _ = text.try_extend_from_slice(&[1, command, size, 0, 0, 0, 0, 0]);
    let _ = text.try_extend_from_slice(digest);
    let _ = text.try_extend_from_slice(&[status, error]);
    text
}

/// The answer to an accepted request with this command.
pub(crate) fn accepted(command: u8, digest: &[u8]) -> ArrayVec<u8, 64>
    requires short { length digest.now ≤ 16 }
    ensures exact { result.items ≡ framed (answer_text command digest.now 0 0) }
{
    framed(answer_text(command, digest, 0, 0).as_slice())
}

/// The answer to a refused request with this command.
pub(crate) fn refused(command: u8, why: Refusal) -> ArrayVec<u8, 64>
    ensures exact { result.items ≡ framed (answer_text command [] 1 (number_of why)) }
{
    framed(answer_text(command, &[], 1, why.number()).as_slice())
}
