//! Images in the partitions of a device, verified in pieces that fit a buffer of a fixed size.

ghost use Rattle.std.specs.Prelude.{◌≡◌, ◌<◌, ◌≤◌, ◌+◌, ◌++◌, ◌^◌, ℕ, List, false, None, IfSome, IfErr, IfOk, OnOk, length};
ghost use Rattle.nor_device.specs.Nor.{HasCause, IsIdleAsBefore, KeepsSteps, part_of};
ghost use Rattle.boot_select.specs.Boots.{slot_in};
ghost use Rattle.image_verify.specs.Fed.{HasRead};
ghost use Rattle.boot_run.specs.Verified.{IsVerified};

use image_verify::{ImageInfo, Verifier};
use nor_device::{Nor, NorFault};
use partition_table::Row;

/// The most bytes that are read at once.
const PIECE: u32 = 4096;

/// What the image is that the bytes of a partition begin with, or that they begin with none.
///
/// Each byte is read once, and none after the image.
pub(crate) fn verify_on<D: Nor>(device: &mut D, row: &Row) -> Result<Option<ImageInfo>, NorFault>
    requires idle { D.running device.old ≡ None }
    requires on { D.off device.old ≡ false }
    requires inside { row.now.offset + row.now.size ≤ D.size device.old }
    requires small { D.size device.old < 2 ^ 32 }
    ensures verified { IfOk result (λ found. IfSome (D.bytes device.old)
        (λ flash. IsVerified (slot_in flash row.now) found)) }
    ensures allowed { IfErr result (D.may_refuse (D.setting device.old) (D.steps device.old)) }
    ensures same { IsIdleAsBefore D.bytes D.running device.old device.new }
    ensures setting { KeepsSteps D.size D.setting D.steps device.old device.new }
    ensures cause { HasCause
        (D.faults device.old) (D.faults device.new) (D.off device.new) result }
{
    let mut verifier = Verifier::new(row.size);
    let mut buffer = [0; PIECE as usize];
    let mut done = 0;
    let mut more = verifier.wanted().min(row.size).min(PIECE);
    while more > 0 {
        let piece = &mut buffer[..more as usize];
        read_piece(device, row.offset + done, piece, &mut verifier)?;
        done += more;
        more = verifier.wanted().min(row.size - done).min(PIECE);
    }
    Ok(verifier.finish().ok())
}

/// Reads the bytes from the address on, as many as the piece has, and hands them to the verifier.
fn read_piece<D: Nor>(
    device: &mut D,
    at: u32,
    piece: &mut [u8],
    verifier: &mut Verifier,
) -> Result<(), NorFault>
    requires idle { D.running device.old ≡ None }
    requires inside { at + length piece.old ≤ D.size device.old }
    ensures read { OnOk result (IfSome (D.bytes device.old) (λ flash. (limit : ℕ) (bytes : List ℕ)
        → HasRead verifier.old limit bytes
        → HasRead verifier.new limit (bytes ++ part_of flash at (length piece.old)))) }
    ensures allowed { IfErr result (D.may_refuse (D.setting device.old) (D.steps device.old)) }
    ensures same { IsIdleAsBefore D.bytes D.running device.old device.new }
    ensures setting { KeepsSteps D.size D.setting D.steps device.old device.new }
    ensures cause { HasCause
        (D.faults device.old) (D.faults device.new) (D.off device.new) result }
{
    device.read(at, piece)?;
    let _ = verifier.feed(piece);
    Ok(())
}
