//! Work on a device: erases, programs, digests.

ghost use Rattle.std.specs.Prelude.{◌≡◌, ◌≤◌, ◌<◌, ◌+◌, ◌%◌, ◌^◌, ◌++◌, ℕ, List, None, Some, IfSome, IfOk, IfErr, OnOk, length};
ghost use Rattle.md5.specs.Md5.{Holds, md5};
ghost use Rattle.nor_device.specs.Nor.{HasCause, IsIdleAsBefore, KeepsSetting, KeepsSteps, part_of};
ghost use Rattle.crash_images.specs.Crash.{IsAfterAll, IsLeftOf};
ghost use Rattle.flash_steps.specs.Steps.{erase_steps, write_steps};
ghost use Rattle.slip_loader.specs.Answers.{work_digest};
ghost use Rattle.slip_loader.specs.Loads.{ComesOf, MayRefuse, count_after};
ghost use Rattle.slip_loader.specs.Plans.{LiesIn, work_steps};

use crate::plan::Work;
use arrayvec::ArrayVec;
use flash_steps::next_program;
use md5::{Digest, Md5};
use nor_device::{Nor, NorFault, SECTOR_SIZE, Step, make_step};

/// The most bytes that are read at once.
const PIECE: u32 = 4096;

/// Erases the sectors of a range, ascending.
fn erase<D: Nor>(device: &mut D, at: u32, len: u32) -> Result<(), NorFault>
    requires idle { D.running device.old ≡ None }
    requires begins { at % 4096 ≡ 0 }
    requires ends { len % 4096 ≡ 0 }
    requires inside { at + len ≤ D.size device.old }
    requires small { D.size device.old < 2 ^ 32 }
    ensures idle { D.running device.new ≡ None }
    ensures made { OnOk result (IsAfterAll (erase_steps at len) (D.bytes device.old) (D.bytes device.new)) }
    ensures left { IsLeftOf (erase_steps at len) (D.bytes device.old) (D.bytes device.new) }
    ensures counted { OnOk result
        (D.steps device.new ≡ count_after (D.steps device.old) (erase_steps at len)) }
    ensures setting { KeepsSetting D.size D.setting device.old device.new }
    ensures allowed { IfErr result (MayRefuse D.may_end D.may_refuse (D.setting device.old)) }
    ensures cause { ComesOf (D.faults device.old) (D.faults device.new) (D.off device.new) result }
{
    for sector in at / SECTOR_SIZE..(at + len) / SECTOR_SIZE {
        make_step(device, &Step::Erase { sector })?;
    }
    Ok(())
}

/// Programs the bytes from the address on, page by page.
fn program<D: Nor>(device: &mut D, at: u32, bytes: &[u8]) -> Result<(), NorFault>
    requires idle { D.running device.old ≡ None }
    requires inside { at + length bytes.now ≤ D.size device.old }
    requires small { D.size device.old < 2 ^ 32 }
    ensures idle { D.running device.new ≡ None }
    ensures made { OnOk result
        (IsAfterAll (write_steps at bytes.now) (D.bytes device.old) (D.bytes device.new)) }
    ensures left { IsLeftOf (write_steps at bytes.now) (D.bytes device.old) (D.bytes device.new) }
    ensures counted { OnOk result
        (D.steps device.new ≡ count_after (D.steps device.old) (write_steps at bytes.now)) }
    ensures setting { KeepsSetting D.size D.setting device.old device.new }
    ensures allowed { IfErr result (MayRefuse D.may_end D.may_refuse (D.setting device.old)) }
    ensures cause { ComesOf (D.faults device.old) (D.faults device.new) (D.off device.new) result }
{
    let mut at = at;
    let mut rest = bytes;
    while let Some((step, later)) = next_program(at, rest) {
        make_step(device, &step)?;
        at += (rest.len() - later.len()) as u32;
        rest = later;
    }
    Ok(())
}

/// The digest of a range.
fn digest<D: Nor>(device: &mut D, at: u32, len: u32) -> Result<[u8; 16], NorFault>
    requires idle { D.running device.old ≡ None }
    requires inside { at + len ≤ D.size device.old }
    requires small { D.size device.old < 2 ^ 32 }
    ensures exact { IfOk result (λ digest. IfSome (D.bytes device.old)
        (λ flash. digest ≡ md5 (part_of flash at len))) }
    ensures same { IsIdleAsBefore D.bytes D.running device.old device.new }
    ensures setting { KeepsSteps D.size D.setting D.steps device.old device.new }
    ensures allowed { IfErr result (MayRefuse D.may_end D.may_refuse (D.setting device.old)) }
    ensures cause { ComesOf (D.faults device.old) (D.faults device.new) (D.off device.new) result }
{
    let mut hasher = Md5::new();
    let mut buffer = [0; PIECE as usize];
    let mut done = 0;
    while done < len {
        let more = (len - done).min(PIECE);
        let piece = &mut buffer[..more as usize];
        read_piece(device, at + done, piece, &mut hasher)?;
        done += more;
    }
    Ok(hasher.finalize())
}

/// Reads the bytes from the address on, as many as the piece has, and hands them to the hasher.
fn read_piece<D: Nor>(
    device: &mut D,
    at: u32,
    piece: &mut [u8],
    hasher: &mut Md5,
) -> Result<(), NorFault>
    requires idle { D.running device.old ≡ None }
    requires inside { at + length piece.old ≤ D.size device.old }
    ensures read { OnOk result (IfSome (D.bytes device.old) (λ flash. (m : List ℕ)
        → Holds hasher.old m → Holds hasher.new (m ++ part_of flash at (length piece.old)))) }
    ensures same { IsIdleAsBefore D.bytes D.running device.old device.new }
    ensures setting { KeepsSteps D.size D.setting D.steps device.old device.new }
    ensures allowed { IfErr result (MayRefuse D.may_end D.may_refuse (D.setting device.old)) }
    ensures cause { HasCause (D.faults device.old) (D.faults device.new) (D.off device.new) result }
{
    device.read(at, piece)?;
    hasher.update(&*piece);
    Ok(())
}

/// Does the work, with the block of the request, and gives the digest, if it asks for one.
pub(crate) fn do_work<D: Nor>(
    device: &mut D,
    work: Work,
    block: &[u8],
) -> Result<ArrayVec<u8, 16>, NorFault>
    requires idle { D.running device.old ≡ None }
    requires inside { LiesIn (D.size device.old) (length block.now) work }
    requires small { D.size device.old < 2 ^ 32 }
    ensures idle { D.running device.new ≡ None }
    ensures digest { IfOk result (λ digest. IfSome (D.bytes device.old)
        (λ flash. digest.items ≡ work_digest flash work)) }
    ensures made { OnOk result
        (IsAfterAll (work_steps work block.now) (D.bytes device.old) (D.bytes device.new)) }
    ensures left { IsLeftOf (work_steps work block.now) (D.bytes device.old) (D.bytes device.new) }
    ensures counted { OnOk result
        (D.steps device.new ≡ count_after (D.steps device.old) (work_steps work block.now)) }
    ensures setting { KeepsSetting D.size D.setting device.old device.new }
    ensures allowed { IfErr result (MayRefuse D.may_end D.may_refuse (D.setting device.old)) }
    ensures cause { ComesOf (D.faults device.old) (D.faults device.new) (D.off device.new) result }
{
    let mut given = ArrayVec::new();
    match work {
        Work::Nothing => {}
        Work::Erase { at, len } => erase(device, at, len)?,
        Work::Program { at } => program(device, at, block)?,
        Work::Digest { at, len } => {
            let _ = given.try_extend_from_slice(&digest(device, at, len)?);
        }
    }
    Ok(given)
}
