//! Writes and erases of a partition.

ghost use Rattle.std.specs.Prelude.{◌≡◌, ◌+◌, ◌%◌, [], length, IfOk, IfErr, Err};
ghost use Rattle.cache_gate.specs.Own.{HasShown, Keeps};
ghost use Rattle.flash_steps.specs.Parts.{part_erase_steps, part_write_steps};
ghost use Rattle.flash_steps.specs.Steps.{erase_steps, write_steps};
ghost use Rattle.flash_steps.specs.Rules.{erase_checked, write_checked};
ghost use Rattle.flash_ops.specs.Asked.{CanChange};
ghost use Rattle.flash_ops.specs.Periods.{HasPeriods, erase_periods, write_periods};
ghost use Rattle.flash_ops.specs.Told.{HasChanged, unbarred};

use crate::erasing::erase;
use crate::pace::{Beat, NoPace};
use crate::refusal::{OpNo, StepNo};
use crate::writing::write;
use bus_hub::Duty;
use cache_gate::Core;
use crash_images::Crash;
use flash_steps::{check_erase, check_write};
use partition_table::Table;
use std::sync::Wait;

/// Writes the bytes at an offset of the partition with this label, unless a rule is against it.
pub fn part_write<'w, R: Wait, D: Crash, K: Duty>(
    rt: &R,
    core: Core<'w, D, K>,
    k: u32,
    table: &Table,
    label: &[u8],
    offset: u32,
    bytes: &[u8],
) -> (Core<'w, D, K>, Result<(), OpNo>)
    requires can { IfOk (write_checked table.now label.now offset (length bytes.now))
        (λ row. CanChange K.part K.grants K.moved (row.offset + offset) (length bytes.now)
        (part_write_steps table.now label.now offset bytes.now) core) }
    ensures barred { IfErr (write_checked table.now label.now offset (length bytes.now))
        (λ why. (result.1 ≡ Err (OpNo.Barred why)) × Keeps core.entry result.0) }
    ensures ran { IfOk (write_checked table.now label.now offset (length bytes.now))
        (λ _. HasChanged k (part_write_steps table.now label.now offset bytes.now) result.1
        core.entry result.0) }
    ensures shows { IfErr (write_checked table.now label.now offset (length bytes.now))
        (λ _. HasShown [] core.entry result.0) }
    ensures periods { IfOk (write_checked table.now label.now offset (length bytes.now))
        (λ row. HasPeriods (write_periods (row.offset + offset) bytes.now) result.1 core.entry result.0) }
{
    match check_write(table, label, offset, bytes.len()) {
        Ok(row) => write_at(rt, core, k, row.offset + offset, bytes),
        Err(why) => (core, Err(OpNo::Barred(why))),
    }
}

/// Erases so many bytes from an offset of the partition with this label on, unless a rule is against
/// it.
pub fn part_erase<'w, R: Wait, D: Crash, K: Duty>(
    rt: &R,
    core: Core<'w, D, K>,
    k: u32,
    table: &Table,
    label: &[u8],
    offset: u32,
    len: u32,
) -> (Core<'w, D, K>, Result<(), OpNo>)
    requires can { IfOk (erase_checked table.now label.now offset len)
        (λ row. CanChange K.part K.grants K.moved (row.offset + offset) len
        (part_erase_steps table.now label.now offset len) core) }
    requires sector { IfOk (erase_checked table.now label.now offset len)
        (λ row. row.offset % 4096 ≡ 0) }
    ensures barred { IfErr (erase_checked table.now label.now offset len)
        (λ why. (result.1 ≡ Err (OpNo.Barred why)) × Keeps core.entry result.0) }
    ensures ran { IfOk (erase_checked table.now label.now offset len)
        (λ _. HasChanged k (part_erase_steps table.now label.now offset len) result.1
        core.entry result.0) }
    ensures shows { IfErr (erase_checked table.now label.now offset len)
        (λ _. HasShown [] core.entry result.0) }
    ensures periods { IfOk (erase_checked table.now label.now offset len)
        (λ row. HasPeriods (erase_periods (row.offset + offset) len) result.1 core.entry result.0) }
{
    match check_erase(table, label, offset, len) {
        Ok(row) => erase_at(rt, core, k, row.offset + offset, len),
        Err(why) => (core, Err(OpNo::Barred(why))),
    }
}

/// Writes the bytes from the address on, with no pace and no look.
fn write_at<'w, R: Wait, D: Crash, K: Duty>(
    rt: &R,
    core: Core<'w, D, K>,
    k: u32,
    at: u32,
    bytes: &[u8],
) -> (Core<'w, D, K>, Result<(), OpNo>)
    requires { CanChange K.part K.grants K.moved at (length bytes.now) (write_steps at bytes.now) core }
    ensures ran { HasChanged k (write_steps at bytes.now) result.1 core.entry result.0 }
    ensures periods { HasPeriods (write_periods at bytes.now) result.1 core.entry result.0 }
{
    let mut beat = Beat {
        pace: &NoPace,
        probe: None,
        ops: 0,
    };
    let (core, made) = write(rt, core, &mut beat, k, at, bytes);
    (core, changed(made))
}

/// Erases so many bytes from the address on, with no pace and no look.
fn erase_at<'w, R: Wait, D: Crash, K: Duty>(
    rt: &R,
    core: Core<'w, D, K>,
    k: u32,
    at: u32,
    len: u32,
) -> (Core<'w, D, K>, Result<(), OpNo>)
    requires can { CanChange K.part K.grants K.moved at len (erase_steps at len) core }
    requires aligned { (at % 4096 ≡ 0) × (len % 4096 ≡ 0) }
    ensures ran { HasChanged k (erase_steps at len) result.1 core.entry result.0 }
    ensures periods { HasPeriods (erase_periods at len) result.1 core.entry result.0 }
{
    let mut beat = Beat {
        pace: &NoPace,
        probe: None,
        ops: 0,
    };
    let (core, made) = erase(rt, core, &mut beat, k, at, len);
    (core, changed(made))
}

/// The answer where no rule was against it.
fn changed(made: Result<(), StepNo>) -> Result<(), OpNo>
    ensures exact { result ≡ unbarred made }
{
    match made {
        Ok(()) => Ok(()),
        Err(StepNo::Device) => Err(OpNo::Device),
        Err(StepNo::Cut) => Err(OpNo::Cut),
    }
}
