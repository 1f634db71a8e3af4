//! The actions of the second core, one function each.

ghost use Rattle.std.specs.Prelude.{◌≡◌, ◌+◌, ◌≤◌, Ok, List};
ghost use Rattle.partition_table.specs.declared.row.Row.{Row};
ghost use Rattle.core_script.specs.declared.action.Action.TheVariants.{Fetch, Mask, Irq, Map, Unmap, Write, Erase};
ghost use Rattle.cache_gate.specs.Own.{HasRoom};
ghost use Rattle.flash_ops.specs.Told.{fault_of};
ghost use Rattle.duo_run.specs.Worker.{mapped_act, unmapped_act, why_of};
ghost use Rattle.duo_run.specs.Works.{CanAct, HasActed};
ghost use Rattle.duo_run.specs.Ends.{NotesEnd, end_act};

use bus_hub::{Act, Duty, FetchNo, Why};
use cache_gate::Core;
use core_script::{Action, Label};
use core_state::Regs;
use crash_images::Crash;
use flash_ops::{OpNo, StepNo, part_erase, part_write};
use flash_steps::PartNo;
use image_layout::Space;
use mmu_map::{NoPages, NotMapped};
use nor_device::Page;
use partition_table::Table;
use std::sync::Wait;

/// Fetches bytes. That they are not mapped, or not served by the mask, is noted.
fn fetch<'w, R: Wait, D: Crash, K: Duty>(
    rt: &R,
    mut core: Core<'w, D, K>,
    k: u32,
    at: u32,
    len: u32,
) -> (Core<'w, D, K>, Result<(), StepNo>)
    requires some { 1 ≤ len }
    requires most { len ≤ 256 }
    requires room { HasRoom core.base core.core core.share 1 len }
    ensures { (rows : List Row)
        → HasActed rows k (Fetch at len) (fault_of result.1) core.entry result.0 }
{
    match core.fetch(rt, k, at, len) {
        Ok(()) => (core, Ok(())),
        Err(FetchNo::Unmapped) => {
            core.note(rt, k, Act::Refused { why: Why::Unmapped });
            (core, Ok(()))
        }
        Err(FetchNo::Masked) => {
            core.note(rt, k, Act::Refused { why: Why::Masked });
            (core, Ok(()))
        }
        Err(FetchNo::Off) => (core, Err(StepNo::Cut)),
        Err(FetchNo::Failed) => (core, Err(StepNo::Device)),
    }
}

/// Sets the cache mask.
fn set_mask<'w, R: Wait, D: Crash, K: Duty>(
    rt: &R,
    mut core: Core<'w, D, K>,
    k: u32,
    mask: u8,
) -> Core<'w, D, K>
    requires most { mask ≤ 3 }
    requires room { HasRoom core.base core.core core.share 1 0 }
    ensures { (rows : List Row) → HasActed rows k (Mask mask) (Ok tt) core.entry result }
{
    let regs = Regs {
        mask,
        irq: core.regs().irq,
    };
    core.set(rt, k, regs);
    core
}

/// Sets the enabled interrupt lines.
fn set_irq<'w, R: Wait, D: Crash, K: Duty>(
    rt: &R,
    mut core: Core<'w, D, K>,
    k: u32,
    irq: u32,
) -> Core<'w, D, K>
    requires most { core.regs.mask ≤ 3 }
    requires room { HasRoom core.base core.core core.share 1 0 }
    ensures { (rows : List Row) → HasActed rows k (Irq irq) (Ok tt) core.entry result }
{
    let regs = Regs {
        mask: core.regs().mask,
        irq,
    };
    core.set(rt, k, regs);
    core
}

/// What is noted of pages that were asked for.
fn mapped(answer: Result<u32, NoPages>) -> Act
    ensures exact { result ≡ mapped_act answer }
{
    match answer {
        Ok(at) => Act::Mapped { at },
        Err(_) => Act::Refused { why: Why::NoPages },
    }
}

/// Maps pages, or notes that no run of them is free.
fn map<'w, R: Wait, D: Crash, K: Duty>(
    rt: &R,
    mut core: Core<'w, D, K>,
    k: u32,
    space: Space,
    page: u32,
    n: u8,
) -> Core<'w, D, K>
    requires some { 1 ≤ n }
    requires flash { page + n ≤ 256 }
    requires room { HasRoom core.base core.core core.share 1 0 }
    ensures { (rows : List Row) → HasActed rows k (Map space page n) (Ok tt) core.entry result }
{
    let answer = core.map(rt, page, n, space);
    core.note(rt, k, mapped(answer));
    core
}

/// What is noted of a run of pages that was to be freed.
fn unmapped(at: u32, answer: Result<(), NotMapped>) -> Act
    ensures exact { result ≡ unmapped_act at answer }
{
    match answer {
        Ok(()) => Act::Unmapped { at },
        Err(_) => Act::Refused {
            why: Why::NotMapped,
        },
    }
}

/// Frees a run of pages, or notes that none begins there.
fn unmap<'w, R: Wait, D: Crash, K: Duty>(
    rt: &R,
    mut core: Core<'w, D, K>,
    k: u32,
    at: u32,
) -> Core<'w, D, K>
    requires room { HasRoom core.base core.core core.share 1 0 }
    ensures { (rows : List Row) → HasActed rows k (Unmap at) (Ok tt) core.entry result }
{
    let answer = core.unmap(rt, at);
    core.note(rt, k, unmapped(at, answer));
    core
}

/// What is noted of the end of a write or an erase, or how the device ended it.
fn told(end: Result<(), OpNo>) -> Result<Act, StepNo>
    ensures exact { result ≡ end_act end }
{
    match end {
        Ok(()) => Ok(Act::Wrote),
        Err(OpNo::Barred(no)) => Ok(Act::Refused { why: why_of(no) }),
        Err(OpNo::Device) => Err(StepNo::Device),
        Err(OpNo::Cut) => Err(StepNo::Cut),
    }
}

/// What is noted of the rule that is against a write or an erase.
fn why_of(no: PartNo) -> Why
    ensures exact { result ≡ why_of no }
{
    match no {
        PartNo::NoLabel => Why::NoLabel,
        PartNo::Dangerous => Why::Dangerous,
        PartNo::ReadOnly => Why::ReadOnly,
        PartNo::Encrypted => Why::Encrypted,
        PartNo::Unaligned => Why::Unaligned,
        PartNo::Range => Why::Range,
    }
}

/// Notes the end of a write or an erase, unless the device ended it.
fn note_end<'w, R: Wait, D: Crash, K: Duty>(
    rt: &R,
    mut core: Core<'w, D, K>,
    k: u32,
    end: Result<(), OpNo>,
) -> (Core<'w, D, K>, Result<(), StepNo>)
    requires room { HasRoom core.base core.core core.share 1 0 }
    ensures { NotesEnd k (end_act end) result.1 core.entry result.0 }
{
    match told(end) {
        Ok(act) => {
            core.note(rt, k, act);
            (core, Ok(()))
        }
        Err(no) => (core, Err(no)),
    }
}

/// Writes bytes of a partition, or notes why not.
fn write<'w, R: Wait, D: Crash, K: Duty>(
    rt: &R,
    core: Core<'w, D, K>,
    k: u32,
    table: &Table,
    label: &Label,
    offset: u32,
    bytes: &Page,
) -> (Core<'w, D, K>, Result<(), StepNo>)
    requires can { CanAct K.part K.grants K.moved table.now (Write label.now offset bytes.now)
        core }
    ensures { HasActed table.now k (Write label.now offset bytes.now) (fault_of result.1)
        core.entry result.0 }
{
    let (core, end) = part_write(rt, core, k, table, label.as_slice(), offset, bytes.bytes());
    note_end(rt, core, k, end)
}

/// Erases sectors of a partition, or notes why not.
fn erase<'w, R: Wait, D: Crash, K: Duty>(
    rt: &R,
    core: Core<'w, D, K>,
    k: u32,
    table: &Table,
    label: &Label,
    offset: u32,
    len: u32,
) -> (Core<'w, D, K>, Result<(), StepNo>)
    requires can { CanAct K.part K.grants K.moved table.now (Erase label.now offset len) core }
    ensures { HasActed table.now k (Erase label.now offset len) (fault_of result.1)
        core.entry result.0 }
{
    let (core, end) = part_erase(rt, core, k, table, label.as_slice(), offset, len);
    note_end(rt, core, k, end)
}

/// Does an action of the script, under its number. What the core refuses is noted; an answer by
/// which the device ended it is handed on.
pub(crate) fn act<'w, R: Wait, D: Crash, K: Duty>(
    rt: &R,
    core: Core<'w, D, K>,
    k: u32,
    action: &Action,
    table: &Table,
) -> (Core<'w, D, K>, Result<(), StepNo>)
    requires can { CanAct K.part K.grants K.moved table.now action.now core }
    ensures { HasActed table.now k action.now (fault_of result.1) core.entry result.0 }
{
    match action {
        Action::Fetch { at, len } => fetch(rt, core, k, *at, *len),
        Action::Mask(mask) => (set_mask(rt, core, k, *mask), Ok(())),
        Action::Irq(irq) => (set_irq(rt, core, k, *irq), Ok(())),
        Action::Map { space, page, n } => (map(rt, core, k, *space, *page, *n), Ok(())),
        Action::Unmap { at } => (unmap(rt, core, k, *at), Ok(())),
        Action::Write {
            label,
            offset,
            bytes,
        } => write(rt, core, k, table, label, *offset, bytes),
        Action::Erase { label, offset, len } => erase(rt, core, k, table, label, *offset, *len),
    }
}
