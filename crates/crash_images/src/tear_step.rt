//! A torn step is made on the device by steps: a program with the bits of the mask left in
//! its data, and an erase that is followed by programs of the bytes with the bits of the mask set.

ghost use Rattle.std.specs.Prelude.{◌≡◌, ℕ, ◌+◌, ◌*◌, ◌%◌, ◌<◌, ◌≤◌, ◌^◌, true, None, Some, OnOk, OnErr, length, slice_index};
ghost use Rattle.nor_device.specs.declared.step.Step.TheVariants.{Erase, Program, Block};
ghost use Rattle.nor_device.specs.Nor.{IsLeftTorn};
ghost use Rattle.nor_device.specs.Make.{IsAfter, IsTornBy};
ghost use Rattle.crash_images.specs.Tear.{with_mask_bits};
ghost use Rattle.crash_images.specs.TearStep.{MayStart, LeavesIdle, TearLeaves, IsTornByNumber, IsMaskedBy};
ghost use Rattle.crash_images.specs.Agrees.{StaysOutside};

use crate::tear::set_mask_bits;
use nor_device::{Nor, NorFault, PAGE_SIZE, Page, SECTOR_SIZE, Step, make_step};

/// Makes what the tear number leaves of the step, or tears it where the device refuses a call.
pub(crate) fn tear_step<D: Nor>(inner: &mut D, step: &Step, tear: u64) -> Result<(), NorFault>
    requires start { MayStart D.running D.size inner.old step.now }
    ensures left { IsLeftTorn (TearLeaves D.may_end D.may_refuse (D.setting inner.old) tear)
        (Some step.now) (D.bytes inner.old) (D.bytes inner.new) }
    ensures kept { LeavesIdle D.running D.size D.off D.faults D.setting D.may_end D.may_refuse
        inner.old inner.new result }
{
    tear_by_kind(inner, step, tear)
}

/// Makes what the tear number leaves of the step.
fn tear_by_kind<D: Nor>(inner: &mut D, step: &Step, tear: u64) -> Result<(), NorFault>
    requires start { MayStart D.running D.size inner.old step.now }
    ensures torn { OnOk result (IsTornByNumber step.now tear (D.bytes inner.old) (D.bytes inner.new)) }
    ensures refused { OnErr result (IsTornBy step.now (D.bytes inner.old) (D.bytes inner.new)) }
    ensures kept { LeavesIdle D.running D.size D.off D.faults D.setting D.may_end D.may_refuse
        inner.old inner.new result }
{
    match step {
        Step::Erase { sector } => tear_erase(inner, *sector, tear),
        Step::Program { at, bytes } => tear_program(inner, *at, bytes, tear),
        Step::Block { block } => tear_block(inner, *block, tear),
    }
}

/// Makes what the tear number leaves of a program.
fn tear_program<D: Nor>(inner: &mut D, at: u32, page: &Page, tear: u64) -> Result<(), NorFault>
    requires start { MayStart D.running D.size inner.old (Program at page.now) }
    ensures torn { OnOk result
        (IsTornByNumber (Program at page.now) tear (D.bytes inner.old) (D.bytes inner.new)) }
    ensures refused { OnErr result
        (IsTornBy (Program at page.now) (D.bytes inner.old) (D.bytes inner.new)) }
    ensures kept { LeavesIdle D.running D.size D.off D.faults D.setting D.may_end D.may_refuse
        inner.old inner.new result }
{
    let bytes = page_with_mask_bits(page, tear);
    make_step(inner, &Step::Program { at, bytes })
}

/// The page with the bits of the masks set.
fn page_with_mask_bits(page: &Page, tear: u64) -> Page
    ensures exact { result ≡ with_mask_bits tear 0 page.now }
    ensures length { length result ≡ length page.now }
{
    let bytes = page.bytes();
    let mut buffer = [0; PAGE_SIZE];
    let part = &mut buffer[..bytes.len()];
    part.copy_from_slice(bytes);
    set_mask_bits(part, 0, tear);
    let Some(page) = Page::of(part) else {
        unreachable!();
    };
    page
}

/// Makes what the tear number leaves of the erase of a sector.
fn tear_erase<D: Nor>(inner: &mut D, sector: u32, tear: u64) -> Result<(), NorFault>
    requires start { MayStart D.running D.size inner.old (Erase sector) }
    ensures torn { OnOk result
        (IsTornByNumber (Erase sector) tear (D.bytes inner.old) (D.bytes inner.new)) }
    ensures refused { OnErr result (IsTornBy (Erase sector) (D.bytes inner.old) (D.bytes inner.new)) }
    ensures kept { LeavesIdle D.running D.size D.off D.faults D.setting D.may_end D.may_refuse
        inner.old inner.new result }
{
    let mut part = [0; 4096];
    tear_sector(inner, sector, &mut part, 0, tear)
}

/// Makes what the tear number leaves of the erase of a block, sector by sector.
fn tear_block<D: Nor>(inner: &mut D, block: u32, tear: u64) -> Result<(), NorFault>
    requires start { MayStart D.running D.size inner.old (Block block) }
    ensures torn { OnOk result
        (IsTornByNumber (Block block) tear (D.bytes inner.old) (D.bytes inner.new)) }
    ensures refused { OnErr result (IsTornBy (Block block) (D.bytes inner.old) (D.bytes inner.new)) }
    ensures kept { LeavesIdle D.running D.size D.off D.faults D.setting D.may_end D.may_refuse
        inner.old inner.new result }
{
    let mut part = [0; 4096];
    let mut done = 0;
    while done < 16 {
        tear_sector(
            inner,
            block * 16 + done,
            &mut part,
            done * SECTOR_SIZE,
            tear,
        )?;
        done += 1;
    }
    Ok(())
}

/// Sets the bits of their masks in the bytes of a sector, with room for them; the first is byte
/// `first` of the range of the step that is torn.
fn tear_sector<D: Nor>(
    inner: &mut D,
    sector: u32,
    part: &mut [u8],
    first: u32,
    tear: u64,
) -> Result<(), NorFault>
    requires room { length part.old ≡ 4096 }
    requires start { MayStart D.running D.size inner.old (Erase sector) }
    ensures masked { OnOk result
        (IsMaskedBy (sector * 4096) 4096 tear first (D.bytes inner.old) (D.bytes inner.new)) }
    ensures outside { StaysOutside (sector * 4096) (sector * 4096 + 4096)
        (D.bytes inner.old) (D.bytes inner.new) }
    ensures room { length part.new ≡ 4096 }
    ensures kept { LeavesIdle D.running D.size D.off D.faults D.setting D.may_end D.may_refuse
        inner.old inner.new result }
{
    let at = sector * SECTOR_SIZE;
    inner.read(at, part)?;
    set_mask_bits(part, first, tear);
    make_step(inner, &Step::Erase { sector })?;
    put_back(inner, at, part)
}

/// Programs the bytes from the address on, page by page.
fn put_back<D: Nor>(inner: &mut D, at: u32, part: &[u8]) -> Result<(), NorFault>
    requires pages { (at % 256 ≡ 0) × (length part.now % 256 ≡ 0) }
    requires some { 1 ≤ length part.now }
    requires idle { D.running inner.old ≡ None }
    requires small { at + length part.now ≤ 2 ^ 32 }
    requires inside { at + length part.now ≤ D.size inner.old }
    ensures bytes { (k : ℕ) → slice_index part.now k < 256 }
    ensures put { OnOk result (IsAfter (Program at part.now) (D.bytes inner.old) (D.bytes inner.new)) }
    ensures refused { OnErr result
        (StaysOutside at (at + length part.now) (D.bytes inner.old) (D.bytes inner.new)) }
    ensures kept { LeavesIdle D.running D.size D.off D.faults D.setting D.may_end D.may_refuse
        inner.old inner.new result }
{
    let mut done = 0;
    while done < part.len() {
        put_page(inner, at + done as u32, &part[done..done + PAGE_SIZE])?;
        done += PAGE_SIZE;
    }
    Ok(())
}

/// Programs one page.
fn put_page<D: Nor>(inner: &mut D, at: u32, bytes: &[u8]) -> Result<(), NorFault>
    requires page { length bytes.now ≡ 256 }
    requires start { MayStart D.running D.size inner.old (Program at bytes.now) }
    ensures put { OnOk result (IsAfter (Program at bytes.now) (D.bytes inner.old) (D.bytes inner.new)) }
    ensures torn { OnErr result (IsTornBy (Program at bytes.now) (D.bytes inner.old) (D.bytes inner.new)) }
    ensures kept { LeavesIdle D.running D.size D.off D.faults D.setting D.may_end D.may_refuse
        inner.old inner.new result }
{
    let Some(page) = Page::of(bytes) else {
        unreachable!();
    };
    make_step(inner, &Step::Program { at, bytes: page })
}
