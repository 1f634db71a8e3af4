//! Legs of both cores on a small device: whole ones with either driver, one whose power goes off, one
//! whose device fails, and those whose bytes are no image; and a whole update of their flash.

ghost use Rattle.std.specs.Prelude.{◌≡◌, ◌≤◌, ◌<◌, ◌+◌, ◌^◌, None, Ok, IfOk, IfSome, length};
ghost use Rattle.crash_images.specs.Cut.{IsAhead};
ghost use Rattle.partition_table.specs.Layout.{Places, layout_of};
ghost use Rattle.boot_select.specs.Boots.{entries_in, images_in};
ghost use Rattle.image_verify.specs.Held.{held};
ghost use Rattle.boot_run.specs.Aim.{IsAimed};
ghost use Rattle.power_cut.specs.Device.{IsReady, running_in};
ghost use Rattle.power_cut.specs.Update.{Opens};
ghost use Rattle.duo_run.specs.Both.{HasTable};
ghost use Rattle.duo_run.specs.Legs.{IsDuoConfirm, IsDuoSession, MayAffirm, MayInstall};

use crate::Duo;
use boot_run::{Aim, Booted, aim};
use bus_hub::{Act, Entry, Journal, Memory, Why};
use core_script::Script;
use core_state::Regs;
use crash_images::CutNor;
use flash_ops::NoPace;
use image_verify::BadImage;
use nor_device::{RamNor, StepEnd};
use partition_table::{App, Layout, Row, TABLE_SIZE, Table, padded_label};
use power_cut::{Leg, LegEnd, Legs, Ran, Trial, Upto, trial};
use rollback::Rewrite;
use std::alloc::{AllocError, Global};
use std::sync::Wait;
use std::test::Fail;
use std::thread::Threads;
use update_steps::tables_open_updates;

/// A flash of 1 MiB.
const SIZE: usize = 0x10_0000;

/// Where the table, the application that runs, the slot and the entries begin.
const TABLE: usize = 0x8000;

const FACTORY: usize = 0x1_0000;

const SLOT: usize = 0x2_0000;

const OTADATA: usize = 0xD000;

/// Where an entry has its state.
const STATE: usize = 24;

/// The image that esptool's rules give for the four bytes 01 02 03 04 at 0x3F400020.
const IMAGE: [u8; 80] = [
    0xE9, 0x01, 0x02, 0x20, 0x00, 0x04, 0x08, 0x40, 0xEE, 0x00, 0x00, 0x00, 0x00, 0x00, 0x00, 0x00,
    0x00, 0x00, 0x00, 0x00, 0x00, 0x00, 0x00, 0x01, 0x20, 0x00, 0x40, 0x3F, 0x04, 0x00, 0x00, 0x00,
    0x01, 0x02, 0x03, 0x04, 0x00, 0x00, 0x00, 0x00, 0x00, 0x00, 0x00, 0x00, 0x00, 0x00, 0x00, 0xEB,
    0xAC, 0x8D, 0x70, 0x32, 0x6E, 0xE8, 0xA1, 0xD1, 0x93, 0x08, 0x6C, 0x8B, 0x06, 0xC5, 0xEB, 0x67,
    0x2E, 0xE9, 0x1A, 0x20, 0xC3, 0xE4, 0xB3, 0xD6, 0x2D, 0xBD, 0x7D, 0xAC, 0x93, 0xA8, 0xA6, 0xEB,
];

/// The 32 bytes of an entry that is new and names slot 0: its CRC is that of the sequence 1.
const NEW: [u8; 32] = [
    0x01, 0x00, 0x00, 0x00, 0xFF, 0xFF, 0xFF, 0xFF, 0xFF, 0xFF, 0xFF, 0xFF, 0xFF, 0xFF, 0xFF, 0xFF,
    0xFF, 0xFF, 0xFF, 0xFF, 0xFF, 0xFF, 0xFF, 0xFF, 0x00, 0x00, 0x00, 0x00, 0x9A, 0x98, 0x43, 0x47,
];

/// A script with a fetch, a mask, a label of no partition, a write, interrupt lines and a range that
/// begins with no sector.
const SCRIPT: &[u8] = b"fetch 0x3F400020 4\nmask 1\nwrite none 0 00\nwrite nvs 0x10 A5C3\n\
    irq 0x80000000\nerase nvs 1 0x1000\n";

/// A script that never comes to the device.
const QUIET_SCRIPT: &[u8] = b"mask 1\nirq 7\n";

/// A row with a label of at most 16 bytes.
fn row(kind: u8, subtype: u8, offset: u32, size: u32, label: &[u8]) -> Row {
    let label = if label.len() <= 16 {
        padded_label(label)
    } else {
        [0; 16]
    };
    Row {
        kind,
        subtype,
        offset,
        size,
        label,
        flags: 0,
    }
}

/// As many bytes of one value.
fn filled(alloc: Global, byte: u8, size: usize) -> Result<Vec<u8>, AllocError>
    ensures length { IfOk result (λ bytes. length bytes.items ≡ size) }
{
    Ok(vec![in alloc; byte; size]?)
}

/// Puts bytes at a place.
fn put_at(bytes: &mut [u8], at: usize, part: &[u8])
    requires { at + length part.now ≤ length bytes.old }
    ensures { length bytes.new ≡ length bytes.old }
{
    bytes[at..at + part.len()].copy_from_slice(part);
}

/// A flash with a data partition, a table of two slots, and the image in factory.
fn flash_of(alloc: Global) -> Result<Vec<u8>, AllocError>
    ensures length { IfOk result (λ flash. length flash.items ≡ 0x100000) }
{
    let rows = [
        row(1, 0x02, 0x9000, 0x4000, b"nvs"),
        row(1, 0x00, 0xD000, 0x2000, b"otadata"),
        row(0, 0x00, 0x10000, 0x10000, b"factory"),
        row(0, 0x10, 0x20000, 0x10000, b"ota_0"),
        row(0, 0x11, 0x30000, 0x10000, b"ota_1"),
    ];
    let mut text = [0xFF; TABLE_SIZE];
    if let Ok(table) = Table::of_rows(&rows, 0x10_0000) {
        table.put(&mut text);
    }
    let mut flash = filled(alloc, 0xFF, SIZE)?;
    put_at(&mut flash, TABLE, &text);
    put_at(&mut flash, FACTORY, &IMAGE);
    Ok(flash)
}

/// That flash with other bytes at these places.
fn changed(alloc: Global, changes: &[(usize, &[u8])]) -> Result<Vec<u8>, AllocError> {
    let mut flash = flash_of(alloc)?;
    for (at, part) in changes {
        if *at <= flash.len() && part.len() <= flash.len() - *at {
            put_at(&mut flash, *at, part);
        }
    }
    Ok(flash)
}

/// Which step breaks off: none, the one in which the power goes off, or the one in which the device
/// fails.
#[derive(Clone, Copy, Debug)]
enum Breaks {
    Never,
    Cut(u64),
    Fail(u64),
}

/// The number of a chosen step. The steps are numbered from 1.
fn chosen(step: u64) -> Option<u64>
    ensures ahead { IsAhead result 0 }
{
    if step == 0 { None } else { Some(step) }
}

/// The device over a flash, with this step broken off: an erase is done in it, and a program is not.
fn device_of(flash: Vec<u8>, breaks: Breaks) -> CutNor<RamNor>
    requires size { length flash.items ≡ 0x100000 }
    ensures ready { IsReady result }
    ensures bytes { result.inner.bytes ≡ flash.items }
{
    let inner = RamNor::of_bytes(flash, 2);
    match breaks {
        Breaks::Never => CutNor::new(inner, None, 0xFFFF, None),
        Breaks::Cut(step) => CutNor::new(inner, chosen(step), 0xFFFF, None),
        Breaks::Fail(step) => CutNor::new(inner, None, 0xFFFF, chosen(step)),
    }
}

/// The table of a flash, and the layout by it.
fn laid(flash: &[u8]) -> Option<(Table, Layout)>
    requires size { length flash.now ≡ 0x100000 }
    ensures table { IfSome result (λ r. HasTable r.0 r.1 flash.now) }
{
    let mut text = [0; TABLE_SIZE];
    text.copy_from_slice(&flash[TABLE..TABLE + TABLE_SIZE]);
    let Ok(table) = Table::read(&text, flash.len() as u32) else {
        return None;
    };
    match table.layout() {
        Ok(layout) => Some((table, layout)),
        Err(_) => None,
    }
}

/// A call: the driver, the script of the other core, the image, and which step breaks off.
#[derive(Clone, Copy)]
struct Call<'a> {
    driver: u8,
    script: &'a [u8],
    image: &'a [u8],
    breaks: Breaks,
}

/// What a leg begins with.
#[derive(Drop)]
struct Opening {
    dev: CutNor<RamNor>,
    table: Table,
    layout: Layout,
    script: Script,
    aim: Aim,
}

/// What an update of the flash by this image begins with.
fn begun(alloc: Global, call: &Call<'_>) -> Option<Opening>
    ensures ready { IfSome result (λ o. IsReady o.dev) }
    ensures table { IfSome result (λ o. HasTable o.table o.layout o.dev.inner.bytes) }
    ensures aims { IfSome result (λ o. IsAimed o.layout (images_in held o.layout o.dev.inner.bytes)
        (entries_in o.layout o.dev.inner.bytes) (length call.now.image.now) o.aim) }
{
    let Ok(flash) = flash_of(alloc) else {
        return None;
    };
    let Ok(script) = Script::read(alloc, call.script) else {
        return None;
    };
    let (table, layout) = laid(&flash)?;
    let dev = device_of(flash, call.breaks);
    let (dev, aim) = aimed(dev, &table, &layout, call.image)?;
    Some(Opening {
        dev,
        table,
        layout,
        script,
        aim,
    })
}

/// The device, which was looked at, and what an update by this image writes.
fn aimed(
    dev: CutNor<RamNor>,
    table: &Table,
    layout: &Layout,
    image: &[u8],
) -> Option<(CutNor<RamNor>, Aim)>
    requires ready { IsReady dev }
    requires table { HasTable table.now layout.now dev.inner.bytes }
    requires size { length dev.inner.bytes ≡ 0x100000 }
    ensures ready { IfSome result (λ r. IsReady r.0) }
    ensures table { IfSome result (λ r. HasTable table.now layout.now r.0.inner.bytes) }
    ensures aims { IfSome result (λ r. IsAimed layout.now
        (images_in held layout.now r.0.inner.bytes) (entries_in layout.now r.0.inner.bytes)
        (length image.now) r.1) }
{
    tables_open_updates();
    if image.len() > SIZE {
        return None;
    }
    let mut dev = dev;
    match aim(&mut dev, layout, image.len() as u32) {
        Ok(aim) => Some((dev, aim)),
        Err(_) => None,
    }
}

/// The bytes of an idle device.
fn bytes_of(dev: CutNor<RamNor>) -> Vec<u8>
    requires idle { running_in dev ≡ None }
{
    dev.into_inner().into_bytes()
}

/// The journal and the leg of a session, and what it leaves of the flash.
fn session<R: Threads + Wait + Sync>(
    rt: &R,
    alloc: Global,
    call: &Call<'_>,
) -> Option<(Journal, Leg, Vec<u8>)>
    requires core { call.now.driver < 2 }
{
    let opening = begun(alloc, call)?;
    session_of(rt, alloc, opening, call.driver, call.image)
}

/// The same by what it begins with.
fn session_of<R: Threads + Wait + Sync>(
    rt: &R,
    alloc: Global,
    opening: Opening,
    driver: u8,
    image: &[u8],
) -> Option<(Journal, Leg, Vec<u8>)>
    requires core { driver < 2 }
    requires ready { IsReady opening.dev }
    requires table { HasTable opening.table opening.layout opening.dev.inner.bytes }
    requires aims { IsAimed opening.layout (images_in held opening.layout opening.dev.inner.bytes)
        (entries_in opening.layout opening.dev.inner.bytes) (length image.now) opening.aim }
{
    let Opening {
        dev,
        table,
        layout: _,
        script,
        aim,
    } = opening;
    let duo = Duo {
        table: &table,
        script: &script,
        driver,
        pace: &NoPace,
    };
    match duo.session(rt, alloc, dev, &aim, image) {
        Ok(ran) => Some((ran.journal, ran.leg, bytes_of(ran.dev))),
        Err(_) => None,
    }
}

/// What is left of an update that is booted and confirmed.
fn update<R: Threads + Wait + Sync>(rt: &R, alloc: Global, call: &Call<'_>) -> Option<Trial>
    requires core { call.now.driver < 2 }
{
    let opening = begun(alloc, call)?;
    update_of(rt, alloc, opening, call.driver, call.image).ok()
}

/// The same by what it begins with.
fn update_of<R: Threads + Wait + Sync>(
    rt: &R,
    alloc: Global,
    opening: Opening,
    driver: u8,
    image: &[u8],
) -> Result<Trial, Memory>
    requires core { driver < 2 }
    requires ready { IsReady opening.dev }
    requires table { HasTable opening.table opening.layout opening.dev.inner.bytes }
    requires aims { IsAimed opening.layout (images_in held opening.layout opening.dev.inner.bytes)
        (entries_in opening.layout opening.dev.inner.bytes) (length image.now) opening.aim }
{
    let Opening {
        dev,
        table,
        layout,
        script,
        aim,
    } = opening;
    let duo = Duo {
        table: &table,
        script: &script,
        driver,
        pace: &NoPace,
    };
    legs_of(rt, alloc, dev, &duo, &layout, &aim, image)
}

/// The legs of an update on a device.
fn legs_of<R: Threads + Wait + Sync>(
    rt: &R,
    alloc: Global,
    dev: CutNor<RamNor>,
    duo: &Duo<'_, NoPace>,
    layout: &Layout,
    aim: &Aim,
    image: &[u8],
) -> Result<Trial, Memory>
    requires core { duo.now.driver < 2 }
    requires ready { IsReady dev }
    requires table { HasTable duo.now.table.now layout.now dev.inner.bytes }
    requires opens { Opens layout.now dev.inner.bytes aim.now image.now }
{
    let session = |dev: CutNor<RamNor>, aim: &Aim, image: &[u8]| -> Result<Ran, Memory>
        requires core { duo.now.driver < 2 }
        requires layout { (layout : Places) × (layout_of duo.now.table.now ≡ Ok layout)
            × MayInstall duo.now.table.now layout aim.now image.now dev }
        ensures leg { IfOk result (λ ran. (layout : Places)
            → layout_of duo.entry.now.table.now ≡ Ok layout
            → IsDuoSession duo.entry.now.table.now duo.entry.now.script.now
            duo.entry.now.driver layout aim.now image.now dev ran) }
    { duo.session(rt, alloc, dev, aim, image) };
    let confirm = |dev: CutNor<RamNor>, at: &Booted, write: &Rewrite| -> Result<Ran, Memory>
        requires core { duo.now.driver < 2 }
        requires layout { (layout : Places) × (layout_of duo.now.table.now ≡ Ok layout)
            × MayAffirm duo.now.table.now layout at.now write.now dev }
        ensures leg { IfOk result (λ ran. (layout : Places)
            → layout_of duo.entry.now.table.now ≡ Ok layout
            → IsDuoConfirm duo.entry.now.table.now duo.entry.now.script.now
            duo.entry.now.driver layout at.now write.now dev ran) }
    { duo.confirm(rt, alloc, dev, at, write) };
    trial(
        dev,
        layout,
        aim,
        image,
        Upto::Confirm,
        &Legs { session, confirm },
    )
}

/// An action with bytes that begin nowhere: the other core may have fetched before it.
fn without_start(act: Act) -> Act {
    match act {
        Act::Fetch { at, start: _, len } => Act::Fetch { at, start: 0, len },
        other => other,
    }
}

/// The entries of a core, in order.
fn entries_of(alloc: Global, journal: &Journal, core: u8) -> Result<Vec<Entry>, AllocError> {
    let mut found = Vec::new(alloc);
    for entry in journal.entries() {
        if entry.core == core {
            let act = without_start(entry.act);
            found.push(Entry { act, ..*entry })?;
        }
    }
    Ok(found)
}

/// An entry of a core, with these registers.
fn entry(core: u8, k: u32, mask: u8, irq: u32, act: Act) -> Entry {
    Entry {
        core,
        k,
        regs: Regs { mask, irq },
        act,
    }
}

/// A look at the first bytes of the mapped data.
const LOOK: Act = Act::Fetch {
    at: 0x3F40_0020,
    start: 0,
    len: 4,
};

/// Begin and end of a step of the driver in its quiet period, and the look behind it.
fn period(core: u8, erase: bool, at: u32, len: u32, end: StepEnd) -> [Entry; 3] {
    [
        entry(core, 0, 0, 0, Act::Open { erase, at, len }),
        entry(core, 0, 0, 0, Act::Close { end }),
        entry(core, 0, 3, 1, LOOK),
    ]
}

/// The entries of a driver that rewrites the first entry of the OTA data.
fn rewritten_by(core: u8) -> [Entry; 6] {
    let [a, b, c] = period(core, true, 0xD000, 4096, StepEnd::Done);
    let [d, e, f] = period(core, false, 0xD000, 32, StepEnd::Done);
    [a, b, c, d, e, f]
}

/// The entries of a driver that installs the image.
fn installed_by(core: u8) -> [Entry; 12] {
    let [a, b, c] = period(core, true, 0x20000, 4096, StepEnd::Done);
    let [d, e, f] = period(core, false, 0x20000, 80, StepEnd::Done);
    let [g, h, i, j, k, l] = rewritten_by(core);
    [a, b, c, d, e, f, g, h, i, j, k, l]
}

/// The entries of a driver whose power goes off in the last step.
fn cut_by(core: u8) -> [Entry; 11] {
    let [a, b, c, d, e, f, g, h, i, j, _, _] = installed_by(core);
    let end = Act::Close { end: StepEnd::Cut };
    [a, b, c, d, e, f, g, h, i, j, entry(core, 0, 0, 0, end)]
}

/// The entries of a driver whose device fails in the program of the image.
fn failed_by(core: u8) -> [Entry; 5] {
    let [a, b, c, d, ..] = installed_by(core);
    let end = Act::Close {
        end: StepEnd::Failed,
    };
    [a, b, c, d, entry(core, 0, 0, 0, end)]
}

/// The entries of the script on a core.
fn worked_by(core: u8) -> [Entry; 8] {
    let open = Act::Open {
        erase: false,
        at: 0x9010,
        len: 2,
    };
    let close = Act::Close { end: StepEnd::Done };
    let (label, range) = (Why::NoLabel, Why::Unaligned);
    [
        entry(core, 1, 3, 1, LOOK),
        entry(core, 2, 1, 1, Act::Set),
        entry(core, 3, 1, 1, Act::Refused { why: label }),
        entry(core, 4, 0, 0, open),
        entry(core, 4, 0, 0, close),
        entry(core, 4, 1, 1, Act::Wrote),
        entry(core, 5, 1, 0x8000_0000, Act::Set),
        entry(core, 6, 1, 0x8000_0000, Act::Refused { why: range }),
    ]
}

/// The entries of the script that never comes to the device.
fn set_by(core: u8) -> [Entry; 2] {
    [
        entry(core, 1, 1, 1, Act::Set),
        entry(core, 2, 1, 7, Act::Set),
    ]
}

/// What the script writes, and where it stands.
const WRITTEN: [u8; 2] = [0xA5, 0xC3];

const WRITTEN_AT: usize = 0x9010;

/// Whether a journal has these entries of the driver, and these of the other core.
fn has_entries(
    alloc: Global,
    journal: &Journal,
    driver: u8,
    drove: &[Entry],
    worked: &[Entry],
) -> Result<bool, AllocError>
    requires core { driver < 2 }
{
    let first = entries_of(alloc, journal, driver)?;
    let other = entries_of(alloc, journal, 1 - driver)?;
    Ok(first.as_slice() == drove && other.as_slice() == worked)
}

/// A leg of so many steps, with this end.
fn ended(steps: u64, end: LegEnd) -> Leg {
    Leg { steps, end }
}

/// A call with this script, image and break.
fn call_of<'a>(driver: u8, script: &'a [u8], image: &'a [u8], breaks: Breaks) -> Call<'a>
    ensures driver { result.driver ≡ driver }
{
    Call {
        driver,
        script,
        image,
        breaks,
    }
}

#[test]
fn an_image_is_installed_beside_a_script(rt: HostRuntime) -> Result<(), Fail> {
    let alloc = rt.alloc();
    let flash = changed(
        alloc,
        &[(SLOT, &IMAGE), (OTADATA, &NEW), (WRITTEN_AT, &WRITTEN)],
    )?;
    for driver in 0..2u8 {
        let call = call_of(driver, SCRIPT, &IMAGE, Breaks::Never);
        let (journal, leg, left) = session(&rt, alloc, &call).ok_or("a session")?;
        let (drove, worked) = (installed_by(driver), worked_by(1 - driver));
        assert_eq!(rt;
            leg,
            ended(5, LegEnd::Done),
            "the leg that core {driver} drives"
        );
        assert_eq!(rt;
            left.as_slice(),
            flash.as_slice(),
            "the flash of core {driver}"
        );
        assert!(rt;
            has_entries(alloc, &journal, driver, &drove, &worked)?,
            "the entries of core {driver}"
        );
    }
    Ok(())
}

/// Bytes that begin as an image does, with more segments than one has.
const FAULTY: [u8; 80] = [0xE9; 80];

/// Whether a session has this leg, changes this of the flash, and leaves these entries of the driver
/// and of the other core.
fn is_so<R: Threads + Wait + Sync>(
    rt: &R,
    alloc: Global,
    call: &Call<'_>,
    leg: Leg,
    changes: &[(usize, &[u8])],
    drove: &[Entry],
    worked: &[Entry],
) -> Result<bool, Fail>
    requires core { call.now.driver < 2 }
{
    let flash = changed(alloc, changes)?;
    let (journal, found, left) = session(rt, alloc, call).ok_or("a session")?;
    let is_journal = has_entries(alloc, &journal, call.driver, drove, worked)?;
    Ok(is_journal && found == leg && left.as_slice() == flash.as_slice())
}

#[test]
fn a_session_ends_with_its_broken_step(rt: HostRuntime) -> Result<(), Fail> {
    let alloc = rt.alloc();
    let call = call_of(0, QUIET_SCRIPT, &IMAGE, Breaks::Cut(4));
    let leg = ended(4, LegEnd::Cut { step: 4 });
    assert!(rt;
        is_so(
            &rt,
            alloc,
            &call,
            leg,
            &[(SLOT, &IMAGE)],
            &cut_by(0),
            &set_by(1)
        )?,
        "the power goes off in the last step"
    );
    let call = call_of(1, QUIET_SCRIPT, &IMAGE, Breaks::Fail(2));
    let leg = ended(2, LegEnd::Device { step: 2 });
    assert!(rt;
        is_so(&rt, alloc, &call, leg, &[], &failed_by(1), &set_by(0))?,
        "the device fails in the second step"
    );
    Ok(())
}

#[test]
fn bytes_of_no_image_are_not_announced(rt: HostRuntime) -> Result<(), Fail> {
    let alloc = rt.alloc();
    let whole = installed_by(0);
    let call = call_of(1, SCRIPT, &[], Breaks::Never);
    let leg = ended(1, LegEnd::Empty);
    assert!(rt;
        is_so(
            &rt,
            alloc,
            &call,
            leg,
            &[(WRITTEN_AT, &WRITTEN)],
            &[],
            &worked_by(0)
        )?,
        "no byte"
    );
    let call = call_of(0, SCRIPT, &[0; 16], Breaks::Never);
    let leg = ended(2, LegEnd::FirstByte { byte: 0 });
    assert!(rt;
        is_so(
            &rt,
            alloc,
            &call,
            leg,
            &[(WRITTEN_AT, &WRITTEN)],
            &whole[..3],
            &worked_by(1)
        )?,
        "another first byte"
    );
    let call = call_of(0, SCRIPT, &FAULTY, Breaks::Never);
    let leg = ended(3, LegEnd::Bad(BadImage::Segments { n: 0xE9 }));
    let changes: [(usize, &[u8]); 2] = [(SLOT, &FAULTY), (WRITTEN_AT, &WRITTEN)];
    assert!(rt;
        is_so(&rt, alloc, &call, leg, &changes, &whole[..6], &worked_by(1))?,
        "a fault behind the first byte"
    );
    Ok(())
}

#[test]
fn an_update_is_booted_and_confirmed_beside_a_script(rt: HostRuntime) -> Result<(), Fail> {
    let alloc = rt.alloc();
    let flash = changed(
        alloc,
        &[
            (SLOT, &IMAGE),
            (OTADATA, &NEW),
            (OTADATA + STATE, &[2]),
            (WRITTEN_AT, &WRITTEN),
        ],
    )?;
    for driver in 0..2u8 {
        let call = call_of(driver, SCRIPT, &IMAGE, Breaks::Never);
        let left = update(&rt, alloc, &call).ok_or("an update")?;
        let legs = [
            ended(5, LegEnd::Done),
            ended(2, LegEnd::Done),
            ended(3, LegEnd::Done),
        ];
        assert_eq!(rt;
            left.legs.as_slice(),
            legs.as_slice(),
            "the legs that core {driver} drives"
        );
        assert_eq!(rt;
            left.flash.as_slice(),
            flash.as_slice(),
            "the flash of core {driver}"
        );
        let journal = left.confirm.ok_or("a confirmation")?;
        let (drove, worked) = (rewritten_by(driver), worked_by(1 - driver));
        assert!(rt;
            has_entries(alloc, &journal, driver, &drove, &worked)?,
            "the entries of core {driver}"
        );
        assert_eq!(rt; left.after.app, App::Ota(0), "what boots");
    }
    Ok(())
}
