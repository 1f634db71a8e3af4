//! Rewrites of entries on a device.

ghost use Rattle.std.specs.Prelude.{◌≡◌, ◌<◌, All, false, None, IfErr, OnOk, length};
ghost use Rattle.nor_device.specs.Nor.{HasCause, KeepsSetting};
ghost use Rattle.otadata.specs.Entry.{entry_bytes};
ghost use Rattle.boot_run.specs.Made.{AreMade, AreMissed};
ghost use Rattle.boot_run.specs.Rewriting.{AreSectors, rewrite, rewrites};

use nor_device::{Nor, NorFault, Page, SECTOR_SIZE, Step, make_step};
use otadata::Entry;
use rollback::Rewrite;

/// The bytes of an entry as the data of one program.
fn entry_page(entry: &Entry) -> Page
    ensures exact { result ≡ entry_bytes entry.now }
    ensures length { length result ≡ 32 }
{
    let mut bytes = [0; 32];
    entry.put(&mut bytes);
    let Some(page) = Page::of(&bytes) else {
        unreachable!();
    };
    page
}

/// Rewrites an entry: erases its sector, and then programs its bytes at once.
pub(crate) fn write_entry<D: Nor>(
    device: &mut D,
    otadata: u32,
    write: &Rewrite,
) -> Result<(), NorFault>
    requires idle { D.running device.old ≡ None }
    requires placed { AreSectors otadata (D.size device.old) }
    requires two { write.now.sector < 2 }
    ensures idle { D.running device.new ≡ None }
    ensures made { OnOk result (AreMade D.may_end D.may_tear D.may_refuse D.must_refuse
        (D.setting device.old) (rewrite otadata write.now) (D.steps device.old) (D.steps device.new)
        (D.bytes device.old) (D.bytes device.new)) }
    ensures missed { IfErr result (AreMissed D.may_end D.may_tear D.may_refuse D.must_refuse
        (D.setting device.old) (rewrite otadata write.now) (D.steps device.old) (D.steps device.new)
        (D.bytes device.old) (D.bytes device.new)) }
    ensures setting { KeepsSetting D.size D.setting device.old device.new }
    ensures cause { HasCause
        (D.faults device.old) (D.faults device.new) (D.off device.new) result }
{
    let sector = u32::from(write.sector);
    let erase = Step::Erase {
        sector: otadata / SECTOR_SIZE + sector,
    };
    let program = Step::Program {
        at: otadata + SECTOR_SIZE * sector,
        bytes: entry_page(&write.entry),
    };
    make_step(device, &erase)?;
    make_step(device, &program)
}

/// Makes rewrites, one after the other.
pub(crate) fn write_all<D: Nor>(
    device: &mut D,
    otadata: u32,
    writes: &[Rewrite],
) -> Result<(), NorFault>
    requires idle { D.running device.old ≡ None }
    requires on { D.off device.old ≡ false }
    requires placed { AreSectors otadata (D.size device.old) }
    requires two { All (λ write. write.sector < 2) writes.now }
    ensures idle { D.running device.new ≡ None }
    ensures made { OnOk result (AreMade D.may_end D.may_tear D.may_refuse D.must_refuse
        (D.setting device.old) (rewrites otadata writes.now) (D.steps device.old)
        (D.steps device.new) (D.bytes device.old) (D.bytes device.new)) }
    ensures missed { IfErr result (AreMissed D.may_end D.may_tear D.may_refuse D.must_refuse
        (D.setting device.old) (rewrites otadata writes.now) (D.steps device.old)
        (D.steps device.new) (D.bytes device.old) (D.bytes device.new)) }
    ensures setting { KeepsSetting D.size D.setting device.old device.new }
    ensures cause { HasCause
        (D.faults device.old) (D.faults device.new) (D.off device.new) result }
{
    for write in writes {
        write_entry(device, otadata, write)?;
    }
    Ok(())
}
