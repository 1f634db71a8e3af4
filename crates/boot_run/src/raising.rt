//! A confirmation under anti-rollback: the active entry becomes VALID, and then the level rises to the secure version
//! of its application.

ghost use Rattle.std.specs.Prelude.{◌≡◌, ◌<◌, ◌≤◌, ◌^◌, ℕ, List, Option, Result, false, None, IsSome, IfSome, OnOk, OnErr, IfOk, IfErr, length};
ghost use Rattle.nor_device.specs.Nor.{HasCause as HasDeviceCause, IsIdleAsBefore, KeepsSetting, KeepsSteps};
ghost use Rattle.partition_table.specs.Layout.{IsPlaced};
ghost use Rattle.otadata.specs.Choice.{active_of};
ghost use Rattle.partition_table.specs.declared.app.App.TheVariants.{Ota};
ghost use Rattle.boot_select.specs.Candidates.{IsStart};
ghost use Rattle.boot_select.specs.Choice.{named_of};
ghost use Rattle.rollback.specs.Verdict.{confirm_of};
ghost use Rattle.boot_select.specs.Settled.{sectors};
ghost use Rattle.boot_select.specs.Boots.{entries_in, images_in, names};
ghost use Rattle.image_verify.specs.Held.{held};
ghost use Rattle.secure_fuse.specs.Bits.{level_of};
ghost use Rattle.secure_fuse.specs.Fuses.{HasCause, LeavesOnly};
ghost use Rattle.boot_run.specs.Made.{AreMade, AreMadeBy, AreMissed};
ghost use Rattle.boot_run.specs.Rewriting.{rewrites};
ghost use Rattle.boot_run.specs.Read.{OfEntries};
ghost use Rattle.boot_run.specs.Above.{StillBootsAbove};
ghost use Rattle.boot_run.specs.Crashed.{IsLeftByVerdicts, StillBoots};
ghost use Rattle.boot_run.specs.Verdict.{Tells, confirmation, one_of, writes_of};
ghost use Rattle.boot_run.specs.Raised.{AreStored, BootsRaised, Burns, Confirms, IsBurnt, IsLeftRaised, LeavesRaised, OfVersions, burn_answer, burn_of, fuse_answer, raising_in, version_at, version_by, version_fit, version_of, version_told, writes_for};

use crate::confirming::confirm_by;
use crate::entries::read_entries;
use crate::fused::{Denied, FuseConfirmNo};
use crate::start::app_on;
use crate::told::Told;
use boot_select::named;
use image_verify::ImageInfo;
use nor_device::{Nor, NorFault};
use otadata::Entry;
use partition_table::{App, Layout};
use secure_fuse::{FuseNo, Fuses, level, raise_to, secure_in};

/// Marks the active entry VALID, as [`crate::confirm`], and then raises the level of the fuses to the
/// secure version of its application. Nothing is written or burnt where the application may not be
/// confirmed, and nothing is burnt where a call of the device is refused. Afterwards it is what boots
/// above the level.
pub fn confirm_fuse<D: Nor, Z: Fuses>(
    device: &mut D,
    fuse: &mut Z,
    layout: &Layout,
) -> Result<Told, FuseConfirmNo>
    requires idle { D.running device.old ≡ None }
    requires placed { IsPlaced layout.now (D.size device.old) }
    requires small { D.size device.old < 2 ^ 32 }
    ensures idle { D.running device.new ≡ None }
    ensures setting { KeepsSetting D.size D.setting device.old device.new }
    ensures cause { HasDeviceCause
        (D.faults device.old) (D.faults device.new) (D.off device.new) (fuse_answer result) }
    ensures fuse_cause { HasCause
        (Z.faults fuse.old) (Z.faults fuse.new) (burn_answer (fuse_answer result)) }
    ensures stopped { OnOk (fuse_answer result)
        (¬ D.must_refuse (D.setting device.old) (D.steps device.old)) }
    // By the entries, the secure versions and the level: which steps were made, what is answered, what was burnt.
    ensures steps { OfEntries layout.now (D.bytes device.old) (λ entries.
        OfVersions layout.now (D.bytes device.old) (λ versions.
        let version = version_of layout.now versions entries (level_of (Z.burnt fuse.old)) in
        let writes = writes_for version (writes_of (confirmation entries)) in
        AreMadeBy D.may_end D.may_tear D.may_refuse D.must_refuse (D.setting device.old)
        (rewrites layout.now.otadata writes)
        (D.steps device.old) (D.steps device.new) (D.bytes device.old) (D.bytes device.new)
        (fuse_answer result)
        × IfOk (fuse_answer result)
        (Confirms layout.now.otadata (names layout.now entries) writes version)
        × Burns Z.burnt Z.left fuse.old fuse.new version (fuse_answer result))) }
    // At every moment of it, the level is at most the greater of the one before and that version.
    ensures left { IsLeftRaised layout.now (D.bytes device.old) (Z.burnt fuse.old)
        (D.bytes device.new) (Z.burnt fuse.new) }
    ensures moments { IfSome (D.bytes device.old) (λ flash. LeavesOnly Z.left fuse.old fuse.new
        (λ word. (left : List ℕ) × LeavesRaised layout.now flash (Z.burnt fuse.old) left word)) }
    ensures boots { BootsRaised (level_of (Z.burnt fuse.new)) layout.now (D.bytes device.old)
        (D.bytes device.new) (fuse_answer result) }
    ensures crash { OnErr (fuse_answer result) (IsLeftByVerdicts layout.now
        (raising_in layout.now (Z.burnt fuse.old)) (D.bytes device.old) (D.bytes device.new)) }
    // Whatever the answer, where an application booted, above the level or at all, one boots now.
    ensures still { StillBoots layout.now (D.bytes device.old) (D.bytes device.new) }
    ensures still_above { StillBootsAbove (level_of (Z.burnt fuse.old))
        (level_of (Z.burnt fuse.new)) layout.now (D.bytes device.old) (D.bytes device.new) }
{
    fused(raise_on(device, fuse, layout))
}

/// The answer of a confirmation under anti-rollback.
fn fused(
    found: Result<Result<Result<Told, FuseNo>, Denied>, NorFault>,
) -> Result<Told, FuseConfirmNo>
    ensures exact { fuse_answer result ≡ found }
{
    match found {
        Ok(Ok(Ok(told))) => Ok(told),
        Ok(Ok(Err(FuseNo::Failed))) => Err(FuseConfirmNo::Fuse),
        Ok(Err(Denied::NoOtaApp)) => Err(FuseConfirmNo::NoOtaApp),
        Ok(Err(Denied::NotWhole { slot })) => Err(FuseConfirmNo::NotWhole { slot }),
        Ok(Err(Denied::High { secure })) => Err(FuseConfirmNo::High { secure }),
        Ok(Err(Denied::Old { secure, level })) => Err(FuseConfirmNo::Old { secure, level }),
        Err(NorFault::Failed) => Err(FuseConfirmNo::Device),
        Err(NorFault::Off) => Err(FuseConfirmNo::Cut),
    }
}

/// A confirmation under anti-rollback; refused inside for the entries, the image or the level, and in
/// that for the fuses.
fn raise_on<D: Nor, Z: Fuses>(
    device: &mut D,
    fuse: &mut Z,
    layout: &Layout,
) -> Result<Result<Result<Told, FuseNo>, Denied>, NorFault>
    requires idle { D.running device.old ≡ None }
    requires placed { IsPlaced layout.now (D.size device.old) }
    requires small { D.size device.old < 2 ^ 32 }
    ensures idle { D.running device.new ≡ None }
    ensures setting { KeepsSetting D.size D.setting device.old device.new }
    ensures cause { HasDeviceCause
        (D.faults device.old) (D.faults device.new) (D.off device.new) result }
    ensures fuse_cause { HasCause (Z.faults fuse.old) (Z.faults fuse.new) (burn_answer result) }
    ensures stopped { OnOk result (¬ D.must_refuse (D.setting device.old) (D.steps device.old)) }
    ensures stored { OnOk result (IfSome (D.bytes device.old) (λ flash.
        AreStored (entries_in layout.now flash))) }
    ensures steps { OfEntries layout.now (D.bytes device.old) (λ entries.
        OfVersions layout.now (D.bytes device.old) (λ versions.
        let version = version_of layout.now versions entries (level_of (Z.burnt fuse.old)) in
        let writes = writes_for version (writes_of (confirmation entries)) in
        AreMadeBy D.may_end D.may_tear D.may_refuse D.must_refuse (D.setting device.old)
        (rewrites layout.now.otadata writes)
        (D.steps device.old) (D.steps device.new) (D.bytes device.old) (D.bytes device.new) result
        × IfOk result (Confirms layout.now.otadata (names layout.now entries) writes version)
        × Burns Z.burnt Z.left fuse.old fuse.new version result)) }
{
    let (first, second) = read_entries(device, layout)?;
    raise_read(device, fuse, layout, &first, &second)
}

/// The same of a device whose OTA data have these entries.
fn raise_read<D: Nor, Z: Fuses>(
    device: &mut D,
    fuse: &mut Z,
    layout: &Layout,
    e0: &Entry,
    e1: &Entry,
) -> Result<Result<Result<Told, FuseNo>, Denied>, NorFault>
    requires idle { D.running device.old ≡ None }
    requires on { D.off device.old ≡ false }
    requires placed { IsPlaced layout.now (D.size device.old) }
    requires small { D.size device.old < 2 ^ 32 }
    ensures idle { D.running device.new ≡ None }
    ensures setting { KeepsSetting D.size D.setting device.old device.new }
    ensures cause { HasDeviceCause
        (D.faults device.old) (D.faults device.new) (D.off device.new) result }
    ensures fuse_cause { HasCause (Z.faults fuse.old) (Z.faults fuse.new) (burn_answer result) }
    ensures steps { OfVersions layout.now (D.bytes device.old) (λ versions.
        let version = version_by (level_of (Z.burnt fuse.old)) versions
        (named_of layout.now e0.now e1.now) in
        let writes = writes_for version (writes_of (one_of (confirm_of e0.now e1.now))) in
        AreMadeBy D.may_end D.may_tear D.may_refuse D.must_refuse (D.setting device.old)
        (rewrites layout.now.otadata writes)
        (D.steps device.old) (D.steps device.new) (D.bytes device.old) (D.bytes device.new) result
        × IfOk result (Confirms layout.now.otadata (named_of layout.now e0.now e1.now) writes version)
        × Burns Z.burnt Z.left fuse.old fuse.new version result) }
{
    let app = named(layout, e0, e1);
    let version = version_on(device, layout, app, level(fuse.bits()))?;
    raise_found(device, fuse, layout, e0, e1, version)
}

/// The same of an application of this version, or that may not be confirmed for this reason.
fn raise_found<D: Nor, Z: Fuses>(
    device: &mut D,
    fuse: &mut Z,
    layout: &Layout,
    e0: &Entry,
    e1: &Entry,
    version: Result<u32, Denied>,
) -> Result<Result<Result<Told, FuseNo>, Denied>, NorFault>
    requires idle { D.running device.old ≡ None }
    requires on { D.off device.old ≡ false }
    requires placed { IsPlaced layout.now (D.size device.old) }
    requires small { D.size device.old < 2 ^ 32 }
    requires active { OnOk version (IsSome (active_of e0.now e1.now)) }
    requires most { IfOk version (λ secure. secure ≤ 32) }
    requires rises { IfOk version (λ secure. level_of (Z.burnt fuse.old) ≤ secure) }
    ensures idle { D.running device.new ≡ None }
    ensures made { OnOk result (AreMade D.may_end D.may_tear D.may_refuse D.must_refuse
        (D.setting device.old) (rewrites layout.now.otadata
        (writes_for version (writes_of (one_of (confirm_of e0.now e1.now)))))
        (D.steps device.old) (D.steps device.new) (D.bytes device.old) (D.bytes device.new)) }
    ensures missed { IfErr result (AreMissed D.may_end D.may_tear D.may_refuse D.must_refuse
        (D.setting device.old) (rewrites layout.now.otadata
        (writes_for version (writes_of (one_of (confirm_of e0.now e1.now)))))
        (D.steps device.old) (D.steps device.new) (D.bytes device.old) (D.bytes device.new)) }
    ensures answers { IfOk result (Confirms layout.now.otadata (named_of layout.now e0.now e1.now)
        (writes_for version (writes_of (one_of (confirm_of e0.now e1.now)))) version) }
    ensures burns { Burns Z.burnt Z.left fuse.old fuse.new version result }
    ensures setting { KeepsSetting D.size D.setting device.old device.new }
    ensures cause { HasDeviceCause
        (D.faults device.old) (D.faults device.new) (D.off device.new) result }
    ensures fuse_cause { HasCause (Z.faults fuse.old) (Z.faults fuse.new) (burn_answer result) }
{
    match version {
        Err(why) => Ok(Err(why)),
        Ok(secure) => {
            let done = raise_by(device, fuse, layout, e0, e1, secure)?;
            Ok(Ok(done))
        }
    }
}

/// The secure version of an application that is named, or why it may not be confirmed.
fn version_on<D: Nor>(
    device: &mut D,
    layout: &Layout,
    app: App,
    level: u32,
) -> Result<Result<u32, Denied>, NorFault>
    requires idle { D.running device.old ≡ None }
    requires on { D.off device.old ≡ false }
    requires placed { IsPlaced layout.now (D.size device.old) }
    requires small { D.size device.old < 2 ^ 32 }
    requires start { IsStart layout.now app }
    ensures version { IfOk result (λ version. OfVersions layout.now (D.bytes device.old) (λ versions.
        version ≡ version_by level versions app)) }
    ensures on { OnOk result (D.off device.new ≡ false) }
    ensures allowed { IfErr result (D.may_refuse (D.setting device.old) (D.steps device.old)) }
    ensures same { IsIdleAsBefore D.bytes D.running device.old device.new }
    ensures setting { KeepsSteps D.size D.setting D.steps device.old device.new }
    ensures cause { HasDeviceCause
        (D.faults device.old) (D.faults device.new) (D.off device.new) result }
{
    match app {
        App::Factory => Ok(Err(Denied::NoOtaApp)),
        App::Test => Ok(Err(Denied::NoOtaApp)),
        App::Ota(slot) => version_on_slot(device, layout, slot, level),
    }
}

/// The secure version of what a slot holds, or why it may not be confirmed.
fn version_on_slot<D: Nor>(
    device: &mut D,
    layout: &Layout,
    slot: u8,
    level: u32,
) -> Result<Result<u32, Denied>, NorFault>
    requires idle { D.running device.old ≡ None }
    requires on { D.off device.old ≡ false }
    requires placed { IsPlaced layout.now (D.size device.old) }
    requires small { D.size device.old < 2 ^ 32 }
    requires start { slot < length layout.now.slots }
    ensures version { IfOk result (λ version. OfVersions layout.now (D.bytes device.old) (λ versions.
        version ≡ version_at level slot (versions (Ota slot)))) }
    ensures on { OnOk result (D.off device.new ≡ false) }
    ensures allowed { IfErr result (D.may_refuse (D.setting device.old) (D.steps device.old)) }
    ensures same { IsIdleAsBefore D.bytes D.running device.old device.new }
    ensures setting { KeepsSteps D.size D.setting D.steps device.old device.new }
    ensures cause { HasDeviceCause
        (D.faults device.old) (D.faults device.new) (D.off device.new) result }
{
    let found = app_on(device, layout, App::Ota(slot))?;
    Ok(version_at(found, slot, level))
}

/// The same of what was found in it.
fn version_at(found: Option<ImageInfo>, slot: u8, level: u32) -> Result<u32, Denied>
    ensures exact { result ≡ version_at level slot (version_told found) }
{
    match found {
        None => Err(Denied::NotWhole { slot }),
        Some(info) => version_fit(secure_in(&info.desc), level),
    }
}

/// A secure version to which the level can rise, or why it cannot.
fn version_fit(secure: u32, level: u32) -> Result<u32, Denied>
    ensures exact { result ≡ version_fit level secure }
{
    if secure > 32 {
        Err(Denied::High { secure })
    } else if secure < level {
        Err(Denied::Old { secure, level })
    } else {
        Ok(secure)
    }
}

/// The active entry becomes VALID, and then the level rises to the secure version of its application;
/// refused inside for the fuses.
fn raise_by<D: Nor, Z: Fuses>(
    device: &mut D,
    fuse: &mut Z,
    layout: &Layout,
    e0: &Entry,
    e1: &Entry,
    secure: u32,
) -> Result<Result<Told, FuseNo>, NorFault>
    requires idle { D.running device.old ≡ None }
    requires on { D.off device.old ≡ false }
    requires placed { IsPlaced layout.now (D.size device.old) }
    requires small { D.size device.old < 2 ^ 32 }
    requires active { IsSome (active_of e0.now e1.now) }
    requires most { secure ≤ 32 }
    requires rises { level_of (Z.burnt fuse.old) ≤ secure }
    ensures idle { D.running device.new ≡ None }
    ensures made { OnOk result (AreMade D.may_end D.may_tear D.may_refuse D.must_refuse
        (D.setting device.old)
        (rewrites layout.now.otadata (writes_of (confirmation (sectors e0.now e1.now))))
        (D.steps device.old) (D.steps device.new) (D.bytes device.old) (D.bytes device.new)) }
    ensures missed { IfErr result (AreMissed D.may_end D.may_tear D.may_refuse D.must_refuse
        (D.setting device.old)
        (rewrites layout.now.otadata (writes_of (confirmation (sectors e0.now e1.now))))
        (D.steps device.old) (D.steps device.new) (D.bytes device.old) (D.bytes device.new)) }
    ensures tells { IfOk result (λ done. IfOk done (Tells layout.now.otadata
        (names layout.now (sectors e0.now e1.now))
        (writes_of (confirmation (sectors e0.now e1.now))))) }
    ensures burnt { IfOk result (IsBurnt Z.burnt Z.left fuse.old fuse.new secure) }
    ensures unburnt { OnErr result (fuse.new ≡ fuse.old) }
    ensures setting { KeepsSetting D.size D.setting device.old device.new }
    ensures cause { HasDeviceCause
        (D.faults device.old) (D.faults device.new) (D.off device.new) result }
    ensures fuse_cause { HasCause (Z.faults fuse.old) (Z.faults fuse.new) (burn_of result) }
{
    let told = confirm_active(device, layout, e0, e1)?;
    Ok(raise_told(fuse, secure, told))
}

/// A confirmation where an entry is active.
#[tactic(auto, using(crate::proofs::RaisedLemmas::active_confirms))]
fn confirm_active<D: Nor>(
    device: &mut D,
    layout: &Layout,
    e0: &Entry,
    e1: &Entry,
) -> Result<Told, NorFault>
    requires idle { D.running device.old ≡ None }
    requires on { D.off device.old ≡ false }
    requires placed { IsPlaced layout.now (D.size device.old) }
    requires small { D.size device.old < 2 ^ 32 }
    requires active { IsSome (active_of e0.now e1.now) }
    ensures idle { D.running device.new ≡ None }
    ensures made { OnOk result (AreMade D.may_end D.may_tear D.may_refuse D.must_refuse
        (D.setting device.old)
        (rewrites layout.now.otadata (writes_of (confirmation (sectors e0.now e1.now))))
        (D.steps device.old) (D.steps device.new) (D.bytes device.old) (D.bytes device.new)) }
    ensures missed { IfErr result (AreMissed D.may_end D.may_tear D.may_refuse D.must_refuse
        (D.setting device.old)
        (rewrites layout.now.otadata (writes_of (confirmation (sectors e0.now e1.now))))
        (D.steps device.old) (D.steps device.new) (D.bytes device.old) (D.bytes device.new)) }
    ensures tells { IfOk result (Tells layout.now.otadata
        (names layout.now (sectors e0.now e1.now))
        (writes_of (confirmation (sectors e0.now e1.now)))) }
    ensures setting { KeepsSetting D.size D.setting device.old device.new }
    ensures cause { HasDeviceCause
        (D.faults device.old) (D.faults device.new) (D.off device.new) result }
{
    match confirm_by(device, layout, e0, e1)? {
        Ok(told) => Ok(told),
        Err(_) => unreachable!(),
    }
}

/// The level rises to a secure version, and then it is told what was confirmed.
fn raise_told<Z: Fuses>(fuse: &mut Z, secure: u32, told: Told) -> Result<Told, FuseNo>
    requires most { secure ≤ 32 }
    requires rises { level_of (Z.burnt fuse.old) ≤ secure }
    ensures told { IfOk result (λ it. it ≡ told) }
    ensures burnt { IsBurnt Z.burnt Z.left fuse.old fuse.new secure result }
    ensures cause { HasCause (Z.faults fuse.old) (Z.faults fuse.new) result }
{
    match raise_to(fuse, secure) {
        Ok(()) => Ok(told),
        Err(why) => Err(why),
    }
}
