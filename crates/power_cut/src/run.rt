//! The update: a session, a boot and a confirmation, one after the other.

ghost use Rattle.std.specs.Prelude.{◌≡◌, ◌≢◌, ◌<◌, ◌^◌, ◌&&◌, Some, Ok, IfOk, length};
ghost use Rattle.std.specs.Borrow.{Bor};
ghost use Rattle.nor_device.specs.Ram.{Ram};
ghost use Rattle.crash_images.specs.Cut.{CutDevice};
ghost use Rattle.boot_select.specs.Boots.{entries_in, images_in};
ghost use Rattle.rollback.specs.declared.rewrite.Rewrite.{Rewrite as Written};
ghost use Rattle.rollback.specs.Rewrite.{restated};
ghost use Rattle.image_verify.specs.Held.{held};
ghost use Rattle.boot_run.specs.declared.booted.Booted.{Booted as Started};
ghost use Rattle.boot_run.specs.Booted.{IsBoot};
ghost use Rattle.power_cut.specs.declared.legs.Ran.{Ran as Left};
ghost use Rattle.power_cut.specs.Device.{IsReady};
ghost use Rattle.power_cut.specs.Update.{BootsEither, Opens};
ghost use Rattle.power_cut.specs.Kept.{KeepsConfirm, KeepsSession, MayConfirm};
ghost use Rattle.power_cut.specs.Whole.{AreDone, BootsNew, EndsAsChosen, IsOutcome, IsTrial, confirm_of, is_done, wants_boot};

use crate::booting::boot_leg;
use crate::closing::close;
use crate::legs::{Leg, Ran, Upto};
use crate::outcome::Trial;
use crate::runner::Runner;
use arrayvec::ArrayVec;
use boot_run::{Aim, Booted};
use bus_hub::Memory;
use crash_images::CutNor;
use image_verify::whole_images_show_no_fault;
use nor_device::RamNor;
use otadata::{Entry, state};
use partition_table::Layout;
use rollback::Rewrite;

/// Runs an update of `image` on a device, as far as `upto`: the runner's
/// session, then, with the power on again, a boot, then the runner's confirmation. The first leg
/// that is not made whole is the last. Its end names the chosen step exactly where that was begun.
///
/// Of the flash that is left boots the application that ran or the new one, whole, but for a chance
/// match; some application boots in every case.
pub fn trial<U: Runner>(
    dev: CutNor<RamNor>,
    layout: &Layout,
    aim: &Aim,
    image: &[u8],
    upto: Upto,
    runner: &U,
) -> Result<Trial, Memory>
    requires ready { IsReady dev }
    requires small { length dev.inner.bytes < 2 ^ 32 }
    requires opens { Opens layout.now dev.inner.bytes aim.now image.now }
    requires may_write { U.may_write runner.now dev aim image }
    requires written { (ran : Left) → U.has_written runner.now dev aim image (Ok ran)
        → KeepsSession layout.now aim.now image.now dev ran }
    requires may_confirm { (d : CutDevice Ram) (at : Bor Started) (write : Bor Written)
        → MayConfirm layout.now dev.inner.bytes d at.now write.now
        → U.may_confirm runner.now d at write }
    requires confirmed { (d : CutDevice Ram) (at : Bor Started) (write : Bor Written) (ran : Left)
        → MayConfirm layout.now dev.inner.bytes d at.now write.now
        → U.has_confirmed runner.now d at write (Ok ran) → KeepsConfirm layout.now write.now d ran }
    ensures trial { IfOk result (λ t. IsTrial
        (λ ran. U.has_written runner.now dev aim.entry image.entry (Ok ran))
        (λ d at write ran. U.has_confirmed runner.now d at write (Ok ran))
        layout.now dev.inner.bytes aim.now image.now upto t) }
    ensures end { IfOk result (λ t. EndsAsChosen dev t.legs.items) }
    ensures boots { IfOk result (λ t.
        BootsEither layout.now dev.inner.bytes aim.now image.now t.flash.items) }
    ensures after { IfOk result (λ t. IsBoot layout.now (images_in held layout.now t.flash.items)
        (entries_in layout.now t.flash.items) (Some t.after)) }
    ensures installed { IfOk result (λ t. upto ≢ Upto.Boot → AreDone t.legs.items
        → BootsNew layout.now aim.now image.now t.flash.items) }
{
    run(dev, layout, aim, image, upto, runner)
}

/// The same, with all that is left in one clause.
fn run<U: Runner>(
    dev: CutNor<RamNor>,
    layout: &Layout,
    aim: &Aim,
    image: &[u8],
    upto: Upto,
    runner: &U,
) -> Result<Trial, Memory>
    requires ready { IsReady dev }
    requires small { length dev.inner.bytes < 2 ^ 32 }
    requires opens { Opens layout.now dev.inner.bytes aim.now image.now }
    requires may_write { U.may_write runner.now dev aim image }
    requires written { (ran : Left) → U.has_written runner.now dev aim image (Ok ran)
        → KeepsSession layout.now aim.now image.now dev ran }
    requires may_confirm { (d : CutDevice Ram) (at : Bor Started) (write : Bor Written)
        → MayConfirm layout.now dev.inner.bytes d at.now write.now
        → U.may_confirm runner.now d at write }
    requires confirmed { (d : CutDevice Ram) (at : Bor Started) (write : Bor Written) (ran : Left)
        → MayConfirm layout.now dev.inner.bytes d at.now write.now
        → U.has_confirmed runner.now d at write (Ok ran) → KeepsConfirm layout.now write.now d ran }
    ensures outcome { IfOk result (IsOutcome
        (λ ran. U.has_written runner.now dev aim.entry image.entry (Ok ran))
        (λ d at write ran. U.has_confirmed runner.now d at write (Ok ran))
        layout.now dev aim.now image.now upto) }
{
    whole_images_show_no_fault();
    let Ran { dev, journal, leg } = runner.session(dev, aim, image)?;
    let mut legs = ArrayVec::new();
    legs.push(leg);
    if !goes_on(upto, &leg) {
        return Ok(close(dev, layout, legs, journal, None));
    }
    let mut dev = dev.restart();
    let (leg, booted) = boot_leg(&mut dev, layout);
    legs.push(leg);
    let Some(at) = booted_for(upto, booted) else {
        return Ok(close(dev, layout, legs, journal, None));
    };
    let ran = runner.confirm(dev, &at, &confirmation(aim))?;
    legs.push(ran.leg);
    Ok(close(ran.dev, layout, legs, journal, Some(ran.journal)))
}

/// Whether a boot is to follow this session.
fn goes_on(upto: Upto, session: &Leg) -> bool
    ensures exact { result ≡ (wants_boot upto && is_done session.now.end) }
{
    upto.wants_boot() && session.end.is_done()
}

/// What was booted, where it is to be confirmed.
fn booted_for(upto: Upto, booted: Option<Booted>) -> Option<Booted>
    ensures exact { result ≡ confirm_of upto booted }
{
    if upto.wants_confirm() { booted } else { None }
}

/// The rewrite that marks the entry of the new application VALID.
fn confirmation(aim: &Aim) -> Rewrite
    ensures exact { result ≡ restated 2 aim.now.next.sector aim.now.next.entry }
{
    Rewrite {
        sector: aim.next.sector,
        entry: Entry {
            state: state::VALID,
            ..aim.next.entry
        },
    }
}
