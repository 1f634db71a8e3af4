//! What the application that runs rewrites: it confirms itself, or it rejects itself.

ghost use Rattle.std.specs.Prelude.{◌≡◌, ◌==◌, ◌<◌, ◌↔◌, Some, None, Ok, Err, IfSome, if◌then◌else◌};
ghost use Rattle.otadata.specs.Choice.{AreBothInvalid, active_of};
ghost use Rattle.boot_select.specs.Candidates.{is_whole};
ghost use Rattle.boot_select.specs.Settled.{sectors};
ghost use Rattle.rollback.specs.declared.verdict.NoOtaApp.{NoOtaApp};
ghost use Rattle.rollback.specs.Verdict.{HasNothingElse, IsConfirmed, confirm_by, confirm_of, is_other, reject_as, reject_by, reject_of};
ghost use Rattle.rollback.specs.Rewrite.{restated};

use crate::rewrite::{Rewrite, restated, with_state};
use boot_select::choose;
use otadata::{Entry, active, slot_of, state};
use partition_table::{App, Layout};

/// No entry is active, so the application that runs was not written by an update.
#[derive(Clone, Copy, Debug, PartialEq, Eq)]
pub struct NoOtaApp;

/// Why the application that runs may not be rejected: the first reason, in this order.
#[derive(Clone, Copy, Debug, PartialEq, Eq)]
pub enum RejectNo {
    /// No entry is active.
    NoOtaApp,
    /// Without it no application would be started, or the one of the same slot.
    NothingElse,
}

/// The rewrite that confirms the active entry; none where it is confirmed already.
#[tactic(auto, unfolding(crate::specs::Verdict::confirm_of))]
pub fn confirm_write(e0: &Entry, e1: &Entry) -> Result<Option<Rewrite>, NoOtaApp>
    ensures exact { result ≡ confirm_of e0.now e1.now }
    ensures no_app { (why : NoOtaApp) → (result ≡ Err why) ↔ AreBothInvalid e0.now e1.now }
    ensures none { (result ≡ Ok None) ↔ IsConfirmed e0.now e1.now }
{
    confirm_by(active(e0, e1), e0, e1)
}

/// The rewrite that confirms the entry with this number.
fn confirm_by(active: Option<u8>, e0: &Entry, e1: &Entry) -> Result<Option<Rewrite>, NoOtaApp>
    requires { IfSome active (λ number. number < 2) }
    ensures exact { result ≡ confirm_by (sectors e0.now e1.now) active }
{
    match active {
        None => Err(NoOtaApp),
        Some(0) => Ok(confirmed(0, e0)),
        Some(_) => Ok(confirmed(1, e1)),
    }
}

/// The rewrite that confirms an entry; none where it is confirmed already.
fn confirmed(sector: u8, entry: &Entry) -> Option<Rewrite>
    ensures exact { result ≡ (if entry.now.state == 2 then None
        else Some (restated 2 sector entry.now)) }
{
    if entry.state == state::VALID {
        None
    } else {
        Some(restated(state::VALID, sector, entry))
    }
}

/// The rewrite that rejects the active entry; `ok` has the truth values of `choose`.
#[tactic(auto, unfolding(crate::specs::Verdict::reject_of))]
pub fn reject_write(
    layout: &Layout,
    e0: &Entry,
    e1: &Entry,
    ok: &[bool; 18],
) -> Result<Rewrite, RejectNo>
    ensures exact { result ≡ reject_of layout.now (is_whole ok.now) e0.now e1.now }
    ensures no_app { (result ≡ Err RejectNo.NoOtaApp) ↔ AreBothInvalid e0.now e1.now }
    ensures nothing_else { (result ≡ Err RejectNo.NothingElse)
        ↔ HasNothingElse layout.now (is_whole ok.now) e0.now e1.now }
{
    reject_by(layout, active(e0, e1), e0, e1, ok)
}

/// The rewrite that rejects the entry with this number.
fn reject_by(
    layout: &Layout,
    active: Option<u8>,
    e0: &Entry,
    e1: &Entry,
    ok: &[bool; 18],
) -> Result<Rewrite, RejectNo>
    requires within { IfSome active (λ number. number < 2) }
    requires first { active ≡ Some 0 → 0 < e0.now.seq }
    requires second { active ≡ Some 1 → 0 < e1.now.seq }
    ensures exact { result
        ≡ reject_by layout.now (is_whole ok.now) (sectors e0.now e1.now) active }
{
    let slots = layout.slots.len() as u8;
    match active {
        None => Err(RejectNo::NoOtaApp),
        Some(0) => {
            let rejected = with_state(state::INVALID, e0);
            let started = choose(layout, &rejected, e1, ok);
            reject_as(0, rejected, App::Ota(slot_of(e0.seq, slots)), started)
        }
        Some(_) => {
            let rejected = with_state(state::INVALID, e1);
            let started = choose(layout, e0, &rejected, ok);
            reject_as(1, rejected, App::Ota(slot_of(e1.seq, slots)), started)
        }
    }
}

/// The rewrite of a rejected entry, where another application is started then than its own.
fn reject_as(sector: u8, entry: Entry, app: App, started: Option<App>) -> Result<Rewrite, RejectNo>
    ensures exact { result ≡ reject_as (record { sector = sector; entry = entry }) app started }
{
    if is_other(app, started) {
        Ok(Rewrite { sector, entry })
    } else {
        Err(RejectNo::NothingElse)
    }
}

/// Whether an application is started, and it is another one.
fn is_other(app: App, started: Option<App>) -> bool
    ensures exact { result ≡ is_other app started }
{
    match started {
        None => false,
        Some(started) => started != app,
    }
}
