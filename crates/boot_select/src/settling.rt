//! Whether an update may begin: no entry waits for its application, and the application that the OTA
//! data name is the one that is started.

ghost use Rattle.std.specs.Prelude.{◌≡◌, ◌↔◌, ℕ, true, Ok, Err, Some, None, IfOk};
ghost use Rattle.otadata.specs.declared.entry.Entry.{Entry};
ghost use Rattle.partition_table.specs.declared.app.App.{App};
ghost use Rattle.otadata.specs.Choice.{active_of};
ghost use Rattle.boot_select.specs.Choice.{named_of};
ghost use Rattle.boot_select.specs.Candidates.{IsStart, is_whole, started_from};
ghost use Rattle.boot_select.specs.Settled.{FallsBack, NoneStarts, NoneWaits, Settles, Waits, is_same, settled_by, settled_of, started_as, waiting_in, waiting_new, waiting_of};
ghost use Rattle.boot_select.specs.declared.settling.Unsettled.TheVariants.{Fallback, NoApp, Waiting};

use crate::candidates::choose;
use crate::choice::named;
use otadata::{Entry, active, state};
use partition_table::{App, Layout};

/// Why an update may not begin: the first reason, in this order.
#[derive(Clone, Copy, Debug, PartialEq, Eq)]
pub enum Unsettled {
    /// An entry waits: it has the state PENDING_VERIFY, or it is active and new.
    Waiting { entry: u8, state: u32 },
    /// No application is whole.
    NoApp,
    /// Another application is started than the one that is named.
    Fallback { named: App, started: App },
}

/// The application that runs, where no entry waits and the one that is named is whole; `ok` has the
/// truth values of `choose`.
#[tactic(auto, unfolding(crate::specs::Settled::settled_of))]
pub fn settled(layout: &Layout, e0: &Entry, e1: &Entry, ok: &[bool; 18]) -> Result<App, Unsettled>
    ensures exact { result ≡ settled_of layout.now (is_whole ok.now) e0.now e1.now }
    ensures ok { (app : App) → (result ≡ Ok app)
        ↔ Settles layout.now (is_whole ok.now) e0.now e1.now app }
    ensures waiting { (sector state : ℕ) → (result ≡ Err (Waiting sector state))
        ↔ Waits e0.now e1.now sector state }
    ensures no_app { (result ≡ Err NoApp)
        ↔ NoneStarts layout.now (is_whole ok.now) e0.now e1.now }
    ensures fallback { (named started : App) → (result ≡ Err (Fallback named started))
        ↔ FallsBack layout.now (is_whole ok.now) e0.now e1.now named started }
{
    settled_as(layout, e0, e1, choose(layout, e0, e1, ok))
}

/// The application that runs, by the first candidate that is whole: what `settled` finds by truth values.
pub fn settled_as(
    layout: &Layout,
    e0: &Entry,
    e1: &Entry,
    started: Option<App>,
) -> Result<App, Unsettled>
    ensures exact { result ≡ settled_by (waiting_of e0.now e1.now)
        (named_of layout.now e0.now e1.now) started }
    ensures start { IfOk result (IsStart layout.now) }
{
    settled_by(waiting(e0, e1), named(layout, e0, e1), started)
}

/// The application that runs, by the entry that waits, what is named and what is started.
fn settled_by(
    waiting: Option<Unsettled>,
    named: App,
    started: Option<App>,
) -> Result<App, Unsettled>
    ensures exact { result ≡ settled_by waiting named started }
{
    match waiting {
        Some(why) => Err(why),
        None => started_as(named, started),
    }
}

/// The application that is named, where it is the one that is started.
fn started_as(named: App, started: Option<App>) -> Result<App, Unsettled>
    ensures exact { result ≡ started_as named started }
{
    match started {
        None => Err(Unsettled::NoApp),
        Some(started) => {
            if is_same(started, named) {
                Ok(named)
            } else {
                Err(Unsettled::Fallback { named, started })
            }
        }
    }
}

/// Whether two applications are the same.
pub(crate) fn is_same(one: App, other: App) -> bool
    ensures exact { result ≡ is_same one other }
{
    match (one, other) {
        (App::Ota(one), App::Ota(other)) => one == other,
        (App::Factory, App::Factory) | (App::Test, App::Test) => true,
        _ => false,
    }
}

/// The entry that waits: the first one or else the second in PENDING_VERIFY, or else an active one
/// that is new.
#[tactic(auto, unfolding(crate::specs::Settled::waiting_of))]
fn waiting(e0: &Entry, e1: &Entry) -> Option<Unsettled>
    ensures exact { result ≡ waiting_of e0.now e1.now }
{
    waiting_in(0, e0, state::PENDING_VERIFY)
        .or(waiting_in(1, e1, state::PENDING_VERIFY))
        .or(waiting_new(e0, e1))
}

/// The active entry as one that waits, where it is new.
fn waiting_new(e0: &Entry, e1: &Entry) -> Option<Unsettled>
    ensures exact { result ≡ waiting_new e0.now e1.now (active_of e0.now e1.now) }
{
    match active(e0, e1) {
        None => None,
        Some(0) => waiting_in(0, e0, state::NEW),
        Some(_) => waiting_in(1, e1, state::NEW),
    }
}

/// The entry of a sector as one that waits, where it has this state.
fn waiting_in(sector: u8, entry: &Entry, state: u32) -> Option<Unsettled>
    ensures exact { result ≡ waiting_in sector entry.now state }
{
    (entry.state == state).then_some(Unsettled::Waiting {
        entry: sector,
        state,
    })
}

/// The tests that compute mean what the facts say.
pub fn waits_are_decided()
    ensures none { (e0 e1 : Entry) → (waiting_of e0 e1 ≡ None) ↔ NoneWaits e0 e1 }
    ensures same { (a b : App) → (is_same a b ≡ true) ↔ (a ≡ b) }
{}
