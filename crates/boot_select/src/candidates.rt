//! The order in which a bootloader tries the applications: from the one that the OTA data name down
//! to slot 0, then factory, then up through the other slots, then the test application.

ghost use Rattle.std.specs.Prelude.{◌≡◌, ◌+◌, ◌-◌, ◌<◌, ◌≤◌, ◌++◌, ◌∷◌, [], All, IsSome, List, length};
ghost use Rattle.partition_table.specs.Layout.{row_for};
ghost use Rattle.partition_table.specs.declared.app.App.TheVariants.{Factory, Ota, Test};
ghost use Rattle.boot_select.specs.Choice.{named_of};
ghost use Rattle.std.specs.List.{find};
ghost use Rattle.boot_select.specs.Candidates.{IsStart, after_front, candidates, down, front, is_whole, started_from, tests, up};

use crate::choice::named;
use arrayvec::ArrayVec;
use otadata::Entry;
use partition_table::{App, Layout, Row};

/// The applications in the order in which a bootloader tries them. Each has a partition in the
/// layout.
pub fn order(layout: &Layout, e0: &Entry, e1: &Entry) -> ArrayVec<App, 18>
    ensures exact { result.items ≡ candidates layout.now (named_of layout.now e0.now e1.now) }
    ensures placed { All (λ app. IsSome (row_for layout.now app)) result.items }
    ensures start { IsStart layout.now (named_of layout.now e0.now e1.now) }
{
    order_from(layout, named(layout, e0, e1))
}

/// The applications in the order in which they are tried from this one on.
#[tactic(auto, unfolding(crate::specs::Candidates::candidates))]
fn order_from(layout: &Layout, start: App) -> ArrayVec<App, 18>
    requires start { IsStart layout.now start }
    ensures exact { result.items ≡ candidates layout.now start }
{
    let slots = layout.slots.len() as u8;
    let mut apps = front(start, slots);
    apps.push(App::Factory);
    push_up(&mut apps, after_front(start, slots), slots);
    if layout.test.is_some() {
        apps.push(App::Test);
    }
    apps
}

/// What is tried before the factory application.
fn front(start: App, slots: u8) -> ArrayVec<App, 18>
    requires most { slots ≤ 16 }
    requires within { after_front start ≤ slots }
    ensures exact { result.items ≡ front start }
    ensures length { length result.items ≡ after_front start }
{
    let mut apps = ArrayVec::new();
    if let App::Ota(slot) = start {
        apps.push(start);
        push_down(&mut apps, slot);
    }
    apps
}

/// The first slot that is tried after the factory application.
fn after_front(start: App, slots: u8) -> u8
    requires most { slots ≤ 16 }
    requires within { after_front start ≤ slots }
    ensures exact { result ≡ after_front start }
{
    match start {
        App::Ota(slot) => slot + 1,
        App::Factory | App::Test => 0,
    }
}

/// Appends the applications of the slots below this one, the highest first.
fn push_down(apps: &mut ArrayVec<App, 18>, end: u8)
    requires { length apps.old.items + end ≤ 18 }
    ensures items { apps.new.items ≡ apps.old.items ++ down end }
    ensures length { length apps.new.items ≡ length apps.old.items + end }
{
    for slot in (0..end).rev() {
        apps.push(App::Ota(slot));
    }
}

/// Appends the applications of the slots from one on up to another.
fn push_up(apps: &mut ArrayVec<App, 18>, start: u8, end: u8)
    requires order { start ≤ end }
    requires room { length apps.old.items + (end - start) ≤ 18 }
    ensures items { apps.new.items ≡ apps.old.items ++ up start (end - start) }
    ensures length { length apps.new.items ≡ length apps.old.items + (end - start) }
{
    for slot in start..end {
        apps.push(App::Ota(slot));
    }
}

/// The first application in this order whose image is whole, by the truth values `ok`: places 0 to 15
/// are the update slots, 16 the factory application, 17 the test application.
#[tactic(auto, unfolding(crate::specs::Candidates::started_from))]
pub fn choose(layout: &Layout, e0: &Entry, e1: &Entry, ok: &[bool; 18]) -> Option<App>
    ensures exact { result
        ≡ started_from layout.now (is_whole ok.now) (named_of layout.now e0.now e1.now) }
{
    first_whole(&order(layout, e0, e1), ok)
}

/// The first of these applications whose image is whole.
fn first_whole(apps: &[App], ok: &[bool; 18]) -> Option<App>
    ensures exact { result ≡ find (is_whole ok.now) apps.now }
{
    for i in 0..apps.len() {
        if is_whole(ok, apps[i]) {
            return Some(apps[i]);
        }
    }
    None
}

/// Whether the image of an application is whole.
#[tactic(auto, unfolding(crate::specs::Candidates::is_whole))]
fn is_whole(ok: &[bool; 18], app: App) -> bool
    ensures exact { result ≡ is_whole ok.now app }
{
    let place = match app {
        App::Ota(slot) => usize::from(slot),
        App::Factory => 16,
        App::Test => 17,
    };
    match ok.get(place) {
        Some(whole) => *whole,
        None => false,
    }
}
