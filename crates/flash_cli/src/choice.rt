//! What the OTA data of a flash choose, and what boots of it.

ghost use Rattle.std.specs.Prelude.{◌≡◌, ◌≤◌, ◌<◌, ◌^◌, ◌+◌, length};
ghost use Rattle.partition_table.specs.Layout.{IsPlaced};
ghost use Rattle.flash_cli.specs.Choice.{choice_in, choice_of, choice_with};

use crate::laid::layout_of;
use boot_run::preview;
use boot_select::named;
use flash_text::Refusal;
use otadata::{Entry, entry_in};
use partition_table::{App, Layout};

/// Both entries of the OTA data as they stand, the application that they name, and the one that
/// boots, with the length of its image in bytes.
#[derive(Clone, Copy, Debug, PartialEq, Eq)]
pub(crate) struct Choice {
    pub(crate) first: Entry,
    pub(crate) second: Entry,
    pub(crate) app: App,
    pub(crate) boots: App,
    pub(crate) length: u32,
}

/// What a flash chooses, or the first reason why that can't be told: the size of the flash, its
/// partition table, that nothing boots of it.
#[tactic(auto, unfolding(crate::specs::Choice::choice_of))]
pub(crate) fn choose(flash: &[u8]) -> Result<Choice, Refusal>
    ensures exact { result ≡ choice_of flash.now }
{
    match layout_of(flash) {
        Ok(layout) => choice_in(flash, &layout),
        Err(why) => Err(why),
    }
}

/// What a flash with this layout chooses; refused where nothing boots of it.
fn choice_in(flash: &[u8], layout: &Layout) -> Result<Choice, Refusal>
    requires placed { IsPlaced layout.now (length flash.now) }
    requires small { length flash.now < 2 ^ 32 }
    ensures exact { result ≡ choice_in flash.now layout.now }
{
    match preview(flash, layout) {
        Ok(booted) => Ok(choice_with(flash, layout, booted.app, booted.info.length)),
        Err(_) => Err(Refusal::NoApplication),
    }
}

/// The entries of a flash, what they name, and that this application boots, whose image is so long.
#[tactic(auto, unfolding(crate::specs::Choice::choice_with))]
fn choice_with(flash: &[u8], layout: &Layout, boots: App, long: u32) -> Choice
    requires within { layout.now.otadata + 8192 ≤ length flash.now }
    ensures exact { result ≡ choice_with flash.now layout.now boots long }
{
    let first = entry_in(flash, layout.otadata, 0);
    let second = entry_in(flash, layout.otadata, 1);
    Choice {
        first,
        second,
        app: named(layout, &first, &second),
        boots,
        length: long,
    }
}
