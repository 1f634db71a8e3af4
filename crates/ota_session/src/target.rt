//! What a session keeps of its aim.

ghost use Rattle.std.specs.Prelude.{◌≡◌};
ghost use Rattle.ota_session.specs.Stages.{target_of};

use boot_run::Aim;
use partition_table::{Layout, Row};
use rollback::Rewrite;

/// Where an image goes, and the entry that announces it.
#[derive(Clone, Copy, Debug, PartialEq, Eq)]
pub(crate) struct Target {
    /// Where its slot begins.
    pub at: u32,
    /// How many bytes the slot has.
    pub size: u32,
    /// How many bytes the image has.
    pub length: u32,
    /// Where the OTA data begin.
    pub otadata: u32,
    /// The rewrite of the entry.
    pub next: Rewrite,
}

impl Target {
    /// Where an image goes in this slot.
    pub(crate) fn of(layout: &Layout, row: &Row, aim: &Aim) -> Target
        ensures exact { result ≡ target_of layout.now row.now aim.now }
    {
        Target {
            at: row.offset,
            size: row.size,
            length: aim.length,
            otadata: layout.otadata,
            next: Rewrite {
                sector: aim.next.sector,
                entry: aim.next.entry,
            },
        }
    }
}
