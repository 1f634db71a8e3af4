//! The pages that the cache shows of an application that runs.

ghost use Rattle.std.specs.Prelude.{◌≡◌, ◌^◌, IfSome};
ghost use Rattle.duo_run.specs.Pages.{AreInPlace, CanFix, application_pages, probe_in, with_segment};

use image_layout::Space;
use image_verify::{ImageInfo, SegmentNote};
use mmu_map::Pages;

/// The size of a page in bytes.
const PAGE_SIZE: u32 = 65_536;

/// The pages of an application that begins at an offset of the flash: of the segment that each space
/// maps, all pages that its load addresses touch, fixed to the flash pages in which its data stand.
#[tactic(auto, using(crate::proofs::PageLemmas::data_can, crate::proofs::PageLemmas::code_can))]
pub(crate) fn application_pages(offset: u32, info: &ImageInfo) -> Pages
    requires placed { AreInPlace (2 ^ 24) offset info.now.segments.items }
    ensures exact { result ≡ application_pages offset info.now.segments.items }
{
    let mut pages = Pages::new();
    fix_segment(&mut pages, offset, info.mapped(Space::Data));
    fix_segment(&mut pages, offset, info.mapped(Space::Code));
    pages
}

/// Fixes the pages of a segment, where there is one.
fn fix_segment(pages: &mut Pages, offset: u32, note: Option<SegmentNote>)
    requires { IfSome note (CanFix offset pages.old) }
    ensures exact { pages.new ≡ with_segment offset note pages.old }
{
    let Some(note) = note else {
        return;
    };
    let at = note.load / PAGE_SIZE * PAGE_SIZE;
    let flash_page = (offset + note.place) / PAGE_SIZE;
    let count = (note.load % PAGE_SIZE + note.length + (PAGE_SIZE - 1)) / PAGE_SIZE;
    pages.fix(at, flash_page, count as u8);
}

/// Where the driver of an update looks behind each of its quiet periods.
pub(crate) fn probe_in(info: &ImageInfo) -> Option<u32>
    ensures exact { result ≡ probe_in info.now.segments.items }
{
    match info.mapped(Space::Data) {
        Some(data) => Some(data.load),
        None => info.mapped(Space::Code).map(|code| code.load),
    }
}
