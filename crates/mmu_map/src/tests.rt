//! Runs that are mapped and freed, at literal addresses.

use crate::{NoPages, NotMapped, Pages};
use image_layout::Space;

#[test]
fn the_lowest_free_run_is_mapped(rt: HostRuntime) {
    let mut pages = Pages::new();
    assert_eq!(rt; pages.map(1, 1, Space::Code), Ok(0x400D_0000));
    assert_eq!(rt; pages.translate(0x400D_0020), Some(0x10020));
    assert_eq!(rt; pages.translate(0x400E_0000), None);
    assert_eq!(rt; pages.map(2, 1, Space::Code), Ok(0x400E_0000));
    assert_eq!(rt; pages.unmap(0x400D_0000), Ok(()));
    assert_eq!(rt; pages.map(5, 2, Space::Code), Ok(0x400F_0000));
    assert_eq!(rt; pages.translate(0x4010_FFFF), Some(0x6FFFF));
    assert_eq!(rt; pages.unmap(0x4010_0000), Err(NotMapped));
}

#[test]
fn too_long_a_run_is_refused_with_the_longest(rt: HostRuntime) {
    let mut pages = Pages::new();
    assert_eq!(rt; pages.map(0, 52, Space::Code), Err(NoPages { longest: 51 }));
    assert_eq!(rt; pages.map(0, 65, Space::Data), Err(NoPages { longest: 64 }));
}

#[test]
fn a_fixed_run_stays(rt: HostRuntime) {
    let mut pages = Pages::new();
    pages.fix(0x3F40_0000, 3, 2);
    assert_eq!(rt; pages.unmap(0x3F40_0000), Err(NotMapped));
    assert_eq!(rt; pages.translate(0x3F41_0004), Some(0x40004));
    assert_eq!(rt; pages.map(0, 62, Space::Data), Ok(0x3F42_0000));
    assert_eq!(rt; pages.map(0, 1, Space::Data), Err(NoPages { longest: 0 }));
}
