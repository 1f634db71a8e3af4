//! What no clause says: values from outside.

use crate::*;

#[test]
fn each_space_has_its_bounds(rt: HostRuntime) {
    for (at, data, code) in [
        (0x3F3F_FFFF, false, false),
        (0x3F40_0000, true, false),
        (0x3F7F_FFFF, true, false),
        (0x3F80_0000, false, false),
        (0x400C_FFFF, false, false),
        (0x400D_0000, false, true),
        (0x403F_FFFF, false, true),
        (0x4040_0000, false, false),
    ] {
        assert_eq!(rt; is_data(at), data, "data at {at}");
        assert_eq!(rt; is_code(at), code, "code at {at}");
    }
}

#[test]
fn a_footer_ends_at_the_next_multiple_of_16(rt: HostRuntime) {
    for (n, end) in [(0, 16), (36, 48), (47, 48), (48, 64)] {
        assert_eq!(rt; footer_end(n), end, "the data end at {n}");
    }
}

/// Writes bytes at a place, as far as there is one.
fn write(out: &mut [u8], at: usize, part: &[u8]) {
    if at <= out.len() && part.len() <= out.len() - at {
        out[at..at + part.len()].copy_from_slice(part);
    }
}

/// An image of 112 bytes with this mark before its description, as `esp_app_desc_t` of ESP-IDF is
/// laid out.
fn described(mark: [u8; 4]) -> [u8; 112] {
    let mut image = [0; 112];
    write(&mut image, 32, &mark);
    write(&mut image, 36, &[0x05, 0x00, 0x00, 0x01]);
    write(&mut image, 48, b"1.2");
    write(&mut image, 80, b"app");
    image
}

#[test]
fn a_description_stands_behind_its_mark(rt: HostRuntime) {
    let (mut version, mut project) = ([0; 32], [0; 32]);
    write(&mut version, 0, b"1.2");
    write(&mut project, 0, b"app");
    let desc = AppDesc {
        secure: 0x0100_0005,
        version,
        project,
    };
    for (mark, length, want) in [
        ([0x32, 0x54, 0xCD, 0xAB], 112, Some(desc)),
        ([0x32, 0x54, 0xCD, 0xAB], 111, None),
        ([0x33, 0x54, 0xCD, 0xAB], 112, None),
        ([0x31, 0x54, 0xCD, 0xAB], 112, None),
        ([0xAB, 0xCD, 0x54, 0x32], 112, None),
    ] {
        let image = described(mark);
        assert_eq!(rt;
            AppDesc::read(&image[..length]),
            want,
            "{mark:?} in {length} bytes"
        );
    }
}
