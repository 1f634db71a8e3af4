//! Bytes from outside: the CRCs are those of Python's `zlib.crc32`, inverted at the start.

use crate::{Place, format_step, generation_of, header_of, removal_of, setting_of};
use nor_device::Step;
use std::test::Fail;

/// The headers of the first two generations.
const FIRST: [u8; 8] = [0x01, 0x00, 0x00, 0x00, 0x9A, 0x98, 0x43, 0x47];

const SECOND: [u8; 8] = [0x02, 0x00, 0x00, 0x00, 0x74, 0x37, 0xF6, 0x55];

#[test]
fn headers_have_the_crc_of_their_generation(rt: HostRuntime) -> Result<(), Fail> {
    assert_eq!(rt; header_of(1).as_slice(), &FIRST[..], "generation 1");
    assert_eq!(rt; header_of(2).as_slice(), &SECOND[..], "generation 2");
    assert_eq!(rt; generation_of(&FIRST), Some(1), "the first header");
    assert_eq!(rt; generation_of(&SECOND), Some(2), "the second header");
    assert_eq!(rt; generation_of(&[0xFF; 8]), None, "an erased header");
    assert_eq!(rt; generation_of(&[0x00; 8]), None, "a header of zeros");
    Ok(())
}

#[test]
fn records_have_their_fields_in_place(rt: HostRuntime) -> Result<(), Fail> {
    let mut setting = [0xFF; 51];
    setting[..5].copy_from_slice(&[2, 1, 0xFF, b'k', b'y']);
    setting[19] = 7;
    assert_eq!(rt; setting_of(b"ky", &[7]).as_slice(), &setting[..], "a value");
    let mut removal = [0xFF; 51];
    removal[..4].copy_from_slice(&[1, 0xFF, 0xFF, b'k']);
    assert_eq!(rt; removal_of(b"k").as_slice(), &removal[..], "a removal");
    Ok(())
}

#[test]
fn a_format_erases_the_other_header_first(rt: HostRuntime) -> Result<(), Fail> {
    let place = Place {
        at: 0x9000,
        half: 0x2000,
    };
    let mut sectors = Vec::new(rt.alloc());
    for number in 0..5 {
        match format_step(place, number) {
            Some(Step::Erase { sector }) => sectors.push(sector)?,
            Some(Step::Program { at, bytes }) => {
                assert_eq!(rt; at, 0x9000, "the header's place");
                assert_eq!(rt; bytes.bytes(), &FIRST[..], "the header");
            }
            _ => {}
        }
    }
    assert_eq!(rt; sectors.as_slice(), &[11, 9, 10][..], "the sectors");
    Ok(())
}
