//! An update by an image of 200,000 bytes, and one whose power goes off in its last step.

use crate::boot_tests::{OTADATA, is_left, store_of_flashes};
use crate::transcript::first_other;
use pipe_ends::{MemStore, Store};
use std::alloc::{AllocError, Global};
use std::sync::Wait;
use std::test::Fail;
use std::thread::Threads;

/// The plan of an image with one segment of data.
const PLAN: &[u8] = b"entry 0x40080400\nsegment 0x3F400020 large\n";

/// The length of its part: header, head, checksum and digest are 68 bytes more.
const PART: u32 = 199_932;

/// Where slot 0 begins.
const SLOT: usize = 0x11_0000;

/// The entry of sequence 1 behind its confirmation; the CRC is that of Python's `zlib.crc32`, inverted
/// at the start.
const ENTRY: [u8; 32] = [
    0x01, 0x00, 0x00, 0x00, 0xFF, 0xFF, 0xFF, 0xFF, 0xFF, 0xFF, 0xFF, 0xFF, 0xFF, 0xFF, 0xFF, 0xFF,
    0xFF, 0xFF, 0xFF, 0xFF, 0xFF, 0xFF, 0xFF, 0xFF, 0x02, 0x00, 0x00, 0x00, 0x9A, 0x98, 0x43, 0x47,
];

/// An update of 49 sectors, 782 pages and the entry, so of 833 steps, and of four more behind the
/// session; with power lost behind its end, and in its last step.
const UPDATES: &str = "\
$ image-make large.plan L
length 200000
$ update F0 L empty N
phase session
steps 833
end done
phase boot
steps 2
end done
phase confirm
steps 2
end done
boots ota_0 200000
$ update F0 L empty X --cut 838
phase session
steps 833
end done
phase boot
steps 2
end done
phase confirm
steps 2
end done
boots ota_0 200000
$ update F0 L empty X --cut 837 --tear 0xFFFF
phase session
steps 833
end done
phase boot
steps 2
end done
phase confirm
steps 2
end power step 837
boots factory 80
status 5
";

/// So many bytes of a pattern with a period of 251.
fn patterned(alloc: Global, length: u32) -> Result<Vec<u8>, AllocError> {
    let mut bytes = Vec::new(alloc);
    for i in 0..length {
        bytes.push((i % 251) as u8)?;
    }
    Ok(bytes)
}

/// A store of flashes with the plan and its part.
fn store_of_large<R: Threads + Wait + Sync>(rt: &R, alloc: Global) -> Result<MemStore, Fail> {
    let mut store = store_of_flashes(rt, alloc)?;
    store.put(alloc, "large.plan", PLAN)?;
    let part = patterned(alloc, PART)?;
    store.put(alloc, "large", &part)?;
    Ok(store)
}

#[test]
fn a_large_image_is_updated_in_837_steps(rt: HostRuntime) -> Result<(), Fail> {
    let alloc = rt.alloc();
    let mut store = store_of_large(&rt, alloc)?;
    assert_eq!(rt;
        first_other(&rt, alloc, &mut store, UPDATES)?,
        None,
        "the calls"
    );
    let image = store.get(alloc, "L")?;
    let changes: [(usize, &[u8]); 2] = [(SLOT, &image), (OTADATA, &ENTRY)];
    assert!(rt;
        is_left(alloc, &mut store, &("N", "F0", &changes))?,
        "the flash"
    );
    Ok(())
}
