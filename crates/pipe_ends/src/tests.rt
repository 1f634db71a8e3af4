//! Rows from outside, and each call once with ample memory.
use crate::failing_disk::{Failing, FailingDisk};
use crate::{
    DirStore, File, GetFault, MemSink, MemStore, PushFault, PutFault, Sink, StdSink, Store,
    put_hex, put_number,
};
use std::alloc::Global;
use std::fs::{self, Permissions};
use std::os::unix::fs::{PermissionsExt, symlink};
use std::test::Fail;

/// What a store answers to `get`, through its bound.
fn read<S: Store>(alloc: Global, store: &mut S, name: &str) -> Result<Vec<u8>, GetFault> {
    store.get(alloc, name)
}

/// What a store answers to `put`, through its bound.
fn write<S: Store>(alloc: Global, store: &mut S, name: &str, text: &str) -> Result<(), PutFault> {
    store.put(alloc, name, text.as_bytes())
}

/// What a sink answers, through its bound.
fn say<K: Sink>(alloc: Global, sink: &mut K, text: &str) -> Result<(), PushFault> {
    sink.push(alloc, text.as_bytes())
}

#[test]
fn numbers_are_decimal_digits(rt: HostRuntime) -> Result<(), Fail> {
    let rows = [
        (0, "0"),
        (7, "7"),
        (10, "10"),
        (18446744073709551615, "18446744073709551615"),
    ];
    for (number, text) in rows {
        let mut out = Vec::from_slice(rt.alloc(), b"n=")?;
        put_number(&mut out, number)?;
        assert_eq!(rt; &out[2..], text.as_bytes(), "at {number}");
    }
    Ok(())
}

#[test]
fn hex_digits_are_as_many_as_asked(rt: HostRuntime) -> Result<(), Fail> {
    let mut out = Vec::new(rt.alloc());
    put_hex(&mut out, 171, 4)?;
    put_hex(&mut out, 0, 1)?;
    put_hex(&mut out, 0xE9, 2)?;
    put_hex(&mut out, 0x0123_4567_89AB_CDEF, 16)?;
    assert_eq!(rt; out.as_slice(), b"00AB0E90123456789ABCDEF".as_slice());
    Ok(())
}

#[test]
fn a_store_in_memory_keeps_its_files_and_fails_as_told(rt: HostRuntime) -> Result<(), Fail> {
    let alloc = rt.alloc();
    let name = String::from_str(alloc, "old")?;
    let bytes = Vec::from_slice(alloc, b"before")?;
    let files = vec![in alloc; File { name, bytes }]?;
    let failing = vec![in alloc; 3u64, 6]?;
    let mut store = MemStore::new(files, failing);
    assert_eq!(rt; write(alloc, &mut store, "new", "one"), Ok(()), "call 1");
    assert_eq!(rt; write(alloc, &mut store, "new", "two"), Ok(()), "call 2");
    assert_eq!(rt;
        write(alloc, &mut store, "new", "three"),
        Err(PutFault::Failed),
        "call 3"
    );
    let rows = [
        ("new", "two", None),
        ("old", "before", None),
        ("new", "", Some(GetFault::Failed)),
        ("none", "", Some(GetFault::Absent)),
    ];
    for (name, text, fault) in rows {
        match read(alloc, &mut store, name) {
            Ok(bytes) => assert_eq!(rt; bytes.as_slice(), text.as_bytes(), "of {name}"),
            Err(why) => assert_eq!(rt; Some(why), fault, "of {name}"),
        }
    }
    Ok(())
}

#[test]
fn a_sink_in_memory_keeps_its_bytes_and_fails_as_told(rt: HostRuntime) -> Result<(), Fail> {
    let alloc = rt.alloc();
    let mut sink = MemSink::new(alloc, vec![in alloc; 2u64]?);
    assert_eq!(rt; say(alloc, &mut sink, "one"), Ok(()), "call 1");
    assert_eq!(rt;
        say(alloc, &mut sink, "two"),
        Err(PushFault::Failed),
        "call 2"
    );
    assert_eq!(rt; say(alloc, &mut sink, "three"), Ok(()), "call 3");
    assert_eq!(rt; sink.bytes(), b"onethree".as_slice());
    Ok(())
}

#[test]
fn a_folder_is_a_store(rt: HostRuntime) -> Result<(), Fail> {
    let alloc = rt.alloc();
    let name = "pipe_ends-a_folder_is_a_store";
    let mut store = DirStore::new(&rt);
    assert_eq!(rt;
        read(alloc, &mut store, name),
        Err(GetFault::Absent),
        "before"
    );
    assert_eq!(rt;
        write(alloc, &mut store, name, "a longer text"),
        Ok(()),
        "first"
    );
    assert_eq!(rt; write(alloc, &mut store, name, "text"), Ok(()), "over it");
    let bytes = read(alloc, &mut store, name);
    fs::remove_file(&rt, name)?;
    assert_eq!(rt; bytes?.as_slice(), b"text".as_slice());
    assert_eq!(rt;
        read(alloc, &mut store, "."),
        Err(GetFault::Failed),
        "a folder"
    );
    assert_eq!(rt;
        write(alloc, &mut store, ".", ""),
        Err(PutFault::Failed),
        "a folder"
    );
    Ok(())
}

#[test]
fn a_put_that_fails_leaves_the_old_file_and_no_new_one(rt: HostRuntime) -> Result<(), Fail> {
    let alloc = rt.alloc();
    let name = "pipe_ends-a_put_that_fails";
    fs::write(&rt, name, "the old bytes")?;
    for failing in [
        Failing::Create,
        Failing::Write,
        Failing::Sync,
        Failing::Rename,
    ] {
        let disk = (FailingDisk { rt: &rt, failing }, alloc);
        let mut store = DirStore::new(&disk);
        let put = write(alloc, &mut store, name, "new");
        assert_eq!(rt; put, Err(PutFault::Failed), "{failing:?}: the answer");
        let bytes = fs::read(&rt, name)?;
        assert_eq!(rt;
            bytes.as_slice(),
            b"the old bytes".as_slice(),
            "{failing:?}: the file"
        );
        let left = fs::exists(&rt, ".flash_cli-new-0")?;
        assert_eq!(rt; left, false, "{failing:?}: the new file");
    }
    fs::remove_file(&rt, name)?;
    Ok(())
}

#[test]
fn a_put_follows_a_link_and_keeps_the_permissions(rt: HostRuntime) -> Result<(), Fail> {
    let alloc = rt.alloc();
    let (name, link) = ("pipe_ends-a_put_follows", "pipe_ends-a_link");
    fs::write(&rt, name, "old")?;
    fs::set_permissions(&rt, name, Permissions::from_mode(0o640))?;
    symlink(&rt, name, link)?;
    let mut store = DirStore::new(&rt);
    let put = write(alloc, &mut store, link, "new");
    let bytes = fs::read(&rt, name)?;
    let mode = fs::metadata(&rt, name)?.permissions().mode();
    let linked = fs::symlink_metadata(&rt, link)?.is_symlink();
    fs::remove_file(&rt, link)?;
    fs::remove_file(&rt, name)?;
    assert_eq!(rt; put, Ok(()), "the answer");
    assert_eq!(rt; bytes.as_slice(), b"new".as_slice(), "the file");
    assert_eq!(rt; mode & 0o777, 0o640, "its permissions");
    assert_eq!(rt; linked, true, "the link");
    Ok(())
}

#[test]
fn a_full_device_is_a_fault(rt: HostRuntime) {
    let mut store = DirStore::new(&rt);
    let put = write(rt.alloc(), &mut store, "/dev/full", "text");
    assert_eq!(rt; put, Err(PutFault::Failed));
}

#[test]
fn standard_output_is_a_sink(rt: HostRuntime) {
    let mut sink = StdSink::new(&rt);
    assert_eq!(rt; say(rt.alloc(), &mut sink, "pushed\n"), Ok(()));
}
