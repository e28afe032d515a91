//! What no clause sees: that the adapters reach the real files and streams, that the fakes with ample
//! memory answer, and what a source in memory gives and counts.

use isel_base::{Failed, Files, MemFiles, MemSink, RealFiles, RealOut, Sink, put_all, read_all};
use std::alloc::{AllocError, Global};
use std::fs;
use std::test::Fail;

/// More bytes than one read asks for, no two pieces of them alike.
fn long_text(alloc: Global) -> Result<Vec<u8>, AllocError> {
    let mut bytes = Vec::new(alloc);
    for number in 0..70_000u32 {
        bytes.push((number % 251) as u8)?;
    }
    Ok(bytes)
}

/// Whether all bytes of a file are got, and are these.
fn are_got<F: Files>(alloc: Global, files: &mut F, name: &str, bytes: &[u8]) -> bool {
    match read_all(alloc, files, name) {
        Ok(found) => found.as_slice() == bytes,
        Err(_) => false,
    }
}

#[test]
fn real_files_are_read_to_their_end_and_missing_ones_count(rt: HostRuntime) -> Result<(), Fail> {
    let alloc = rt.alloc();
    let bytes = long_text(alloc)?;
    fs::write(&rt, "long", bytes.as_slice())?;
    let mut files = RealFiles::new(&rt);
    assert!(rt; are_got(alloc, &mut files, "long", &bytes) && files.faults() == 0);
    assert!(rt; read_all(alloc, &mut files, "missing").is_err() && files.faults() == 1);
    fs::remove_file(&rt, "long")?;
    Ok(())
}

#[test]
fn real_streams_are_written(rt: HostRuntime) -> Result<(), Fail> {
    let bytes = long_text(rt.alloc())?;
    let mut out = RealOut::new(fs::create(&rt, "stream")?);
    assert!(rt; put_all(&mut out, bytes.as_slice()).is_ok());
    assert!(rt; out.put(b"") == Ok(0) && out.faults() == 0);
    assert!(rt; fs::read(&rt, "stream")?.as_slice() == bytes.as_slice());
    fs::remove_file(&rt, "stream")?;
    Ok(())
}

/// A file `f` of five bytes, of which a read gives two, and whose second read fails.
fn five_bytes(alloc: Global) -> Result<MemFiles, AllocError> {
    let mut files = Vec::new(alloc);
    let text = Vec::from_slice(alloc, b"abcde")?;
    files.push((String::from_str(alloc, "f")?, text))?;
    Ok(MemFiles::new(files, 2, Vec::from_slice(alloc, &[1])?))
}

#[test]
fn files_in_memory_give_what_is_left_and_fail_in_turn(rt: HostRuntime) -> Result<(), Fail> {
    let mut files = five_bytes(rt.alloc())?;
    let cases = [
        ("the step", "f", 0, Ok(2)),
        ("a failing number", "f", 0, Err(Failed)),
        ("the end", "f", 4, Ok(1)),
        ("past the end", "f", 9, Ok(0)),
        ("no such name", "g", 0, Err(Failed)),
    ];
    for (case, name, place, answer) in cases {
        let mut buffer = [0; 4];
        assert!(rt; files.read(name, place, &mut buffer) == answer, "{case}");
    }
    Ok(())
}

#[test]
fn streams_in_memory_take_a_step_at_a_time(rt: HostRuntime) -> Result<(), Fail> {
    let mut sink = MemSink::new(rt.alloc(), 2, Vec::from_slice(rt.alloc(), &[1])?);
    assert!(rt; sink.put(b"abc") == Ok(2) && sink.put(b"c") == Err(Failed));
    assert!(rt; put_all(&mut sink, b"cde").is_ok() && sink.bytes() == b"abcde".as_slice());
    Ok(())
}
