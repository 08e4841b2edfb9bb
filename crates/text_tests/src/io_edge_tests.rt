//! Each call once, with values from squared paper.

use io_edge::{
    Files, MemFiles, MemSink, MemSource, ReadStop, RealFiles, RealIn, RealOut, Sink, Source,
    SureFiles, SureSink, SureSource, read_whole, write_whole,
};
use std::alloc::{AllocError, Global};
use std::fs;
use std::process::Abort;
use std::test::Fail;

fn file(alloc: Global, bytes: &[u8]) -> Result<Vec<(String, Vec<u8>)>, AllocError> {
    let mut files = Vec::new(alloc);
    files.push((
        String::from_str(alloc, "map")?,
        Vec::from_slice(alloc, bytes)?,
    ))?;
    Ok(files)
}

// The file in memory, read in pieces of 16; the read of this number fails, and none where it is 0.
fn in_memory(alloc: Global, bytes: &[u8], failing: u64) -> Result<MemFiles, AllocError> {
    Ok(MemFiles::new(file(alloc, bytes)?, 16, vec![in alloc; failing]?))
}

// What was read is this, or no read came to an end for the same reason.
fn compare(rt: &impl Abort, read: Result<Vec<u8>, ReadStop>, expected: Result<&[u8], ReadStop>) {
    match (read, expected) {
        (Ok(read), Ok(bytes)) => assert_eq!(rt; read.as_slice(), bytes),
        (Err(ReadStop::Fault), Err(ReadStop::Fault)) => {}
        (Err(ReadStop::TooLong), Err(ReadStop::TooLong)) => {}
        _ => assert!(rt; false),
    }
}

#[test]
fn a_whole_file_is_read_in_pieces(rt: HostRuntime) -> Result<(), Fail> {
    let alloc = rt.alloc();
    let text = b"type octile\nheight 1\nwidth 1\nmap\n.\n";
    let mut files = in_memory(alloc, text, 0)?;
    compare(&rt, read_whole(alloc, &mut files, "map", 100), Ok(text));
    files = in_memory(alloc, text, 2)?;
    let read = read_whole(alloc, &mut files, "map", 100);
    compare(&rt, read, Err(ReadStop::Fault));
    Ok(())
}

#[test]
fn a_file_of_one_byte_more_is_too_long(rt: HostRuntime) -> Result<(), Fail> {
    let alloc = rt.alloc();
    let mut files = SureFiles::new(file(alloc, b"0123456789")?);
    let read = read_whole(alloc, &mut files, "map", 10);
    compare(&rt, read, Ok(b"0123456789"));
    files = SureFiles::new(file(alloc, b"0123456789a")?);
    let read = read_whole(alloc, &mut files, "map", 10);
    compare(&rt, read, Err(ReadStop::TooLong));
    Ok(())
}

#[test]
fn an_absent_file_fails_or_is_empty(rt: HostRuntime) -> Result<(), Fail> {
    let alloc = rt.alloc();
    let read = read_whole(alloc, &mut in_memory(alloc, b"x", 0)?, "absent", 10);
    compare(&rt, read, Err(ReadStop::Fault));
    let read = read_whole(alloc, &mut RealFiles::new(&rt), "no/such/file", 10);
    compare(&rt, read, Err(ReadStop::Fault));
    let mut files = SureFiles::new(file(alloc, b"x")?);
    compare(&rt, read_whole(alloc, &mut files, "absent", 10), Ok(b""));
    Ok(())
}

// Of `walk` this front part is written before a write fails.
fn check_front(rt: &impl Abort, mut sink: MemSink, front: &[u8]) {
    assert!(rt; write_whole(&mut sink, b"walk").is_err());
    assert_eq!(rt; sink.bytes(), front);
}

// The second call fails; there is room for three bytes; and all are taken.
#[test]
fn a_failed_write_leaves_a_front_part(rt: HostRuntime) -> Result<(), Fail> {
    let alloc = rt.alloc();
    check_front(&rt, MemSink::new(alloc, 10, 1, vec![in alloc; 2]?)?, b"w");
    check_front(&rt, MemSink::new(alloc, 3, 2, Vec::new(alloc))?, b"wal");
    let mut sink = SureSink::new();
    assert!(rt; write_whole(&mut sink, b"walk").is_ok());
    assert_eq!(rt; sink.count(), 4);
    Ok(())
}

// Reads of at most three bytes give so many, or fail.
fn check_pieces<S: Source>(rt: &impl Abort, source: &mut S, expected: [Option<usize>; 4]) {
    let mut buf = [0u8; 3];
    for piece in expected {
        assert_eq!(rt; source.read(&mut buf).ok(), piece);
    }
}

#[test]
fn a_source_is_read_to_its_end(rt: HostRuntime) -> Result<(), Fail> {
    let alloc = rt.alloc();
    let mut source = MemSource::new(Vec::from_slice(alloc, b"walk")?, 2, vec![in alloc; 2]?);
    check_pieces(&rt, &mut source, [Some(2), None, Some(2), Some(0)]);
    let mut source = SureSource::new(Vec::from_slice(alloc, b"walk")?);
    check_pieces(&rt, &mut source, [Some(3), Some(1), Some(0), Some(0)]);
    let mut source = RealIn::new(b"walk".as_slice());
    check_pieces(&rt, &mut source, [Some(3), Some(1), Some(0), Some(0)]);
    Ok(())
}

#[test]
fn a_real_file_is_read_to_its_end(rt: HostRuntime) -> Result<(), Fail> {
    let name = "io_edge_test.txt";
    fs::write(&rt, name, "walk")?;
    let read = read_whole(rt.alloc(), &mut RealFiles::new(&rt), name, 4);
    compare(&rt, read, Ok(b"walk"));
    fs::remove_file(&rt, name)?;
    Ok(())
}

// Reads of two bytes from these places give these bytes.
fn check_reads<F: Files>(rt: &impl Abort, files: &mut F, name: &str, reads: &[(u8, &[u8])]) {
    let mut buf = [0u8; 2];
    for (place, bytes) in reads {
        assert_eq!(rt;
            files.read_at(name, u64::from(*place), &mut buf).ok(),
            Some(bytes.len())
        );
        assert_eq!(rt; buf.starts_with(bytes), true, "from byte {place}");
    }
}

// A file is read on from what was opened, though another one takes its name; from its first byte on the other
// one is read, and so is a file of another name.
#[test]
fn a_replaced_file_is_read_to_its_own_end(rt: HostRuntime) -> Result<(), Fail> {
    let (old, new) = ("io_edge_old.txt", "io_edge_new.txt");
    fs::write(&rt, old, "walk")?;
    fs::write(&rt, new, "WALKED")?;
    let mut files = RealFiles::new(&rt);
    check_reads(&rt, &mut files, old, &[(0, b"wa")]);
    fs::rename(&rt, new, old)?;
    check_reads(&rt, &mut files, old, &[(2, b"lk"), (4, b""), (0, b"WA")]);
    fs::write(&rt, new, "other")?;
    check_reads(&rt, &mut files, new, &[(2, b"he"), (4, b"r")]);
    fs::remove_file(&rt, old)?;
    fs::remove_file(&rt, new)?;
    Ok(())
}

// A folder, a device that is empty, and one that never ends.
#[test]
fn only_regular_files_are_read(rt: HostRuntime) {
    for name in [".", "/dev/null", "/dev/zero"] {
        let read = read_whole(rt.alloc(), &mut RealFiles::new(&rt), name, 10);
        compare(&rt, read, Err(ReadStop::Fault));
    }
}

#[test]
fn a_real_sink_writes_to_its_writer(rt: HostRuntime) -> Result<(), Fail> {
    let mut bytes = Vec::new(rt.alloc());
    let mut sink = RealOut::new(&mut bytes);
    assert!(rt; write_whole(&mut sink, b"walk").is_ok());
    drop(sink);
    assert_eq!(rt; bytes.as_slice(), b"walk".as_slice());
    Ok(())
}
