//! Failing devices, and documents that are cut off.

use crate::rows::written;
use std::sync::Wait;
use std::thread::Threads;
use wpds_app::{Status, run};
use wpds_base::OutOfMemory;
use wpds_port::{MemSink, MemSource, OpenGate};

// 108 bytes.
const CALL: &str = "wpds 1
weights cost 100
controls p q
symbols a b
rule p a -> p b a : 2
rule p b -> q : 1
query p: a => q: a
";

// How `check --brief` ends on the document, read 16 bytes at a time and written 4 at a time, and
// what is written.
fn outcome(
    rt: &(impl Threads + Wait + Sync + AllocGlobal),
    failing_read: u64,
    room: usize,
    failing_write: u64,
) -> Result<(Status, Vec<u8>), OutOfMemory> {
    let mut words = Vec::new(rt.alloc());
    words.push(String::from_str(rt.alloc(), "check")?)?;
    words.push(String::from_str(rt.alloc(), "--brief")?)?;
    let reads = vec![in rt.alloc(); failing_read]?;
    let mut source = MemSource::new(CALL.as_bytes().to_vec(rt.alloc())?, 16, reads);
    let writes = vec![in rt.alloc(); failing_write]?;
    let mut sink = MemSink::new(rt.alloc(), room, 4, writes)?;
    let status = run(rt, rt.alloc(), &words, &mut source, &mut sink, &OpenGate);
    Ok((status, sink.written().to_vec(rt.alloc())?))
}

// What is written on it.
const LINE: &str = "query 1: 3\n";

// No call has this number.
const NEVER: u64 = 1_000_000;

// Whether a read that fails gives status 3 and nothing written.
fn stops_at_read(
    rt: &(impl Threads + Wait + Sync + AllocGlobal),
    call: u64,
) -> Result<bool, OutOfMemory> {
    let (status, text) = outcome(rt, call, 100, NEVER)?;
    Ok(status == Status::ReadFault && text.is_empty())
}

// 108 bytes are seven reads, and an eighth finds the end.
#[test]
fn failing_reads(rt: HostRuntime) -> Result<(), OutOfMemory> {
    for call in 0..8u64 {
        assert!(rt; stops_at_read(&rt, call)?, "at read {call}");
    }
    let (status, text) = outcome(&rt, 8, 100, NEVER)?;
    assert_eq!(rt; status, Status::Answered);
    assert_eq!(rt; text.as_slice(), LINE.as_bytes());
    Ok(())
}

// Whether so many bytes of the line are written, and then a fault is told.
fn stops_behind(
    rt: &(impl Threads + Wait + Sync + AllocGlobal),
    room: usize,
    call: u64,
    count: usize,
) -> Result<bool, OutOfMemory> {
    let (status, text) = outcome(rt, NEVER, room, call)?;
    Ok(status == Status::WriteFault && text.len() == count && LINE.as_bytes().starts_with(&text))
}

// The last call is the flush.
#[test]
fn failing_writes(rt: HostRuntime) -> Result<(), OutOfMemory> {
    assert!(rt; stops_behind(&rt, 100, 0, 0)?);
    assert!(rt; stops_behind(&rt, 100, 1, 4)?);
    assert!(rt; stops_behind(&rt, 100, 2, 8)?);
    assert!(rt; stops_behind(&rt, 100, 3, 11)?);
    assert!(rt; stops_behind(&rt, 9, NEVER, 8)?);
    Ok(())
}

#[test]
fn room_for_the_line(rt: HostRuntime) -> Result<(), OutOfMemory> {
    let (status, text) = outcome(&rt, NEVER, 11, NEVER)?;
    assert_eq!(rt; status, Status::Answered);
    assert_eq!(rt; text.as_slice(), LINE.as_bytes());
    Ok(())
}

// What is written on the first so many bytes of the document begins so.
fn begins(
    rt: &(impl Threads + Wait + Sync + AllocGlobal),
    length: usize,
    text: &str,
) -> Result<bool, OutOfMemory> {
    match CALL.as_bytes().get(..length) {
        Some(document) => Ok(written(rt, document)?.starts_with(text.as_bytes())),
        None => Ok(false),
    }
}

#[test]
fn documents_that_are_cut_off(rt: HostRuntime) -> Result<(), OutOfMemory> {
    for length in 0..105usize {
        assert!(rt; begins(&rt, length, "refused: line ")?, "at {length}");
    }
    assert!(rt; begins(&rt, 105, "query 1: unreachable\n")?);
    assert!(rt; begins(&rt, 106, "query 1: unreachable\n")?);
    assert!(rt; begins(&rt, 107, "query 1: 3\n")?);
    assert!(rt; begins(&rt, 108, "query 1: 3\n")?);
    Ok(())
}
