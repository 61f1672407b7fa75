//! What `check` writes on a document.

use std::sync::Wait;
use std::thread::Threads;
use wpds_app::run;
use wpds_base::OutOfMemory;
use wpds_port::{Gate, MemSink, MemSource, OpenGate};

// How many bytes are written at most.
const ROOM: usize = 2_000_000;

// How many bytes are read or written at a time.
const PIECE: usize = 4096;

/// What `check --brief` writes on a document.
pub(crate) fn written(
    rt: &(impl Threads + Wait + Sync + AllocGlobal),
    document: &[u8],
) -> Result<Vec<u8>, OutOfMemory> {
    written_by(rt, document, "pre", "1")
}

/// What `check --brief` writes on a document by a direction, `pre` or `post`, and so many workers.
pub(crate) fn written_by(
    rt: &(impl Threads + Wait + Sync + AllocGlobal),
    document: &[u8],
    by: &str,
    workers: &str,
) -> Result<Vec<u8>, OutOfMemory> {
    let words = ["check", "--brief", "--by", by, "--workers", workers];
    written_on(rt, &words, document, &OpenGate)
}

/// What a run on these words writes on a document, where its workers call this gate.
pub(crate) fn written_on<G: Gate>(
    rt: &(impl Threads + Wait + Sync + AllocGlobal),
    line: &[&str],
    document: &[u8],
    gate: &G,
) -> Result<Vec<u8>, OutOfMemory> {
    let mut words = Vec::new(rt.alloc());
    for word in line {
        words.push(String::from_str(rt.alloc(), word)?)?;
    }
    let mut source = MemSource::new(document.to_vec(rt.alloc())?, PIECE, Vec::new(rt.alloc()));
    let mut sink = MemSink::new(rt.alloc(), ROOM, PIECE, Vec::new(rt.alloc()))?;
    let _ = run(rt, rt.alloc(), &words, &mut source, &mut sink, gate);
    Ok(sink.written().to_vec(rt.alloc())?)
}
