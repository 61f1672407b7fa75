//! Ladders that the program makes for itself.

use std::sync::Wait;
use std::thread::Threads;
use tests_systems::CountingGate;
use wpds_app::{Status, run};
use wpds_base::OutOfMemory;
use wpds_port::{MemSink, MemSource};

// What these words write, and how often the gate is called. A read would fail.
fn generated(
    rt: &(impl Threads + Wait + Sync + AllocGlobal),
    words: &[&str],
) -> Result<(Status, Vec<u8>, u64), OutOfMemory> {
    let alloc = rt.alloc();
    let mut owned = Vec::new(alloc);
    for word in words {
        owned.push(String::from_str(alloc, word)?)?;
    }
    let mut source = MemSource::new(Vec::new(alloc), 16, vec![in alloc; 0]?);
    let mut sink = MemSink::new(alloc, 100, 64, Vec::new(alloc))?;
    let gate = CountingGate::new();
    let status = run(rt, alloc, &owned, &mut source, &mut sink, &gate);
    Ok((status, sink.written().to_vec(alloc)?, gate.calls()))
}

const ROWS: [(&[&str], &str); 6] = [
    (&["gen", "1"], "gen 1: 4 rules, value 2\n"),
    (&["gen", "1", "--by", "post"], "gen 1: 4 rules, value 2\n"),
    (&["gen", "20"], "gen 20: 61 rules, value 1048576\n"),
    (
        &["gen", "20", "--by", "post", "--workers", "8"],
        "gen 20: 61 rules, value 1048576\n",
    ),
    (
        &["gen", "30"],
        "gen 30: 91 rules, value 1000000000 or more\n",
    ),
    (
        &["gen", "30", "--by", "post"],
        "gen 30: 91 rules, value 1000000000 or more\n",
    ),
];

#[test]
fn ladders_have_their_values(rt: HostRuntime) -> Result<(), OutOfMemory> {
    for (words, text) in ROWS {
        let (status, written, _) = generated(&rt, words)?;
        assert_eq!(rt; status, Status::Answered);
        assert_eq!(rt; written.as_slice(), text.as_bytes());
    }
    Ok(())
}

// A saturation takes each of the ladder's transitions once at least, and calls the gate for each.
#[test]
fn a_ladder_is_saturated(rt: HostRuntime) -> Result<(), OutOfMemory> {
    let (_, _, calls) = generated(&rt, &["gen", "20"])?;
    assert!(rt; calls >= 61);
    Ok(())
}
