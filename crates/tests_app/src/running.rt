use std::sync::Wait;
use std::test::Fail;
use std::thread::Threads;
use wpds_app::{Status, run};
use wpds_base::OutOfMemory;
use wpds_port::{MemSink, MemSource, OpenGate};

const CALL: &str =
    "wpds 1\nweights reach\ncontrols p q\nsymbols a b\nrule p a -> p b a\nrule p b -> q\nquery p: a => q: a\n";

const BRIEF: [&str; 2] = ["check", "--brief"];

const USAGE: &str =
    "usage: wpds check [--workers N] [--by pre|post] [--brief] [--traces]\nusage: wpds gen N [--workers N] [--by pre|post]\n";

/// How a run ends that reads 16 bytes at a time and writes 4, and what it writes.
pub(crate) fn outcome(
    rt: &(impl Threads + Wait + Sync + AllocGlobal),
    words: &[&str],
    document: &[u8],
    failing_reads: &[u64],
    room: usize,
    failing_writes: &[u64],
) -> Result<(Status, Vec<u8>), OutOfMemory> {
    let mut owned = Vec::new(rt.alloc());
    for word in words {
        owned.push(String::from_str(rt.alloc(), word)?)?;
    }
    let reads = failing_reads.to_vec(rt.alloc())?;
    let mut source = MemSource::new(document.to_vec(rt.alloc())?, 16, reads);
    let mut sink = MemSink::new(rt.alloc(), room, 4, failing_writes.to_vec(rt.alloc())?)?;
    let status = run(rt, rt.alloc(), &owned, &mut source, &mut sink, &OpenGate);
    Ok((status, sink.written().to_vec(rt.alloc())?))
}

const REACHABLE: &str = "query 1: reachable\n";

#[test]
fn refuses_words(rt: HostRuntime) -> Result<(), Fail> {
    let none: [&str; 0] = [];
    for words in [
        none.as_slice(),
        &["gen"],
        &["Check"],
        &["check", "check"],
        &["check", "brief"],
        &["check", "--brief", "--brief"],
        &["check", "--by"],
        &["check", "--by", "both"],
        &["check", "--by", "pre", "post"],
        &["check", "--brief", "--by"],
        &["check", "--workers"],
        &["check", "--workers", "0"],
        &["check", "--workers", "65"],
        &["check", "--workers", "07"],
        &["check", "--workers", "+3"],
        &["check", "--workers", "two"],
        &["check", "--workers", ""],
        &["check", "--workers", "2", "--workers", "2"],
        &["check", "post"],
        &["check", "5"],
        &["check", "--traces", "--traces"],
        &["gen", "10001"],
        &["gen", "5", "--brief"],
        &["gen", "5", "--traces"],
        &["--by", "post"],
        &[""],
    ] {
        let (ended, written) = outcome(&rt, words, CALL.as_bytes(), &[0], 1000, &[])?;
        assert_eq!(rt; ended, Status::WordsRefused);
        assert_eq!(rt; written.as_slice(), USAGE.as_bytes());
    }
    Ok(())
}

#[test]
fn stops_at_each_fault(rt: HostRuntime) -> Result<(), Fail> {
    let text = REACHABLE.as_bytes();
    let reads = CALL.len() as u64 / 16 + 2;
    for call in 0..reads {
        let (ended, written) = outcome(&rt, &BRIEF, CALL.as_bytes(), &[call], 100, &[])?;
        assert_eq!(rt; ended, Status::ReadFault, "at read {call}");
        assert!(rt; written.is_empty());
    }
    let (ended, _) = outcome(&rt, &BRIEF, CALL.as_bytes(), &[reads], 100, &[])?;
    assert_eq!(rt; ended, Status::Answered);

    // five pieces of the text and the flush
    for call in 0..6u64 {
        let (ended, written) = outcome(&rt, &BRIEF, CALL.as_bytes(), &[], 100, &[call])?;
        assert_eq!(rt; ended, Status::WriteFault, "at write {call}");
        let count = text.len().min(4 * call as usize);
        assert_eq!(rt; written.as_slice(), &text[..count]);
    }
    for room in 0..text.len() {
        let (ended, written) = outcome(&rt, &BRIEF, CALL.as_bytes(), &[], room, &[])?;
        assert_eq!(rt; ended, Status::WriteFault, "with room for {room}");
        assert!(rt; written.len() <= room && text.starts_with(&written));
    }
    let (ended, written) = outcome(&rt, &BRIEF, CALL.as_bytes(), &[], text.len(), &[])?;
    assert_eq!(rt; ended, Status::Answered);
    assert_eq!(rt; written.as_slice(), text);
    Ok(())
}

#[test]
fn refuses_what_is_too_long(rt: HostRuntime) -> Result<(), Fail> {
    for (length, text) in [
        (4_194_304, "refused: line 2: 3 Header\n"),
        (4_194_305, "refused: line 0: 1 TooLong\n"),
        (4_194_306, "refused: line 0: 1 TooLong\n"),
    ] {
        let bytes = vec![in rt.alloc(); b'#'; length]?;
        let (ended, written) = outcome(&rt, &["check"], &bytes, &[], 100, &[])?;
        assert_eq!(rt; ended, Status::DocumentRefused, "at {length}");
        assert_eq!(rt; written.as_slice(), text.as_bytes(), "at {length}");
    }
    Ok(())
}

#[test]
fn refuses_each_beginning(rt: HostRuntime) -> Result<(), Fail> {
    let bytes = CALL.as_bytes();
    let query = "query p: a => q: a\n";
    for length in 0..bytes.len() - query.len() + 1 {
        let (ended, _) = outcome(&rt, &["check"], &bytes[..length], &[], 100, &[])?;
        assert_eq!(rt; ended, Status::DocumentRefused, "at {length}");
    }
    Ok(())
}

#[test]
fn codes_are_told_apart(rt: HostRuntime) {
    for (status, code) in [
        (Status::Answered, 0),
        (Status::WordsRefused, 2),
        (Status::ReadFault, 3),
        (Status::WriteFault, 4),
        (Status::DocumentRefused, 5),
        (Status::OutOfMemory, 6),
    ] {
        assert_eq!(rt; status.code(), code);
    }
}

// Nothing is read: the first read would fail.
#[test]
fn answers_without_a_document(rt: HostRuntime) -> Result<(), Fail> {
    for (words, text) in [
        (["--version"].as_slice(), "wpds 0.1.0\n"),
        (&["check", "-V"], "wpds 0.1.0\n"),
        (&["gen", "1"], "gen 1: 4 rules, value 2\n"),
        (
            &["gen", "3", "--by", "post", "--workers", "2"],
            "gen 3: 10 rules, value 8\n",
        ),
    ] {
        let (ended, written) = outcome(&rt, words, &[], &[0], 100, &[])?;
        assert_eq!(rt; ended, Status::Answered);
        assert_eq!(rt; written.as_slice(), text.as_bytes());
    }
    let (ended, written) = outcome(&rt, &["--help"], &[], &[0], 2000, &[])?;
    assert_eq!(rt; ended, Status::Answered);
    assert!(rt; written.starts_with(b"Says what the runs of a pushdown system are worth"));
    Ok(())
}
