//! The longest run of a program of which each state is written.

use crate::rows::written_on;
use std::alloc::Global;
use std::sync::Wait;
use std::thread::Threads;
use wpds_base::OutOfMemory;
use wpds_port::OpenGate;

// A program whose one run to END has two moves fewer than a binary numeral says that begins with 110, by the digits behind
// these, the last one first: each procedure calls the next one twice, and a 1 is a line more.
fn tower(alloc: Global, digits: &str) -> Result<String, OutOfMemory> {
    let mut text = String::from_str(
        alloc,
        "bool 1\nproc main()\n  call f0()\n  END: skip\nend\n",
    )?;
    let mut next: u64 = 0;
    for digit in digits.as_bytes() {
        let k = next;
        next = next.saturating_add(1);
        let more = if *digit == b'1' { "  skip\n" } else { "" };
        let line = format!(in alloc;
            "proc f{k}()\n{more}  call f{next}()\n  call f{next}()\nend\n"
        )?;
        text.push_str(line.as_str())?;
    }
    let last = format!(in alloc; "proc f{next}()\n  skip\n  skip\nend\nquery reach END\n")?;
    text.push_str(last.as_str())?;
    Ok(text)
}

// What is written on such a program, with its states.
fn of_tower(
    rt: &(impl Threads + Wait + Sync + AllocGlobal),
    digits: &str,
    by: &str,
) -> Result<Vec<u8>, OutOfMemory> {
    let program = tower(rt.alloc(), digits)?;
    let words = ["check", "--brief", "--traces", "--by", by, "--workers", "1"];
    written_on(rt, &words, program.as_bytes(), &OpenGate)
}

// One run of 99,999 moves has the size 100,000, and as many states. One of 100,000 moves is too long.
#[test]
fn the_longest_run_of_a_program(rt: HostRuntime) -> Result<(), OutOfMemory> {
    for by in ["pre", "post"] {
        let written = of_tower(&rt, "10000101011000", by)?;
        let beginning = b"query 1: reachable\n  trace:\n    line 3:\n    line 7:\n";
        assert!(rt; written.starts_with(beginning), "by {by}");
        assert!(rt;
            written.ends_with(b"    line 10:\n    line 4:\n"),
            "by {by}"
        );
        assert_eq!(rt;
            written.iter().filter(|byte| **byte == b'\n').count(),
            100_002,
            "by {by}"
        );
        let longer = of_tower(&rt, "01000101011000", by)?;
        let too_long = "query 1: reachable\n  traces: too long\n";
        assert_eq!(rt; longer.as_slice(), too_long.as_bytes(), "by {by}");
    }
    Ok(())
}
