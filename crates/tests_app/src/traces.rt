//! The longest run of which each rule is written.

use crate::running::outcome;
use std::alloc::Global;
use std::sync::Wait;
use std::test::Fail;
use std::thread::Threads;
use wpds_base::OutOfMemory;

// A system whose one run has two rules fewer than a binary numeral says that begins with 11, by the digits behind these,
// the last one first: each rung enters the next one twice, and a 1 is a step more.
fn doubled(alloc: Global, digits: &str) -> Result<String, OutOfMemory> {
    let mut symbols = String::new(alloc);
    let mut rules = String::new(alloc);
    let mut next: u64 = 0;
    for digit in digits.as_bytes() {
        let k = next;
        next = next.saturating_add(1);
        symbols.push_str(format!(in alloc; " e{k} m{k} s{k}")?.as_str())?;
        rules.push_str(format!(in alloc; "rule p e{k} -> p e{next} m{k}\n")?.as_str())?;
        if *digit == b'1' {
            rules.push_str(format!(in alloc; "rule p m{k} -> p s{k}\n")?.as_str())?;
            rules.push_str(format!(in alloc; "rule p s{k} -> p e{next}\n")?.as_str())?;
        } else {
            rules.push_str(format!(in alloc; "rule p m{k} -> p e{next}\n")?.as_str())?;
        }
    }
    let (symbols, rules) = (symbols.as_str(), rules.as_str());
    let text = format!(in alloc;
        "wpds 1\nweights reach\ncontrols p\nsymbols{symbols} e{next}\n{rules}rule p e{next} -> p\nquery p: e0 => p:\n"
    )?;
    Ok(text)
}

// What is written on such a system, with its runs.
fn of_doubled(
    rt: &(impl Threads + Wait + Sync + AllocGlobal),
    digits: &str,
    by: &str,
) -> Result<Vec<u8>, OutOfMemory> {
    let document = doubled(rt.alloc(), digits)?;
    let words = ["check", "--brief", "--traces", "--by", by];
    let (_, written) = outcome(rt, &words, document.as_bytes(), &[], 2_000_000, &[])?;
    Ok(written)
}

// One run of 99,999 rules has the size 100,000, and one of 100,000 rules is too long. The first begins with the rules by
// which each rung is entered, of which those of the first rung are three.
#[test]
fn the_longest_run(rt: HostRuntime) -> Result<(), Fail> {
    for by in ["pre", "post"] {
        let written = of_doubled(&rt, "100001010110000", by)?;
        let beginning = b"query 1: reachable\n  run: rule 1, rule 4, rule 6, ";
        assert!(rt; written.starts_with(beginning), "by {by}");
        assert_eq!(rt;
            written.iter().filter(|byte| **byte == b',').count(),
            99_998,
            "by {by}"
        );
        assert_eq!(rt;
            written.iter().filter(|byte| **byte == b'\n').count(),
            2,
            "by {by}"
        );
        let longer = of_doubled(&rt, "010001010110000", by)?;
        let too_long = "query 1: reachable\n  traces: too long\n";
        assert_eq!(rt; longer.as_slice(), too_long.as_bytes(), "by {by}");
    }
    Ok(())
}
