//! Reports by several workers.

use crate::rows::written_on;
use std::alloc::Global;
use std::sync::Wait;
use std::thread::Threads;
use tests_systems::MeetingGate;
use wpds_base::OutOfMemory;
use wpds_port::OpenGate;

/// Documents with what `check --brief` writes on them.
type Rows<'a> = &'a [(&'a str, &'a str)];

// A system that grows, copies with a return map, and growth again, with stars.
const ROWS: Rows<'static> = &[
    (
        "wpds 1
weights cost 100
controls p
symbols a
rule p a -> p a a : 1
rule p a -> p : 0
query p: a => p: a a a
query p: a => p:
",
        "query 1: 2
query 2: 0
",
    ),
    (
        "wpds 1
weights copy
controls p
symbols a f b c
variables x
rule p a -> p f b return restore x
rule p a -> p f c
rule p f -> p : x=7
query p: a => p: b
query p: a => p: c
",
        "query 1: x=x
query 2: x=7
",
    ),
    (
        "wpds 1
weights cost 100
controls p
symbols a
rule p a -> p a a : 1
rule p a -> p : 0
query p: a {a}* => p: {a}*
query p: a => p: a a a {a}*
",
        "query 1: 0
query 2: 2
",
    ),
];

// One document for each of the weights. In each, two runs lead from the first pattern to the second, but the last rule of the first
// leads nowhere. Both patterns have two edges, so that two transitions wait at first, backwards and forwards.
const WEIGHTS: Rows<'static> = &[
    (
        "wpds 1
weights reach
controls p
symbols a b c d
rule p a -> p c
rule p b -> p d : none
query p: {a b} => p: {c d}
",
        "query 1: reachable
",
    ),
    (
        "wpds 1
weights cost 100
controls p
symbols a b c d
rule p a -> p c : 3
rule p b -> p d : 2
query p: {a b} => p: {c d}
",
        "query 1: 2
",
    ),
    (
        "wpds 1
weights genkill
controls p
symbols a b c d
facts f g h
rule p a -> p c : +f -h
rule p b -> p d : -g -h
query p: {a b} => p: {c d}
",
        "query 1: gen f kill h
",
    ),
    (
        "wpds 1
weights copy
controls p
symbols a b c d
variables x y z
rule p a -> p c : x=1 y=2 z=3
rule p b -> p d : x=1 y=4
query p: {a b} => p: {c d}
",
        "query 1: x=1 y=? z=3,z
",
    ),
    (
        "wpds 1
weights relation
controls p
symbols a b c d
variables x
rule p a -> p c : assume x
rule p b -> p d : assume !x
query p: {a b} => p: {c d}
",
        "query 1: relation x' 1 0; x' 0 1; x 2 3
",
    ),
];

// A driver that takes one lock and gives it back, and a queue behind a lock with a bug and without it.
const LOCKS: Rows<'static> = &[
    (
        "bool 1
# a driver that takes one lock and gives it back
global locked busy

proc acquire()
  A1: assert !locked
  locked := 1
end

proc release()
  R1: assert locked
  locked := 0
end

proc request() returns 1
  local ok
  ok := *
  if ok
    busy := 1
  else
    busy := 0
  end
  return ok
end

proc work(hard)
  local more
  more := hard
  while more
    more := call request()
    if busy & !more
      BAD: skip
    end
  end
end

proc main()
  local got again
  locked, busy := 0, 0
  again := 1
  while again
    call acquire()
    got := call request()
    if got
      call release()
      call work(1)
      call acquire()
    end
    if *
      call release()
      again := *
    else
      skip
    end
  end
  LAST: skip
end

query fails A1
query fails R1
query reach BAD
query reach LAST
",
        "query 1: reachable
query 2: unreachable
query 3: unreachable
query 4: reachable
",
    ),
    (
        "bool 1
# A queue behind a lock. A full queue is flushed before something more is put into it.
global held full

proc take()
  TAKE: assert !held
  held := 1
end

proc give()
  GIVE: assert held
  held := 0
end

proc flush()
  call take()
  full := 0
  call give()
end

proc submit()
  call take()
  if full
    # the bug: flush takes the lock, which is held here
    call flush()
  end
  full := *
  call give()
end

proc main()
  assume !held & !full
  while *
    call submit()
  end
  call flush()
  DONE: skip
end

query fails TAKE
query fails GIVE
query reach DONE
",
        "query 1: reachable
query 2: unreachable
query 3: reachable
",
    ),
    (
        "bool 1
# A queue behind a lock. A full queue is flushed before something more is put into it.
global held full

proc take()
  TAKE: assert !held
  held := 1
end

proc give()
  GIVE: assert held
  held := 0
end

proc flush()
  call take()
  full := 0
  call give()
end

proc submit()
  call take()
  if full
    # flush takes the lock, so it is given back here
    call give()
    call flush()
    call take()
  end
  full := *
  call give()
end

proc main()
  assume !held & !full
  while *
    call submit()
  end
  call flush()
  DONE: skip
end

query fails TAKE
query fails GIVE
query reach DONE
",
        "query 1: unreachable
query 2: unreachable
query 3: reachable
",
    ),
];

// The lines of values of a report, without listings and traces.
fn values_of(alloc: Global, report: &[u8]) -> Result<Vec<u8>, OutOfMemory> {
    let mut values = Vec::new(alloc);
    for line in report.split(|byte| *byte == b'\n') {
        if line.starts_with(b"query ") {
            values.extend_from_slice(line)?;
            values.push(b'\n')?;
        }
    }
    Ok(values)
}

// What a run on these words writes on a document. If its workers are to meet, that is none unless they do: the first of them that has
// a hand is held until another one has one too.
fn written_if_met(
    rt: &(impl Threads + Wait + Sync + AllocGlobal),
    words: &[&str],
    document: &str,
    meet: bool,
) -> Result<Option<Vec<u8>>, OutOfMemory> {
    if !meet {
        return Ok(Some(written_on(rt, words, document.as_bytes(), &OpenGate)?));
    }
    let gate = MeetingGate::new();
    let report = written_on(rt, words, document.as_bytes(), &gate)?;
    Ok(gate.have_met().then_some(report))
}

// Whether so many workers write these values of a document, by a direction: alone, with listings, with traces, and with both. Each
// time they have to meet, if they are to.
fn finds(
    rt: &(impl Threads + Wait + Sync + AllocGlobal),
    row: &(&str, &str),
    by: &str,
    workers: &str,
    meet: bool,
) -> Result<bool, OutOfMemory> {
    let (document, values) = row;
    let words = [
        "--brief",
        "check",
        "--by",
        by,
        "--workers",
        workers,
        "--traces",
    ];
    let ways = [
        (&words[..6], true),
        (&words[1..6], false),
        (&words[..], false),
        (&words[1..], false),
    ];
    for (words, alone) in ways {
        let Some(report) = written_if_met(rt, words, document, meet)? else {
            return Ok(false);
        };
        let lines = if alone {
            report
        } else {
            values_of(rt.alloc(), &report)?
        };
        if lines.as_slice() != values.as_bytes() {
            return Ok(false);
        }
    }
    Ok(true)
}

// The place of the first row of which one of these numbers of workers, which is told too, writes other values by a direction, or
// whose workers do not meet where they are to.
fn first_wrong<'w>(
    rt: &(impl Threads + Wait + Sync + AllocGlobal),
    rows: Rows<'_>,
    by: &str,
    counts: &[&'w str],
    meet: bool,
) -> Result<Option<(usize, &'w str)>, OutOfMemory> {
    for (place, row) in rows.iter().enumerate() {
        for workers in counts {
            if !finds(rt, row, by, workers, meet)? {
                return Ok(Some((place, *workers)));
            }
        }
    }
    Ok(None)
}

// Backwards two transitions or more wait at first in each row, of patterns and of rules that pop, so that two workers have hands at
// once wherever there are two. Forwards one configuration begins, with one transition.
#[test]
fn each_count_of_workers_writes_the_same(rt: HostRuntime) -> Result<(), OutOfMemory> {
    assert_eq!(rt; first_wrong(&rt, ROWS, "pre", &["1"], false)?, None);
    assert_eq!(rt;
        first_wrong(&rt, ROWS, "pre", &["2", "8", "64"], true)?,
        None
    );
    assert_eq!(rt;
        first_wrong(&rt, ROWS, "post", &["1", "2", "8", "64"], false)?,
        None
    );
    Ok(())
}

#[test]
fn workers_meet_over_each_weight(rt: HostRuntime) -> Result<(), OutOfMemory> {
    assert_eq!(rt; first_wrong(&rt, WEIGHTS, "pre", &["2", "8"], true)?, None);
    assert_eq!(rt; first_wrong(&rt, WEIGHTS, "post", &["2", "8"], true)?, None);
    Ok(())
}

#[test]
fn workers_meet_over_programs(rt: HostRuntime) -> Result<(), OutOfMemory> {
    assert_eq!(rt; first_wrong(&rt, LOCKS, "pre", &["1"], false)?, None);
    assert_eq!(rt; first_wrong(&rt, LOCKS, "pre", &["2", "8"], true)?, None);
    assert_eq!(rt;
        first_wrong(&rt, LOCKS, "post", &["1", "2", "8"], false)?,
        None
    );
    Ok(())
}

// Growth at a cost.
const GROWTH: &str = "wpds 1
weights cost 100
controls p
symbols a
rule p a -> p a a : 1
rule p a -> p : 0
query p: a => p: {a}*
";

// No rule changes x, so that each run leads from a value to itself.
const EVEN_GROWTH: &str = "wpds 1
weights relation
controls p
symbols a
variables x
rule p a -> p a a
rule p a -> p
query p: a => p: {a}*
";

// The empty run is found before all others, by any number of workers: its transition waits first.
const EVEN_REPORT: &str = "query 1: relation x' 1 0; x' 0 1; x 2 3
  set 0 = empty
  answer set 0
";

// What runs on these words write, to the byte, with workers who meet.
const MEETINGS: [(&[&str], &str, &str); 5] = [
    (
        &["check", "--brief", "--workers", "2"],
        GROWTH,
        "query 1: 0\n",
    ),
    (&["check", "--workers", "2"], EVEN_GROWTH, EVEN_REPORT),
    (&["check", "--workers", "8"], EVEN_GROWTH, EVEN_REPORT),
    (&["check", "--workers", "64"], EVEN_GROWTH, EVEN_REPORT),
    (
        &["gen", "20", "--workers", "2"],
        "",
        "gen 20: 61 rules, value 1048576\n",
    ),
];

// Two workers have hands out at once. Without the workers, or with all their work on one thread, the gate would hold the first of them
// in vain.
#[test]
fn two_workers_meet(rt: HostRuntime) -> Result<(), OutOfMemory> {
    for (words, document, report) in MEETINGS {
        let Some(text) = written_if_met(&rt, words, document, true)? else {
            panic!(rt; "two of them did not meet: {words:?}")
        };
        assert_eq!(rt; text.as_slice(), report.as_bytes());
    }
    Ok(())
}
