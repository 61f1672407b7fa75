//! What `check --brief` writes on small random programs, against the points that a walk meets.

use crate::reading::read;
use crate::told::report;
use crate::writing::program;
use std::sync::Wait;
use std::thread::Threads;
use wpds_app::run;
use wpds_base::OutOfMemory;
use wpds_port::{MemSink, MemSource, OpenGate, ReadFault};

// How many bytes are written at most.
const ROOM: usize = 10_000;

// How many bytes are read or written at a time.
const PIECE: usize = 4096;

// How many programs a test goes through.
const MANY: u64 = 100;

// What `check --brief` writes on a program by a direction, `pre` or `post`.
fn written(
    rt: &(impl Threads + Wait + Sync + AllocGlobal),
    program: &str,
    by: &str,
) -> Result<Vec<u8>, OutOfMemory> {
    let mut words = Vec::new(rt.alloc());
    for word in ["check", "--brief", "--by", by] {
        words.push(String::from_str(rt.alloc(), word)?)?;
    }
    let bytes = program.as_bytes().to_vec(rt.alloc())?;
    let mut source = MemSource::new(bytes, PIECE, Vec::new(rt.alloc()));
    let mut sink = MemSink::new(rt.alloc(), ROOM, PIECE, Vec::new(rt.alloc()))?;
    let _ = run(rt, rt.alloc(), &words, &mut source, &mut sink, &OpenGate);
    Ok(sink.written().to_vec(rt.alloc())?)
}

// Whether a program is answered, by both directions, as the walk through it says.
fn is_right(
    rt: &(impl Threads + Wait + Sync + AllocGlobal),
    text: &str,
) -> Result<bool, ReadFault> {
    let program = read(rt.alloc(), text.as_bytes())?;
    let Some(wanted) = report(rt.alloc(), &program)? else {
        return Ok(false);
    };
    let backwards = written(rt, text, "pre")?;
    let forwards = written(rt, text, "post")?;
    Ok(backwards.as_slice() == wanted.as_bytes() && forwards.as_slice() == wanted.as_bytes())
}

// The first of the programs drawn from so many seeds that has other answers.
fn first_wrong(
    rt: &(impl Threads + Wait + Sync + AllocGlobal),
    seed: u64,
    recursive: bool,
) -> Result<Option<String>, ReadFault> {
    for number in 0..MANY {
        let text = program(rt.alloc(), seed.saturating_add(number), recursive)?;
        if !is_right(rt, text.as_str())? {
            return Ok(Some(text));
        }
    }
    Ok(None)
}

#[test]
fn first_hundred(rt: HostRuntime) -> Result<(), ReadFault> {
    assert_eq!(rt; first_wrong(&rt, 0, false)?, None);
    Ok(())
}

#[test]
fn second_hundred(rt: HostRuntime) -> Result<(), ReadFault> {
    assert_eq!(rt; first_wrong(&rt, 100, false)?, None);
    Ok(())
}

#[test]
fn third_hundred(rt: HostRuntime) -> Result<(), ReadFault> {
    assert_eq!(rt; first_wrong(&rt, 200, false)?, None);
    Ok(())
}

#[test]
fn fourth_hundred(rt: HostRuntime) -> Result<(), ReadFault> {
    assert_eq!(rt; first_wrong(&rt, 300, false)?, None);
    Ok(())
}

#[test]
fn a_hundred_that_call_themselves(rt: HostRuntime) -> Result<(), ReadFault> {
    assert_eq!(rt; first_wrong(&rt, 400, true)?, None);
    Ok(())
}
