//! Walks by picks that are given.

ghost use Rattle.boolean_programs.specs.Programs.{program_of};
ghost use Rattle.boolean_programs.specs.Structure.{IsRead};
ghost use Rattle.boolean_meaning.specs.HeldStates.{IsHeld};

use crate::reading::read;
use crate::states::{changed, copied, frame, same, state};
use boolean_meaning::{State, is_move, start, step};
use boolean_programs::Program;
use std::alloc::Global;
use wpds_base::OutOfMemory;
use wpds_port::ReadFault;

// Whether the second is a move of the first, and no longer with a bit or the line on top changed.
fn is_just_move(
    alloc: Global,
    program: &Program,
    from: &State,
    to: &State,
) -> Result<bool, OutOfMemory>
    requires { IsRead (program_of program.now) }
{
    for (globals, locals, line) in [(1, 0, 0), (2, 0, 0), (0, 1, 0), (0, 2, 0), (0, 0, 1)] {
        let other = changed(alloc, to, globals, locals, line)?;
        if is_move(program, from, &other) {
            return Ok(false);
        }
    }
    Ok(is_move(program, from, to))
}

// Steps once, and says whether it led to the wanted state, which alone is a move.
fn steps_to(
    alloc: Global,
    program: &Program,
    now: &mut State,
    wanted: &State,
) -> Result<bool, OutOfMemory>
    requires read { IsRead (program_of program.now) }
    requires state { IsHeld (program_of program.now) now.old }
    ensures { IsHeld (program_of program.now) now.new }
{
    let before = copied(alloc, now)?;
    let moved = step(alloc, program, now, 0, 0)?;
    Ok(moved && same(now, wanted) && is_just_move(alloc, program, &before, wanted)?)
}

// `f` returns its parameter.
const CALLING: &[u8] = b"bool 1
global g
proc main()
  local x
  assume !g & !x
  x := 1
  g := call f(x)
  OUT: assert !g
end
proc f(a) returns 1
  return a
end
query fails OUT
";

#[test]
fn a_program_that_calls_has_these_six_states(rt: HostRuntime) -> Result<(), ReadFault> {
    let alloc = rt.alloc();
    let program = read(alloc, CALLING)?;
    let first = state(alloc, 0, &[frame(5, false, 0)])?;
    let assumed = state(alloc, 0, &[frame(6, false, 0)])?;
    let assigned = state(alloc, 0, &[frame(7, false, 1)])?;
    let called = state(alloc, 0, &[frame(11, false, 1), frame(7, false, 1)])?;
    let returned = state(alloc, 1, &[frame(8, false, 1)])?;
    let failed = state(alloc, 1, &[frame(8, true, 1)])?;
    let mut now = start(alloc, &program, 6, 2)?;
    assert!(rt; same(&now, &first));
    assert!(rt; steps_to(alloc, &program, &mut now, &assumed)?);
    assert!(rt; steps_to(alloc, &program, &mut now, &assigned)?);
    assert!(rt; steps_to(alloc, &program, &mut now, &called)?);
    assert!(rt; steps_to(alloc, &program, &mut now, &returned)?);
    assert!(rt; steps_to(alloc, &program, &mut now, &failed)?);
    assert!(rt; !step(alloc, &program, &mut now, 0, 0)?);
    assert!(rt; same(&now, &failed));
    let left = now.frames.into_vec();
    assert!(rt; left.first() == Some(&frame(8, true, 1)));
    Ok(())
}

/// A program whose main calls `f` in a `while *`, behind an `if` without `else`.
pub(crate) const LOOPING: &[u8] = b"bool 1
global g
proc main()
  local x
  L: while *
    if x
      g := *
    end
    x := call f(g)
  end
  goto L M
  M: skip
end
proc f(a) returns 1
  local b
  if b
    return !a
  else
    assert a
  end
end
query reach M
";

// One frame of main, or one of `f` above a call of it: the place of the call, with main's bits.
#[derive(Clone, Copy)]
struct Expected {
    target: u32,
    bits: u32,
    globals: u32,
    line: u32,
    locals: u32,
    below: Option<u32>,
}

fn row(
    target: u32,
    bits: u32,
    globals: u32,
    line: u32,
    locals: u32,
    below: Option<u32>,
) -> Expected {
    Expected {
        target,
        bits,
        globals,
        line,
        locals,
        below,
    }
}

fn wanted(alloc: Global, row: &Expected) -> Result<State, OutOfMemory> {
    let top = frame(row.line, false, row.locals);
    match row.below {
        Some(locals) => state(alloc, row.globals, &[top, frame(9, false, locals)]),
        None => state(alloc, row.globals, &[top]),
    }
}

// Whether each row's pick leads to its state.
fn follows(
    alloc: Global,
    program: &Program,
    now: &mut State,
    rows: &[Expected],
) -> Result<bool, OutOfMemory>
    requires read { IsRead (program_of program.now) }
    requires state { IsHeld (program_of program.now) now.old }
    ensures { IsHeld (program_of program.now) now.new }
{
    for row in rows {
        let before = copied(alloc, now)?;
        let wanted = wanted(alloc, row)?;
        let moved = step(alloc, program, now, row.target, row.bits)?;
        if !moved || !same(now, &wanted) || !is_move(program, &before, &wanted) {
            return Ok(false);
        }
    }
    Ok(true)
}

#[test]
fn blocks_and_free_values_go_by_their_picks(rt: HostRuntime) -> Result<(), ReadFault> {
    let alloc = rt.alloc();
    let program = read(alloc, LOOPING)?;
    let rows = [
        row(0, 0, 0, 6, 0, None),
        row(0, 0, 0, 9, 0, None),
        row(0, 1, 0, 16, 2, Some(0)),
        row(0, 0, 0, 17, 2, Some(0)),
        row(0, 0, 0, 10, 1, None),
        row(0, 0, 0, 5, 1, None),
        row(0, 0, 0, 6, 1, None),
        row(0, 0, 0, 7, 1, None),
        row(0, 1, 1, 8, 1, None),
        row(0, 0, 1, 9, 1, None),
        row(0, 2, 1, 16, 1, Some(1)),
        row(0, 0, 1, 19, 1, Some(1)),
        row(0, 0, 1, 20, 1, Some(1)),
        row(0, 0, 1, 21, 1, Some(1)),
        row(0, 2, 1, 10, 0, None),
        row(0, 0, 1, 5, 0, None),
        row(1, 0, 1, 11, 0, None),
        row(0, 0, 1, 5, 0, None),
        row(1, 0, 1, 11, 0, None),
        row(1, 0, 1, 12, 0, None),
        row(0, 0, 1, 13, 0, None),
    ];
    let mut now = start(alloc, &program, 0, 0)?;
    assert!(rt; !step(alloc, &program, &mut now, 2, 0)?);
    assert!(rt; follows(alloc, &program, &mut now, &rows)?);
    assert!(rt; step(alloc, &program, &mut now, 0, 0)?);
    assert!(rt; same(&now, &state(alloc, 1, &[])?));
    assert!(rt; !step(alloc, &program, &mut now, 0, 0)?);
    Ok(())
}
