//! The traces of a program that takes a lock and gives it back, each judged move by move.

ghost use Rattle.std.specs.Prelude.{◌≡◌, IfOk};
ghost use Rattle.boolean_programs.specs.Programs.{program_of};
ghost use Rattle.boolean_programs.specs.Structure.{IsRead};
ghost use Rattle.lowering_laws.specs.Lowering.{symbol_points};
ghost use Rattle.lowering_laws.specs.Weights.{IsDiagramLowering};
ghost use Rattle.pattern_openings.specs.PatternOpenings.{IsOver};

use crate::checked::first_traced;
use crate::rows::are_moves;
use crate::texts::lowered;
use boolean_lowering::Lowering;
use boolean_meaning::State;
use boolean_programs::{Point, Program};
use config_patterns::{Pattern, PatternFault};
use pattern_openings::is_over;
use program_traces::FirstTrace;
use pushdown_rules::System;
use query_answers::answer;
use relation_weights::Relations;
use std::alloc::Global;
use std::sync::Wait;
use std::thread::Threads;
use witness_graph::{Listing, Side};
use wpds_base::OpenGate;
use wpds_port::ReadFault;

// The program of examples/lock.wpds.
const LOCK: &[u8] = b"bool 1
# a driver that takes one lock and gives it back
global locked busy

proc acquire()
  A1: assert !locked
  locked := 1
end

proc release()
  R1: assert locked
  locked := 0
end

proc request() returns 1
  local ok
  ok := *
  if ok
    busy := 1
  else
    busy := 0
  end
  return ok
end

proc work(hard)
  local more
  more := hard
  while more
    more := call request()
    if busy & !more
      BAD: skip
    end
  end
end

proc main()
  local got again
  locked, busy := 0, 0
  again := 1
  while again
    call acquire()
    got := call request()
    if got
      call release()
      call work(1)
      call acquire()
    end
    if *
      call release()
      again := *
    else
      skip
    end
  end
  LAST: skip
end

query fails A1
query fails R1
query reach BAD
query reach LAST
";

// Main's first line.
const ENTRY: Point = Point {
    line: 39,
    failed: false,
};

// An item that was added.
fn made(item: Result<(), PatternFault>) -> Result<(), ReadFault> {
    match item {
        Ok(()) => Ok(()),
        Err(_) => Err(ReadFault::Memory),
    }
}

// The stack of one symbol, alone or on any others.
fn stacks(
    alloc: Global,
    system: &System<Relations>,
    symbol: u32,
    on_others: bool,
) -> Result<Pattern, ReadFault>
    ensures { IfOk result (IsOver system.now.controls system.now.symbols) }
{
    let mut pattern = Pattern::new(alloc, 0, system.symbols());
    made(pattern.add_item(alloc, &[symbol], false))?;
    if on_others {
        made(pattern.add_all(true))?;
    }
    if !is_over(&pattern, system.controls(), system.symbols()) {
        return Err(ReadFault::Memory);
    }
    Ok(pattern)
}

// The listing of the answer for runs from main's first line to a point, backwards by one worker.
fn listing_to(
    rt: &(impl Threads + Wait + Sync + AllocGlobal),
    lowering: &Lowering,
    point: Point,
) -> Result<Option<Listing>, ReadFault> {
    let alloc = rt.alloc();
    let Some(entry) = lowering.points.symbol(ENTRY) else {
        return Ok(None);
    };
    let Some(end) = lowering.points.symbol(point) else {
        return Ok(None);
    };
    let system = &lowering.system;
    let from = stacks(alloc, system, entry, false)?;
    let to = stacks(alloc, system, end, true)?;
    let found = answer(rt, alloc, system, Side::Pre, 1, &from, &to, &OpenGate)?;
    Ok(found.listing)
}

// Whether a state has a point on top.
fn is_at(state: &State, point: Point) -> bool {
    match state.frames.get(0) {
        Some(frame) => frame.point == point,
        None => false,
    }
}

// Whether states lead from main's first line to a point, each a move of the one before.
fn is_trace(program: &Program, trace: &[State], point: Point) -> bool
    requires { IsRead (program_of program.now) }
{
    if trace.is_empty() {
        return false;
    }
    is_at(&trace[0], ENTRY) && is_at(&trace[trace.len() - 1], point) && are_moves(program, trace)
}

// Whether the listing to a point has such a trace, if there is a listing.
fn is_traced(
    rt: &(impl Threads + Wait + Sync + AllocGlobal),
    program: &Program,
    lowering: &Lowering,
    point: Point,
) -> Result<Option<bool>, ReadFault>
    requires read { IsRead (program_of program.now) }
    requires system { IsDiagramLowering (program_of program.now) lowering.now.system }
    requires points { lowering.now.points ≡ symbol_points (program_of program.now) }
{
    let Some(listing) = listing_to(rt, lowering, point)? else {
        return Ok(None);
    };
    match first_traced(rt.alloc(), program, lowering, &listing, 100_000)? {
        Some(FirstTrace::Trace(trace)) => Ok(Some(is_trace(program, trace.as_slice(), point))),
        _ => Ok(Some(false)),
    }
}

// The assert of A1 may fail, and that of R1 not; BAD is not reached, and LAST is.
#[test]
fn traces_of_a_lock_lead_from_state_to_state(rt: HostRuntime) -> Result<(), ReadFault> {
    let row = lowered(rt.alloc(), LOCK)?;
    let points: [(u32, bool, Option<bool>); 4] = [
        (6, true, Some(true)),
        (11, true, None),
        (32, false, None),
        (56, false, Some(true)),
    ];
    for (line, failed, traced) in points {
        let point = Point { line, failed };
        assert_eq!(rt; is_traced(&rt, &row.program, &row.lowering, point)?, traced);
    }
    Ok(())
}
