ghost use Rattle.boolean_programs.specs.Programs.{program_of};
ghost use Rattle.boolean_programs.specs.Structure.{IsRead};

use crate::checked::{first_traced, traced};
use crate::texts::lowered;
use boolean_meaning::{Frame, State, is_move};
use boolean_programs::{Point, Program};
use program_traces::{FirstTrace, Trace};
use std::alloc::Global;
use std::test::Fail;
use witness_graph::{Graph, Listing, Node, Side};
use wpds_base::OutOfMemory;
use wpds_port::ReadFault;

const COPYING: &[u8] = b"bool 1
global g
proc main()
  local x
  assume !g & !x
  x := 1
  g := call f(x)
  OUT: assert !g
end
proc f(a) returns 1
  return a
end
query fails OUT
";

// The rules from main's first point to the failure of its last line, and to its end.
const TO_FAILURE: [u32; 5] = [0, 1, 2, 6, 4];

const TO_END: [u32; 5] = [0, 1, 2, 6, 3];

// The states of the run to the failure: the globals, and the frames, the top first, each by its
// line, whether it stands at its failure, and its locals.
type Row = (u32, &'static [(u32, bool, u32)]);

const STATES: [Row; 6] = [
    (0, &[(5, false, 0)]),
    (0, &[(6, false, 0)]),
    (0, &[(7, false, 1)]),
    (0, &[(11, false, 1), (7, false, 1)]),
    (1, &[(8, false, 1)]),
    (1, &[(8, true, 1)]),
];

fn is_row(state: &State, row: &Row) -> bool {
    let (globals, frames) = *row;
    if state.globals != globals || state.frames.len() != frames.len() {
        return false;
    }
    for place in 0..frames.len() {
        let (line, failed, locals) = frames[place];
        let point = Point { line, failed };
        if state.frames.get(place) != Some(Frame { point, locals }) {
            return false;
        }
    }
    true
}

fn are_rows(trace: &[State], rows: &[Row]) -> bool {
    if trace.len() != rows.len() {
        return false;
    }
    for k in 0..rows.len() {
        if !is_row(&trace[k], &rows[k]) {
            return false;
        }
    }
    true
}

/// Whether each state but the first is a move of the one before.
pub(crate) fn are_moves(program: &Program, trace: &[State]) -> bool
    requires { IsRead (program_of program.now) }
{
    for k in 1..trace.len() {
        if !is_move(program, &trace[k - 1], &trace[k]) {
            return false;
        }
    }
    true
}

#[test]
fn a_run_to_a_failure_has_its_states(rt: HostRuntime) -> Result<(), ReadFault> {
    let alloc = rt.alloc();
    let row = lowered(alloc, COPYING)?;
    let trace = traced(alloc, &row.program, &row.lowering, &TO_FAILURE)?;
    assert!(rt; matches!(&trace, Some(Some(_))));
    if let Some(Some(trace)) = trace {
        assert!(rt; are_rows(trace.as_slice(), &STATES));
        assert!(rt; are_moves(&row.program, trace.as_slice()));
    }
    Ok(())
}

// `g` is true at the last line, so that its assertion never holds.
#[test]
fn an_infeasible_run_has_no_states(rt: HostRuntime) -> Result<(), ReadFault> {
    let alloc = rt.alloc();
    let row = lowered(alloc, COPYING)?;
    let trace = traced(alloc, &row.program, &row.lowering, &TO_END)?;
    assert!(rt; matches!(&trace, Some(None)));
    Ok(())
}

// Adds a node where it may stand, and returns its number.
fn add(
    alloc: Global,
    graph: &mut Graph,
    before: Option<u64>,
    rule: u32,
    first: Option<u64>,
) -> Result<u64, OutOfMemory> {
    let node = Node::Lower {
        before,
        rule: Some(rule),
        first,
        second: None,
    };
    if node.is_at(graph.len()) {
        graph.push_node(alloc, node)
    } else {
        Err(OutOfMemory)
    }
}

// The run to the end, and behind it that to the failure.
fn two_runs(alloc: Global) -> Result<Listing, OutOfMemory> {
    let mut graph = Graph::new(alloc, Side::Pre);
    let holds = add(alloc, &mut graph, None, 3, None)?;
    let mut last = add(alloc, &mut graph, Some(holds), 4, None)?;
    for rule in [6, 2, 1, 0] {
        last = add(alloc, &mut graph, None, rule, Some(last))?;
    }
    match graph.len().checked_sub(1) {
        Some(root) => graph.listing(alloc, root),
        None => Err(OutOfMemory),
    }
}

// Each of the two runs has five rules.
#[test]
fn the_first_feasible_run_is_traced_within_its_limit(rt: HostRuntime) -> Result<(), ReadFault> {
    let alloc = rt.alloc();
    let row = lowered(alloc, COPYING)?;
    let listing = two_runs(alloc)?;
    let within = first_traced(alloc, &row.program, &row.lowering, &listing, 12)?;
    assert!(rt; matches!(&within, Some(FirstTrace::Trace(_))));
    if let Some(FirstTrace::Trace(trace)) = within {
        assert!(rt; are_rows(trace.as_slice(), &STATES));
    }
    let over = first_traced(alloc, &row.program, &row.lowering, &listing, 11)?;
    assert!(rt; matches!(&over, Some(FirstTrace::TooLong)));
    Ok(())
}
