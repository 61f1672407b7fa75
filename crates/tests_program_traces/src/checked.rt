//! Runs that are looked at before they are traced.

ghost use Rattle.std.specs.Prelude.{◌≡◌, ◌⊎◌, IfOk, IfSome, IsSome, IsTrue};
ghost use Rattle.witness_graph.specs.Runs.{listing_runs};
ghost use Rattle.boolean_programs.specs.Programs.{program_of};
ghost use Rattle.boolean_programs.specs.Structure.{IsRead};
ghost use Rattle.lowering_laws.specs.Lowering.{symbol, symbol_points};
ghost use Rattle.lowering_laws.specs.Queries.{entry_point};
ghost use Rattle.lowering_laws.specs.Weights.{IsDiagramLowering};
ghost use Rattle.program_traces.specs.Firsts.{FireFromEntry, HasFeasible};
ghost use Rattle.program_traces.specs.Traces.{FiresFromEntry};
ghost use Rattle.tests_program_traces.specs.Checked.{IsTraced};

use boolean_lowering::Lowering;
use boolean_meaning::start;
use boolean_programs::Program;
use lowering_laws::plans_are_within;
use program_traces::{FirstTrace, Trace, concrete, first_trace};
use pushdown_rules::Config;
use report_text::{NextRun, RunStep, RunWalk};
use std::alloc::Global;
use witness_graph::Listing;
use wpds_base::OutOfMemory;

const MOST_RULES: u64 = 1000;

// The symbol of main's first line.
fn entry_symbol(alloc: Global, program: &Program, lowering: &Lowering) -> Result<u32, OutOfMemory>
    requires read { IsRead (program_of program.now) }
    requires points { lowering.now.points ≡ symbol_points (program_of program.now) }
    ensures { let p = program_of program.now in
        IfOk result (λ g. g ≡ symbol p (entry_point p)) }
{
    plans_are_within();
    let first = start(alloc, program, 0, 0)?;
    match first.frames.get(0) {
        Some(frame) => match lowering.points.symbol(frame.point) {
            Some(symbol) => Ok(symbol),
            None => Ok(0),
        },
        None => Ok(0),
    }
}

// Whether a run fires from main's first point.
fn fires(
    alloc: Global,
    program: &Program,
    lowering: &Lowering,
    run: &[u32],
) -> Result<bool, OutOfMemory>
    requires read { IsRead (program_of program.now) }
    requires points { lowering.now.points ≡ symbol_points (program_of program.now) }
    ensures { IfOk result (λ fires. IsTrue fires
        → FiresFromEntry (program_of program.now) lowering.now.system run.now) }
{
    let entry = entry_symbol(alloc, program, lowering)?;
    let mut here = Config::new(alloc, 0, &[entry])?;
    for rule in run {
        if *rule >= lowering.system.rules() {
            return Ok(false);
        }
        if !lowering.system.fire(alloc, &mut here, *rule)? {
            return Ok(false);
        }
    }
    Ok(true)
}

/// What `concrete` gives for a run that fires, and nothing for another.
pub(crate) fn traced(
    alloc: Global,
    program: &Program,
    lowering: &Lowering,
    run: &[u32],
) -> Result<Option<Option<Trace>>, OutOfMemory>
    requires read { IsRead (program_of program.now) }
    requires system { IsDiagramLowering (program_of program.now) lowering.now.system }
    requires points { lowering.now.points ≡ symbol_points (program_of program.now) }
    ensures { IfOk result (λ found. IfSome found (IsTraced (program_of program.now)
        lowering.now.system run.now)) }
{
    if !fires(alloc, program, lowering, run)? {
        return Ok(None);
    }
    Ok(Some(concrete(alloc, program, lowering, run)?))
}

// Whether one was found before or this is one.
fn is_found(before: bool, trace: &Option<Trace>) -> bool
    ensures { IsTrue result → IsTrue before ⊎ IsSome trace.now }
{
    before || trace.is_some()
}

// Whether each run of a listing fires from main's first point, and one of them is feasible.
fn are_traceable(
    alloc: Global,
    program: &Program,
    lowering: &Lowering,
    listing: &Listing,
) -> Result<bool, OutOfMemory>
    requires read { IsRead (program_of program.now) }
    requires system { IsDiagramLowering (program_of program.now) lowering.now.system }
    requires points { lowering.now.points ≡ symbol_points (program_of program.now) }
    ensures fire { IfOk result (λ are. IsTrue are
        → FireFromEntry (program_of program.now) lowering.now.system (listing_runs listing.now)) }
    ensures feasible { IfOk result (λ are. IsTrue are
        → HasFeasible lowering.now.system (listing_runs listing.now)) }
{
    let mut left = RunWalk::new(alloc, listing)?;
    let mut found = false;
    'runs: loop {
        let RunStep { next, rest } = left.next_within(alloc, MOST_RULES)?;
        left = rest;
        match next {
            NextRun::TooLong => return Ok(false),
            NextRun::End => return Ok(found),
            NextRun::Run(run) => {
                match traced(alloc, program, lowering, run.as_slice())? {
                    None => return Ok(false),
                    Some(trace) => found = is_found(found, &trace),
                }
            }
        }
    }
}

/// What `first_trace` gives for a listing whose runs fire and are not all infeasible, and nothing
/// for another.
pub(crate) fn first_traced(
    alloc: Global,
    program: &Program,
    lowering: &Lowering,
    listing: &Listing,
    limit: u64,
) -> Result<Option<FirstTrace>, OutOfMemory>
    requires read { IsRead (program_of program.now) }
    requires system { IsDiagramLowering (program_of program.now) lowering.now.system }
    requires points { lowering.now.points ≡ symbol_points (program_of program.now) }
{
    if !are_traceable(alloc, program, lowering, listing)? {
        return Ok(None);
    }
    Ok(Some(first_trace(alloc, program, lowering, listing, limit)?))
}
