ghost use Rattle.std.specs.Prelude.{◌≡◌, IfOk};
ghost use Rattle.witness_graph.specs.Runs.{listing_runs};
ghost use Rattle.boolean_programs.specs.Programs.{program_of};
ghost use Rattle.boolean_programs.specs.Structure.{IsRead};
ghost use Rattle.lowering_laws.specs.Lowering.{symbol_points};
ghost use Rattle.lowering_laws.specs.Weights.{IsDiagramLowering};
ghost use Rattle.program_traces.specs.Firsts.{FireFromEntry, HasFeasible, IsFirstTrace};

use crate::tracing::{Trace, concrete};
use boolean_lowering::Lowering;
use boolean_programs::Program;
use report_text::{NextRun, RunStep, RunWalk};
use std::alloc::Global;
use witness_graph::Listing;
use wpds_base::OutOfMemory;

/// A trace, unless the runs that it takes to find it are too long together.
#[derive(Drop)]
pub enum FirstTrace {
    Trace(Trace),
    TooLong,
}

/// The states that the first run of a listing stands for whose value is not the empty relation.
/// There is one, and each run of the listing fires from main's first point.
///
/// `TooLong` exactly where the runs up to and with that one are over the limit together, each
/// counted with its rules and one more. No run behind it is made, and none whose rules are more
/// than what is left of the limit: that keeps memory small, of which no clause speaks.
pub fn first_trace(
    alloc: Global,
    program: &Program,
    lowering: &Lowering,
    listing: &Listing,
    limit: u64,
) -> Result<FirstTrace, OutOfMemory>
    requires read { IsRead (program_of program.now) }
    requires system { IsDiagramLowering (program_of program.now) lowering.now.system }
    requires points { lowering.now.points ≡ symbol_points (program_of program.now) }
    requires runs { FireFromEntry (program_of program.now) lowering.now.system
        (listing_runs listing.now) }
    requires feasible { HasFeasible lowering.now.system (listing_runs listing.now) }
    ensures { IfOk result (IsFirstTrace (program_of program.now) lowering.now.system limit
        (listing_runs listing.now)) }
{
    let mut left = RunWalk::new(alloc, listing)?;
    let mut room = limit;
    'runs: while room > 0 {
        let RunStep { next, rest } = left.next_within(alloc, room - 1)?;
        left = rest;
        match next {
            NextRun::TooLong => return Ok(FirstTrace::TooLong),
            NextRun::End => unreachable!(),
            NextRun::Run(run) => {
                if let Some(trace) = concrete(alloc, program, lowering, run.as_slice())? {
                    return Ok(FirstTrace::Trace(trace));
                }
                room -= run.len() as u64 + 1;
            }
        }
    }
    Ok(FirstTrace::TooLong)
}
