//! The states of a run that leads to a point.

ghost use Rattle.std.specs.Prelude.{◌≡◌, IfOk};
ghost use Rattle.wpds_base.specs.Limits.{most_traced};
ghost use Rattle.witness_graph.specs.Runs.{listing_runs};
ghost use Rattle.program_traces.specs.declared.first.FirstTrace.{FirstTrace as FirstTraceValue};
ghost use Rattle.program_traces.specs.Firsts.{FireFromEntry, HasFeasible, IsFirstTrace};
ghost use Rattle.program_reports.specs.ProgramReports.{shown_trace, IsTraced};
ghost use Rattle.program_reports.specs.private.Asked.{IsAsked, CanTrace, program_in};

use crate::asked::Asked;
use program_traces::{FirstTrace, first_trace};
use state_text::trace_text;
use std::alloc::Global;
use witness_graph::Listing;
use wpds_base::{MOST_TRACED, OutOfMemory, Text};

// How a trace is written, or that it is too long.
fn shown(alloc: Global, asked: &Asked<'_>, trace: &FirstTrace) -> Result<Text, OutOfMemory>
    requires { IsAsked asked.now }
    ensures { IfOk result (λ t. t ≡ shown_trace asked.now.program.now trace.now) }
{
    match trace {
        FirstTrace::Trace(states) => {
            let points = &asked.lowering.points;
            trace_text(alloc, asked.program, points, states.as_slice())
        }
        FirstTrace::TooLong => Text::of(alloc, b"  traces: too long\n"),
    }
}

// The lines of the states of the first listed run that is feasible.
fn trace_of(alloc: Global, asked: &Asked<'_>, listing: &Listing) -> Result<Text, OutOfMemory>
    requires asked { IsAsked asked.now }
    requires runs { let system = asked.now.lowering.system in
        FireFromEntry (program_in asked.now) system (listing_runs listing.now) }
    requires feasible { HasFeasible asked.now.lowering.system (listing_runs listing.now) }
    ensures { let a = asked.now in IfOk result (λ t. (f : FirstTraceValue)
        × IsFirstTrace (program_in a) a.lowering.system most_traced (listing_runs listing.now) f
        × (t ≡ shown_trace a.program.now f)) }
{
    let first = first_trace(alloc, asked.program, &asked.lowering, listing, MOST_TRACED)?;
    shown(alloc, asked, &first)
}

/// The lines of the states of the first listed run that is feasible, where they are asked for.
pub(crate) fn traced(
    alloc: Global,
    asked: &Asked<'_>,
    listing: &Option<Listing>,
) -> Result<Text, OutOfMemory>
    requires asked { IsAsked asked.now }
    requires runs { CanTrace (program_in asked.now) asked.now.lowering.system listing.now }
    ensures { let a = asked.now in IfOk result
        (IsTraced a.options.traces a.program.now a.lowering.system listing.now) }
{
    match listing {
        Some(listing) if asked.options.traces => trace_of(alloc, asked, listing),
        _ => Ok(Text::from_vec(Vec::new(alloc))),
    }
}
