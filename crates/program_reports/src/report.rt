//! The report on a program, query by query.

ghost use Rattle.std.specs.Prelude.{◌≡◌, IfOk, IfSome, IsSome};
ghost use Rattle.witness_graph.specs.declared.node.Side.TheVariants.{Post as Forward};
ghost use Rattle.boolean_programs.specs.declared.point.Point.{Point as PointValue};
ghost use Rattle.program_laws.specs.ReadPrograms.{IsProgram, IsPoint};
ghost use Rattle.worker_pool.specs.Workers.{IsWorkerCount};
ghost use Rattle.report_text.specs.Reports.{ByQuery};
ghost use Rattle.program_reports.specs.ProgramReports.{TellsPoint, IsProgramReport};
ghost use Rattle.program_reports.specs.private.Asked.{IsAsked, Serves, program_in};

use crate::answers_tell_points;
use crate::asked::Asked;
use crate::lines::point_lines;
use crate::traces::traced;
use crate::values::lines_by_values;
use boolean_programs::{Point, Program};
use query_answers::{Saturation, answer_over, saturate};
use relation_weights::Relations;
use report_text::Options;
use std::alloc::Global;
use std::sync::Wait;
use std::thread::Threads;
use witness_graph::Side;
use wpds_base::{Gate, OutOfMemory, Text};

// The saturation for a point.
fn saturation_for<'s, H: Threads + Wait + Sync, G: Gate>(
    rt: &H,
    alloc: Global,
    asked: &'s Asked<'_>,
    point: Point,
    gate: &G,
) -> Result<Saturation<'s, Relations>, OutOfMemory>
    requires asked { IsAsked asked.now }
    requires point { IsPoint (program_in asked.now) point }
    requires workers { IsWorkerCount asked.now.options.workers }
    ensures { IfOk result (Serves asked.now point) }
{
    let pattern = asked.opened(alloc, point)?;
    saturate(
        rt,
        alloc,
        &asked.lowering.system,
        asked.options.by,
        asked.options.workers,
        &pattern,
        gate,
    )
}

// The saturation that serves every point, where there is one: forwards all runs begin at main's
// first line.
fn shared_saturation<'s, H: Threads + Wait + Sync, G: Gate>(
    rt: &H,
    alloc: Global,
    asked: &'s Asked<'_>,
    gate: &G,
) -> Result<Option<Saturation<'s, Relations>>, OutOfMemory>
    requires asked { IsAsked asked.now }
    requires workers { IsWorkerCount asked.now.options.workers }
    ensures serves { IfOk result (λ o.
        IfSome o (λ s. (point : PointValue) → Serves asked.now point s)) }
    ensures forwards { IfOk result (λ o. asked.now.options.by ≡ Forward → IsSome o) }
{
    match asked.options.by {
        Side::Pre => Ok(None),
        Side::Post => Ok(Some(saturation_for(rt, alloc, asked, asked.entry(), gate)?)),
    }
}

// The lines of the query for a point with a number, over a saturation for the point.
fn lines_over(
    alloc: Global,
    asked: &Asked<'_>,
    saturation: &Saturation<'_, Relations>,
    number: u64,
    point: Point,
) -> Result<Text, OutOfMemory>
    requires asked { IsAsked asked.now }
    requires point { IsPoint (program_in asked.now) point }
    requires serves { Serves asked.now point saturation.now }
    ensures { let a = asked.now in
        IfOk result (TellsPoint a.options a.program.now a.lowering.system number point) }
{
    answers_tell_points();
    let summed = asked.summed(alloc, point)?;
    let answer = answer_over(alloc, saturation, &summed)?;
    let trace = traced(alloc, asked, &answer.listing)?;
    point_lines(alloc, number, &answer.listing, &trace, asked.options)
}

// The lines of the query for a point with a number, over the saturation that serves every point, or
// over one of its own where there is none.
fn lines_of<H: Threads + Wait + Sync, G: Gate>(
    rt: &H,
    alloc: Global,
    asked: &Asked<'_>,
    shared: &Option<Saturation<'_, Relations>>,
    number: u64,
    point: Point,
    gate: &G,
) -> Result<Text, OutOfMemory>
    requires asked { IsAsked asked.now }
    requires workers { IsWorkerCount asked.now.options.workers }
    requires point { IsPoint (program_in asked.now) point }
    requires serves { IfSome shared.now (λ s. (point : PointValue) → Serves asked.now point s) }
    ensures { let a = asked.now in
        IfOk result (TellsPoint a.options a.program.now a.lowering.system number point) }
{
    match shared {
        Some(saturation) => lines_over(alloc, asked, saturation, number, point),
        None => {
            let saturation = saturation_for(rt, alloc, asked, point, gate)?;
            lines_over(alloc, asked, &saturation, number, point)
        }
    }
}

// The lines of all queries, in order.
fn all_lines<H: Threads + Wait + Sync, G: Gate>(
    rt: &H,
    alloc: Global,
    asked: &Asked<'_>,
    shared: &Option<Saturation<'_, Relations>>,
    gate: &G,
) -> Result<Text, OutOfMemory>
    requires asked { IsAsked asked.now }
    requires workers { IsWorkerCount asked.now.options.workers }
    requires serves { IfSome shared.now (λ s. (point : PointValue) → Serves asked.now point s) }
    ensures { let a = asked.now in
        let tells = TellsPoint a.options a.program.now a.lowering.system in
        IfOk result (ByQuery tells 1 a.program.now.queries) }
{
    let mut text = Vec::new(alloc);
    for (place, point) in asked.program.queries.as_slice().iter().enumerate() {
        let number = place as u64 + 1;
        let lines = lines_of(rt, alloc, asked, shared, number, *point, gate)?;
        text.extend_from_slice(lines.as_bytes())?;
    }
    Ok(Text::from_vec(text))
}

/// The report on a Boolean program: for each query `reachable`, with the listing unless that is
/// left out, exactly where some state of some run of the program's machine has the query's point on
/// top, and `unreachable` exactly where none has. Where neither listings nor states are written, the
/// values of many queries are found together. Otherwise forwards all queries share one saturation,
/// and backwards each has its own. Refused only when out of memory. Two workers and more have a
/// thread each, whatever is asked; each worker, one alone too, calls the gate between taking a
/// transition and settling it.
pub fn report_on_program<H: Threads + Wait + Sync, G: Gate>(
    rt: &H,
    alloc: Global,
    program: &Program,
    options: Options,
    gate: &G,
) -> Result<Text, OutOfMemory>
    requires program { IsProgram program.now }
    requires workers { IsWorkerCount options.workers }
    ensures { IfOk result (IsProgramReport options program.now) }
{
    let asked = Asked::of(alloc, program, options)?;
    if options.is_brief() {
        return lines_by_values(rt, alloc, &asked, gate);
    }
    let shared = shared_saturation(rt, alloc, &asked, gate)?;
    all_lines(rt, alloc, &asked, &shared, gate)
}
