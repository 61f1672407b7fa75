//! The lines of queries by their values, where values alone are told: those of many queries are
//! found together.

ghost use Rattle.std.specs.Prelude.{◌≡◌, ◌+◌, ◌<◌, ◌≤◌, ◌^◌, All, IfOk, length, map};
ghost use Rattle.pattern_openings.specs.PatternOpenings.{IsOver};
ghost use Rattle.program_laws.specs.ReadPrograms.{IsPoint};
ghost use Rattle.lowering_laws.specs.Queries.{point_pattern};
ghost use Rattle.wpds_base.specs.Limits.{most_queries};
ghost use Rattle.relation_weights.specs.Relations.{relation_operations};
ghost use Rattle.worker_pool.specs.Workers.{IsWorkerCount};
ghost use Rattle.query_answers.specs.Answering.{AreValues};
ghost use Rattle.report_text.specs.Reports.{ByQuery, IsBrief};
ghost use Rattle.program_reports.specs.ProgramReports.{TellsPoint};
ghost use Rattle.program_reports.specs.private.Asked.{IsAsked, IsValueFor, program_in, values_in};

use crate::answers_tell_points;
use crate::asked::Asked;
use crate::lines::point_line;
use boolean_programs::Point;
use config_patterns::Pattern;
use node_weigher::NodeWeigher;
use pushdown_rules::{System, answers_are_greatest_below};
use query_answers::Values;
use relation_weights::{Relation, Relations};
use semiring_laws::Semiring;
use std::alloc::Global;
use std::sync::Wait;
use std::thread::Threads;
use witness_graph::Side;
use wpds_base::{Gate, OutOfMemory, Text};

/// The line of the query for a point with a number, by its value.
pub(crate) fn value_line(
    alloc: Global,
    asked: &Asked<'_>,
    number: u64,
    point: Point,
    value: &Relation,
) -> Result<Text, OutOfMemory>
    requires asked { IsAsked asked.now }
    requires point { IsPoint (program_in asked.now) point }
    requires brief { IsBrief asked.now.options }
    requires value { IsValueFor asked.now point value.now }
    ensures { let a = asked.now in
        IfOk result (TellsPoint a.options a.program.now a.lowering.system number point) }
{
    answers_tell_points();
    answers_are_greatest_below::<Relations>();
    let reached = !asked.lowering.system.semiring().is_zero(value);
    point_line(alloc, number, reached)
}

// The patterns where runs to these points end.
fn ends_of(alloc: Global, asked: &Asked<'_>, points: &[Point]) -> Result<Vec<Pattern>, OutOfMemory>
    requires asked { IsAsked asked.now }
    requires points { All (IsPoint (program_in asked.now)) points.now }
    ensures value { let p = program_in asked.now in
        IfOk result (λ ends. ends.items ≡ map (point_pattern p) points.now) }
    ensures over { let system = asked.now.lowering.system in
        IfOk result (λ ends. All (IsOver system.controls system.symbols) ends.items) }
{
    let mut ends = Vec::new(alloc);
    for point in points {
        ends.push(asked.point_pattern(alloc, *point)?)?;
    }
    Ok(ends)
}

// The values of the answers to queries that begin at one pattern, over relations. One worker's search has them as references into one
// table.
fn found_values<H: Threads + Wait + Sync, G: Gate>(
    rt: &H,
    alloc: Global,
    system: &System<Relations>,
    by: Side,
    workers: u32,
    from: &Pattern,
    tos: &[Pattern],
    gate: &G,
) -> Result<Vec<Relation>, OutOfMemory>
    requires from { IsOver system.now.controls system.now.symbols from.now }
    requires tos { let p = system.now in All (IsOver p.controls p.symbols) tos.now }
    requires few { length tos.now ≤ most_queries }
    requires workers { IsWorkerCount workers }
    ensures { let are = AreValues relation_operations system.now by workers from.now tos.now in
        IfOk result (λ vs. are vs.items) }
{
    let weigher = NodeWeigher::new(alloc, system)?;
    let mut values = Values::new(system, by, workers, weigher);
    values.values_from(rt, alloc, from, tos, gate)
}

/// The lines of all queries, in order, where values alone are told: all runs begin at main's first line, and the values of all
/// queries are found together.
pub(crate) fn lines_by_values<H: Threads + Wait + Sync, G: Gate>(
    rt: &H,
    alloc: Global,
    asked: &Asked<'_>,
    gate: &G,
) -> Result<Text, OutOfMemory>
    requires asked { IsAsked asked.now }
    requires workers { IsWorkerCount asked.now.options.workers }
    requires brief { IsBrief asked.now.options }
    ensures { let a = asked.now in
        let tells = TellsPoint a.options a.program.now a.lowering.system in
        IfOk result (ByQuery tells 1 a.program.now.queries) }
{
    let points = asked.program.queries.as_slice();
    let (by, workers) = (asked.options.by, asked.options.workers);
    let system = &asked.lowering.system;
    let from = asked.entry_pattern(alloc)?;
    let ends = ends_of(alloc, asked, points)?;
    let found = found_values(rt, alloc, system, by, workers, &from, &ends, gate)?;
    let mut text = Vec::new(alloc);
    for (place, point) in points.iter().enumerate() {
        let line = value_line(alloc, asked, place as u64 + 1, *point, &found[place])?;
        text.extend_from_slice(line.as_bytes())?;
    }
    Ok(Text::from_vec(text))
}
