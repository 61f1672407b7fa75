ghost use Rattle.std.specs.Prelude.{◌≡◌, ◌<◌, ℕ, IfOk};
ghost use Rattle.config_patterns.specs.Membership.{PatternValue};
ghost use Rattle.pattern_openings.specs.PatternOpenings.{IsOver};
ghost use Rattle.pushdown_rules.specs.Pushdown.{Pushdown};
ghost use Rattle.witness_graph.specs.declared.node.Side.{Side as SideValue};
ghost use Rattle.worker_pool.specs.Workers.{IsWorkerCount};
ghost use Rattle.query_answers.specs.Answering.{opened_of, summed_of, saturated_system};
ghost use Rattle.query_answers.specs.Answering.{IsFinished, IsSaturated, IsAnswer};

use crate::Saturation;
use config_patterns::Pattern;
use path_sum::{Answer, sum};
use pattern_openings::openings_read_members;
use poststar::post_opening;
use prestar::pre_opening;
use pushdown_rules::System;
use semiring_laws::Semiring;
use std::alloc::Global;
use std::sync::Wait;
use std::thread::Threads;
use witness_graph::Side;
use worker_pool::saturate as saturate_book;
use wpds_base::{Gate, OutOfMemory};

// Of the patterns where runs begin and where they end, the one that a saturation starts from, and the one that is summed
// over.
fn by_side<'p>(side: Side, from: &'p Pattern, to: &'p Pattern) -> (&'p Pattern, &'p Pattern)
    ensures opened { result.0.now ≡ opened_of side from.now to.now }
    ensures summed { result.1.now ≡ summed_of side from.now to.now }
{
    match side {
        Side::Pre => (to, from),
        Side::Post => (from, to),
    }
}

/// The finished saturation from a pattern, by so many workers: backwards from where runs end, or forwards from where they
/// begin. Two workers or more have a thread each, and share one locked book. Each worker calls the gate between taking a
/// transition and settling it. Refused only when out of memory.
pub fn saturate<
    's,
    H: Threads + Wait + Sync,
    S: Semiring<W: Send + Sync, Ret: Send + Sync> + Send + Sync,
    G: Gate,
>(
    rt: &H,
    alloc: Global,
    system: &'s System<S>,
    side: Side,
    workers: u32,
    opened: &Pattern,
    gate: &G,
) -> Result<Saturation<'s, S>, OutOfMemory>
    requires opened { IsOver system.now.controls system.now.symbols opened.now }
    requires workers { IsWorkerCount workers }
    ensures saturated { let is = IsSaturated S.operations system.now side workers in
        IfOk result (is opened.now) }
    ensures finished { IfOk result IsFinished }
    ensures system { IfOk result (λ s. saturated_system s ≡ system.now) }
{
    match side {
        Side::Pre => {
            let book = pre_opening(alloc, system, opened)?;
            Ok(Saturation::Backward(saturate_book(rt, alloc, book, workers, gate)?))
        }
        Side::Post => {
            let book = post_opening(alloc, system, opened)?;
            Ok(Saturation::Forward(saturate_book(rt, alloc, book, workers, gate)?))
        }
    }
}

/// The answer to the query for runs between the pattern that the saturation starts from and another one: the sum over the
/// paths that read the other. Refused only when out of memory.
pub fn answer_over<S: Semiring>(
    alloc: Global,
    saturation: &Saturation<'_, S>,
    summed: &Pattern,
) -> Result<Answer<S>, OutOfMemory>
    requires finished { IsFinished saturation.now }
    requires control { summed.now.control < (saturated_system saturation.now).controls }
    ensures { (p : Pushdown S S.W S.Ret) (side : SideValue) (workers : ℕ) (from to : PatternValue)
        → (opened_of side from to).control < p.controls → summed_of side from to ≡ summed.now
        → IsSaturated S.operations p side workers (opened_of side from to) saturation.now
        → IfOk result (IsAnswer S.operations p side workers from to) }
{
    openings_read_members();
    match saturation {
        Saturation::Backward(book) => sum(alloc, book, summed),
        Saturation::Forward(book) => sum(alloc, book, summed),
    }
}

/// The answer to the query for runs from a pattern to a pattern, by so many workers: backwards from the second, and then
/// the sum over the paths that read the first, or forwards from the first, and then the sum over those that read the
/// second. Refused only when out of memory.
pub fn answer<
    H: Threads + Wait + Sync,
    S: Semiring<W: Send + Sync, Ret: Send + Sync> + Send + Sync,
    G: Gate,
>(
    rt: &H,
    alloc: Global,
    system: &System<S>,
    side: Side,
    workers: u32,
    from: &Pattern,
    to: &Pattern,
    gate: &G,
) -> Result<Answer<S>, OutOfMemory>
    requires opened { let opened = opened_of side from.now to.now in
        IsOver system.now.controls system.now.symbols opened }
    requires summed { (summed_of side from.now to.now).control < system.now.controls }
    requires workers { IsWorkerCount workers }
    ensures { IfOk result (IsAnswer S.operations system.now side workers from.now to.now) }
{
    let (opened, summed) = by_side(side, from, to);
    let saturation = saturate(rt, alloc, system, side, workers, opened, gate)?;
    answer_over(alloc, &saturation, summed)
}
