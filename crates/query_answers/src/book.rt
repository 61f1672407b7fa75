//! The values of many queries forwards, by a book that several workers close.

ghost use Rattle.std.specs.Prelude.{◌≡◌, ◌<◌, All, IfOk};
ghost use Rattle.config_patterns.specs.Membership.{PatternValue};
ghost use Rattle.pattern_openings.specs.PatternOpenings.{IsOver};
ghost use Rattle.worker_pool.specs.Workers.{IsWorkerCount};
ghost use Rattle.query_answers.specs.private.Answered.{AreAnswered};

use config_patterns::Pattern;
use path_sum::sum_value;
use pattern_openings::openings_read_members;
use poststar::post_opening;
use pushdown_rules::System;
use semiring_laws::Semiring;
use std::alloc::Global;
use std::sync::Wait;
use std::thread::Threads;
use worker_pool::saturate;
use wpds_base::{Gate, OutOfMemory};

/// The values of the answers to queries that begin at one pattern, forwards: one for each pattern where runs end, in order. So many
/// workers close one book from the first pattern, and each value is a sum over it. Each worker calls the gate between taking a
/// transition and settling it. Refused only when out of memory.
pub(crate) fn book_values<
    H: Threads + Wait + Sync,
    S: Semiring<W: Send + Sync, Ret: Send + Sync> + Send + Sync,
    G: Gate,
>(
    rt: &H,
    alloc: Global,
    system: &System<S>,
    workers: u32,
    from: &Pattern,
    tos: &[Pattern],
    gate: &G,
) -> Result<Vec<S::W>, OutOfMemory>
    requires from { IsOver system.now.controls system.now.symbols from.now }
    requires tos { All (IsOver system.now.controls system.now.symbols) tos.now }
    requires workers { IsWorkerCount workers }
    ensures { let are = AreAnswered S.operations system.now from.now tos.now in
        IfOk result (λ vs. are vs.items) }
{
    openings_read_members();
    let opened = post_opening(alloc, system, from)?;
    let book = saturate(rt, alloc, opened, workers, gate)?;
    let mut values = Vec::new(alloc);
    for to in tos {
        values.push(sum_value(alloc, &book, to)?)?;
    }
    Ok(values)
}
