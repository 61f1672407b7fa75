//! The values of many queries backwards, by books that several workers close.

ghost use Rattle.std.specs.Prelude.{◌≡◌, ◌<◌, ◌≤◌, [], ℕ, All, IfOk, List, length};
ghost use Rattle.config_patterns.specs.Membership.{PatternValue};
ghost use Rattle.path_sum.specs.Values.{AreValuesTo};
ghost use Rattle.pattern_openings.specs.JointOpenings.{joint_edges, joint_finals, edges_alone};
ghost use Rattle.pattern_openings.specs.PatternOpenings.{IsOver};
ghost use Rattle.prestar.specs.declared.pre.Pre.{Pre as PreValue};
ghost use Rattle.prestar_laws.specs.Ways.{pre_way};
ghost use Rattle.pushdown_rules.specs.Pushdown.{Pushdown};
ghost use Rattle.saturation_laws.specs.Books.{IsClosed};
ghost use Rattle.wpds_base.specs.Limits.{most_queries};
ghost use Rattle.worker_pool.specs.Workers.{IsWorkerCount};
ghost use Rattle.query_answers.specs.private.Answered.{AreAnswered};

use crate::groups::group_len;
use config_patterns::Pattern;
use path_sum::sum_values;
use pattern_openings::later_openings_read_members;
use prestar::{Pre, joint_pre_opening};
use pushdown_rules::System;
use saturation_core::Book;
use saturation_laws::StateList;
use semiring_laws::Semiring;
use std::alloc::Global;
use std::sync::Wait;
use std::thread::Threads;
use worker_pool::saturate;
use wpds_base::{Gate, OutOfMemory};

// What a walk gives, over a closed book that began with the edges of several patterns, answers the queries for these patterns.
fn walks_answer<S: Semiring>()
    ensures { (p : Pushdown S S.W S.Ret) (from : PatternValue) (tos : List PatternValue)
        (d : PreValue) (values : List S.W) →
        let opening = edges_alone (joint_edges p.controls tos) in
        All (IsOver p.controls p.symbols) tos →
        AreValuesTo S.operations (pre_way S.operations) p d opening from
        (joint_finals p.controls tos) values →
        AreAnswered S.operations p from tos values }
{
    later_openings_read_members();
}

// The values of sums over a closed book, whose opening accepts nowhere, to each of several sets of final states.
fn sums<S: Semiring>(
    alloc: Global,
    book: &Book<'_, S, Pre>,
    from: &Pattern,
    finals: &[StateList],
) -> Result<Vec<S::W>, OutOfMemory>
    requires closed { IsClosed book.now }
    requires bare { book.now.opening.finals ≡ [] }
    requires from { from.now.control < book.now.system.controls }
    ensures { let b = book.now in
        IfOk result (λ vs. AreValuesTo S.operations (pre_way S.operations) b.system b.direction
        b.opening from.now finals.now vs.items) }
{
    let (system, direction) = (book.system(), book.direction());
    let (opening, transitions) = (book.opening(), book.transitions());
    sum_values(
        alloc,
        system,
        &direction,
        opening,
        transitions,
        book.graph(),
        from,
        finals,
    )
}

// The values of the answers to queries that end at patterns of one book.
fn group_values<
    H: Threads + Wait + Sync,
    S: Semiring<W: Send + Sync, Ret: Send + Sync> + Send + Sync,
    G: Gate,
>(
    rt: &H,
    alloc: Global,
    system: &System<S>,
    workers: u32,
    from: &Pattern,
    tos: &[Pattern],
    gate: &G,
) -> Result<Vec<S::W>, OutOfMemory>
    requires from { from.now.control < system.now.controls }
    requires tos { All (IsOver system.now.controls system.now.symbols) tos.now }
    requires few { length tos.now ≤ most_queries }
    requires workers { IsWorkerCount workers }
    ensures { let are = AreAnswered S.operations system.now from.now tos.now in
        IfOk result (λ vs. are vs.items) }
{
    walks_answer::<S>();
    let opened = joint_pre_opening(alloc, system, tos)?;
    let book = saturate(rt, alloc, opened.book, workers, gate)?;
    book.system();
    sums(alloc, &book, from, &opened.finals)
}

/// The values of the answers to queries that begin at one pattern, backwards: one for each pattern where runs end, in order. So many
/// workers close a book for as many of these patterns as [`group_len`] has it take, which begins with the edges of them all, each
/// with states of its own; the values are read off one walk. Each worker calls the gate between taking a transition and settling
/// it. Refused only when out of memory.
pub(crate) fn joint_values<
    H: Threads + Wait + Sync,
    S: Semiring<W: Send + Sync, Ret: Send + Sync> + Send + Sync,
    G: Gate,
>(
    rt: &H,
    alloc: Global,
    system: &System<S>,
    workers: u32,
    from: &Pattern,
    tos: &[Pattern],
    gate: &G,
) -> Result<Vec<S::W>, OutOfMemory>
    requires from { from.now.control < system.now.controls }
    requires tos { All (IsOver system.now.controls system.now.symbols) tos.now }
    requires few { length tos.now ≤ most_queries }
    requires workers { IsWorkerCount workers }
    ensures { let are = AreAnswered S.operations system.now from.now tos.now in
        IfOk result (λ vs. are vs.items) }
{
    let mut values = Vec::new(alloc);
    let mut place = 0;
    while place < tos.len() {
        let end = place + group_len(system, from, &tos[place..]);
        let group = &tos[place..end];
        let found = group_values(rt, alloc, system, workers, from, group, gate)?;
        values.extend(found)?;
        place = end;
    }
    Ok(values)
}
