//! The values of many queries, without listings.

ghost use Rattle.std.specs.Prelude.{◌≡◌, ◌<◌, ◌≤◌, ℕ, All, IfOk, IfSome, length};
ghost use Rattle.pattern_openings.specs.PatternOpenings.{IsOver};
ghost use Rattle.path_sum.specs.Answers.{IsValueOf};
ghost use Rattle.wpds_base.specs.Limits.{most_queries};
ghost use Rattle.worker_pool.specs.Workers.{IsWorkerCount};
ghost use Rattle.query_answers.specs.Answering.{AreValues, IsAnswer};
ghost use Rattle.query_answers.specs.Values.{ValuesOf};

use crate::backward::backward_values;
use crate::book::book_values;
use crate::forward::forward_values;
use crate::joint::joint_values;
use crate::laws::answers_are_values;
use config_patterns::Pattern;
use pushdown_rules::System;
use semiring_laws::Semiring;
use std::alloc::Global;
use std::marker::Model;
use std::sync::Wait;
use std::thread::Threads;
use weight_tables::{PlainWeigher, Tables, Weigher};
use witness_graph::Side;
use wpds_base::{Gate, OutOfMemory};

/// The values of answers to queries over a system, without listings. With one worker they are found by the plain search, and what
/// leads from control to control is kept for the queries to come. With two and more, these have a thread each, and share one
/// locked book for the queries that are asked together.
#[derive(Drop)]
pub struct Values<'s, S: Semiring, M: Weigher<S>> {
    system: &'s System<S>,
    side: Side,
    workers: u32,
    // The plain search makes its weights by others like this.
    weigher: M,
    // Backwards with one worker: what leads from control to control, closed.
    closed: Option<Tables<'s, S, M>>,
}

impl<'s, S: Semiring, M: Weigher<S>> Model for Values<'s, S, M> {
    ghost use Rattle.std.specs.Prelude.{◌≡◌, IfSome};
    ghost use Rattle.query_answers.specs.private.Closed.{IsClosedOver};
    ghost use Rattle.query_answers.specs.Values.{ValuesOf};
    ghost use Rattle.worker_pool.specs.Workers.{IsWorkerCount};

    ghost Value = { ValuesOf S S.W S.Ret };

    ghost view = { λ v. record { system = v.system.now; side = v.side; workers = v.workers } };

    ghost invariant = { λ v. IsWorkerCount v.workers
        × (M.pushdown v.weigher ≡ v.system.now)
        × IfSome v.closed (IsClosedOver S.operations v.system.now) };
}

impl<'s, S: Semiring, M: Weigher<S>> Values<'s, S, M> {
    /// Over a system, by a direction and so many workers. One worker's search makes its weights by others like the given object.
    /// Nothing is found yet, and no memory is taken.
    pub fn new(system: &'s System<S>, side: Side, workers: u32, weigher: M) -> Values<'s, S, M>
        requires workers { IsWorkerCount workers }
        requires weigher { M.pushdown weigher ≡ system.now }
        ensures { result ≡ record { system = system.now; side = side; workers = workers } }
    {
        Values {
            system,
            side,
            workers,
            weigher,
            closed: None,
        }
    }
}

impl<'s, S: Semiring<W: Send + Sync, Ret: Send + Sync> + Send + Sync, M: Weigher<S>> Values<
    's,
    S,
    M,
> {
    /// The values of the answers to queries that begin at one pattern: one for each pattern where runs end, in order. Each worker
    /// calls the gate once for each transition that it takes. Refused only when out of memory.
    pub fn values_from<H: Threads + Wait + Sync, G: Gate>(
        &mut self,
        rt: &H,
        alloc: Global,
        from: &Pattern,
        tos: &[Pattern],
        gate: &G,
    ) -> Result<Vec<S::W>, OutOfMemory>
        requires from { let p = self.old.system in IsOver p.controls p.symbols from.now }
        requires tos { let p = self.old.system in All (IsOver p.controls p.symbols) tos.now }
        requires few { length tos.now ≤ most_queries }
        ensures values { let v = self.old in
            let are = AreValues S.operations v.system v.side v.workers from.now tos.now in
            IfOk result (λ vs. are vs.items) }
        ensures same { self.new ≡ self.old }
    {
        answers_are_values::<S>();
        from.control();
        let (system, workers) = (self.system, self.workers);
        system.semiring();
        match self.side {
            Side::Pre if workers == 1 => {
                let (weigher, closed) = (&self.weigher, &mut self.closed);
                backward_values(alloc, system, weigher, closed, from, tos, gate)
            }
            Side::Pre => joint_values(rt, alloc, system, workers, from, tos, gate),
            Side::Post if workers == 1 => {
                forward_values(alloc, system, &self.weigher, from, tos, gate)
            }
            Side::Post => book_values(rt, alloc, system, workers, from, tos, gate),
        }
    }
}

/// The value of the answer to one query, as [`Values`] finds it. Refused only when out of memory.
pub fn value<
    H: Threads + Wait + Sync,
    S: Semiring<W: Send + Sync, Ret: Send + Sync> + Send + Sync,
    G: Gate,
>(
    rt: &H,
    alloc: Global,
    system: &System<S>,
    side: Side,
    workers: u32,
    from: &Pattern,
    to: &Pattern,
    gate: &G,
) -> Result<S::W, OutOfMemory>
    requires from { IsOver system.now.controls system.now.symbols from.now }
    requires to { IsOver system.now.controls system.now.symbols to.now }
    requires workers { IsWorkerCount workers }
    ensures { let asked = IsAnswer S.operations system.now side workers from.now to.now in
        IfOk result (IsValueOf asked) }
{
    let weigher = PlainWeigher::new(alloc, system);
    let mut values = Values::new(system, side, workers, weigher);
    let mut found = values.values_from(rt, alloc, from, std::slice::from_ref(to), gate)?;
    match found.pop() {
        Some(value) => Ok(value),
        None => unreachable!(),
    }
}
