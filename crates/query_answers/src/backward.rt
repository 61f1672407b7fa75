//! The values of many queries backwards, by the plain search that one worker makes.

ghost use Rattle.std.specs.Prelude.{◌≡◌, IfOk, IfSome, OnOk};
ghost use Rattle.value_search.specs.Finds.{FindsPops};
ghost use Rattle.walk_pairs.specs.Answering.{IsAnswered};
ghost use Rattle.value_walk.specs.Answering.{AreEnterSums};
ghost use Rattle.query_answers.specs.private.Closed.{IsClosedOver};
ghost use Rattle.query_answers.specs.private.Answered.{AreAnswered};

use config_patterns::Pattern;
use pushdown_rules::System;
use semiring_laws::Semiring;
use std::alloc::Global;
use value_search::{aim, closed_enters_are_sums, closed_pops_are_sums, open, turn, turn_to_target};
use value_walk::walk;
use weight_tables::{Tables, Weigher};
use wpds_base::{Gate, OutOfMemory};

// What leads from control to control, which is searched to its end.
fn close_controls<'s, S: Semiring, M: Weigher<S>, G: Gate>(
    alloc: Global,
    system: &'s System<S>,
    weigher: M,
    gate: &G,
) -> Result<Tables<'s, S, M>, OutOfMemory>
    requires { M.pushdown weigher ≡ system.now }
    ensures { IfOk result (IsClosedOver S.operations system.now) }
{
    let mut tables = Tables::new(alloc, system, weigher);
    open(&mut tables)?;
    'turns: loop {
        if !turn(&mut tables)? {
            return Ok(tables);
        }
        gate.between(0);
    }
}

// What leads to a pattern, which is searched to its end.
fn close_to<S: Semiring, M: Weigher<S>, G: Gate>(
    tables: &mut Tables<'_, S, M>,
    to: &Pattern,
    gate: &G,
) -> Result<(), OutOfMemory>
    requires { IsClosedOver S.operations tables.old.system tables.old }
    ensures closed { OnOk result (IsClosedOver S.operations tables.old.system tables.new) }
    ensures enters { let s = S.operations tables.new.system.semiring in
        OnOk result (AreEnterSums s tables.new to.now) }
{
    closed_enters_are_sums::<S>();
    aim(tables, to)?;
    'turns: loop {
        if !turn_to_target(tables, to)? {
            tables.valid();
            return Ok(());
        }
        gate.between(0);
    }
}

// The value of the answer to one query.
fn value_to<S: Semiring, M: Weigher<S>, G: Gate>(
    tables: &mut Tables<'_, S, M>,
    from: &Pattern,
    to: &Pattern,
    gate: &G,
) -> Result<S::W, OutOfMemory>
    requires { IsClosedOver S.operations tables.old.system tables.old }
    ensures closed { OnOk result (IsClosedOver S.operations tables.old.system tables.new) }
    ensures answer { let p = tables.old.system in
        IfOk result (IsAnswered (S.operations p.semiring) p from.now to.now) }
{
    closed_pops_are_sums::<S>();
    close_to(tables, to, gate)?;
    tables.valid();
    walk(tables, from, to)
}

// The values of the answers to queries that begin at one pattern, over what leads from control to control.
fn values_over<S: Semiring, M: Weigher<S>, G: Gate>(
    alloc: Global,
    tables: &mut Tables<'_, S, M>,
    from: &Pattern,
    tos: &[Pattern],
    gate: &G,
) -> Result<Vec<S::W>, OutOfMemory>
    requires { IsClosedOver S.operations tables.old.system tables.old }
    ensures closed { OnOk result (IsClosedOver S.operations tables.old.system tables.new) }
    ensures values { let are = AreAnswered S.operations tables.old.system from.now tos.now in
        IfOk result (λ vs. are vs.items) }
{
    let mut values = Vec::new(alloc);
    for to in tos {
        values.push(value_to(tables, from, to, gate)?)?;
    }
    Ok(values)
}

// The tables that are kept, or new ones.
fn kept_or_new<'s, S: Semiring, M: Weigher<S>, G: Gate>(
    alloc: Global,
    system: &'s System<S>,
    weigher: &M,
    kept: &mut Option<Tables<'s, S, M>>,
    gate: &G,
) -> Result<Tables<'s, S, M>, OutOfMemory>
    requires weigher { M.pushdown weigher.now ≡ system.now }
    requires kept { IfSome kept.old (IsClosedOver S.operations system.now) }
    ensures closed { IfOk result (IsClosedOver S.operations system.now) }
    ensures kept { kept.new ≡ None }
{
    match kept.take() {
        Some(tables) => Ok(tables),
        None => {
            let fresh = weigher.renewed()?;
            close_controls(alloc, system, fresh, gate)
        }
    }
}

/// The values of the answers to queries that begin at one pattern, backwards: one for each pattern where runs end, in order. What
/// leads from control to control is found once, and kept for the queries to come; what leads to a pattern is found for one at a time.
/// The gate is called once for each transition that is taken, and another like the given object makes the weights. Refused only when out
/// of memory, and then nothing is kept.
pub(crate) fn backward_values<'s, S: Semiring, M: Weigher<S>, G: Gate>(
    alloc: Global,
    system: &'s System<S>,
    weigher: &M,
    kept: &mut Option<Tables<'s, S, M>>,
    from: &Pattern,
    tos: &[Pattern],
    gate: &G,
) -> Result<Vec<S::W>, OutOfMemory>
    requires weigher { M.pushdown weigher.now ≡ system.now }
    requires kept { IfSome kept.old (IsClosedOver S.operations system.now) }
    ensures kept { IfSome kept.new (IsClosedOver S.operations system.now) }
    ensures values { let are = AreAnswered S.operations system.now from.now tos.now in
        IfOk result (λ vs. are vs.items) }
{
    let mut tables = kept_or_new(alloc, system, weigher, kept, gate)?;
    let values = values_over(alloc, &mut tables, from, tos, gate)?;
    *kept = Some(tables);
    Ok(values)
}
