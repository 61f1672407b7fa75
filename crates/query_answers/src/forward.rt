//! The values of many queries forwards, by the plain search that one worker makes.

ghost use Rattle.std.specs.Prelude.{◌≡◌, true, IfOk, OnOk};
ghost use Rattle.forward_value_search.specs.Search.{IsFinished};
ghost use Rattle.value_tails.specs.Tailing.{IsTailed};
ghost use Rattle.walk_pairs.specs.Answering.{IsAnswered, IsWalkedOver};
ghost use Rattle.query_answers.specs.private.Answered.{AreAnswered};

use config_patterns::Pattern;
use forward_value_search::{open, turn};
use forward_value_walk::{ends_in_rest, walk, walk_by_tails};
use pushdown_rules::System;
use semiring_laws::Semiring;
use std::alloc::Global;
use value_tails::make_tails;
use weight_tables::{Tables, Weigher};
use wpds_base::{Gate, OutOfMemory};

// What runs from a pattern come to, which is searched to its end.
fn close_from<'s, S: Semiring, M: Weigher<S>, G: Gate>(
    alloc: Global,
    system: &'s System<S>,
    weigher: M,
    from: &Pattern,
    gate: &G,
) -> Result<Tables<'s, S, M>, OutOfMemory>
    requires { M.pushdown weigher ≡ system.now }
    ensures system { IfOk result (λ t. t.system ≡ system.now) }
    ensures finished { IfOk result (IsFinished S.operations system.now from.now) }
{
    let mut tables = Tables::new(alloc, system, weigher);
    open(&mut tables, from)?;
    'turns: loop {
        if !turn(&mut tables, from)? {
            return Ok(tables);
        }
        gate.between(0);
    }
}

// Whether at least two patterns end in any number of any symbols, so that the tails of all sources serve more than once.
fn share_tails<S: Semiring>(system: &System<S>, from: &Pattern, tos: &[Pattern]) -> bool {
    let mut one = false;
    for to in tos {
        if ends_in_rest(system, from, to) {
            if one {
                return true;
            }
            one = true;
        }
    }
    false
}

// Makes the tails of all sources after a search, where they are wanted.
fn prepare<'s, S: Semiring, M: Weigher<S>>(
    tables: &mut Tables<'s, S, M>,
    from: &Pattern,
    by_tails: bool,
) -> Result<(), OutOfMemory>
    requires { IsFinished S.operations tables.old.system from.now tables.old }
    ensures system { OnOk result (tables.new.system ≡ tables.old.system) }
    ensures finished { OnOk result
        (IsFinished S.operations tables.old.system from.now tables.new) }
    ensures tails { let s = S.operations tables.old.system.semiring in
        OnOk result (by_tails ≡ true → IsTailed s from.now tables.new) }
{
    if by_tails {
        make_tails(tables, from)?;
        return Ok(());
    }
    Ok(())
}

// The value of all runs to a pattern, by tails where they were made.
fn value_to<'s, S: Semiring, M: Weigher<S>>(
    tables: &mut Tables<'s, S, M>,
    from: &Pattern,
    to: &Pattern,
    by_tails: bool,
) -> Result<S::W, OutOfMemory>
    requires finished { IsFinished S.operations tables.old.system from.now tables.old }
    requires tails { let s = S.operations tables.old.system.semiring in
        by_tails ≡ true → IsTailed s from.now tables.old }
    ensures answer { let p = tables.old.system in
        IfOk result (IsAnswered (S.operations p.semiring) p from.now to.now) }
    ensures others { OnOk result (IsWalkedOver tables.old tables.new) }
{
    if by_tails {
        walk_by_tails(tables, from, to)
    } else {
        walk(tables, from, to)
    }
}

/// The values of the answers to queries that begin at one pattern, forwards: one for each pattern where runs end, in order. The runs
/// from the first pattern are searched once for all of them, and the ways down from where they begin are summed up once where
/// at least two patterns end in any number of any symbols. The gate is called once for each transition that is taken, and another like the
/// given object makes the weights. Refused only when out of memory.
pub(crate) fn forward_values<S: Semiring, M: Weigher<S>, G: Gate>(
    alloc: Global,
    system: &System<S>,
    weigher: &M,
    from: &Pattern,
    tos: &[Pattern],
    gate: &G,
) -> Result<Vec<S::W>, OutOfMemory>
    requires { M.pushdown weigher.now ≡ system.now }
    ensures { let are = AreAnswered S.operations system.now from.now tos.now in
        IfOk result (λ vs. are vs.items) }
{
    let fresh = weigher.renewed()?;
    let mut tables = close_from(alloc, system, fresh, from, gate)?;
    let by_tails = share_tails(system, from, tos);
    prepare(&mut tables, from, by_tails)?;
    let mut values = Vec::new(alloc);
    for to in tos {
        values.push(value_to(&mut tables, from, to, by_tails)?)?;
    }
    Ok(values)
}
