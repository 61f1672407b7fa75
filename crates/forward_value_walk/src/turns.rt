ghost use Rattle.std.specs.Prelude.{◌≡◌, ◌<◌, ℕ, true, false, OnOk, IfOk, IfSome};
ghost use Rattle.weight_tables.specs.Entries.{NoneWaits};
ghost use Rattle.weight_tables.specs.Turns.{turns_left};
ghost use Rattle.walk_pairs.specs.Answering.{IsAnswered, IsWalkedOver};
ghost use Rattle.forward_value_search.specs.Search.{IsFinished};
ghost use Rattle.forward_value_walk.specs.private.Going.{IsStopped, IsWalking};
ghost use Rattle.forward_value_walk.specs.Walking.{is_stop};
ghost use Rattle.forward_value_laws.specs.Tails.{IsSymbol, TakesRest};
ghost use Rattle.value_tails.specs.Tailing.{IsTailed};

use crate::beginning::begin;
use crate::giving::give;
use config_patterns::Pattern;
use pushdown_rules::System;
use semiring_laws::Semiring;
use walk_pairs::{answer_place, takes_all, ways_from};
use weight_tables::{Layer, Tables, Weigher};
use wpds_base::OutOfMemory;

// Takes a pair that waits; whether there was one.
fn turn<'s, S: Semiring, M: Weigher<S>>(
    tables: &mut Tables<'s, S, M>,
    first: &Pattern,
    wanted: &Pattern,
    stop: Option<u32>,
) -> Result<bool, OutOfMemory>
    requires finished { IsFinished S.operations tables.old.system first.now tables.old }
    requires stopped { let s = S.operations tables.old.system.semiring in
        IsStopped s first.now wanted.now (is_stop stop) tables.old }
    requires walking { let s = S.operations tables.old.system.semiring in
        IsWalking s first.now wanted.now (is_stop stop) tables.old }
    ensures walking { let s = S.operations tables.old.system.semiring in
        OnOk result (IsWalking s first.now wanted.now (is_stop stop) tables.new) }
    ensures others { OnOk result (IsWalkedOver tables.old tables.new) }
    ensures done { IfOk result (λ some. some ≡ false → NoneWaits tables.new.walk) }
    ensures fewer { let s = S.operations tables.old.system.semiring in IfOk result (λ some.
        some ≡ true → turns_left s tables.new.walk < turns_left s tables.old.walk) }
{
    tables.valid();
    let Some(t) = tables.pop(Layer::Walk) else {
        return Ok(false);
    };
    tables.valid();
    give(tables, first, wanted, stop, t)?;
    tables.valid();
    Ok(true)
}

// A walk that stops at a state, if at one, where tails tell the rest.
fn walk_to<'s, S: Semiring, M: Weigher<S>>(
    tables: &mut Tables<'s, S, M>,
    first: &Pattern,
    wanted: &Pattern,
    stop: Option<u32>,
) -> Result<S::W, OutOfMemory>
    requires finished { IsFinished S.operations tables.old.system first.now tables.old }
    requires stopped { let s = S.operations tables.old.system.semiring in
        IsStopped s first.now wanted.now (is_stop stop) tables.old }
    ensures answer { let p = tables.old.system in
        IfOk result (IsAnswered (S.operations p.semiring) p first.now wanted.now) }
    ensures others { OnOk result (IsWalkedOver tables.old tables.new) }
{
    begin(tables, first, wanted)?;
    'turns: loop {
        if !turn(tables, first, wanted, stop)? {
            tables.valid();
            let value = tables.value(Layer::Walk, answer_place())?;
            return Ok(value);
        }
    }
}

/// The value of all runs from a member of one pattern to a member of another. In the tables' base layer stands what a search from the
/// first pattern found, which stays as it is. Where runs end, a stack of the second pattern is read from its top: a row first,
/// then what each open call left below it, and at last what the first pattern had and no run used up (Reps, Schwoon, Jha,
/// Melski 2005). It is refused only when out of memory.
pub fn walk<'s, S: Semiring, M: Weigher<S>>(
    tables: &mut Tables<'s, S, M>,
    first: &Pattern,
    wanted: &Pattern,
) -> Result<S::W, OutOfMemory>
    requires { IsFinished S.operations tables.old.system first.now tables.old }
    ensures answer { let p = tables.old.system in
        IfOk result (IsAnswered (S.operations p.semiring) p first.now wanted.now) }
    ensures others { OnOk result (IsWalkedOver tables.old tables.new) }
{
    walk_to(tables, first, wanted, None)
}

// The last state of a pattern, if it takes any number of any symbols there.
fn rest_state<S: Semiring>(system: &System<S>, first: &Pattern, wanted: &Pattern) -> Option<u32>
    ensures { IfSome result (TakesRest (IsSymbol system.now first.now) wanted.now.items) }
{
    let last = wanted.items();
    let symbols = wanted.symbols();
    if last == 0 || first.symbols() > symbols || system.symbols() > symbols {
        return None;
    }
    let ways = ways_from(wanted, last);
    if ways.first > last || ways.end <= last {
        return None;
    }
    if takes_all(wanted.item(last - 1), symbols) {
        Some(last)
    } else {
        None
    }
}

/// Whether the second pattern ends in any number of any symbols, as far as this can be told at once: then a walk to it by tails
/// stops there.
pub fn ends_in_rest<S: Semiring>(system: &System<S>, first: &Pattern, wanted: &Pattern) -> bool
    ensures { result ≡ true → (j : ℕ) ×
        TakesRest (IsSymbol system.now first.now) wanted.now.items j }
{
    match rest_state(system, first, wanted) {
        Some(_last) => true,
        None => false,
    }
}

/// The value that `walk` gives, by the tails of all sources, which stand in the tables' target layer: where the second pattern
/// ends in any number of any symbols the walk goes no further than there. To another pattern it walks as ever.
pub fn walk_by_tails<'s, S: Semiring, M: Weigher<S>>(
    tables: &mut Tables<'s, S, M>,
    first: &Pattern,
    wanted: &Pattern,
) -> Result<S::W, OutOfMemory>
    requires finished { IsFinished S.operations tables.old.system first.now tables.old }
    requires tails { let s = S.operations tables.old.system.semiring in
        IsTailed s first.now tables.old }
    ensures answer { let p = tables.old.system in
        IfOk result (IsAnswered (S.operations p.semiring) p first.now wanted.now) }
    ensures others { OnOk result (IsWalkedOver tables.old tables.new) }
{
    let stop = rest_state(tables.system(), first, wanted);
    walk_to(tables, first, wanted, stop)
}
