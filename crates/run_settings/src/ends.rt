//! The settings at the end of a run.

ghost use Rattle.std.specs.Prelude.{◌≡◌, ◌≤◌, ◌+◌, ℕ, Bool, false, IsTrue, [], IfOk, IfSome, MatchOption, length};
ghost use Rattle.pushdown_rules.specs.RunValue.{FitsMachine, end_value};
ghost use Rattle.relation_laws.specs.Relations.{leads};
ghost use Rattle.relation_weights.specs.Relations.{relation_operations};
ghost use Rattle.run_settings.specs.private.Links.{IsLinked, Joins};
ghost use Rattle.run_settings.specs.private.Moments.{IsWide};
ghost use Rattle.run_settings.specs.private.Walks.{ArePartial};

use crate::machine::Machine;
use crate::moment::Moment;
use relation_picks::pick_pair;
use relation_weights::{Relation, Relations};
use semiring_laws::Semiring;
use std::alloc::Global;
use wpds_base::OutOfMemory;

// The accumulator, and then its products with the saved values, each with one older call more.
fn partial_products(
    alloc: Global,
    relations: &Relations,
    machine: &Machine<'_>,
) -> Result<Vec<Relation>, OutOfMemory>
    requires { FitsMachine (relation_operations relations.now) machine.now }
    ensures { IfOk result (λ v. ArePartial (relation_operations relations.now)
        machine.now.frames machine.now.accumulator (length machine.now.frames + 1) v.items) }
{
    let mut values = Vec::new(alloc);
    values.push(relations.copy(alloc, machine.accumulator())?)?;
    for k in 0..machine.depth() {
        let call = machine.call_at(k);
        let value = relations.extend(alloc, &call.saved, &values[k])?;
        values.push(value)?;
    }
    Ok(values)
}

// The moment of a pair of the machine's value, with a setting for each open call, from the oldest on.
fn link_calls(
    alloc: Global,
    n: u32,
    machine: &Machine<'_>,
    values: Vec<Relation>,
    moment: Moment,
) -> Result<Moment, OutOfMemory>
    requires machine { FitsMachine (relation_operations n) machine.now }
    requires values { ArePartial (relation_operations n)
        machine.now.frames machine.now.accumulator (length machine.now.frames) values.items }
    requires n { n ≤ 24 }
    requires wide { IsWide n moment }
    requires none { moment.saved ≡ [] }
    requires present { Joins (end_value (relation_operations n) machine.now)
        moment.start moment.present }
    ensures { IfOk result (IsLinked n machine.now) }
{
    let mut values = values;
    let mut moment = moment;
    'calls: while let Some(value) = values.pop() {
        let call = machine.call_at(values.len());
        moment.link(alloc, n, call, &value)?;
    }
    Ok(moment)
}

/// Settings that the values of a machine link, unless its value is the empty relation.
pub(crate) fn settings_at_end(
    alloc: Global,
    n: u32,
    relations: &Relations,
    machine: &Machine<'_>,
) -> Result<Option<Moment>, OutOfMemory>
    requires n { relations.now ≡ n }
    requires few { n ≤ 24 }
    requires machine { FitsMachine (relation_operations n) machine.now }
    ensures linked { IfOk result (λ o. MatchOption o
        ((x y : ℕ → Bool)
        → leads (end_value (relation_operations n) machine.now) x y ≡ false)
        (IsLinked n machine.now)) }
    ensures some { IfOk result (λ o. IfSome o (λ _. (x : ℕ → Bool) × (y : ℕ → Bool)
        × IsTrue (leads (end_value (relation_operations n) machine.now) x y))) }
{
    let mut values = partial_products(alloc, relations, machine)?;
    let Some(whole) = values.pop() else {
        unreachable!();
    };
    let Some(pair) = pick_pair(alloc, n, &whole)? else {
        return Ok(None);
    };
    let moment = Moment {
        start: pair.from,
        saved: Vec::new(alloc),
        present: pair.to,
    };
    let linked = link_calls(alloc, n, machine, values, moment)?;
    Ok(Some(linked))
}
