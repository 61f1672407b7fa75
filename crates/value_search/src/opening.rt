ghost use Rattle.std.specs.Prelude.{◌≡◌, ◌<◌, ◌≤◌, ◌+◌, ℕ, OnOk, None, Some, [], length, slice_get};
ghost use Rattle.semiring_laws.specs.Semiring.{Below};
ghost use Rattle.wpds_base.specs.Limits.{most_items};
ghost use Rattle.wpds_base.specs.Lists.{IsIn};
ghost use Rattle.config_patterns.specs.declared.item.Item.{Item as ItemValue};
ghost use Rattle.config_patterns.specs.Edges.{edges_of};
ghost use Rattle.pushdown_rules.specs.declared.rule.Rule.{Rule as RuleValue};
ghost use Rattle.value_search.specs.Views.{weights};
ghost use Rattle.value_search.specs.Finds.{FindsPops, FindsEnters, IsSearch, IsOnward};

use crate::give::give;
use config_patterns::Pattern;
use pushdown_rules::System;
use semiring_laws::Semiring;
use weight_tables::{Layer, Tables, Weigher};
use weighted_automata::{Label, Place};
use wpds_base::OutOfMemory;

// The transition of a rule, where it pops.
fn open_rule<'s, S: Semiring, M: Weigher<S>>(
    system: &System<S>,
    tables: &mut Tables<'s, S, M>,
    k: u32,
) -> Result<(), OutOfMemory>
    requires rule { k < length system.now.rules }
    requires search { let p = system.now in
        IsSearch (S.operations p.semiring) p None tables.old }
    ensures onward { let p = system.now in
        OnOk result (IsOnward (S.operations p.semiring) p None tables.old tables.new) }
    ensures given { let p = system.now in let s = S.operations p.semiring in
        OnOk result ((r : RuleValue S S.W S.Ret) → slice_get p.rules k ≡ Some r → r.right ≡ [] →
        Below s (weights s tables.new.base r.control r.symbol r.to) r.weight) }
{
    let _semiring = system.semiring();
    let rule = system.rule(k);
    match rule.right.as_slice() {
        [] => {
            tables.hold_rule(k)?;
            give(system, tables, None, k, rule.to)?;
            Ok(())
        }
        _ => Ok(()),
    }
}

/// Begins what leads from control to control, with a transition for each pop rule; each waits. It is refused only when out of memory.
pub fn open<'s, S: Semiring, M: Weigher<S>>(
    tables: &mut Tables<'s, S, M>,
) -> Result<(), OutOfMemory>
    ensures system { OnOk result (tables.new.system ≡ tables.old.system) }
    ensures finds { let p = tables.old.system in
        OnOk result (FindsPops (S.operations p.semiring) p tables.new) }
    ensures target { OnOk result (tables.new.target ≡ tables.old.target) }
    ensures walk { OnOk result (tables.new.walk ≡ tables.old.walk) }
{
    let system = tables.system();
    tables.renew(Layer::Base);
    tables.valid();
    for k in 0..system.rules() {
        open_rule(system, tables, k)?;
    }
    Ok(())
}

// The transition of an edge from the target's control.
fn open_edge<'s, S: Semiring, M: Weigher<S>>(
    system: &System<S>,
    tables: &mut Tables<'s, S, M>,
    target: &Pattern,
    symbol: u32,
    to: u32,
) -> Result<(), OutOfMemory>
    requires search { let p = system.now in
        IsSearch (S.operations p.semiring) p (Some target.now) tables.old }
    requires hand { tables.old.hand ≡ (S.operations system.now.semiring).one }
    requires edge { IsIn (record { from = 0; symbol = symbol; to = to })
        (edges_of target.now.items) }
    ensures onward { let p = system.now in
        OnOk result (IsOnward (S.operations p.semiring) p (Some target.now) tables.old tables.new) }
    ensures given { let s = S.operations system.now.semiring in
        OnOk result (Below s (weights s tables.new.target target.now.control symbol to) s.one) }
    ensures hand { OnOk result (tables.new.hand ≡ (S.operations system.now.semiring).one) }
{
    let _semiring = system.semiring();
    let control = target.control();
    let place = Place {
        from: control,
        label: Label::Symbol(symbol),
        to,
    };
    tables.lower(Layer::Target, place)?;
    tables.valid();
    Ok(())
}

// The transitions of the edges from the target's control to an item.
fn open_item<'s, S: Semiring, M: Weigher<S>>(
    system: &System<S>,
    tables: &mut Tables<'s, S, M>,
    target: &Pattern,
    k: u32,
) -> Result<(), OutOfMemory>
    requires few { length target.now.items ≤ most_items }
    requires item { k < length target.now.items }
    requires search { let p = system.now in
        IsSearch (S.operations p.semiring) p (Some target.now) tables.old }
    requires hand { tables.old.hand ≡ (S.operations system.now.semiring).one }
    requires edges { (x : ItemValue) → slice_get target.now.items k ≡ Some x →
        (g : ℕ) → IsIn g x.set →
        IsIn (record { from = 0; symbol = g; to = k + 1 }) (edges_of target.now.items) }
    ensures onward { let p = system.now in
        OnOk result (IsOnward (S.operations p.semiring) p (Some target.now) tables.old tables.new) }
    ensures given { let s = S.operations system.now.semiring in
        OnOk result ((x : ItemValue) → slice_get target.now.items k ≡ Some x →
        (g : ℕ) → IsIn g x.set →
        Below s (weights s tables.new.target target.now.control g (k + 1)) s.one) }
    ensures hand { OnOk result (tables.new.hand ≡ (S.operations system.now.semiring).one) }
{
    let _semiring = system.semiring();
    let set = &target.item(k).set;
    for i in 0..set.len() {
        open_edge(system, tables, target, set.at(i), k + 1)?;
    }
    Ok(())
}

/// Begins what leads to a target in place of the one before, with a transition of weight one for each edge from the target's control;
/// each waits. It is refused only when out of memory.
pub fn aim<'s, S: Semiring, M: Weigher<S>>(
    tables: &mut Tables<'s, S, M>,
    target: &Pattern,
) -> Result<(), OutOfMemory>
    requires { let p = tables.old.system in FindsPops (S.operations p.semiring) p tables.old }
    ensures system { OnOk result (tables.new.system ≡ tables.old.system) }
    ensures finds { let p = tables.old.system in
        OnOk result (FindsEnters (S.operations p.semiring) p target.now tables.new) }
    ensures base { OnOk result (tables.new.base ≡ tables.old.base) }
    ensures walk { OnOk result (tables.new.walk ≡ tables.old.walk) }
{
    let system = tables.system();
    tables.renew(Layer::Target);
    tables.hold_one()?;
    tables.valid();
    for k in 0..target.items() {
        open_item(system, tables, target, k)?;
        let item = target.item(k);
        if !item.star {
            return Ok(());
        }
    }
    Ok(())
}
