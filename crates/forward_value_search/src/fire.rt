ghost use Rattle.std.specs.Prelude.{◌≡◌, ◌<◌, ◌≤◌, ◌∷◌, [], ℕ, length, Some, slice_get, OnOk};
ghost use Rattle.semiring_laws.specs.Semiring.{Below};
ghost use Rattle.weighted_automata.specs.declared.place.Label.TheVariants.{Symbol, Empty as Nothing};
ghost use Rattle.pushdown_rules.specs.declared.rule.Rule.{Rule as RuleValue};
ghost use Rattle.weight_tables.specs.Entries.{weight_in, settled_in};
ghost use Rattle.forward_value_search.specs.Places.{arrow, short_label};
ghost use Rattle.forward_value_search.specs.Settled.{head_at};
ghost use Rattle.forward_value_search.specs.Search.{StandsAt, IsReady, IsOnward, IsCall, HasMet, HasGiven};

use crate::give::give;
use crate::meet::meet_ends;
use config_patterns::Pattern;
use pushdown_rules::System;
use semiring_laws::Semiring;
use weight_tables::{Layer, Tables, Weigher};
use weighted_automata::{Label, Place};
use wpds_base::OutOfMemory;

// A rule with at most one symbol on its right side fires on the row of an entry.
fn step<S: Semiring, M: Weigher<S>>(
    system: &System<S>,
    first: &Pattern,
    tables: &mut Tables<'_, S, M>,
    k: u32,
    label: Label,
    t: u32,
    row: Place,
) -> Result<(), OutOfMemory>
    requires rule { k < length system.now.rules }
    requires ready { IsReady S.operations system.now first.now tables.old }
    requires entry { StandsAt t row tables.old.base }
    requires head { (r : RuleValue S S.W S.Ret) → slice_get system.now.rules k ≡ Some r →
        row ≡ head_at r row.to }
    requires few { (r : RuleValue S S.W S.Ret) → slice_get system.now.rules k ≡ Some r →
        length r.right ≤ 1 }
    requires label { (r : RuleValue S S.W S.Ret) → slice_get system.now.rules k ≡ Some r →
        label ≡ short_label r.right }
    ensures onward { OnOk result
        (IsOnward S.operations system.now first.now tables.old tables.new) }
    ensures gives { OnOk result ((r : RuleValue S S.W S.Ret) →
        slice_get system.now.rules k ≡ Some r →
        HasGiven S.operations system.now first.now tables.new r row.to) }
{
    let _semiring = system.semiring();
    tables.hold_then_rule(Layer::Base, t, k)?;
    let goal = Place {
        from: system.rule(k).to,
        label,
        to: row.to,
    };
    give(system, first, tables, goal)?;
    Ok(())
}

// A push rule fires on the row of an entry: it enters its callee, and goes on where that has ended.
fn call<S: Semiring, M: Weigher<S>>(
    system: &System<S>,
    first: &Pattern,
    tables: &mut Tables<'_, S, M>,
    k: u32,
    top: u32,
    below: u32,
    callee: u32,
    t: u32,
    row: Place,
) -> Result<(), OutOfMemory>
    requires rule { k < length system.now.rules }
    requires ready { IsReady S.operations system.now first.now tables.old }
    requires call { IsCall S.operations system.now first.now k below callee row }
    requires top { (r : RuleValue S S.W S.Ret) → slice_get system.now.rules k ≡ Some r →
        r.right ≡ top ∷ below ∷ [] }
    requires entry { StandsAt t row tables.old.base }
    ensures onward { OnOk result
        (IsOnward S.operations system.now first.now tables.old tables.new) }
    ensures gives { OnOk result ((r : RuleValue S S.W S.Ret) →
        slice_get system.now.rules k ≡ Some r →
        HasGiven S.operations system.now first.now tables.new r row.to) }
{
    let _semiring = system.semiring();
    let entry = Place {
        from: system.rule(k).to,
        label: Label::Symbol(top),
        to: callee,
    };
    tables.hold_one()?;
    give(system, first, tables, entry)?;
    meet_ends(system, first, tables, k, below, callee, t, row)?;
    Ok(())
}

// A rule fires on the row of an entry.
pub(crate) fn fire<S: Semiring, M: Weigher<S>>(
    system: &System<S>,
    first: &Pattern,
    tables: &mut Tables<'_, S, M>,
    k: u32,
    t: u32,
    row: Place,
) -> Result<(), OutOfMemory>
    requires rule { k < length system.now.rules }
    requires ready { IsReady S.operations system.now first.now tables.old }
    requires entry { StandsAt t row tables.old.base }
    requires head { (r : RuleValue S S.W S.Ret) → slice_get system.now.rules k ≡ Some r →
        row ≡ head_at r row.to }
    ensures onward { OnOk result
        (IsOnward S.operations system.now first.now tables.old tables.new) }
    ensures gives { OnOk result ((r : RuleValue S S.W S.Ret) →
        slice_get system.now.rules k ≡ Some r →
        HasGiven S.operations system.now first.now tables.new r row.to) }
{
    let _semiring = system.semiring();
    let rule = system.rule(k);
    match rule.right.as_slice() {
        [] => step(system, first, tables, k, Label::Empty, t, row),
        [top] => step(system, first, tables, k, Label::Symbol(*top), t, row),
        [top, below, ..] => {
            let Some(number) = system.first_onto(rule.to, *top) else {
                unreachable!()
            };
            let callee = first.items() + 1 + number;
            call(system, first, tables, k, *top, *below, callee, t, row)
        }
    }
}
