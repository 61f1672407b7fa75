ghost use Rattle.std.specs.Prelude.{◌≡◌, ◌+◌, ◌<◌, ℕ, true, length, Some, slice_get, OnOk};
ghost use Rattle.pushdown_rules.specs.Rows.{goes_onto};
ghost use Rattle.pushdown_rules.specs.declared.rule.Rule.{Rule as RuleValue};
ghost use Rattle.weighted_automata.specs.declared.place.Label.TheVariants.{Symbol as Over, Empty as Nothing};
ghost use Rattle.forward_value_search.specs.Places.{arrow};
ghost use Rattle.key_rows.specs.Rows.{index_where};
ghost use Rattle.forward_value_search.specs.Settled.{head_at};
ghost use Rattle.forward_value_search.specs.Search.{StandsAt, IsReady, IsOnward, IsReturn, HoldsReturn, HasMet, HasReturned, HasGivenAll, Enters};

use crate::callees::callee_at;
use crate::give::give_after;
use config_patterns::Pattern;
use pushdown_rules::System;
use semiring_laws::Semiring;
use weight_tables::{Layer, Tables, Weigher};
use weighted_automata::{Label, Place};
use wpds_base::OutOfMemory;

// The end of a callee, whose call's worth is in hand, meets one entry of the row where the call was made.
fn meet_call<S: Semiring, M: Weigher<S>>(
    system: &System<S>,
    first: &Pattern,
    tables: &mut Tables<'_, S, M>,
    k: u32,
    below: u32,
    end: Place,
    t: u32,
    row: Place,
) -> Result<(), OutOfMemory>
    requires ready { IsReady S.operations system.now first.now tables.old }
    requires returns { IsReturn S.operations system.now first.now k below end }
    requires held { HoldsReturn S.operations system.now first.now tables.old k end }
    requires row { StandsAt t row tables.old.base }
    requires head { (r : RuleValue S S.W S.Ret) → slice_get system.now.rules k ≡ Some r →
        row ≡ head_at r row.to }
    ensures onward { OnOk result
        (IsOnward S.operations system.now first.now tables.old tables.new) }
    ensures met { OnOk result
        (HasMet S.operations system.now first.now tables.new k below row end) }
    ensures hand { OnOk result (tables.new.hand ≡ tables.old.hand) }
{
    let _semiring = system.semiring();
    if tables.waits(Layer::Base, t) {
        return Ok(());
    }
    let goal = Place {
        from: end.from,
        label: Label::Symbol(below),
        to: row.to,
    };
    give_after(system, first, tables, goal, t, row)?;
    Ok(())
}

// The end of a callee, whose call's worth is in hand, meets each entry of the row where the call was made.
fn meet_row<S: Semiring, M: Weigher<S>>(
    system: &System<S>,
    first: &Pattern,
    tables: &mut Tables<'_, S, M>,
    k: u32,
    control: u32,
    symbol: u32,
    below: u32,
    end: Place,
) -> Result<(), OutOfMemory>
    requires ready { IsReady S.operations system.now first.now tables.old }
    requires returns { IsReturn S.operations system.now first.now k below end }
    requires held { HoldsReturn S.operations system.now first.now tables.old k end }
    requires head { (r : RuleValue S S.W S.Ret) → slice_get system.now.rules k ≡ Some r → (n : ℕ) →
        arrow control (Over symbol) n ≡ head_at r n }
    ensures onward { OnOk result
        (IsOnward S.operations system.now first.now tables.old tables.new) }
    ensures met { OnOk result ((r : RuleValue S S.W S.Ret) → slice_get system.now.rules k ≡ Some r →
        (n : ℕ) → HasMet S.operations system.now first.now tables.new k below (head_at r n) end) }
{
    let _semiring = system.semiring();
    let mut at = tables.first_from(Layer::Base, control, Label::Symbol(symbol));
    'row: while let Some(t) = at {
        let row = tables.place(Layer::Base, t);
        meet_call(system, first, tables, k, below, end, t, row)?;
        at = tables.next_from(Layer::Base, t);
    }
    Ok(())
}

// The end of a callee meets all calls by one rule.
fn meet_calls<S: Semiring, M: Weigher<S>>(
    system: &System<S>,
    first: &Pattern,
    tables: &mut Tables<'_, S, M>,
    k: u32,
    t: u32,
    end: Place,
) -> Result<(), OutOfMemory>
    requires rule { k < length system.now.rules }
    requires ready { IsReady S.operations system.now first.now tables.old }
    requires entry { StandsAt t end tables.old.base }
    requires empty { end.label ≡ Nothing }
    requires enters { Enters S.operations system.now first.now k end.to }
    ensures onward { OnOk result
        (IsOnward S.operations system.now first.now tables.old tables.new) }
    ensures met { OnOk result
        (HasReturned S.operations system.now first.now tables.new k end) }
{
    let _semiring = system.semiring();
    let rule = system.rule(k);
    match rule.right.as_slice() {
        [_, below, ..] => {
            tables.hold_rule_then(k, Layer::Base, t)?;
            tables.return_hand(k)?;
            let (control, symbol) = (rule.control, rule.symbol);
            meet_row(system, first, tables, k, control, symbol, *below, end)?;
            Ok(())
        }
        _ => Ok(()),
    }
}

// The end of a callee meets all its calls: by each rule that goes onto what it begins with.
fn meet_onto<S: Semiring, M: Weigher<S>>(
    system: &System<S>,
    first: &Pattern,
    tables: &mut Tables<'_, S, M>,
    to: u32,
    top: u32,
    number: u32,
    t: u32,
    end: Place,
) -> Result<(), OutOfMemory>
    requires ready { IsReady S.operations system.now first.now tables.old }
    requires entry { StandsAt t end tables.old.base }
    requires empty { end.label ≡ Nothing }
    requires number { end.to ≡ length first.now.items + 1 + number }
    requires onto { Some number ≡ index_where (goes_onto to top) system.now.rules }
    ensures onward { OnOk result
        (IsOnward S.operations system.now first.now tables.old tables.new) }
    ensures met { OnOk result ((k : ℕ) (r : RuleValue S S.W S.Ret) →
        slice_get system.now.rules k ≡ Some r → goes_onto to top r ≡ true →
        HasReturned S.operations system.now first.now tables.new k end) }
{
    let _semiring = system.semiring();
    let mut at = Some(number);
    'rules: while let Some(k) = at {
        meet_calls(system, first, tables, k, t, end)?;
        at = system.next_onto(k);
    }
    Ok(())
}

// A row over nothing from a callee: all calls of it go on.
pub(crate) fn end_callee<S: Semiring, M: Weigher<S>>(
    system: &System<S>,
    first: &Pattern,
    tables: &mut Tables<'_, S, M>,
    t: u32,
    end: Place,
) -> Result<(), OutOfMemory>
    requires ready { IsReady S.operations system.now first.now tables.old }
    requires entry { StandsAt t end tables.old.base }
    requires empty { end.label ≡ Nothing }
    requires behind { length first.now.items < end.to }
    ensures onward { OnOk result
        (IsOnward S.operations system.now first.now tables.old tables.new) }
    ensures gives { OnOk result
        (HasGivenAll S.operations system.now first.now tables.new end) }
{
    let _semiring = system.semiring();
    let Some(callee) = callee_at(system, first.items(), end.to) else {
        return Ok(());
    };
    let (to, top, rule) = (callee.to, callee.top, callee.rule);
    meet_onto(system, first, tables, to, top, rule, t, end)?;
    Ok(())
}
