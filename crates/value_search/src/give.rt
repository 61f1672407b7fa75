ghost use Rattle.std.specs.Prelude.{◌≡◌, ◌<◌, OnOk, Some, length, option_map, slice_get};
ghost use Rattle.semiring_laws.specs.Semiring.{Below};
ghost use Rattle.pushdown_rules.specs.declared.rule.Rule.{Rule as RuleValue};
ghost use Rattle.pushdown_rules.specs.Values.{value_of};
ghost use Rattle.value_laws.specs.Runs.{Sums};
ghost use Rattle.value_laws.specs.Settled.{first_worth};
ghost use Rattle.weight_tables.specs.Entries.{TableEntry};
ghost use Rattle.weight_tables.specs.Tables.{entries_of, with_hand};
ghost use Rattle.value_search.specs.Views.{Leads, found, layer_of, place_at, weights};
ghost use Rattle.value_search.specs.Finds.{IsSearch, IsOnward};
ghost use Rattle.value_search.specs.Met.{call_worth};

use config_patterns::Pattern;
use pushdown_rules::System;
use semiring_laws::Semiring;
use weight_tables::{Layer, Tables, Weigher};
use weighted_automata::{Label, Place};
use wpds_base::OutOfMemory;

/// A transition that is taken: the number of its entry, and its place.
#[derive(Clone, Copy, Debug)]
pub(crate) struct Taken {
    pub number: u32,
    pub from: u32,
    pub symbol: u32,
    pub to: u32,
}

/// The layer of what leads to the target, or without one from control to control.
pub(crate) fn layer(target: Option<&Pattern>) -> Layer
    ensures { result ≡ layer_of (option_map (λ t. t.now) target.entry) }
{
    match target {
        None => Layer::Base,
        Some(_) => Layer::Target,
    }
}

// What a rule makes: a transition that leads where another does.
fn goal<S: Semiring>(system: &System<S>, k: u32, to: u32) -> Place
    requires { k < length system.now.rules }
    ensures { (r : RuleValue S S.W S.Ret) → slice_get system.now.rules k ≡ Some r →
        result ≡ place_at r.control r.symbol to }
{
    let rule = system.rule(k);
    Place {
        from: rule.control,
        label: Label::Symbol(rule.symbol),
        to,
    }
}

/// Takes the worth of a rule, and then of an entry, in hand.
pub(crate) fn hold_first<'s, S: Semiring, M: Weigher<S>>(
    system: &System<S>,
    tables: &mut Tables<'s, S, M>,
    k: u32,
    layer: Layer,
    t: u32,
) -> Result<(), OutOfMemory>
    requires rule { k < length system.now.rules }
    requires same { tables.old.system ≡ system.now }
    requires entry { t < length (entries_of layer tables.old) }
    ensures ok { let s = S.operations system.now.semiring in
        OnOk result ((r : RuleValue S S.W S.Ret) → slice_get system.now.rules k ≡ Some r →
        (e : TableEntry S.W) → slice_get (entries_of layer tables.old) t ≡ Some e →
        tables.new ≡ with_hand (first_worth s r e.weight) tables.old) }
    ensures same { tables.new.system ≡ system.now }
{
    let _rule = system.rule(k);
    tables.hold_rule_then(k, layer, t)?;
    Ok(())
}

/// Takes the worth of a call that returns in hand: of its rule, and then of the callee's end, under the return map.
pub(crate) fn hold_call<'s, S: Semiring, M: Weigher<S>>(
    system: &System<S>,
    tables: &mut Tables<'s, S, M>,
    k: u32,
    t: u32,
) -> Result<(), OutOfMemory>
    requires rule { k < length system.now.rules }
    requires same { tables.old.system ≡ system.now }
    requires entry { t < length tables.old.base }
    ensures { let s = S.operations system.now.semiring in
        OnOk result ((r : RuleValue S S.W S.Ret) → slice_get system.now.rules k ≡ Some r →
        (e : TableEntry S.W) → slice_get tables.old.base t ≡ Some e →
        tables.new ≡ with_hand (call_worth s r e.weight) tables.old) }
{
    hold_first(system, tables, k, Layer::Base, t)?;
    tables.return_hand(k)?;
    Ok(())
}

/// Combines the weight of a rule's goal with the one in hand, which is given away.
pub(crate) fn give<'s, S: Semiring, M: Weigher<S>>(
    system: &System<S>,
    tables: &mut Tables<'s, S, M>,
    target: Option<&Pattern>,
    k: u32,
    to: u32,
) -> Result<(), OutOfMemory>
    requires rule { k < length system.now.rules }
    requires search { let p = system.now in
        IsSearch (S.operations p.semiring) p (option_map (λ t. t.now) target) tables.old }
    requires sums { let p = system.now in let s = S.operations p.semiring in
        (r : RuleValue S S.W S.Ret) → slice_get p.rules k ≡ Some r →
        Sums s (value_of s p) (Leads p (option_map (λ t. t.now) target) r.control r.symbol to)
        tables.old.hand }
    ensures onward { let p = system.now in OnOk result (IsOnward (S.operations p.semiring) p
        (option_map (λ t. t.now) target.entry) tables.old tables.new) }
    ensures given { let p = system.now in let s = S.operations p.semiring in
        let es = found (option_map (λ t. t.now) target.entry) tables.new in
        OnOk result ((r : RuleValue S S.W S.Ret) → slice_get p.rules k ≡ Some r →
        Below s (weights s es r.control r.symbol to) tables.old.hand) }
{
    let _semiring = system.semiring();
    let list = layer(target);
    let place = goal(system, k, to);
    tables.put(list, place)?;
    tables.valid();
    Ok(())
}

/// The same, and the one in hand stays there.
pub(crate) fn give_each<'s, S: Semiring, M: Weigher<S>>(
    system: &System<S>,
    tables: &mut Tables<'s, S, M>,
    target: Option<&Pattern>,
    k: u32,
    to: u32,
) -> Result<(), OutOfMemory>
    requires rule { k < length system.now.rules }
    requires search { let p = system.now in
        IsSearch (S.operations p.semiring) p (option_map (λ t. t.now) target) tables.old }
    requires sums { let p = system.now in let s = S.operations p.semiring in
        (r : RuleValue S S.W S.Ret) → slice_get p.rules k ≡ Some r →
        Sums s (value_of s p) (Leads p (option_map (λ t. t.now) target) r.control r.symbol to)
        tables.old.hand }
    ensures onward { let p = system.now in OnOk result (IsOnward (S.operations p.semiring) p
        (option_map (λ t. t.now) target.entry) tables.old tables.new) }
    ensures given { let p = system.now in let s = S.operations p.semiring in
        let es = found (option_map (λ t. t.now) target.entry) tables.new in
        OnOk result ((r : RuleValue S S.W S.Ret) → slice_get p.rules k ≡ Some r →
        Below s (weights s es r.control r.symbol to) tables.old.hand) }
    ensures hand { OnOk result (tables.new.hand ≡ tables.old.hand) }
{
    let _semiring = system.semiring();
    let list = layer(target);
    let place = goal(system, k, to);
    tables.lower(list, place)?;
    tables.valid();
    Ok(())
}

/// Combines the weight of a rule's goal with the one in hand, and then that of an entry. The one in hand stays there.
pub(crate) fn give_then<'s, S: Semiring, M: Weigher<S>>(
    system: &System<S>,
    tables: &mut Tables<'s, S, M>,
    target: Option<&Pattern>,
    k: u32,
    to: u32,
    t: u32,
) -> Result<(), OutOfMemory>
    requires rule { k < length system.now.rules }
    requires search { let p = system.now in
        IsSearch (S.operations p.semiring) p (option_map (λ t. t.now) target) tables.old }
    requires entry { t < length (found (option_map (λ t. t.now) target) tables.old) }
    requires sums { let p = system.now in let s = S.operations p.semiring in
        (r : RuleValue S S.W S.Ret) → slice_get p.rules k ≡ Some r →
        (e : TableEntry S.W) →
        slice_get (found (option_map (λ t. t.now) target) tables.old) t ≡ Some e →
        Sums s (value_of s p) (Leads p (option_map (λ t. t.now) target) r.control r.symbol to)
        (s.extend tables.old.hand e.weight) }
    ensures onward { let p = system.now in OnOk result (IsOnward (S.operations p.semiring) p
        (option_map (λ t. t.now) target.entry) tables.old tables.new) }
    ensures given { let p = system.now in let s = S.operations p.semiring in
        let target' = option_map (λ t. t.now) target.entry in
        OnOk result ((r : RuleValue S S.W S.Ret) → slice_get p.rules k ≡ Some r →
        (e : TableEntry S.W) → slice_get (found target' tables.old) t ≡ Some e →
        Below s (weights s (found target' tables.new) r.control r.symbol to)
        (s.extend tables.old.hand e.weight)) }
    ensures hand { OnOk result (tables.new.hand ≡ tables.old.hand) }
{
    let _semiring = system.semiring();
    let list = layer(target);
    let place = goal(system, k, to);
    tables.lower_then(list, place, list, t)?;
    tables.valid();
    Ok(())
}
