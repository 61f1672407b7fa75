ghost use Rattle.std.specs.Prelude.{◌≡◌, ◌<◌, ℕ, OnOk, Some, None, [], ◌∷◌, length, option_map, slice_get};
ghost use Rattle.semiring_laws.specs.Semiring.{Below};
ghost use Rattle.pushdown_rules.specs.declared.rule.Rule.{Rule as RuleValue};
ghost use Rattle.value_laws.specs.Settled.{first_worth, returned_worth};
ghost use Rattle.weight_tables.specs.Entries.{TableEntry};
ghost use Rattle.value_search.specs.Views.{counting, found, place_at, weights};
ghost use Rattle.value_search.specs.Finds.{IsAt, IsSearch, IsOnward};
ghost use Rattle.value_search.specs.Met.{IsHeld, call_worth, IsPushMet, IsOntoMet, IsOverMet};

use crate::edges::{first_edge, next_edge};
use crate::give::{Taken, give, give_each, give_then, hold_call, hold_first, layer};
use config_patterns::Pattern;
use pushdown_rules::System;
use semiring_laws::Semiring;
use weight_tables::{Layer, Tables, Weigher};
use weighted_automata::{Label, Place};
use wpds_base::OutOfMemory;

// A step rule, with the transition from what it leaves.
fn meet_step<'s, S: Semiring, M: Weigher<S>>(
    system: &System<S>,
    tables: &mut Tables<'s, S, M>,
    target: Option<&Pattern>,
    k: u32,
    at: Taken,
) -> Result<(), OutOfMemory>
    requires rule { k < length system.now.rules }
    requires search { let p = system.now in
        IsSearch (S.operations p.semiring) p (option_map (λ t. t.now) target) tables.old }
    requires at { IsAt (found (option_map (λ t. t.now) target) tables.old) at.number
        (place_at at.from at.symbol at.to) }
    requires right { (r : RuleValue S S.W S.Ret) → slice_get system.now.rules k ≡ Some r →
        r.right ≡ at.symbol ∷ [] }
    requires from { (r : RuleValue S S.W S.Ret) → slice_get system.now.rules k ≡ Some r →
        r.to ≡ at.from }
    ensures onward { let p = system.now in OnOk result (IsOnward (S.operations p.semiring) p
        (option_map (λ t. t.now) target.entry) tables.old tables.new) }
    ensures given { let p = system.now in let s = S.operations p.semiring in
        let es = found (option_map (λ t. t.now) target.entry) tables.new in
        OnOk result ((r : RuleValue S S.W S.Ret) → slice_get p.rules k ≡ Some r →
        Below s (weights s es r.control r.symbol at.to)
        (first_worth s r (counting s es at.from at.symbol at.to))) }
{
    let _semiring = system.semiring();
    let list = layer(target);
    hold_first(system, tables, k, list, at.number)?;
    give(system, tables, target, k, at.to)?;
    Ok(())
}

// A push rule, with the transition that goes on where its callee ends.
fn meet_callee<'s, S: Semiring, M: Weigher<S>>(
    system: &System<S>,
    tables: &mut Tables<'s, S, M>,
    target: Option<&Pattern>,
    k: u32,
    callee: u32,
    at: Taken,
) -> Result<(), OutOfMemory>
    requires rule { k < length system.now.rules }
    requires search { let p = system.now in
        IsSearch (S.operations p.semiring) p (option_map (λ t. t.now) target) tables.old }
    requires at { IsAt (found (option_map (λ t. t.now) target) tables.old) at.number
        (place_at at.from at.symbol at.to) }
    requires right { (r : RuleValue S S.W S.Ret) → slice_get system.now.rules k ≡ Some r →
        r.right ≡ callee ∷ at.symbol ∷ [] }
    ensures onward { let p = system.now in OnOk result (IsOnward (S.operations p.semiring) p
        (option_map (λ t. t.now) target.entry) tables.old tables.new) }
    ensures given { let p = system.now in let s = S.operations p.semiring in
        let es = found (option_map (λ t. t.now) target.entry) tables.new in
        OnOk result ((r : RuleValue S S.W S.Ret) → slice_get p.rules k ≡ Some r →
        Below s (weights s es r.control r.symbol at.to) (returned_worth s r
        (counting s tables.new.base r.to callee at.from)
        (counting s es at.from at.symbol at.to))) }
{
    let _semiring = system.semiring();
    let rule = system.rule(k);
    let end = Place {
        from: rule.to,
        label: Label::Symbol(callee),
        to: at.from,
    };
    let Some(first) = tables.find(Layer::Base, end) else {
        return Ok(());
    };
    if tables.waits(Layer::Base, first) {
        return Ok(());
    }
    hold_call(system, tables, k, first)?;
    give_then(system, tables, target, k, at.to, at.number)?;
    Ok(())
}

// A push rule, with its callee's return in hand, and one transition that goes on there.
fn meet_second<'s, S: Semiring, M: Weigher<S>>(
    system: &System<S>,
    tables: &mut Tables<'s, S, M>,
    k: u32,
    below: u32,
    second: u32,
    at: Taken,
) -> Result<(), OutOfMemory>
    requires rule { k < length system.now.rules }
    requires search { let p = system.now in
        IsSearch (S.operations p.semiring) p None tables.old }
    requires entry { second < length tables.old.base }
    requires row { (e : TableEntry S.W) → slice_get tables.old.base second ≡ Some e →
        e.place ≡ place_at at.to below e.place.to }
    requires right { (r : RuleValue S S.W S.Ret) → slice_get system.now.rules k ≡ Some r →
        r.right ≡ at.symbol ∷ below ∷ [] }
    requires from { (r : RuleValue S S.W S.Ret) → slice_get system.now.rules k ≡ Some r →
        r.to ≡ at.from }
    requires hand { let p = system.now in let s = S.operations p.semiring in
        IsHeld s p None (call_worth s) k at.from at.symbol at.to tables.old }
    ensures onward { let p = system.now in
        OnOk result (IsOnward (S.operations p.semiring) p None tables.old tables.new) }
    ensures given { let p = system.now in let s = S.operations p.semiring in
        OnOk result ((r : RuleValue S S.W S.Ret) → slice_get p.rules k ≡ Some r →
        (e : TableEntry S.W) → slice_get tables.old.base second ≡ Some e →
        Below s (weights s tables.new.base r.control r.symbol e.place.to) (returned_worth s r
        (counting s tables.new.base at.from at.symbol at.to)
        (counting s tables.new.base at.to below e.place.to))) }
    ensures hand { OnOk result (tables.new.hand ≡ tables.old.hand) }
{
    let _semiring = system.semiring();
    if tables.waits(Layer::Base, second) {
        return Ok(());
    }
    let to = tables.place(Layer::Base, second).to;
    give_then(system, tables, None, k, to, second)?;
    Ok(())
}

// A push rule, with the transition of its callee, and each that goes on where that ends.
fn meet_seconds<'s, S: Semiring, M: Weigher<S>>(
    system: &System<S>,
    tables: &mut Tables<'s, S, M>,
    k: u32,
    below: u32,
    at: Taken,
) -> Result<(), OutOfMemory>
    requires rule { k < length system.now.rules }
    requires search { let p = system.now in
        IsSearch (S.operations p.semiring) p None tables.old }
    requires at { IsAt tables.old.base at.number (place_at at.from at.symbol at.to) }
    requires right { (r : RuleValue S S.W S.Ret) → slice_get system.now.rules k ≡ Some r →
        r.right ≡ at.symbol ∷ below ∷ [] }
    requires from { (r : RuleValue S S.W S.Ret) → slice_get system.now.rules k ≡ Some r →
        r.to ≡ at.from }
    ensures onward { let p = system.now in
        OnOk result (IsOnward (S.operations p.semiring) p None tables.old tables.new) }
    ensures met { let p = system.now in
        OnOk result ((r : RuleValue S S.W S.Ret) → slice_get p.rules k ≡ Some r →
        IsPushMet (S.operations p.semiring) p None
        r at.from at.symbol at.to below tables.new.base) }
{
    let _semiring = system.semiring();
    let first = tables.first_from(Layer::Base, at.to, Label::Symbol(below));
    if first.is_none() {
        return Ok(());
    }
    hold_call(system, tables, k, at.number)?;
    let mut next = first;
    'row: while let Some(second) = next {
        meet_second(system, tables, k, below, second, at)?;
        next = tables.next_from(Layer::Base, second);
    }
    Ok(())
}

// A push rule whose call stays open, with the transition of its callee, and each edge of the target over the symbol below.
fn meet_edges<'s, S: Semiring, M: Weigher<S>>(
    system: &System<S>,
    tables: &mut Tables<'s, S, M>,
    target: &Pattern,
    k: u32,
    below: u32,
    at: Taken,
) -> Result<(), OutOfMemory>
    requires rule { k < length system.now.rules }
    requires search { let p = system.now in
        IsSearch (S.operations p.semiring) p (Some target.now) tables.old }
    requires at { IsAt tables.old.target at.number (place_at at.from at.symbol at.to) }
    requires right { (r : RuleValue S S.W S.Ret) → slice_get system.now.rules k ≡ Some r →
        r.right ≡ at.symbol ∷ below ∷ [] }
    requires from { (r : RuleValue S S.W S.Ret) → slice_get system.now.rules k ≡ Some r →
        r.to ≡ at.from }
    ensures onward { let p = system.now in
        OnOk result (IsOnward (S.operations p.semiring) p (Some target.now) tables.old tables.new) }
    ensures met { let p = system.now in
        OnOk result ((r : RuleValue S S.W S.Ret) → slice_get p.rules k ≡ Some r →
        IsPushMet (S.operations p.semiring) p (Some target.now)
        r at.from at.symbol at.to below tables.new.target) }
{
    let _semiring = system.semiring();
    let first = first_edge(target, at.to, below);
    if first.is_none() {
        return Ok(());
    }
    hold_first(system, tables, k, Layer::Target, at.number)?;
    let mut next = first;
    'edges: while let Some(to) = next {
        give_each(system, tables, Some(target), k, to)?;
        next = next_edge(target, at.to, below, to);
    }
    Ok(())
}

// A push rule, with the transition of its callee.
fn meet_push<'s, S: Semiring, M: Weigher<S>>(
    system: &System<S>,
    tables: &mut Tables<'s, S, M>,
    target: Option<&Pattern>,
    k: u32,
    below: u32,
    at: Taken,
) -> Result<(), OutOfMemory>
    requires rule { k < length system.now.rules }
    requires search { let p = system.now in
        IsSearch (S.operations p.semiring) p (option_map (λ t. t.now) target) tables.old }
    requires at { IsAt (found (option_map (λ t. t.now) target) tables.old) at.number
        (place_at at.from at.symbol at.to) }
    requires right { (r : RuleValue S S.W S.Ret) → slice_get system.now.rules k ≡ Some r →
        r.right ≡ at.symbol ∷ below ∷ [] }
    requires from { (r : RuleValue S S.W S.Ret) → slice_get system.now.rules k ≡ Some r →
        r.to ≡ at.from }
    ensures onward { let p = system.now in OnOk result (IsOnward (S.operations p.semiring) p
        (option_map (λ t. t.now) target.entry) tables.old tables.new) }
    ensures met { let p = system.now in let target' = option_map (λ t. t.now) target.entry in
        OnOk result ((r : RuleValue S S.W S.Ret) → slice_get p.rules k ≡ Some r →
        IsPushMet (S.operations p.semiring) p target'
        r at.from at.symbol at.to below (found target' tables.new)) }
{
    match target {
        None => meet_seconds(system, tables, k, below, at),
        Some(target) => meet_edges(system, tables, target, k, below, at),
    }
}

/// A rule, with a transition that may be the top of what it leaves.
pub(crate) fn meet_onto<'s, S: Semiring, M: Weigher<S>>(
    system: &System<S>,
    tables: &mut Tables<'s, S, M>,
    target: Option<&Pattern>,
    k: u32,
    at: Taken,
) -> Result<(), OutOfMemory>
    requires rule { k < length system.now.rules }
    requires search { let p = system.now in
        IsSearch (S.operations p.semiring) p (option_map (λ t. t.now) target) tables.old }
    requires at { IsAt (found (option_map (λ t. t.now) target) tables.old) at.number
        (place_at at.from at.symbol at.to) }
    ensures onward { let p = system.now in OnOk result (IsOnward (S.operations p.semiring) p
        (option_map (λ t. t.now) target.entry) tables.old tables.new) }
    ensures met { let p = system.now in let target' = option_map (λ t. t.now) target.entry in
        OnOk result (IsOntoMet (S.operations p.semiring) p target'
        k at.from at.symbol at.to (found target' tables.new)) }
{
    let _semiring = system.semiring();
    let rule = system.rule(k);
    if rule.to != at.from {
        return Ok(());
    }
    match rule.right.as_slice() {
        [top] => {
            if *top != at.symbol {
                return Ok(());
            }
            meet_step(system, tables, target, k, at)?;
            Ok(())
        }
        [top, below] => {
            if *top != at.symbol {
                return Ok(());
            }
            meet_push(system, tables, target, k, *below, at)?;
            Ok(())
        }
        _ => Ok(()),
    }
}

/// A rule, with a transition that may be what it leaves below.
pub(crate) fn meet_over<'s, S: Semiring, M: Weigher<S>>(
    system: &System<S>,
    tables: &mut Tables<'s, S, M>,
    target: Option<&Pattern>,
    k: u32,
    at: Taken,
) -> Result<(), OutOfMemory>
    requires rule { k < length system.now.rules }
    requires search { let p = system.now in
        IsSearch (S.operations p.semiring) p (option_map (λ t. t.now) target) tables.old }
    requires at { IsAt (found (option_map (λ t. t.now) target) tables.old) at.number
        (place_at at.from at.symbol at.to) }
    ensures onward { let p = system.now in OnOk result (IsOnward (S.operations p.semiring) p
        (option_map (λ t. t.now) target.entry) tables.old tables.new) }
    ensures met { let p = system.now in let target' = option_map (λ t. t.now) target.entry in
        OnOk result (IsOverMet (S.operations p.semiring) p target'
        k at.from at.symbol at.to tables.new.base (found target' tables.new)) }
{
    let _semiring = system.semiring();
    match system.rule(k).right.as_slice() {
        [top, below] => {
            if *below != at.symbol {
                return Ok(());
            }
            meet_callee(system, tables, target, k, *top, at)?;
            Ok(())
        }
        _ => Ok(()),
    }
}
