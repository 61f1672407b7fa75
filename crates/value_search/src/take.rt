ghost use Rattle.std.specs.Prelude.{◌≡◌, ℕ, OnOk, option_map};
ghost use Rattle.value_laws.specs.Steps.{without};
ghost use Rattle.value_search.specs.Views.{AreSettled, counting, found, place_at, weights};
ghost use Rattle.value_search.specs.Finds.{IsAt, IsSearch, IsOnward};
ghost use Rattle.value_search.specs.Met.{IsOntoMet, IsOverMet};

use crate::give::Taken;
use crate::meet::{meet_onto, meet_over};
use config_patterns::Pattern;
use pushdown_rules::System;
use semiring_laws::Semiring;
use weight_tables::{Tables, Weigher};
use wpds_base::OutOfMemory;

// Each rule of whose right side the transition may be the top.
fn meet_row_onto<'s, S: Semiring, M: Weigher<S>>(
    system: &System<S>,
    tables: &mut Tables<'s, S, M>,
    target: Option<&Pattern>,
    at: Taken,
) -> Result<(), OutOfMemory>
    requires search { let p = system.now in
        IsSearch (S.operations p.semiring) p (option_map (λ t. t.now) target) tables.old }
    requires at { IsAt (found (option_map (λ t. t.now) target) tables.old) at.number
        (place_at at.from at.symbol at.to) }
    ensures onward { let p = system.now in OnOk result (IsOnward (S.operations p.semiring) p
        (option_map (λ t. t.now) target.entry) tables.old tables.new) }
    ensures met { let p = system.now in let target' = option_map (λ t. t.now) target.entry in
        OnOk result ((k : ℕ) → IsOntoMet (S.operations p.semiring) p target'
        k at.from at.symbol at.to (found target' tables.new)) }
{
    let _semiring = system.semiring();
    let mut next = system.first_onto(at.from, at.symbol);
    'row: while let Some(k) = next {
        meet_onto(system, tables, target, k, at)?;
        next = system.next_onto(k);
    }
    Ok(())
}

// Each rule that leaves the transition's symbol below.
fn meet_row_over<'s, S: Semiring, M: Weigher<S>>(
    system: &System<S>,
    tables: &mut Tables<'s, S, M>,
    target: Option<&Pattern>,
    at: Taken,
) -> Result<(), OutOfMemory>
    requires search { let p = system.now in
        IsSearch (S.operations p.semiring) p (option_map (λ t. t.now) target) tables.old }
    requires at { IsAt (found (option_map (λ t. t.now) target) tables.old) at.number
        (place_at at.from at.symbol at.to) }
    ensures onward { let p = system.now in OnOk result (IsOnward (S.operations p.semiring) p
        (option_map (λ t. t.now) target.entry) tables.old tables.new) }
    ensures met { let p = system.now in let target' = option_map (λ t. t.now) target.entry in
        OnOk result ((k : ℕ) → IsOverMet (S.operations p.semiring) p target'
        k at.from at.symbol at.to tables.new.base (found target' tables.new)) }
{
    let _semiring = system.semiring();
    let mut next = system.first_over(at.symbol);
    'row: while let Some(k) = next {
        meet_over(system, tables, target, k, at)?;
        next = system.next_over(k);
    }
    Ok(())
}

/// Meets all that a transition gives with the inputs that are there.
pub(crate) fn take<'s, S: Semiring, M: Weigher<S>>(
    system: &System<S>,
    tables: &mut Tables<'s, S, M>,
    target: Option<&Pattern>,
    at: Taken,
) -> Result<(), OutOfMemory>
    requires search { let p = system.now in
        IsSearch (S.operations p.semiring) p (option_map (λ t. t.now) target) tables.old }
    requires at { IsAt (found (option_map (λ t. t.now) target) tables.old) at.number
        (place_at at.from at.symbol at.to) }
    requires settled { let p = system.now in let s = S.operations p.semiring in
        let target' = option_map (λ t. t.now) target in let es = found target' tables.old in
        AreSettled s p target' tables.old.base (weights s es)
        (without s.zero at.from at.symbol at.to (counting s es)) }
    ensures onward { let p = system.now in OnOk result (IsOnward (S.operations p.semiring) p
        (option_map (λ t. t.now) target.entry) tables.old tables.new) }
    ensures settled { let p = system.now in let s = S.operations p.semiring in
        let target' = option_map (λ t. t.now) target.entry in let es = found target' tables.new in
        OnOk result (AreSettled s p target' tables.new.base (weights s es) (counting s es)) }
{
    let _semiring = system.semiring();
    meet_row_onto(system, tables, target, at)?;
    meet_row_over(system, tables, target, at)?;
    Ok(())
}
