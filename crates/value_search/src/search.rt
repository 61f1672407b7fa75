ghost use Rattle.std.specs.Prelude.{◌≡◌, ◌<◌, ℕ, IfOk, OnOk, None, Some, false, option_map, true};
ghost use Rattle.weight_tables.specs.Entries.{NoneWaits};
ghost use Rattle.weight_tables.specs.Tables.{with_entries, with_hand};
ghost use Rattle.weight_tables.specs.Turns.{turns_left};
ghost use Rattle.value_search.specs.Views.{AreSettled, counting, found, layer_of, weights};
ghost use Rattle.value_search.specs.Finds.{FindsPops, FindsEnters, IsSearch};

use crate::give::{Taken, layer};
use crate::take::take;
use config_patterns::Pattern;
use pushdown_rules::System;
use semiring_laws::Semiring;
use weight_tables::{Tables, Weigher};
use weighted_automata::Label;
use wpds_base::OutOfMemory;

// Takes one transition that waits, and says whether there was one.
fn take_next<'s, S: Semiring, M: Weigher<S>>(
    system: &System<S>,
    tables: &mut Tables<'s, S, M>,
    target: Option<&Pattern>,
) -> Result<bool, OutOfMemory>
    requires search { let p = system.now in
        IsSearch (S.operations p.semiring) p (option_map (λ t. t.now) target) tables.old }
    requires settled { let p = system.now in let s = S.operations p.semiring in
        let target' = option_map (λ t. t.now) target in let es = found target' tables.old in
        AreSettled s p target' tables.old.base (weights s es) (counting s es) }
    ensures search { let p = system.now in OnOk result (IsSearch (S.operations p.semiring) p
        (option_map (λ t. t.now) target.entry) tables.new) }
    ensures settled { let p = system.now in let s = S.operations p.semiring in
        let target' = option_map (λ t. t.now) target.entry in let es = found target' tables.new in
        OnOk result (AreSettled s p target' tables.new.base (weights s es) (counting s es)) }
    ensures others { let target' = option_map (λ t. t.now) target.entry in
        OnOk result (tables.new ≡ with_hand tables.new.hand
        (with_entries (layer_of target') (found target' tables.new) tables.old)) }
    ensures done { let target' = option_map (λ t. t.now) target.entry in
        IfOk result (λ some. some ≡ false → NoneWaits (found target' tables.new)) }
    ensures fewer { let s = S.operations system.now.semiring in
        let target' = option_map (λ t. t.now) target.entry in
        IfOk result (λ some. some ≡ true →
        turns_left s (found target' tables.new) < turns_left s (found target' tables.old)) }
{
    let _semiring = system.semiring();
    let list = layer(target);
    let Some(number) = tables.pop(list) else {
        return Ok(false);
    };
    tables.valid();
    let place = tables.place(list, number);
    match place.label {
        Label::Empty => Ok(true),
        Label::Symbol(symbol) => {
            let at = Taken {
                number,
                from: place.from,
                symbol,
                to: place.to,
            };
            take(system, tables, target, at)?;
            Ok(true)
        }
    }
}

/// Between controls, takes one transition that waits, and all that the rules make of it with those that are there; whether there was
/// one. It is refused only when out of memory, and the search is of no use then.
pub fn turn<'s, S: Semiring, M: Weigher<S>>(
    tables: &mut Tables<'s, S, M>,
) -> Result<bool, OutOfMemory>
    requires { let p = tables.old.system in FindsPops (S.operations p.semiring) p tables.old }
    ensures system { OnOk result (tables.new.system ≡ tables.old.system) }
    ensures finds { let p = tables.old.system in
        OnOk result (FindsPops (S.operations p.semiring) p tables.new) }
    ensures done { IfOk result (λ some. some ≡ false → NoneWaits tables.new.base) }
    ensures fewer { let s = S.operations tables.old.system.semiring in IfOk result (λ some.
        some ≡ true → turns_left s tables.new.base < turns_left s tables.old.base) }
    ensures target { OnOk result (tables.new.target ≡ tables.old.target) }
    ensures walk { OnOk result (tables.new.walk ≡ tables.old.walk) }
{
    let system = tables.system();
    tables.valid();
    let some = take_next(system, tables, None)?;
    Ok(some)
}

/// To a target, the same, once nothing waits between controls.
pub fn turn_to_target<'s, S: Semiring, M: Weigher<S>>(
    tables: &mut Tables<'s, S, M>,
    target: &Pattern,
) -> Result<bool, OutOfMemory>
    requires pops { let p = tables.old.system in FindsPops (S.operations p.semiring) p tables.old }
    requires closed { NoneWaits tables.old.base }
    requires finds { let p = tables.old.system in
        FindsEnters (S.operations p.semiring) p target.now tables.old }
    ensures system { OnOk result (tables.new.system ≡ tables.old.system) }
    ensures finds { let p = tables.old.system in
        OnOk result (FindsEnters (S.operations p.semiring) p target.now tables.new) }
    ensures done { IfOk result (λ some. some ≡ false → NoneWaits tables.new.target) }
    ensures fewer { let s = S.operations tables.old.system.semiring in IfOk result (λ some.
        some ≡ true → turns_left s tables.new.target < turns_left s tables.old.target) }
    ensures base { OnOk result (tables.new.base ≡ tables.old.base) }
    ensures walk { OnOk result (tables.new.walk ≡ tables.old.walk) }
{
    let system = tables.system();
    tables.valid();
    let some = take_next(system, tables, Some(target))?;
    Ok(some)
}
