ghost use Rattle.std.specs.Prelude.{◌≡◌, ◌<◌, ◌≤◌, ℕ, true, false, length, IsTrue, OnOk, IfOk};
ghost use Rattle.semiring_laws.specs.Semiring.{Below};
ghost use Rattle.config_patterns.specs.Edges.{is_final_of};
ghost use Rattle.weight_tables.specs.Entries.{NoneWaits};
ghost use Rattle.weight_tables.specs.Turns.{turns_left};
ghost use Rattle.forward_value_search.specs.Search.{IsFinished};
ghost use Rattle.value_tails.specs.Tailing.{tail_place as tail_value, tail_in, IsTailed, IsTail};
ghost use Rattle.value_tails.specs.private.Steps.{AreLinksGiven, AreTailsLowered, IsLinkedUp, IsTailedOver, IsTailing};

use crate::links::link_all;
use crate::reading::read_back;
use config_patterns::Pattern;
use semiring_laws::Semiring;
use weight_tables::{Layer, Tables, Weigher};
use weighted_automata::{Label, Place};
use wpds_base::OutOfMemory;

/// The place of the tail of a source, by its number.
pub fn tail_place(number: u32) -> Place
    ensures { result ≡ tail_value number }
{
    Place {
        from: 0,
        label: Label::Empty,
        to: number,
    }
}

// Where the pattern may stop nothing more lies below: the weight one, which is in hand.
fn end<'s, S: Semiring, M: Weigher<S>>(
    tables: &mut Tables<'s, S, M>,
    first: &Pattern,
    state: u32,
) -> Result<(), OutOfMemory>
    requires hand { let s = S.operations tables.old.system.semiring in tables.old.hand ≡ s.one }
    ensures lowered { let s = S.operations tables.old.system.semiring in
        OnOk result (AreTailsLowered s first.now tables.old tables.new) }
    ensures hand { OnOk result (tables.new.hand ≡ tables.old.hand) }
    ensures met { let s = S.operations tables.old.system.semiring in
        OnOk result (IsTrue (is_final_of first.now.items state) →
        Below s (tail_in s tables.new.target state) s.one) }
{
    tables.valid();
    if first.is_final(state) {
        tables.lower(Layer::Target, tail_place(state))?;
    }
    Ok(())
}

// Begins: the states where the pattern may stop, all of which wait.
fn begin<'s, S: Semiring, M: Weigher<S>>(
    tables: &mut Tables<'s, S, M>,
    first: &Pattern,
) -> Result<(), OutOfMemory>
    ensures tailing { let s = S.operations tables.old.system.semiring in
        OnOk result (IsTailing s first.now tables.new) }
    ensures others { OnOk result (IsTailedOver tables.old tables.new) }
{
    tables.valid();
    tables.renew(Layer::Target);
    tables.hold_one()?;
    let states = first.items() + 1;
    for state in 0..states {
        end(tables, first, state)?;
    }
    Ok(())
}

// Lowers the tail of each callee that a source is linked to, by the weight in hand and the link's.
fn give_links<'s, S: Semiring, M: Weigher<S>>(
    tables: &mut Tables<'s, S, M>,
    first: &Pattern,
    number: u32,
) -> Result<(), OutOfMemory>
    requires linked { let s = S.operations tables.old.system.semiring in
        IsLinkedUp s first.now tables.old }
    requires made { let s = S.operations tables.old.system.semiring in
        IsTail s first.now tables.old.system number tables.old.hand }
    ensures lowered { let s = S.operations tables.old.system.semiring in
        OnOk result (AreTailsLowered s first.now tables.old tables.new) }
    ensures met { let s = S.operations tables.old.system.semiring in OnOk result
        (AreLinksGiven s first.now tables.old tables.new.target number tables.old.hand) }
{
    tables.valid();
    let mut at = tables.first_out_of(Layer::Walk, number);
    'links: while let Some(t) = at {
        let callee = tables.place(Layer::Walk, t).to;
        tables.lower_then(Layer::Target, tail_place(callee), Layer::Walk, t)?;
        at = tables.next_out_of(Layer::Walk, t);
    }
    Ok(())
}

// Takes a tail that waits; whether there was one.
fn turn<'s, S: Semiring, M: Weigher<S>>(
    tables: &mut Tables<'s, S, M>,
    first: &Pattern,
) -> Result<bool, OutOfMemory>
    requires linked { let s = S.operations tables.old.system.semiring in
        IsLinkedUp s first.now tables.old }
    requires tailing { let s = S.operations tables.old.system.semiring in
        IsTailing s first.now tables.old }
    ensures tailing { let s = S.operations tables.old.system.semiring in
        OnOk result (IsTailing s first.now tables.new) }
    ensures others { OnOk result (IsTailedOver tables.old tables.new) }
    ensures done { IfOk result (λ some. some ≡ false → NoneWaits tables.new.target) }
    ensures fewer { let s = S.operations tables.old.system.semiring in IfOk result (λ some.
        some ≡ true → turns_left s tables.new.target < turns_left s tables.old.target) }
{
    tables.valid();
    let Some(t) = tables.pop(Layer::Target) else {
        return Ok(false);
    };
    let number = tables.place(Layer::Target, t).to;
    tables.hold(Layer::Target, t)?;
    tables.valid();
    read_back(tables, first, number)?;
    give_links(tables, first, number)?;
    tables.valid();
    Ok(true)
}

/// Makes the tails of all sources of a finished search, in the tables' target layer: for each the value of all that can lie below it.
/// What the layer of the walk had goes. It is done once for all queries that end in any number of any symbols, in about one
/// pass over what the search found (Reps, Schwoon, Jha, Melski 2005). It is refused only when out of memory.
pub fn make_tails<'s, S: Semiring, M: Weigher<S>>(
    tables: &mut Tables<'s, S, M>,
    first: &Pattern,
) -> Result<(), OutOfMemory>
    requires { IsFinished S.operations tables.old.system first.now tables.old }
    ensures tails { let s = S.operations tables.old.system.semiring in
        OnOk result (IsTailed s first.now tables.new) }
    ensures finished { OnOk result
        (IsFinished S.operations tables.old.system first.now tables.new) }
    ensures system { OnOk result (tables.new.system ≡ tables.old.system) }
    ensures base { OnOk result (tables.new.base ≡ tables.old.base) }
{
    link_all(tables, first)?;
    begin(tables, first)?;
    'turns: loop {
        if !turn(tables, first)? {
            tables.valid();
            return Ok(());
        }
    }
}
