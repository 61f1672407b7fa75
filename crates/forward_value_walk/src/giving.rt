ghost use Rattle.std.specs.Prelude.{◌<◌, ◌≡◌, IsTrue, length, OnOk, Some, slice_get};
ghost use Rattle.forward_value_search.specs.Search.{StandsAt, IsFinished};
ghost use Rattle.weight_tables.specs.Entries.{TableEntry};
ghost use Rattle.walk_pairs.specs.Pairs.{pair_place as pair_value};
ghost use Rattle.walk_pairs.specs.declared.pairs.Stage.TheVariants.{Above, Before, Down};
ghost use Rattle.forward_value_walk.specs.private.Going.{AreItemsGiven, AreMade, IsAboveGiven, IsPairGiven, IsPlaceGiven, IsStopped};
ghost use Rattle.forward_value_walk.specs.Walking.{is_stop};

use crate::calls::open_calls;
use config_patterns::Pattern;
use semiring_laws::Semiring;
use value_tails::tail_place;
use walk_pairs::{Stage, answer_place, pair_at, read_items, read_on, read_state, skip_item};
use weight_tables::{Layer, Tables, Weigher};
use wpds_base::OutOfMemory;

// Whether the walk stops at a state.
fn stops_at(stop: Option<u32>, state: u32) -> bool
    ensures { result ≡ is_stop stop state }
{
    match stop {
        Some(last) => last == state,
        None => false,
    }
}

// Where the walk stops, the pair and what lies below its source are the rest of the answer.
fn give_rest<'s, S: Semiring, M: Weigher<S>>(
    tables: &mut Tables<'s, S, M>,
    first: &Pattern,
    wanted: &Pattern,
    stop: Option<u32>,
    state: u32,
    source: u32,
    t: u32,
) -> Result<(), OutOfMemory>
    requires entry { StandsAt t (pair_value Down state source) tables.old.walk }
    requires finished { IsFinished S.operations tables.old.system first.now tables.old }
    requires made { let s = S.operations tables.old.system.semiring in
        AreMade s first.now wanted.now tables.old }
    requires stopped { let s = S.operations tables.old.system.semiring in
        IsStopped s first.now wanted.now (is_stop stop) tables.old }
    requires stop { IsTrue (is_stop stop state) }
    ensures { let s = S.operations tables.old.system.semiring in OnOk result
        (IsPairGiven s first.now wanted.now (is_stop stop) state source tables.old tables.new) }
{
    tables.valid();
    let Some(n) = tables.find(Layer::Target, tail_place(source)) else {
        return Ok(());
    };
    tables.hold(Layer::Walk, t)?;
    tables.lower_after(Layer::Walk, answer_place(), Layer::Target, n)?;
    Ok(())
}

// Gives all that a pair gives: where it has been read down to an item, both patterns read on; where to a callee, the second does,
// and its calls lie below.
fn give_pair<'s, S: Semiring, M: Weigher<S>>(
    tables: &mut Tables<'s, S, M>,
    first: &Pattern,
    wanted: &Pattern,
    stop: Option<u32>,
    state: u32,
    source: u32,
    t: u32,
) -> Result<(), OutOfMemory>
    requires entry { StandsAt t (pair_value Down state source) tables.old.walk }
    requires finished { IsFinished S.operations tables.old.system first.now tables.old }
    requires made { let s = S.operations tables.old.system.semiring in
        AreMade s first.now wanted.now tables.old }
    requires stopped { let s = S.operations tables.old.system.semiring in
        IsStopped s first.now wanted.now (is_stop stop) tables.old }
    ensures { let s = S.operations tables.old.system.semiring in OnOk result
        (IsPairGiven s first.now wanted.now (is_stop stop) state source tables.old tables.new) }
{
    tables.valid();
    if stops_at(stop, state) {
        give_rest(tables, first, wanted, stop, state, source, t)?;
        return Ok(());
    }
    tables.hold(Layer::Walk, t)?;
    read_on(tables, wanted, state, first, source)?;
    if source <= first.items() {
        return Ok(());
    }
    read_state(tables, wanted, state, source)?;
    Ok(())
}

// Gives all that an item gives that is read next above a source: past it, where it has a star, and the calls whose rest it reads.
fn give_above<'s, S: Semiring, M: Weigher<S>>(
    tables: &mut Tables<'s, S, M>,
    first: &Pattern,
    wanted: &Pattern,
    item: u32,
    source: u32,
    t: u32,
) -> Result<(), OutOfMemory>
    requires entry { StandsAt t (pair_value Above item source) tables.old.walk }
    requires finished { IsFinished S.operations tables.old.system first.now tables.old }
    requires made { let s = S.operations tables.old.system.semiring in
        AreMade s first.now wanted.now tables.old }
    ensures { let s = S.operations tables.old.system.semiring in OnOk result
        (IsAboveGiven s first.now wanted.now item source tables.old tables.new) }
{
    tables.valid();
    tables.hold(Layer::Walk, t)?;
    skip_item(tables, wanted, item, source)?;
    open_calls(tables, first, wanted, item, source, t)?;
    Ok(())
}

// Gives all that stands before two items that both patterns read next.
fn give_items<'s, S: Semiring, M: Weigher<S>>(
    tables: &mut Tables<'s, S, M>,
    first: &Pattern,
    wanted: &Pattern,
    k: u32,
    l: u32,
    t: u32,
) -> Result<(), OutOfMemory>
    requires entry { StandsAt t (pair_value Before k l) tables.old.walk }
    requires finished { IsFinished S.operations tables.old.system first.now tables.old }
    requires made { let s = S.operations tables.old.system.semiring in
        AreMade s first.now wanted.now tables.old }
    ensures { let s = S.operations tables.old.system.semiring in OnOk result
        (AreItemsGiven s first.now wanted.now k l tables.old tables.new) }
{
    tables.valid();
    tables.hold(Layer::Walk, t)?;
    read_items(tables, Stage::Down, wanted, k, first, l)?;
    Ok(())
}

/// Gives all that an entry of the walk gives. What is no pair gives nothing.
pub(crate) fn give<'s, S: Semiring, M: Weigher<S>>(
    tables: &mut Tables<'s, S, M>,
    first: &Pattern,
    wanted: &Pattern,
    stop: Option<u32>,
    t: u32,
) -> Result<(), OutOfMemory>
    requires entry { t < length tables.old.walk }
    requires finished { IsFinished S.operations tables.old.system first.now tables.old }
    requires made { let s = S.operations tables.old.system.semiring in
        AreMade s first.now wanted.now tables.old }
    requires stopped { let s = S.operations tables.old.system.semiring in
        IsStopped s first.now wanted.now (is_stop stop) tables.old }
    ensures { let s = S.operations tables.old.system.semiring in OnOk result
        ((e : TableEntry S.W) → slice_get tables.old.walk t ≡ Some e →
        IsPlaceGiven s first.now wanted.now (is_stop stop) e.place tables.old tables.new) }
{
    tables.valid();
    let Some(pair) = pair_at(tables.place(Layer::Walk, t)) else {
        return Ok(());
    };
    match pair.stage {
        Stage::Down => {
            give_pair(tables, first, wanted, stop, pair.state, pair.to, t)?;
            Ok(())
        }
        Stage::Before => {
            give_items(tables, first, wanted, pair.state, pair.to, t)?;
            Ok(())
        }
        Stage::Above => {
            give_above(tables, first, wanted, pair.state, pair.to, t)?;
            Ok(())
        }
        Stage::Across => Ok(()),
    }
}
