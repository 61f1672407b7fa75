ghost use Rattle.std.specs.Prelude.{suc, OnOk};
ghost use Rattle.walk_pairs.specs.Giving.{IsKept, AreFallsOnGiven};
ghost use Rattle.walk_pairs.specs.Ways.{TakesAt};
ghost use Rattle.walk_pairs.specs.declared.pairs.Order.TheVariants.{Then};
ghost use Rattle.value_walk.specs.private.Walking.{IsMeetingGiven, IsDownGiven, IsAboveGiven, IsPlaceGiven};

use config_patterns::Pattern;
use semiring_laws::Semiring;
use walk_pairs::{
    Order, Stage, fall_item, pair_at, pair_place, read_items, read_on, read_state, skip_item,
};
use weight_tables::{Layer, Tables, Weigher};
use weighted_automata::Place;
use wpds_base::OutOfMemory;

// Where a control is the target's, the pair goes on at the target's first state.
fn meet<'s, S: Semiring, M: Weigher<S>>(
    tables: &mut Tables<'s, S, M>,
    to: &Pattern,
    state: u32,
    control: u32,
) -> Result<(), OutOfMemory>
    ensures { let s = S.operations tables.old.system.semiring in
        OnOk result (IsMeetingGiven s to.now state control tables.old tables.new) }
{
    tables.valid();
    if control == to.control() {
        tables.lower(Layer::Walk, pair_place(Stage::Across, state, 0))?;
    }
    Ok(())
}

// Gives all that a pair at a control gives, whose weight is in hand.
fn give_down<'s, S: Semiring, M: Weigher<S>>(
    tables: &mut Tables<'s, S, M>,
    from: &Pattern,
    to: &Pattern,
    state: u32,
    control: u32,
) -> Result<(), OutOfMemory>
    ensures { let s = S.operations tables.old.system.semiring in
        OnOk result (IsDownGiven s from.now to.now state control tables.old tables.new) }
{
    tables.valid();
    meet(tables, to, state, control)?;
    read_state(tables, from, state, control)?;
    Ok(())
}

// Along what leads from a control over a symbol of an item, to a control and into the target.
fn fall_from<'s, S: Semiring, M: Weigher<S>>(
    tables: &mut Tables<'s, S, M>,
    layer: Layer,
    stage: Stage,
    from: &Pattern,
    item: u32,
    control: u32,
) -> Result<(), OutOfMemory>
    requires { IsKept layer }
    ensures { let s = S.operations tables.old.system.semiring in OnOk result
        (AreFallsOnGiven s tables.old Then layer stage control
        (TakesAt from.now.items (suc item)) (suc item) tables.new) }
{
    let then = Order::Then;
    fall_item(tables, then, layer, stage, control, from, item)
}

// Gives all that an item that is read next above a control gives, whose weight is in hand.
fn give_above<'s, S: Semiring, M: Weigher<S>>(
    tables: &mut Tables<'s, S, M>,
    from: &Pattern,
    to: &Pattern,
    item: u32,
    control: u32,
) -> Result<(), OutOfMemory>
    ensures { let s = S.operations tables.old.system.semiring in
        OnOk result (IsAboveGiven s from.now to.now item control tables.old tables.new) }
{
    tables.valid();
    to.control();
    skip_item(tables, from, item, control)?;
    fall_from(tables, Layer::Base, Stage::Down, from, item, control)?;
    fall_from(tables, Layer::Target, Stage::Across, from, item, control)?;
    Ok(())
}

/// Gives all that what stands at a place of the walk gives, whose weight is in hand. What is no pair gives nothing.
pub(crate) fn give<'s, S: Semiring, M: Weigher<S>>(
    tables: &mut Tables<'s, S, M>,
    from: &Pattern,
    to: &Pattern,
    place: Place,
) -> Result<(), OutOfMemory>
    ensures { let s = S.operations tables.old.system.semiring in
        OnOk result (IsPlaceGiven s from.now to.now place tables.old tables.new) }
{
    let Some(pair) = pair_at(place) else {
        return Ok(());
    };
    match pair.stage {
        Stage::Down => {
            give_down(tables, from, to, pair.state, pair.to)?;
            Ok(())
        }
        Stage::Across => {
            read_on(tables, from, pair.state, to, pair.to)?;
            Ok(())
        }
        Stage::Above => {
            give_above(tables, from, to, pair.state, pair.to)?;
            Ok(())
        }
        Stage::Before => {
            read_items(tables, Stage::Across, from, pair.state, to, pair.to)?;
            Ok(())
        }
    }
}
