ghost use Rattle.std.specs.Prelude.{◌≡◌, ◌≤◌, ◌<◌, suc, OnOk, Some, length, slice_get};
ghost use Rattle.config_patterns.specs.Edges.{edges_of};
ghost use Rattle.weight_tables.specs.Entries.{TableEntry, lowered_in};
ghost use Rattle.weight_tables.specs.Tables.{entries_of, with_entries};
ghost use Rattle.weight_tables.specs.declared.layer.Layer.TheVariants.{Walk};
ghost use Rattle.walk_pairs.specs.Giving.{IsKept, AreFallsOnGiven, AreFallsGiven};
ghost use Rattle.walk_pairs.specs.Pairs.{joined, pair_place as pair_value};
ghost use Rattle.walk_pairs.specs.Ways.{TakesAt};
ghost use Rattle.walk_pairs.specs.private.Steps.{IsEntryGiven};

use crate::meeting::takes_all;
use crate::pairs::{Order, Stage, pair_place};
use crate::ways::ways_from;
use config_patterns::Pattern;
use semiring_laws::Semiring;
use weight_tables::{Layer, Tables, Weigher};
use weighted_automata::Label;
use wpds_base::OutOfMemory;

// Lowers the pair of a state and of where an entry leads, by the weight in hand and the entry's.
fn fall<'s, S: Semiring, M: Weigher<S>>(
    tables: &mut Tables<'s, S, M>,
    order: Order,
    layer: Layer,
    stage: Stage,
    next: u32,
    t: u32,
) -> Result<(), OutOfMemory>
    requires { t < length (entries_of layer tables.old) }
    ensures { let s = S.operations tables.old.system.semiring in let v = tables.old in
        OnOk result ((e : TableEntry S.W) → slice_get (entries_of layer v) t ≡ Some e →
        tables.new ≡ with_entries Walk (lowered_in s (pair_value stage next e.place.to)
        (joined s order v.hand e.weight) v.walk) v) }
{
    let to = tables.place(layer, t).to;
    let place = pair_place(stage, next, to);
    match order {
        Order::Then => {
            tables.lower_then(Layer::Walk, place, layer, t)?;
            Ok(())
        }
        Order::After => {
            tables.lower_after(Layer::Walk, place, layer, t)?;
            Ok(())
        }
    }
}

/// Goes along each entry of a layer from one over a symbol: the pair of a state and of where it leads is lowered by the weight in
/// hand and the entry's.
pub fn fall_row<'s, S: Semiring, M: Weigher<S>>(
    tables: &mut Tables<'s, S, M>,
    order: Order,
    layer: Layer,
    stage: Stage,
    from: u32,
    symbol: u32,
    next: u32,
) -> Result<(), OutOfMemory>
    requires { IsKept layer }
    ensures { let s = S.operations tables.old.system.semiring in OnOk result
        (AreFallsOnGiven s tables.old order layer stage from (λ g. g ≡ symbol) next tables.new) }
{
    tables.valid();
    let mut at = tables.first_from(layer, from, Label::Symbol(symbol));
    'row: while let Some(t) = at {
        fall(tables, order, layer, stage, next, t)?;
        at = tables.next_from(layer, t);
    }
    Ok(())
}

// Along each entry from one over a symbol that the item of a state takes: row by row.
fn fall_rows<'s, S: Semiring, M: Weigher<S>>(
    tables: &mut Tables<'s, S, M>,
    order: Order,
    layer: Layer,
    stage: Stage,
    from: u32,
    pattern: &Pattern,
    next: u32,
) -> Result<(), OutOfMemory>
    requires layer { IsKept layer }
    requires above { 1 ≤ next }
    requires within { next ≤ length pattern.now.items }
    ensures { let s = S.operations tables.old.system.semiring in
        OnOk result (AreFallsOnGiven s tables.old order layer stage from
        (TakesAt pattern.now.items next) next tables.new) }
{
    tables.valid();
    let set = &pattern.item(next - 1).set;
    for k in 0..set.len() {
        fall_row(tables, order, layer, stage, from, set.at(k), next)?;
    }
    Ok(())
}

// Along an entry, where the item of a state takes its symbol.
fn fall_over<'s, S: Semiring, M: Weigher<S>>(
    tables: &mut Tables<'s, S, M>,
    order: Order,
    layer: Layer,
    stage: Stage,
    t: u32,
    pattern: &Pattern,
    next: u32,
) -> Result<(), OutOfMemory>
    requires layer { IsKept layer }
    requires entry { t < length (entries_of layer tables.old) }
    requires above { 1 ≤ next }
    requires within { next ≤ length pattern.now.items }
    ensures { let s = S.operations tables.old.system.semiring in OnOk result
        (IsEntryGiven s tables.old order layer stage (TakesAt pattern.now.items next) next t
        tables.new) }
{
    tables.valid();
    let item = pattern.item(next - 1);
    match tables.place(layer, t).label {
        Label::Symbol(symbol) => {
            if !item.set.has(symbol) {
                return Ok(());
            }
            fall(tables, order, layer, stage, next, t)?;
            Ok(())
        }
        Label::Empty => Ok(()),
    }
}

// The same, over all that goes from one.
fn fall_out<'s, S: Semiring, M: Weigher<S>>(
    tables: &mut Tables<'s, S, M>,
    order: Order,
    layer: Layer,
    stage: Stage,
    from: u32,
    pattern: &Pattern,
    next: u32,
) -> Result<(), OutOfMemory>
    requires layer { IsKept layer }
    requires above { 1 ≤ next }
    requires within { next ≤ length pattern.now.items }
    ensures { let s = S.operations tables.old.system.semiring in
        OnOk result (AreFallsOnGiven s tables.old order layer stage from
        (TakesAt pattern.now.items next) next tables.new) }
{
    tables.valid();
    let mut at = tables.first_out_of(layer, from);
    'out: while let Some(t) = at {
        fall_over(tables, order, layer, stage, t, pattern, next)?;
        at = tables.next_out_of(layer, t);
    }
    Ok(())
}

// The same: over all that goes from one where the item takes each symbol, else row by row.
fn fall_on<'s, S: Semiring, M: Weigher<S>>(
    tables: &mut Tables<'s, S, M>,
    order: Order,
    layer: Layer,
    stage: Stage,
    from: u32,
    pattern: &Pattern,
    next: u32,
) -> Result<(), OutOfMemory>
    requires layer { IsKept layer }
    requires above { 1 ≤ next }
    requires within { next ≤ length pattern.now.items }
    ensures { let s = S.operations tables.old.system.semiring in
        OnOk result (AreFallsOnGiven s tables.old order layer stage from
        (TakesAt pattern.now.items next) next tables.new) }
{
    if takes_all(pattern.item(next - 1), pattern.symbols()) {
        fall_out(tables, order, layer, stage, from, pattern, next)
    } else {
        fall_rows(tables, order, layer, stage, from, pattern, next)
    }
}

/// Goes along each entry of a layer from one over a symbol that an item takes, which is counted from 0: the pair of its state and of
/// where the entry leads is lowered by the weight in hand and the entry's. A number that is no item gives nothing.
pub fn fall_item<'s, S: Semiring, M: Weigher<S>>(
    tables: &mut Tables<'s, S, M>,
    order: Order,
    layer: Layer,
    stage: Stage,
    from: u32,
    pattern: &Pattern,
    k: u32,
) -> Result<(), OutOfMemory>
    requires { IsKept layer }
    ensures { let s = S.operations tables.old.system.semiring in OnOk result
        (AreFallsOnGiven s tables.old order layer stage from
        (TakesAt pattern.now.items (suc k)) (suc k) tables.new) }
{
    tables.valid();
    if k >= pattern.items() {
        return Ok(());
    }
    fall_on(tables, order, layer, stage, from, pattern, k + 1)?;
    Ok(())
}

/// Goes along each edge of a pattern from a state, and along each entry of a layer from one over the edge's symbol: the pair of
/// where both lead is lowered by the weight in hand and the entry's.
pub fn fall_ways<'s, S: Semiring, M: Weigher<S>>(
    tables: &mut Tables<'s, S, M>,
    order: Order,
    layer: Layer,
    stage: Stage,
    from: u32,
    pattern: &Pattern,
    state: u32,
) -> Result<(), OutOfMemory>
    requires { IsKept layer }
    ensures { let s = S.operations tables.old.system.semiring in OnOk result
        (AreFallsGiven s tables.old order layer stage from (edges_of pattern.now.items) state
        tables.new) }
{
    tables.valid();
    let ways = ways_from(pattern, state);
    for next in ways.first..ways.end {
        fall_on(tables, order, layer, stage, from, pattern, next)?;
    }
    Ok(())
}
