ghost use Rattle.std.specs.Prelude.{◌≡◌, ◌↔◌, ◌<◌, ◌≤◌, ℕ, suc, length, IsTrue, OnOk};
ghost use Rattle.wpds_base.specs.Limits.{most_items};
ghost use Rattle.walk_pairs.specs.Reading.{IsSkipped, IsStateGiven, IsSkipGiven, IsPairGiven, IsBeforeGiven};
ghost use Rattle.walk_pairs.specs.Pairs.{pair_place as pair_value};
ghost use Rattle.walk_pairs.specs.Ways.{StaysAt, TakesAt};
ghost use Rattle.walk_pairs.specs.declared.pairs.Stage.TheVariants.{Above, Before};
ghost use Rattle.walk_pairs.specs.private.Steps.{IsLoweredWhere};

use crate::meeting::is_shared;
use crate::pairs::{Stage, answer_place, pair_place};
use crate::ways::stays_at;
use config_patterns::Pattern;
use semiring_laws::Semiring;
use weight_tables::{Layer, Tables, Weigher};
use weighted_automata::Place;
use wpds_base::OutOfMemory;

// Lowers a place of the walk by the weight in hand, if it is to.
fn lower_where<'s, S: Semiring, M: Weigher<S>>(
    tables: &mut Tables<'s, S, M>,
    is_to: bool,
    place: Place,
) -> Result<(), OutOfMemory>
    ensures { let s = S.operations tables.old.system.semiring in
        OnOk result (IsLoweredWhere s is_to place tables.old tables.new) }
{
    tables.valid();
    if is_to {
        tables.lower(Layer::Walk, place)?;
    }
    Ok(())
}

// The place of an item that is read next, with what a state has.
fn above(k: u32, to: u32) -> Place
    ensures { result ≡ pair_value Above k to }
{
    pair_place(Stage::Above, k, to)
}

// Whether a number is none behind all items.
fn is_within(one: &Pattern, k: u32) -> bool
    ensures yes { IsTrue result → k ≤ length one.now.items }
    ensures no { k ≤ length one.now.items → IsTrue result }
    ensures few { IsTrue result → k ≤ most_items }
{
    k <= one.items()
}

/// Has a state, with what it has, go on before the items that the pattern may read next: these are lowered by the weight in hand.
/// A number that is no state gives nothing.
pub fn read_state<'s, S: Semiring, M: Weigher<S>>(
    tables: &mut Tables<'s, S, M>,
    one: &Pattern,
    state: u32,
    to: u32,
) -> Result<(), OutOfMemory>
    ensures { let s = S.operations tables.old.system.semiring in
        OnOk result (IsStateGiven s tables.old one.now.items state to tables.new) }
{
    tables.valid();
    if !is_within(one, state) {
        return Ok(());
    }
    let again = stays_at(one, state);
    let item = state.saturating_sub(1);
    lower_where(tables, true, above(state, to))?;
    lower_where(tables, again, above(item, to))?;
    Ok(())
}

/// Goes on past an item with a star: what stands before the next is lowered by the weight in hand.
pub fn skip_item<'s, S: Semiring, M: Weigher<S>>(
    tables: &mut Tables<'s, S, M>,
    one: &Pattern,
    k: u32,
    to: u32,
) -> Result<(), OutOfMemory>
    ensures { let s = S.operations tables.old.system.semiring in
        OnOk result (IsSkipGiven s tables.old one.now.items k to tables.new) }
{
    tables.valid();
    if !is_within(one, k) {
        return Ok(());
    }
    let skips = is_skipped(one, k);
    lower_where(tables, skips, above(k + 1, to))?;
    Ok(())
}

// Whether two numbers are none behind all items of their patterns.
fn are_within(one: &Pattern, k: u32, other: &Pattern, l: u32) -> bool
    ensures yes { IsTrue result → (k ≤ length one.now.items) × (l ≤ length other.now.items) }
    ensures no { k ≤ length one.now.items → l ≤ length other.now.items → IsTrue result }
    ensures few { IsTrue result → (k ≤ most_items) × (l ≤ most_items) }
{
    k <= one.items() && l <= other.items()
}

// Whether two numbers are those right behind all items of their patterns.
fn are_behind(one: &Pattern, k: u32, other: &Pattern, l: u32) -> bool
    ensures yes { IsTrue result → (k ≡ length one.now.items) × (l ≡ length other.now.items) }
    ensures no { k ≡ length one.now.items → l ≡ length other.now.items → IsTrue result }
{
    k == one.items() && l == other.items()
}

// Whether both states are those of starred items.
fn stay_both(one: &Pattern, state: u32, other: &Pattern, state_other: u32) -> bool
    requires within { state ≤ length one.now.items }
    requires within_other { state_other ≤ length other.now.items }
    ensures yes { IsTrue result →
        StaysAt one.now.items state × StaysAt other.now.items state_other }
    ensures no { StaysAt one.now.items state → StaysAt other.now.items state_other →
        IsTrue result }
{
    stays_at(one, state) && stays_at(other, state_other)
}

// The place of two items that are read next.
fn before(k: u32, l: u32) -> Place
    ensures { result ≡ pair_value Before k l }
{
    pair_place(Stage::Before, k, l)
}

/// Has a pair of states of two patterns go on before the items that each may read next: these are lowered by the weight in hand.
/// Numbers that are no states give nothing.
pub fn read_on<'s, S: Semiring, M: Weigher<S>>(
    tables: &mut Tables<'s, S, M>,
    one: &Pattern,
    state: u32,
    other: &Pattern,
    state_other: u32,
) -> Result<(), OutOfMemory>
    ensures { let s = S.operations tables.old.system.semiring in OnOk result
        (IsPairGiven s tables.old one.now.items other.now.items state state_other tables.new) }
{
    tables.valid();
    if !are_within(one, state, other, state_other) {
        return Ok(());
    }
    let (again, again_other) = (stays_at(one, state), stays_at(other, state_other));
    let both = stay_both(one, state, other, state_other);
    let (item, item_other) = (state.saturating_sub(1), state_other.saturating_sub(1));
    lower_where(tables, true, before(state, state_other))?;
    lower_where(tables, again, before(item, state_other))?;
    lower_where(tables, again_other, before(state, item_other))?;
    lower_where(tables, both, before(item, item_other))?;
    Ok(())
}

// Whether the item of a number has a star.
fn is_skipped(pattern: &Pattern, k: u32) -> bool
    ensures { IsTrue result ↔ IsSkipped pattern.now.items k }
{
    k < pattern.items() && pattern.item(k).star
}

// Whether the items of two numbers take a symbol in common.
fn both_read(one: &Pattern, k: u32, other: &Pattern, l: u32) -> bool
    requires within { k ≤ length one.now.items }
    requires within_other { l ≤ length other.now.items }
    ensures { IsTrue result ↔ ((g : ℕ) × TakesAt one.now.items (suc k) g
        × TakesAt other.now.items (suc l) g) }
{
    k < one.items() && l < other.items() && is_shared(one, k + 1, other, l + 1)
}

/// Goes on from before two items: past one with a star, or to the states of both over a symbol that both take; behind all items of
/// both patterns to the answer. Each is lowered by the weight in hand.
pub fn read_items<'s, S: Semiring, M: Weigher<S>>(
    tables: &mut Tables<'s, S, M>,
    stage: Stage,
    one: &Pattern,
    k: u32,
    other: &Pattern,
    l: u32,
) -> Result<(), OutOfMemory>
    ensures { let s = S.operations tables.old.system.semiring in OnOk result
        (IsBeforeGiven s tables.old one.now.items other.now.items stage k l tables.new) }
{
    tables.valid();
    if !are_within(one, k, other, l) {
        return Ok(());
    }
    let ends = are_behind(one, k, other, l);
    let skips = is_skipped(one, k);
    let skips_other = is_skipped(other, l);
    let reads = both_read(one, k, other, l);
    lower_where(tables, skips, before(k + 1, l))?;
    lower_where(tables, skips_other, before(k, l + 1))?;
    lower_where(tables, reads, pair_place(stage, k + 1, l + 1))?;
    lower_where(tables, ends, answer_place())?;
    Ok(())
}
