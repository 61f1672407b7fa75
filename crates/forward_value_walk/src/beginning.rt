ghost use Rattle.std.specs.Prelude.{◌≤◌, Bool, length, OnOk, ℕ};
ghost use Rattle.semiring_laws.specs.Semiring.{Below};
ghost use Rattle.weight_tables.specs.Entries.{weight_in};
ghost use Rattle.walk_pairs.specs.Answering.{IsWalkedOver};
ghost use Rattle.forward_value_search.specs.Search.{IsFinished};
ghost use Rattle.forward_value_walk.specs.private.Going.{AreMade, IsGoneOn, IsUncovered, IsWalking};

use config_patterns::Pattern;
use semiring_laws::Semiring;
use walk_pairs::{Order, Stage, fall_ways, pair_place};
use weight_tables::{Layer, Tables, Weigher};
use weighted_automata::{Label, Place};
use wpds_base::OutOfMemory;

// The pair of an item's number, of which nothing has been read: all of the stack lies below.
fn uncover<'s, S: Semiring, M: Weigher<S>>(
    tables: &mut Tables<'s, S, M>,
    first: &Pattern,
    wanted: &Pattern,
    item: u32,
) -> Result<(), OutOfMemory>
    requires item { item ≤ length first.now.items }
    requires finished { IsFinished S.operations tables.old.system first.now tables.old }
    ensures gone { let s = S.operations tables.old.system.semiring in
        OnOk result (IsGoneOn s first.now wanted.now tables.old tables.new) }
    ensures met { let s = S.operations tables.old.system.semiring in
        OnOk result (IsUncovered s wanted.now tables.old item tables.new.walk) }
{
    tables.valid();
    let place = Place {
        from: wanted.control(),
        label: Label::Empty,
        to: item,
    };
    let Some(t) = tables.find(Layer::Base, place) else {
        return Ok(());
    };
    tables.hold(Layer::Base, t)?;
    tables.lower(Layer::Walk, pair_place(Stage::Down, 0, item))?;
    Ok(())
}

// The same for each item.
fn uncover_all<'s, S: Semiring, M: Weigher<S>>(
    tables: &mut Tables<'s, S, M>,
    first: &Pattern,
    wanted: &Pattern,
) -> Result<(), OutOfMemory>
    requires finished { IsFinished S.operations tables.old.system first.now tables.old }
    requires made { let s = S.operations tables.old.system.semiring in
        AreMade s first.now wanted.now tables.old }
    ensures gone { let s = S.operations tables.old.system.semiring in
        OnOk result (IsGoneOn s first.now wanted.now tables.old tables.new) }
    ensures met { let s = S.operations tables.old.system.semiring in
        OnOk result ((i : ℕ) → i ≤ length first.now.items →
        IsUncovered s wanted.now tables.old i tables.new.walk) }
{
    tables.valid();
    let states = first.items() + 1;
    for item in 0..states {
        uncover(tables, first, wanted, item)?;
    }
    Ok(())
}

/// The pairs where the second pattern has been read so far as a row goes: all of them wait.
pub(crate) fn begin<'s, S: Semiring, M: Weigher<S>>(
    tables: &mut Tables<'s, S, M>,
    first: &Pattern,
    wanted: &Pattern,
) -> Result<(), OutOfMemory>
    requires { IsFinished S.operations tables.old.system first.now tables.old }
    ensures walking { let s = S.operations tables.old.system.semiring in
        OnOk result ((stops : ℕ → Bool) → IsWalking s first.now wanted.now stops tables.new) }
    ensures others { OnOk result (IsWalkedOver tables.old tables.new) }
{
    tables.valid();
    tables.renew(Layer::Walk);
    tables.hold_one()?;
    tables.valid();
    fall_ways(
        tables,
        Order::Then,
        Layer::Base,
        Stage::Down,
        wanted.control(),
        wanted,
        0,
    )?;
    uncover_all(tables, first, wanted)?;
    Ok(())
}
