ghost use Rattle.std.specs.Prelude.{◌≡◌, ◌<◌, true, false, OnOk, IfOk};
ghost use Rattle.weight_tables.specs.Entries.{NoneWaits};
ghost use Rattle.weight_tables.specs.Turns.{turns_left};
ghost use Rattle.walk_pairs.specs.Answering.{IsAnswered, IsWalkedOver};
ghost use Rattle.value_walk.specs.Answering.{ArePopSums, AreEnterSums};
ghost use Rattle.value_walk.specs.private.Walking.{IsWalking};

use crate::giving::give;
use config_patterns::Pattern;
use semiring_laws::Semiring;
use walk_pairs::{Stage, answer_place, pair_place};
use weight_tables::{Layer, Tables, Weigher};
use wpds_base::OutOfMemory;

// Takes a pair that waits; whether there was one.
fn turn<'s, S: Semiring, M: Weigher<S>>(
    tables: &mut Tables<'s, S, M>,
    from: &Pattern,
    to: &Pattern,
) -> Result<bool, OutOfMemory>
    requires pops { let s = S.operations tables.old.system.semiring in ArePopSums s tables.old }
    requires enters { let s = S.operations tables.old.system.semiring in
        AreEnterSums s tables.old to.now }
    requires walking { let s = S.operations tables.old.system.semiring in
        IsWalking s from.now to.now tables.old }
    ensures walking { let s = S.operations tables.old.system.semiring in
        OnOk result (IsWalking s from.now to.now tables.new) }
    ensures others { OnOk result (IsWalkedOver tables.old tables.new) }
    ensures done { IfOk result (λ some. some ≡ false → NoneWaits tables.new.walk) }
    ensures fewer { let s = S.operations tables.old.system.semiring in IfOk result (λ some.
        some ≡ true → turns_left s tables.new.walk < turns_left s tables.old.walk) }
{
    tables.valid();
    let Some(t) = tables.pop(Layer::Walk) else {
        return Ok(false);
    };
    let place = tables.place(Layer::Walk, t);
    tables.hold(Layer::Walk, t)?;
    tables.valid();
    give(tables, from, to, place)?;
    tables.valid();
    Ok(true)
}

// The pair where all runs begin, of weight one, which waits.
fn begin<'s, S: Semiring, M: Weigher<S>>(
    tables: &mut Tables<'s, S, M>,
    from: &Pattern,
    to: &Pattern,
) -> Result<(), OutOfMemory>
    ensures walking { let s = S.operations tables.old.system.semiring in
        OnOk result (IsWalking s from.now to.now tables.new) }
    ensures others { OnOk result (IsWalkedOver tables.old tables.new) }
{
    tables.valid();
    tables.renew(Layer::Walk);
    tables.hold_one()?;
    tables.lower(Layer::Walk, pair_place(Stage::Down, 0, from.control()))?;
    Ok(())
}

/// The value of all runs from a member of one pattern to a member of another. In the tables' base layer stands what leads from control to
/// control, in the target layer what leads to the second pattern; both stay as they are. Where runs begin, a stack is read from its
/// top by the first pattern: while it is used up the walk goes down from control to control, and across to the second pattern
/// where a run leaves part of it (Reps, Schwoon, Jha, Melski 2005). It is refused only when out of memory.
pub fn walk<'s, S: Semiring, M: Weigher<S>>(
    tables: &mut Tables<'s, S, M>,
    from: &Pattern,
    to: &Pattern,
) -> Result<S::W, OutOfMemory>
    requires pops { let s = S.operations tables.old.system.semiring in ArePopSums s tables.old }
    requires enters { let s = S.operations tables.old.system.semiring in
        AreEnterSums s tables.old to.now }
    ensures answer { let p = tables.old.system in
        IfOk result (IsAnswered (S.operations p.semiring) p from.now to.now) }
    ensures others { OnOk result (IsWalkedOver tables.old tables.new) }
{
    begin(tables, from, to)?;
    'turns: loop {
        if !turn(tables, from, to)? {
            tables.valid();
            let value = tables.value(Layer::Walk, answer_place())?;
            return Ok(value);
        }
    }
}
