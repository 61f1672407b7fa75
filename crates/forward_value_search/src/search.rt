ghost use Rattle.std.specs.Prelude.{◌≡◌, ◌<◌, true, false, IfOk, OnOk};
ghost use Rattle.weight_tables.specs.Turns.{turns_left};
ghost use Rattle.forward_value_search.specs.Search.{IsSearch, IsFinished};

use crate::take::take;
use config_patterns::Pattern;
use semiring_laws::Semiring;
use weight_tables::{Layer, Tables, Weigher};
use weighted_automata::{Label, Place};
use wpds_base::OutOfMemory;

/// Begins a search from a pattern: what the base of the tables had goes, and is what the search finds from now on: by control, by the
/// symbol on top or nothing, and by the number of a source. The number of an item of the pattern is its own, from 0; that
/// of a callee is behind them, by the first rule that goes onto what it begins with. One entry waits, from which all others
/// come: the pattern's control over nothing, of which nothing has been read. Out of memory is its only error.
pub fn open<'s, S: Semiring, M: Weigher<S>>(
    tables: &mut Tables<'s, S, M>,
    first: &Pattern,
) -> Result<(), OutOfMemory>
    ensures system { OnOk result (tables.new.system ≡ tables.old.system) }
    ensures target { OnOk result (tables.new.target ≡ tables.old.target) }
    ensures walk { OnOk result (tables.new.walk ≡ tables.old.walk) }
    ensures search { OnOk result
        (IsSearch S.operations tables.old.system first.now tables.new) }
{
    tables.renew(Layer::Base);
    tables.hold_one()?;
    let place = Place {
        from: first.control(),
        label: Label::Empty,
        to: 0,
    };
    tables.lower(Layer::Base, place)?;
    tables.valid();
    Ok(())
}

/// Takes an entry that waits, which gives all that it makes; whether there was one. If not, the search is done. After out of
/// memory an entry may have given a part of it, and the search is to be let go.
pub fn turn<'s, S: Semiring, M: Weigher<S>>(
    tables: &mut Tables<'s, S, M>,
    first: &Pattern,
) -> Result<bool, OutOfMemory>
    requires { IsSearch S.operations tables.old.system first.now tables.old }
    ensures system { OnOk result (tables.new.system ≡ tables.old.system) }
    ensures target { OnOk result (tables.new.target ≡ tables.old.target) }
    ensures walk { OnOk result (tables.new.walk ≡ tables.old.walk) }
    ensures search { OnOk result
        (IsSearch S.operations tables.old.system first.now tables.new) }
    ensures fewer { let s = S.operations tables.old.system.semiring in IfOk result (λ some.
        some ≡ true → turns_left s tables.new.base < turns_left s tables.old.base) }
    ensures done { IfOk result (λ some. some ≡ false →
        IsFinished S.operations tables.old.system first.now tables.new) }
{
    let system = tables.system();
    let Some(t) = tables.pop(Layer::Base) else {
        return Ok(false);
    };
    tables.valid();
    take(system, first, tables, t)?;
    Ok(true)
}
