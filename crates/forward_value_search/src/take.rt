ghost use Rattle.std.specs.Prelude.{◌≡◌, ◌<◌, ℕ, length, OnOk};
ghost use Rattle.weighted_automata.specs.declared.place.Place.{Place as PlaceValue};
ghost use Rattle.forward_value_search.specs.Search.{StandsAt, IsReady, IsOnward, HasGivenAll};

use crate::ends::end_callee;
use crate::read::read_item;
use crate::rules::fire_all;
use config_patterns::Pattern;
use pushdown_rules::System;
use semiring_laws::Semiring;
use weight_tables::{Layer, Tables, Weigher};
use weighted_automata::Label;
use wpds_base::OutOfMemory;

// An entry gives all that it makes.
pub(crate) fn take<S: Semiring, M: Weigher<S>>(
    system: &System<S>,
    first: &Pattern,
    tables: &mut Tables<'_, S, M>,
    t: u32,
) -> Result<(), OutOfMemory>
    requires entry { t < length tables.old.base }
    requires ready { IsReady S.operations system.now first.now tables.old }
    ensures onward { OnOk result
        (IsOnward S.operations system.now first.now tables.old tables.new) }
    ensures gives { OnOk result ((x : PlaceValue) → StandsAt t x tables.old.base →
        HasGivenAll S.operations system.now first.now tables.new x) }
{
    let _semiring = system.semiring();
    let place = tables.place(Layer::Base, t);
    match place.label {
        Label::Symbol(symbol) => {
            fire_all(system, first, tables, symbol, t, place)?;
            Ok(())
        }
        Label::Empty => {
            if place.to <= first.items() {
                read_item(system, first, tables, t, place)?;
            } else {
                end_callee(system, first, tables, t, place)?;
            }
            Ok(())
        }
    }
}
