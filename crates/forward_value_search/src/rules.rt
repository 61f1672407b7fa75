ghost use Rattle.std.specs.Prelude.{◌≡◌, OnOk};
ghost use Rattle.weighted_automata.specs.declared.place.Label.TheVariants.{Symbol};
ghost use Rattle.forward_value_search.specs.Search.{StandsAt, IsReady, IsOnward, HasGivenAll};

use crate::fire::fire;
use config_patterns::Pattern;
use pushdown_rules::System;
use semiring_laws::Semiring;
use weight_tables::{Tables, Weigher};
use weighted_automata::Place;
use wpds_base::OutOfMemory;

// A row over a symbol: each rule fires that does on it.
pub(crate) fn fire_all<S: Semiring, M: Weigher<S>>(
    system: &System<S>,
    first: &Pattern,
    tables: &mut Tables<'_, S, M>,
    symbol: u32,
    t: u32,
    row: Place,
) -> Result<(), OutOfMemory>
    requires ready { IsReady S.operations system.now first.now tables.old }
    requires entry { StandsAt t row tables.old.base }
    requires symbol { row.label ≡ Symbol symbol }
    ensures onward { OnOk result
        (IsOnward S.operations system.now first.now tables.old tables.new) }
    ensures gives { OnOk result
        (HasGivenAll S.operations system.now first.now tables.new row) }
{
    let _semiring = system.semiring();
    let mut at = system.first_with_head(row.from, symbol);
    'rules: while let Some(k) = at {
        fire(system, first, tables, k, t, row)?;
        at = system.next_with_head(k);
    }
    Ok(())
}
