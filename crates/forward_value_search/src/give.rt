ghost use Rattle.std.specs.Prelude.{◌≡◌, OnOk};
ghost use Rattle.semiring_laws.specs.Semiring.{Below};
ghost use Rattle.weight_tables.specs.Entries.{weight_in};
ghost use Rattle.forward_value_search.specs.Search.{StandsAt, HasSums, IsReady, IsOnward};

use config_patterns::Pattern;
use pushdown_rules::System;
use semiring_laws::Semiring;
use weight_tables::{Layer, Tables, Weigher};
use weighted_automata::Place;
use wpds_base::OutOfMemory;

// Lowers the weight of a place by the one in hand.
pub(crate) fn give<S: Semiring, M: Weigher<S>>(
    system: &System<S>,
    first: &Pattern,
    tables: &mut Tables<'_, S, M>,
    place: Place,
) -> Result<(), OutOfMemory>
    requires ready { IsReady S.operations system.now first.now tables.old }
    requires sums { HasSums S.operations system.now first.now place tables.old.hand }
    ensures onward { OnOk result
        (IsOnward S.operations system.now first.now tables.old tables.new) }
    ensures given { let s = S.operations system.now.semiring in
        OnOk result (Below s (weight_in s tables.new.base place) tables.old.hand) }
    ensures hand { OnOk result (tables.new.hand ≡ tables.old.hand) }
{
    let _semiring = system.semiring();
    tables.lower(Layer::Base, place)?;
    tables.valid();
    Ok(())
}

// Lowers the weight of a place by that of an entry, and then the one in hand.
pub(crate) fn give_after<S: Semiring, M: Weigher<S>>(
    system: &System<S>,
    first: &Pattern,
    tables: &mut Tables<'_, S, M>,
    place: Place,
    t: u32,
    entry: Place,
) -> Result<(), OutOfMemory>
    requires ready { IsReady S.operations system.now first.now tables.old }
    requires entry { StandsAt t entry tables.old.base }
    requires sums { let s = S.operations system.now.semiring in
        HasSums S.operations system.now first.now place
        (s.extend (weight_in s tables.old.base entry) tables.old.hand) }
    ensures onward { OnOk result
        (IsOnward S.operations system.now first.now tables.old tables.new) }
    ensures given { let s = S.operations system.now.semiring in
        OnOk result (Below s (weight_in s tables.new.base place)
        (s.extend (weight_in s tables.old.base entry) tables.old.hand)) }
    ensures hand { OnOk result (tables.new.hand ≡ tables.old.hand) }
{
    let _semiring = system.semiring();
    tables.lower_after(Layer::Base, place, Layer::Base, t)?;
    tables.valid();
    Ok(())
}
