ghost use Rattle.std.specs.Prelude.{◌≡◌, ℕ, Some, slice_get, OnOk};
ghost use Rattle.weighted_automata.specs.declared.place.Label.TheVariants.{Empty as Nothing};
ghost use Rattle.pushdown_rules.specs.declared.rule.Rule.{Rule as RuleValue};
ghost use Rattle.weight_tables.specs.Entries.{weight_in};
ghost use Rattle.forward_value_laws.specs.Settling.{call_weight};
ghost use Rattle.config_patterns.specs.Edges.{edges_of};
ghost use Rattle.forward_value_search.specs.Places.{arrow};
ghost use Rattle.forward_value_search.specs.Search.{StandsAt, IsReady, IsOnward, IsCall, HasMet};

use crate::give::give_after;
use config_patterns::Pattern;
use pushdown_rules::System;
use semiring_laws::Semiring;
use weight_tables::{Layer, Tables, Weigher};
use weighted_automata::{Label, Place};
use wpds_base::OutOfMemory;

// A call from the row of an entry meets one end of its callee: it goes on over the symbol below.
fn meet_end<S: Semiring, M: Weigher<S>>(
    system: &System<S>,
    first: &Pattern,
    tables: &mut Tables<'_, S, M>,
    k: u32,
    below: u32,
    callee: u32,
    t: u32,
    row: Place,
    end: u32,
    from: u32,
) -> Result<(), OutOfMemory>
    requires ready { IsReady S.operations system.now first.now tables.old }
    requires call { IsCall S.operations system.now first.now k below callee row }
    requires row { StandsAt t row tables.old.base }
    requires end { StandsAt end (arrow from Nothing callee) tables.old.base }
    ensures onward { OnOk result
        (IsOnward S.operations system.now first.now tables.old tables.new) }
    ensures met { OnOk result (HasMet S.operations system.now first.now
        tables.new k below row (arrow from Nothing callee)) }
{
    let _semiring = system.semiring();
    if tables.waits(Layer::Base, end) {
        return Ok(());
    }
    tables.hold_rule_then(k, Layer::Base, end)?;
    tables.return_hand(k)?;
    let goal = Place {
        from,
        label: Label::Symbol(below),
        to: row.to,
    };
    give_after(system, first, tables, goal, t, row)?;
    Ok(())
}

// A call from the row of an entry meets each end of its callee.
pub(crate) fn meet_ends<S: Semiring, M: Weigher<S>>(
    system: &System<S>,
    first: &Pattern,
    tables: &mut Tables<'_, S, M>,
    k: u32,
    below: u32,
    callee: u32,
    t: u32,
    row: Place,
) -> Result<(), OutOfMemory>
    requires ready { IsReady S.operations system.now first.now tables.old }
    requires call { IsCall S.operations system.now first.now k below callee row }
    requires row { StandsAt t row tables.old.base }
    ensures onward { OnOk result
        (IsOnward S.operations system.now first.now tables.old tables.new) }
    ensures met { OnOk result ((q : ℕ) → HasMet S.operations system.now first.now
        tables.new k below row (arrow q Nothing callee)) }
{
    let _semiring = system.semiring();
    let mut at = tables.first_empty_into(Layer::Base, callee);
    'ends: while let Some(end) = at {
        let from = tables.place(Layer::Base, end).from;
        meet_end(system, first, tables, k, below, callee, t, row, end, from)?;
        at = tables.next_empty_into(Layer::Base, end);
    }
    Ok(())
}
