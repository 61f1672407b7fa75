ghost use Rattle.std.specs.Prelude.{◌≡◌, ◌+◌, ◌≤◌, ℕ, suc, drop, length, IsTrue, OnOk};
ghost use Rattle.wpds_base.specs.Lists.{IsIn};
ghost use Rattle.weighted_automata.specs.declared.place.Label.TheVariants.{Empty as Nothing};
ghost use Rattle.config_patterns.specs.Edges.{edges_of, leads_to, stays_on};
ghost use Rattle.config_patterns.specs.Membership.{has_symbol};
ghost use Rattle.forward_value_search.specs.Search.{StandsAt, IsReady, IsOnward, HasSums, HasRead, HasGivenAll};

use crate::give::give;
use config_patterns::{Pattern, SymbolSet};
use pushdown_rules::System;
use semiring_laws::Semiring;
use weight_tables::{Layer, Tables, Weigher};
use weighted_automata::{Label, Place};
use wpds_base::OutOfMemory;

// What lies below a row over nothing, whose weight is in hand, is read on by each symbol of a set.
fn read_set<S: Semiring, M: Weigher<S>>(
    system: &System<S>,
    first: &Pattern,
    tables: &mut Tables<'_, S, M>,
    row: Place,
    set: &SymbolSet,
    to: u32,
) -> Result<(), OutOfMemory>
    requires ready { IsReady S.operations system.now first.now tables.old }
    requires hand { HasSums S.operations system.now first.now row tables.old.hand }
    requires empty { row.label ≡ Nothing }
    requires edges { (g : ℕ) → IsTrue (has_symbol g set.now) →
        IsIn (record { from = row.to; symbol = g; to = to }) (edges_of first.now.items) }
    ensures onward { OnOk result
        (IsOnward S.operations system.now first.now tables.old tables.new) }
    ensures hand { OnOk result (tables.new.hand ≡ tables.old.hand) }
    ensures read { OnOk result ((g : ℕ) → IsTrue (has_symbol g set.now) →
        HasRead S.operations system.now first.now tables.new row g to tables.old.hand) }
{
    let _semiring = system.semiring();
    for k in 0..set.len() {
        let goal = Place {
            from: row.from,
            label: Label::Symbol(set.at(k)),
            to,
        };
        give(system, first, tables, goal)?;
    }
    Ok(())
}

// By the item that was read last, if it is starred.
fn read_again<S: Semiring, M: Weigher<S>>(
    system: &System<S>,
    first: &Pattern,
    tables: &mut Tables<'_, S, M>,
    row: Place,
) -> Result<(), OutOfMemory>
    requires ready { IsReady S.operations system.now first.now tables.old }
    requires hand { HasSums S.operations system.now first.now row tables.old.hand }
    requires empty { row.label ≡ Nothing }
    requires item { row.to ≤ length first.now.items }
    ensures onward { OnOk result
        (IsOnward S.operations system.now first.now tables.old tables.new) }
    ensures hand { OnOk result (tables.new.hand ≡ tables.old.hand) }
    ensures read { OnOk result ((k g : ℕ) → row.to ≡ suc k → IsTrue (stays_on first.now.items k g) →
        HasRead S.operations system.now first.now tables.new row g row.to tables.old.hand) }
{
    let _semiring = system.semiring();
    if row.to == 0 {
        return Ok(());
    }
    let item = first.item(row.to - 1);
    if !item.star {
        return Ok(());
    }
    read_set(system, first, tables, row, &item.set, row.to)?;
    Ok(())
}

// By the items above, up to the first without star.
fn read_on<S: Semiring, M: Weigher<S>>(
    system: &System<S>,
    first: &Pattern,
    tables: &mut Tables<'_, S, M>,
    row: Place,
) -> Result<(), OutOfMemory>
    requires ready { IsReady S.operations system.now first.now tables.old }
    requires hand { HasSums S.operations system.now first.now row tables.old.hand }
    requires empty { row.label ≡ Nothing }
    ensures onward { OnOk result
        (IsOnward S.operations system.now first.now tables.old tables.new) }
    ensures read { OnOk result ((k g : ℕ) → IsTrue (leads_to (drop row.to first.now.items) k g) →
        HasRead S.operations system.now first.now tables.new row g (suc (row.to + k))
        tables.old.hand) }
{
    let _semiring = system.semiring();
    'items: for j in row.to..first.items() {
        let item = first.item(j);
        read_set(system, first, tables, row, &item.set, j + 1)?;
        if !item.star {
            return Ok(());
        }
    }
    Ok(())
}

// A row over nothing from an item: what lies below is read on by the pattern.
pub(crate) fn read_item<S: Semiring, M: Weigher<S>>(
    system: &System<S>,
    first: &Pattern,
    tables: &mut Tables<'_, S, M>,
    t: u32,
    row: Place,
) -> Result<(), OutOfMemory>
    requires ready { IsReady S.operations system.now first.now tables.old }
    requires entry { StandsAt t row tables.old.base }
    requires empty { row.label ≡ Nothing }
    requires item { row.to ≤ length first.now.items }
    ensures onward { OnOk result
        (IsOnward S.operations system.now first.now tables.old tables.new) }
    ensures gives { OnOk result
        (HasGivenAll S.operations system.now first.now tables.new row) }
{
    let _semiring = system.semiring();
    tables.hold(Layer::Base, t)?;
    read_again(system, first, tables, row)?;
    read_on(system, first, tables, row)?;
    Ok(())
}
