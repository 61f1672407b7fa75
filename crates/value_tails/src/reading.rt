ghost use Rattle.std.specs.Prelude.{◌≡◌, ◌↔◌, ◌≤◌, ◌<◌, ℕ, length, IsTrue, OnOk};
ghost use Rattle.wpds_base.specs.Lists.{IsIn};
ghost use Rattle.semiring_laws.specs.Semiring.{Below};
ghost use Rattle.config_patterns.specs.Edges.{edges_of};
ghost use Rattle.value_tails.specs.Tailing.{tail_in, IsTail};
ghost use Rattle.value_tails.specs.private.Steps.{AreTailsLowered, AreReadsGiven};

use crate::making::tail_place;
use config_patterns::Pattern;
use semiring_laws::Semiring;
use walk_pairs::ways_from;
use weight_tables::{Layer, Tables, Weigher};
use wpds_base::OutOfMemory;

// Whether an edge leads from one state to another.
fn leads(pattern: &Pattern, from: u32, to: u32) -> bool
    requires { to ≤ length pattern.now.items }
    ensures edge { IsTrue result ↔ ((g : ℕ) ×
        IsIn (record { from = from; symbol = g; to = to }) (edges_of pattern.now.items)) }
    ensures symbol { IsTrue result → (g : ℕ) →
        IsIn (record { from = from; symbol = g; to = to }) (edges_of pattern.now.items) →
        g < pattern.now.symbols }
{
    let ways = ways_from(pattern, from);
    if to < ways.first {
        return false;
    }
    if ways.end <= to {
        return false;
    }
    let item = pattern.item(to - 1);
    item.set.len() > 0
}

/// Lowers the tail of each state from which an edge leads to one, by the weight in hand. No edge leads to the number of a callee.
pub(crate) fn read_back<'s, S: Semiring, M: Weigher<S>>(
    tables: &mut Tables<'s, S, M>,
    first: &Pattern,
    to: u32,
) -> Result<(), OutOfMemory>
    requires made { let s = S.operations tables.old.system.semiring in
        IsTail s first.now tables.old.system to tables.old.hand }
    ensures lowered { let s = S.operations tables.old.system.semiring in
        OnOk result (AreTailsLowered s first.now tables.old tables.new) }
    ensures hand { OnOk result (tables.new.hand ≡ tables.old.hand) }
    ensures met { let s = S.operations tables.old.system.semiring in
        OnOk result (AreReadsGiven s first.now tables.new.target to tables.old.hand) }
{
    tables.valid();
    if to > first.items() {
        return Ok(());
    }
    let states = first.items() + 1;
    for from in 0..states {
        read_edge(tables, first, from, to)?;
    }
    Ok(())
}

// The same for one state.
fn read_edge<'s, S: Semiring, M: Weigher<S>>(
    tables: &mut Tables<'s, S, M>,
    first: &Pattern,
    from: u32,
    to: u32,
) -> Result<(), OutOfMemory>
    requires to { to ≤ length first.now.items }
    requires made { let s = S.operations tables.old.system.semiring in
        IsTail s first.now tables.old.system to tables.old.hand }
    ensures lowered { let s = S.operations tables.old.system.semiring in
        OnOk result (AreTailsLowered s first.now tables.old tables.new) }
    ensures hand { OnOk result (tables.new.hand ≡ tables.old.hand) }
    ensures met { let s = S.operations tables.old.system.semiring in OnOk result ((g : ℕ) →
        IsIn (record { from = from; symbol = g; to = to }) (edges_of first.now.items) →
        Below s (tail_in s tables.new.target from) tables.old.hand) }
{
    tables.valid();
    if leads(first, from, to) {
        tables.lower(Layer::Target, tail_place(from))?;
    }
    Ok(())
}
