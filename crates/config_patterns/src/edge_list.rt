ghost use Rattle.std.specs.Prelude.{◌≡◌, ◌≤◌, ◌<◌, ◌++◌, suc, drop, length, OnOk, IfOk};
ghost use Rattle.wpds_base.specs.Limits.{most_items};
ghost use Rattle.config_patterns.specs.Edges.{edges_into, edges_on, edges_back, edges_from, edges_of};

use crate::{Edge, Item, SymbolSet};
use std::alloc::Global;
use wpds_base::OutOfMemory;

// Adds an edge on each symbol of a set.
fn push_into(edges: &mut Vec<Edge>, from: u32, to: u32, set: &SymbolSet) -> Result<(), OutOfMemory>
    ensures { OnOk result (edges.new.items ≡ edges.old.items ++ edges_into from to set.now) }
{
    for k in 0..set.len() {
        let symbol = set.at(k);
        edges.push(Edge { from, symbol, to })?;
    }
    Ok(())
}

// Adds the edges from a state to the items above it, up to the first without star.
fn push_on(edges: &mut Vec<Edge>, from: usize, items: &[Item]) -> Result<(), OutOfMemory>
    requires few { length items.now ≤ most_items }
    requires state { from ≤ length items.now }
    ensures { OnOk result (
        edges.new.items ≡ edges.old.items ++ edges_on from (suc from) (drop from items.now)) }
{
    for i in from..items.len() {
        push_into(edges, from as u32, i as u32 + 1, &items[i].set)?;
        if !items[i].star {
            return Ok(());
        }
    }
    Ok(())
}

// Adds the edges from a starred item to itself.
fn push_back(edges: &mut Vec<Edge>, at: u32, item: &Item) -> Result<(), OutOfMemory>
    ensures { OnOk result (edges.new.items ≡ edges.old.items ++ edges_back at item.now) }
{
    if item.star {
        push_into(edges, at, at, &item.set)?;
    }
    Ok(())
}

/// The edges of the items, for which there is space from the start.
pub(crate) fn list_edges(
    alloc: Global,
    items: &[Item],
    count: u64,
) -> Result<Vec<Edge>, OutOfMemory>
    requires { length items.now ≤ most_items }
    ensures { IfOk result (λ edges. edges.items ≡ edges_of items.now) }
{
    let mut edges = Vec::with_capacity(alloc, count as usize)?;
    push_on(&mut edges, 0, items)?;
    for (i, item) in items.iter().enumerate() {
        push_back(&mut edges, i as u32 + 1, item)?;
        push_on(&mut edges, i + 1, items)?;
    }
    Ok(edges)
}
