ghost use Rattle.std.specs.Prelude.{◌≡◌, IfOk, IfSome, option_map};
ghost use Rattle.weight_tables.specs.Growth.{Grows};
ghost use Rattle.weight_tables.specs.private.Cells.{cells_of};
ghost use Rattle.weight_tables.specs.private.Kept.{AreKnown};
ghost use Rattle.weight_tables.specs.private.Renewed.{AllCellsKnown, AreMoved, AreRenewed, IsRenewal, valued_cell};

use crate::Weigher;
use crate::cell::Cell;
use crate::layers::{LayerCells, Layers};
use semiring_laws::Semiring;
use std::alloc::Global;
use wpds_base::OutOfMemory;

/// Another object that makes weights, and the weights in use as it keeps them.
#[derive(Drop)]
pub(crate) struct Renewal<M: Drop, W: Drop> {
    pub(crate) weigher: M,
    pub(crate) hand: Option<W>,
    pub(crate) cells: LayerCells<W>,
}

// A weight of one object, as another keeps it.
fn moved<S: Semiring, M: Weigher<S>>(
    from: &M,
    into: &mut M,
    weight: &M::W,
) -> Result<M::W, OutOfMemory>
    requires system { M.pushdown into.old ≡ M.pushdown from.now }
    requires weight { M.Knows from.now weight.now }
    ensures grows { Grows M.pushdown M.Knows M.worth into.old into.new }
    ensures known { IfOk result (λ w. M.Knows into.new w) }
    ensures worth { IfOk result (λ w. M.worth into.new w ≡ M.worth from.now weight.now) }
{
    let value = from.value(weight)?;
    into.known(&value)
}

// The same with its mark.
fn moved_cell<S: Semiring, M: Weigher<S>>(
    from: &M,
    into: &mut M,
    cell: &Cell<M::W>,
) -> Result<Cell<M::W>, OutOfMemory>
    requires system { M.pushdown into.old ≡ M.pushdown from.now }
    requires weight { M.Knows from.now cell.now.weight }
    ensures grows { Grows M.pushdown M.Knows M.worth into.old into.new }
    ensures known { IfOk result (λ c. M.Knows into.new c.weight) }
    ensures worth { IfOk result (λ c.
        valued_cell (M.worth into.new) c ≡ valued_cell (M.worth from.now) cell.now) }
{
    let weight = moved(from, into, &cell.weight)?;
    Ok(Cell {
        weight,
        waits: cell.waits,
    })
}

// The same of several.
fn moved_cells<S: Semiring, M: Weigher<S>>(
    alloc: Global,
    from: &M,
    into: &mut M,
    cells: &[Cell<M::W>],
) -> Result<Vec<Cell<M::W>>, OutOfMemory>
    requires system { M.pushdown into.old ≡ M.pushdown from.now }
    requires cells { AllCellsKnown (M.Knows from.now) cells.now }
    ensures grows { Grows M.pushdown M.Knows M.worth into.old into.new }
    ensures moved { IfOk result (λ cs. AreMoved (M.Knows into.new)
        (M.worth from.now) (M.worth into.new) cells.now cs.items) }
{
    let mut list = Vec::new(alloc);
    for cell in cells {
        let next = moved_cell(from, into, cell)?;
        list.push(next)?;
    }
    Ok(list)
}

// The same of the weight in hand.
fn moved_hand<S: Semiring, M: Weigher<S>>(
    from: &M,
    into: &mut M,
    hand: &Option<M::W>,
) -> Result<Option<M::W>, OutOfMemory>
    requires system { M.pushdown into.old ≡ M.pushdown from.now }
    requires hand { IfSome hand.now (M.Knows from.now) }
    ensures grows { Grows M.pushdown M.Knows M.worth into.old into.new }
    ensures known { IfOk result (λ o. IfSome o (M.Knows into.new)) }
    ensures worth { IfOk result (λ o.
        option_map (M.worth into.new) o ≡ option_map (M.worth from.now) hand.now) }
{
    match hand {
        Some(weight) => {
            let held = moved(from, into, weight)?;
            Ok(Some(held))
        }
        None => Ok(None),
    }
}

// The same of all layers.
fn moved_layers<S: Semiring, M: Weigher<S>>(
    alloc: Global,
    from: &M,
    into: &mut M,
    layers: &Layers<M::W>,
) -> Result<LayerCells<M::W>, OutOfMemory>
    requires system { M.pushdown into.old ≡ M.pushdown from.now }
    requires layers { AreKnown (M.Knows from.now) layers.now }
    ensures grows { Grows M.pushdown M.Knows M.worth into.old into.new }
    ensures moved { IfOk result (λ n. AreRenewed (M.Knows into.new)
        (M.worth from.now) (M.worth into.new) layers.now n) }
{
    let base = moved_cells(alloc, from, into, layers.base.cells())?;
    let target = moved_cells(alloc, from, into, layers.target.cells())?;
    let walk = moved_cells(alloc, from, into, layers.walk.cells())?;
    Ok(LayerCells { base, target, walk })
}

/// The weights in use, as another object keeps them.
pub(crate) fn renew<S: Semiring, M: Weigher<S>>(
    alloc: Global,
    from: &M,
    hand: &Option<M::W>,
    layers: &Layers<M::W>,
) -> Result<Renewal<M, M::W>, OutOfMemory>
    requires hand { IfSome hand.now (M.Knows from.now) }
    requires layers { AreKnown (M.Knows from.now) layers.now }
    ensures { IfOk result
        (IsRenewal M.pushdown M.Knows M.worth from.now hand.now layers.now) }
{
    let mut weigher = from.renewed()?;
    let hand = moved_hand(from, &mut weigher, hand)?;
    let cells = moved_layers(alloc, from, &mut weigher, layers)?;
    Ok(Renewal {
        weigher,
        hand,
        cells,
    })
}
