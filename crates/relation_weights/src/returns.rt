ghost use Rattle.std.specs.Prelude.{◌≡◌, ◌≤◌, ◌<◌, ◌*◌, ◌&&◌, IsTrue, IfOk, length};
ghost use Rattle.diagram_store.specs.Diagrams.{IsOver};
ghost use Rattle.diagram_ops.specs.Relations.{relates};
ghost use Rattle.relation_weights.specs.Relations.{after_of, map_fits, relation_fits, slot_fits};
ghost use Rattle.relation_weights.specs.private.Diagrams.{HasPairs};
ghost use Rattle.relation_weights.specs.Moves.{moved, kept};
ghost use Rattle.relation_weights.specs.private.Moves.{far_bit, ListsOthers};
ghost use Rattle.relation_weights.specs.private.Moves as spec;
ghost use Rattle.relation_weights.specs.declared.rel_map.RelMap.TheVariants.{Slots};

use crate::expressions::{new_bit, old_bit};
use crate::frames::frame;
use crate::{Relation, Slot};
use diagram_ops::{apply_table2, apply_table3, compose_relations};
use diagram_store::Diagram;
use std::alloc::Global;
use wpds_base::OutOfMemory;

// The tables of conjunction, and of a first place where the two others are equal.
const AND: u8 = 8;

const AND_SAME: u8 = 144;

/// What is returned by these slots: the relation is composed with the moves of the callee's bits, and then the caller's
/// bits stay. Where each bit is the callee's own, it is the relation itself.
pub(crate) fn returned(
    alloc: Global,
    n: u32,
    slots: &[Slot; 24],
    w: &Relation,
) -> Result<Relation, OutOfMemory>
    requires n { n ≤ 24 }
    requires slots { IsTrue (map_fits n (Slots slots.now)) }
    requires weight { IsTrue (relation_fits n w.now) }
    ensures { IfOk result (λ v. v ≡ after_of n (Slots slots.now) w.now) }
{
    let freed = others_than_own(alloc, n, slots)?;
    if freed.is_empty() {
        return w.share();
    }
    let moves = moves(alloc, n, slots, &freed)?;
    let stays = stays(alloc, n, slots)?;
    let led = compose_relations(alloc, n, w.diagram(), &moves)?;
    let made = apply_table2(alloc, AND, &led, &stays)?;
    Relation::new(alloc, made)
}

/// The pairs in which the bits that come from the callee do. The numbers that don't have the callee's own bit are freed.
pub(crate) fn moves(
    alloc: Global,
    n: u32,
    slots: &[Slot],
    freed: &[u32],
) -> Result<Diagram, OutOfMemory>
    requires n { n ≤ 24 }
    requires slots { length slots.now ≡ 24 }
    requires fits { IsTrue (map_fits n (Slots slots.now)) }
    requires freed { ListsOthers spec.is_own n slots.now freed.now }
    ensures pairs { IfOk result (λ d. HasPairs d (moved n slots.now)) }
    ensures variables { IfOk result (λ d. IsOver (2 * n) d) }
{
    let mut made = frame(alloc, n, freed)?;
    for v in 0..n {
        made = with_move(alloc, n, made, v, slots[v as usize])?;
    }
    Ok(made)
}

/// The pairs in which the caller's bits stay.
pub(crate) fn stays(alloc: Global, n: u32, slots: &[Slot]) -> Result<Diagram, OutOfMemory>
    requires n { n ≤ 24 }
    requires slots { length slots.now ≡ 24 }
    ensures pairs { IfOk result (λ d. HasPairs d (kept n slots.now)) }
    ensures variables { IfOk result (λ d. IsOver (2 * n) d) }
{
    let freed = others_than_callers(alloc, n, slots)?;
    let made = frame(alloc, n, &freed)?;
    Ok(made)
}

// The diagram where a number has the bit of its slot, if that is another of the callee's.
fn with_move(
    alloc: Global,
    n: u32,
    made: Diagram,
    number: u32,
    slot: Slot,
) -> Result<Diagram, OutOfMemory>
    requires n { n ≤ 24 }
    requires number { number < n }
    requires slot { IsTrue (slot_fits n slot) }
    requires variables { IsOver (2 * n) made }
    ensures pairs { IfOk result (λ d. HasPairs d (λ x y.
        relates made x y && far_bit number slot x (y number))) }
    ensures variables { IfOk result (λ d. IsOver (2 * n) d) }
{
    match slot {
        Slot::Callee(from) if u32::from(from) != number => {
            let old = old_bit(alloc, n, u32::from(from))?;
            let new = new_bit(alloc, n, number)?;
            apply_table3(alloc, AND_SAME, &made, &new, &old)
        }
        _ => Ok(made),
    }
}

/// The numbers whose slots are not the callee's of the same number.
pub(crate) fn others_than_own(
    alloc: Global,
    n: u32,
    slots: &[Slot],
) -> Result<Vec<u32>, OutOfMemory>
    requires n { n ≤ length slots.now }
    ensures { IfOk result (λ v. ListsOthers spec.is_own n slots.now v.items) }
{
    let mut list = Vec::with_capacity(alloc, n as usize)?;
    for v in 0..n {
        if !is_own(v, slots[v as usize]) {
            list.push(v)?;
        }
    }
    Ok(list)
}

fn is_own(number: u32, slot: Slot) -> bool
    ensures { result ≡ spec.is_own number slot }
{
    match slot {
        Slot::Caller => false,
        Slot::Callee(from) => u32::from(from) == number,
    }
}

// The numbers whose slots are not the caller's.
fn others_than_callers(alloc: Global, n: u32, slots: &[Slot]) -> Result<Vec<u32>, OutOfMemory>
    requires n { n ≤ length slots.now }
    ensures { IfOk result (λ v. ListsOthers (λ k. spec.is_caller) n slots.now v.items) }
{
    let mut list = Vec::with_capacity(alloc, n as usize)?;
    for v in 0..n {
        if !is_caller(slots[v as usize]) {
            list.push(v)?;
        }
    }
    Ok(list)
}

fn is_caller(slot: Slot) -> bool
    ensures { result ≡ spec.is_caller slot }
{
    match slot {
        Slot::Caller => true,
        Slot::Callee(_) => false,
    }
}
