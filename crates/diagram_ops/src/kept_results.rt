ghost use Rattle.std.specs.Prelude.{◌≡◌, ◌<◌, ℕ, List, [], IsTrue, IfSome, slice_get};
ghost use Rattle.diagram_store.specs.declared.branch.Branch.{Branch as BranchValue};
ghost use Rattle.diagram_ops.specs.private.KeptResults.{AreRight, IsResult};

use std::alloc::Global;
use std::marker::Model;

/// An operation whose results are kept.
#[derive(Clone, Copy, PartialEq, Eq)]
pub(crate) enum Operation {
    Union,
    Intersection,
    Composition,
}

/// A result of an operation on two references.
#[derive(Clone, Copy)]
pub(crate) struct Slot {
    pub(crate) operation: Operation,
    pub(crate) x: u32,
    pub(crate) y: u32,
    pub(crate) result: u32,
}

// What stands where no result was put yet, and is right: false or false is false.
const FIRST: Slot = Slot {
    operation: Operation::Union,
    x: 0,
    y: 0,
    result: 0,
};

const FEWEST: usize = 8192;

const MOST: usize = 4_194_304;

/// Results of operations, each in a slot that its operation and operands tell. A result takes the place of what stood there,
/// so that some are forgotten.
#[derive(Drop)]
pub(crate) struct KeptResults {
    slots: Vec<Slot>,
}

impl Model for KeptResults {
    ghost use Rattle.std.specs.Prelude.{List};
    ghost use Rattle.diagram_ops.specs.declared.kept_results.Slot.{Slot as SlotValue};

    ghost Value = { List SlotValue };

    ghost view = { λ k. k.slots.items };
}

// The slot of a result, of so many. Where there are none it is past the end.
fn slot_number(operation: Operation, x: u32, y: u32, count: usize) -> usize {
    let operands = u64::from(x) * 0x1_0000_0000 + u64::from(y);
    let word = operands ^ operation_word(operation);
    let first = word.wrapping_mul(0x9e37_79b9_7f4a_7c15);
    let mixed = (first ^ (first >> 29)).wrapping_mul(0xbf58_476d_1ce4_e5b9);
    ((mixed >> 32).wrapping_mul(count as u64) >> 32) as usize
}

// A word that stands for an operation.
fn operation_word(operation: Operation) -> u64 {
    match operation {
        Operation::Union => 0,
        Operation::Intersection => 0x4000_0000_0000_0000,
        Operation::Composition => 0x8000_0000_0000_0000,
    }
}

// Whether a slot has the result of this operation on these operands.
fn is_of(slot: Slot, operation: Operation, x: u32, y: u32) -> bool
    ensures { IsTrue result → (slot.operation ≡ operation) × (slot.x ≡ x) × (slot.y ≡ y) }
{
    slot.x == x && slot.y == y && slot.operation == operation
}

// Writes a result over what stands in its slot, if there are slots.
fn write(slots: &mut [Slot], slot: Slot)
    ensures { (nodes : List BranchValue) → AreRight nodes slots.old
        → IsResult slot.operation nodes slot.x slot.y slot.result → AreRight nodes slots.new }
{
    let k = slot_number(slot.operation, slot.x, slot.y, slots.len());
    if k < slots.len() {
        slots[k] = slot;
    }
}

// Moves the result of a slot to where it belongs now.
fn move_slot(slots: &mut [Slot], k: usize)
    ensures { (nodes : List BranchValue) → AreRight nodes slots.old → AreRight nodes slots.new }
{
    if k < slots.len() {
        let slot = slots[k];
        slots[k] = FIRST;
        write(slots, slot);
    }
}

// Moves the results of the first slots to where they belong now that there are twice as many, last first, so that none is
// written over another that is yet to be moved.
fn spread(slots: &mut [Slot], count: usize)
    ensures { (nodes : List BranchValue) → AreRight nodes slots.old → AreRight nodes slots.new }
{
    for k in 0..count {
        move_slot(slots, count - 1 - k);
    }
}

// So many slots. Where there is no memory for them all stays as it was.
fn grow(slots: &mut Vec<Slot>, count: usize)
    ensures { (nodes : List BranchValue) → AreRight nodes slots.old.items
        → AreRight nodes slots.new.items }
{
    let before = slots.len();
    if slots.resize(count, FIRST).is_ok() {
        spread(slots, before);
    }
}

impl KeptResults {
    /// No results. It takes no memory.
    pub(crate) fn new(alloc: Global) -> KeptResults
        ensures { result ≡ [] }
    {
        KeptResults {
            slots: Vec::new(alloc),
        }
    }

    /// The result of an operation on two references, if it is kept.
    pub(crate) fn get(&self, operation: Operation, x: u32, y: u32) -> Option<u32>
        ensures { (nodes : List BranchValue) → AreRight nodes self.now
            → IfSome result (λ r. IsResult operation nodes x y r) }
    {
        let k = slot_number(operation, x, y, self.slots.len());
        if k < self.slots.len() {
            let slot = self.slots[k];
            if is_of(slot, operation, x, y) {
                return Some(slot.result);
            }
        }
        None
    }

    /// Keeps a result.
    pub(crate) fn put(&mut self, slot: Slot)
        ensures { (nodes : List BranchValue) → AreRight nodes self.old
            → IsResult slot.operation nodes slot.x slot.y slot.result → AreRight nodes self.new }
    {
        write(&mut self.slots, slot);
    }

    /// Makes twice as many slots where there are few for so many nodes.
    pub(crate) fn make_room(&mut self, nodes: usize)
        ensures { (all : List BranchValue) → AreRight all self.old → AreRight all self.new }
    {
        let count = self.slots.len();
        if count / 2 < nodes && count < MOST {
            grow(&mut self.slots, (2 * count).max(FEWEST));
        }
    }
}
