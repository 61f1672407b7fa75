ghost use Rattle.std.specs.Prelude.{◌≡◌, ◌+◌, ◌<◌, ◌≤◌, ◌||◌, ◌&&◌, ℕ, Bool, true, false, Some, IfOk, IfSome, IfNone, length};
ghost use Rattle.diagram_store.specs.Meaning.{value_at};
ghost use Rattle.diagram_store.specs.Nodes.{IsReduced};
ghost use Rattle.diagram_ops.specs.NodeTables.{Keeps, KeepsLimits};
ghost use Rattle.diagram_ops.specs.private.Applying.{variable, lower, cofactor, cofactor_of, IsApplied};
ghost use Rattle.diagram_ops.specs.private.ShortCuts.{IsShortCut};
ghost use Rattle.diagram_ops.specs.private.TableNodes.{branch_of};
ghost use Rattle.diagram_ops.specs.private.Tables.{Grows};
ghost use Rattle.diagram_ops.specs.private.Uniting.{table_of, absorbing_of, operation_of as operation_value, AreThese};

use crate::kept_results::{Operation, Slot};
use crate::node::Node;
use crate::node_table::NodeTable;
use wpds_base::OutOfMemory;

/// An operation on the values of two references.
#[derive(Clone, Copy)]
pub(crate) enum Junction {
    Or,
    And,
}

/// The lowest variable of two nodes, and where the walk goes on from each where its bit is false, and where it is true.
#[derive(Clone, Copy)]
pub(crate) struct Ways {
    pub(crate) var: u32,
    pub(crate) first: (u32, u32),
    pub(crate) second: (u32, u32),
}

fn operation_of(junction: Junction) -> Operation
    ensures { result ≡ operation_value junction }
{
    match junction {
        Junction::Or => Operation::Union,
        Junction::And => Operation::Intersection,
    }
}

// The constant that is the result wherever it is an operand. The other one changes nothing.
fn absorbing(junction: Junction) -> u32
    ensures { result ≡ absorbing_of junction }
{
    match junction {
        Junction::Or => 1,
        Junction::And => 0,
    }
}

// The result where an operand is a constant, or both are equal.
fn at_once(junction: Junction, x: u32, y: u32) -> Option<u32>
    ensures right { IfSome result (λ r. IsShortCut (table_of junction) x y 0 r) }
    ensures nodes { IfNone result ((2 ≤ x) × (2 ≤ y)) }
{
    if x == y {
        return Some(x);
    }
    if x < 2 {
        return Some(if x == absorbing(junction) { x } else { y });
    }
    if y < 2 {
        return Some(if y == absorbing(junction) { y } else { x });
    }
    None
}

// Two references, the lower one first.
fn in_order(x: u32, y: u32) -> (u32, u32)
    ensures { AreThese x y result.0 result.1 }
{
    if x <= y { (x, y) } else { (y, x) }
}

// Where the walk goes on from a node's reference.
fn branches(node: Node, var: u32, reference: u32) -> (u32, u32)
    ensures low { result.0 ≡ cofactor_of (λ k. k) var false reference (Some (branch_of node)) }
    ensures high { result.1 ≡ cofactor_of (λ k. k) var true reference (Some (branch_of node)) }
{
    if node.var == var {
        (node.low, node.high)
    } else {
        (reference, reference)
    }
}

// The ways on from two nodes.
fn ways_on(table: &NodeTable, x: u32, y: u32) -> Ways
    requires nodes { (2 ≤ x) × (2 ≤ y) }
    requires x { x < length table.now + 2 }
    requires y { y < length table.now + 2 }
    ensures lowest { lower (variable table.now x) (variable table.now y) ≡ Some result.var }
    ensures first_low { result.first.0 ≡ cofactor table.now result.var false x }
    ensures first_high { result.first.1 ≡ cofactor table.now result.var true x }
    ensures second_low { result.second.0 ≡ cofactor table.now result.var false y }
    ensures second_high { result.second.1 ≡ cofactor table.now result.var true y }
{
    let first = table.node(x);
    let second = table.node(y);
    let var = first.var.min(second.var);
    Ways {
        var,
        first: branches(first, var, x),
        second: branches(second, var, y),
    }
}

/// The disjunction or the conjunction of two references.
pub(crate) fn combine(
    table: &mut NodeTable,
    junction: Junction,
    x: u32,
    y: u32,
) -> Result<u32, OutOfMemory>
    requires reduced { IsReduced table.old }
    requires x { x < length table.old + 2 }
    requires y { y < length table.old + 2 }
    ensures grows { Grows table.old table.new }
    ensures applied { IfOk result (λ r. IsApplied (table_of junction) table.new x y 0 r) }
{
    if let Some(known) = at_once(junction, x, y) {
        return Ok(known);
    }
    let (a, b) = in_order(x, y);
    let operation = operation_of(junction);
    if let Some(known) = table.kept(operation, a, b) {
        return Ok(known);
    }
    let ways = ways_on(table, a, b);
    let low = combine(table, junction, ways.first.0, ways.second.0)?;
    let high = combine(table, junction, ways.first.1, ways.second.1)?;
    let result = table.branch(ways.var, low, high)?;
    table.keep(Slot {
        operation,
        x: a,
        y: b,
        result,
    });
    Ok(result)
}

impl NodeTable {
    /// The disjunction of two references.
    pub fn union(&mut self, x: u32, y: u32) -> Result<u32, OutOfMemory>
        requires x { x < length self.old + 2 }
        requires y { y < length self.old + 2 }
        ensures keeps { Keeps self.old self.new }
        ensures limits { KeepsLimits self.old self.new }
        ensures within { IfOk result (λ r. r < length self.new + 2) }
        ensures value { IfOk result (λ r. (bits : ℕ → Bool) → value_at self.new r bits
            ≡ (value_at self.new x bits || value_at self.new y bits)) }
    {
        self.valid();
        let made = combine(self, Junction::Or, x, y)?;
        Ok(made)
    }

    /// The conjunction of two references.
    pub fn intersection(&mut self, x: u32, y: u32) -> Result<u32, OutOfMemory>
        requires x { x < length self.old + 2 }
        requires y { y < length self.old + 2 }
        ensures keeps { Keeps self.old self.new }
        ensures limits { KeepsLimits self.old self.new }
        ensures within { IfOk result (λ r. r < length self.new + 2) }
        ensures value { IfOk result (λ r. (bits : ℕ → Bool) → value_at self.new r bits
            ≡ (value_at self.new x bits && value_at self.new y bits)) }
    {
        self.valid();
        let made = combine(self, Junction::And, x, y)?;
        Ok(made)
    }
}
