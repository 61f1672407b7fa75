ghost use Rattle.std.specs.Prelude.{◌≡◌, ◌↔◌, ◌+◌, ◌*◌, ◌/◌, ◌%◌, ◌<◌, ◌^◌, ℕ, Bool, true, false, IsTrue, IfOk, IfSome, length, option_map};
ghost use Rattle.diagram_store.specs.Nodes.{IsAbove, IsReduced, HasVariablesBelow};
ghost use Rattle.diagram_ops.specs.NodeTables.{Keeps, KeepsLimits, leads_at, LeadsThrough};
ghost use Rattle.diagram_ops.specs.declared.composing.Operand.TheVariants.{First, Second};
ghost use Rattle.diagram_ops.specs.private.Applying.{lower, place_in, cofactor_of};
ghost use Rattle.diagram_ops.specs.private.Composing.{IsJoined};
ghost use Rattle.diagram_ops.specs.private.Composing as composing;
ghost use Rattle.diagram_ops.specs.private.KeptResults.{IsOwnComposition};
ghost use Rattle.diagram_ops.specs.private.Scratch.{Stands};
ghost use Rattle.diagram_ops.specs.private.TableNodes.{branch_of};
ghost use Rattle.diagram_ops.specs.private.Tables.{Grows};

use crate::composing::{Operand, position};
use crate::kept_results::{Operation, Slot};
use crate::node::Node;
use crate::node_table::NodeTable;
use crate::uniting::{Junction, combine};
use wpds_base::OutOfMemory;

// The place of the variable of what a reference names, if it is a node.
fn place_of(operand: Operand, found: Option<Node>) -> Option<u64>
    ensures place { result ≡ place_in (composing.position operand) (option_map branch_of found) }
    ensures of_variable { IfSome result (λ p. p / 2 < 2 ^ 32) }
{
    match found {
        Some(node) => Some(position(operand, node.var)),
        None => None,
    }
}

// The lowest place of what two references name, if one of them is a node.
fn lowest(first: Option<Node>, second: Option<Node>) -> Option<u64>
    ensures lowest { result ≡ lower
        (place_in (composing.position First) (option_map branch_of first))
        (place_in (composing.position Second) (option_map branch_of second)) }
    ensures of_variable { IfSome result (λ p. p / 2 < 2 ^ 32) }
{
    match (
        place_of(Operand::First, first),
        place_of(Operand::Second, second),
    ) {
        (Some(v), Some(w)) => Some(v.min(w)),
        (Some(v), None) => Some(v),
        (None, w) => w,
    }
}

// Where the walk goes on from a reference, by what it names, where the bit at a place is false, and where it is true.
fn branches(operand: Operand, place: u64, reference: u32, found: Option<Node>) -> (u32, u32)
    ensures low { result.0 ≡ cofactor_of (composing.position operand) place false reference
        (option_map branch_of found) }
    ensures high { result.1 ≡ cofactor_of (composing.position operand) place true reference
        (option_map branch_of found) }
{
    match found {
        Some(node) if position(operand, node.var) == place => (node.low, node.high),
        _ => (reference, reference),
    }
}

// The disjunction at the place of a value in the middle, else the choice by the variable that stays.
fn join(table: &mut NodeTable, place: u64, low: u32, high: u32) -> Result<u32, OutOfMemory>
    requires reduced { IsReduced table.old }
    requires place { place / 2 < 2 ^ 32 }
    requires low { low < length table.old + 2 }
    requires high { high < length table.old + 2 }
    requires low_above { IsAbove table.old (place / 2) low }
    requires high_above { IsAbove table.old (place / 2) high }
    ensures reduced { IsReduced table.new }
    ensures keeps { Keeps table.old table.new }
    ensures limits { (limit : ℕ) → (place % 2 ≡ 0 → place / 2 < limit)
        → HasVariablesBelow limit table.old → HasVariablesBelow limit table.new }
    ensures stands { IfOk result (λ r.
        Stands table.new r (IsJoined table.new place low high) (λ v. 2 * v < place)) }
{
    if place % 2 == 1 {
        let joined = combine(table, Junction::Or, low, high)?;
        return Ok(joined);
    }
    let chosen = table.branch((place / 2) as u32, low, high)?;
    Ok(chosen)
}

// The composition of two references.
fn compose(table: &mut NodeTable, x: u32, y: u32) -> Result<u32, OutOfMemory>
    requires reduced { IsReduced table.old }
    requires x { x < length table.old + 2 }
    requires y { y < length table.old + 2 }
    ensures grows { Grows table.old table.new }
    ensures composed { IfOk result (λ r. IsOwnComposition table.new x y r) }
{
    if x == 0 || y == 0 {
        return Ok(0);
    }
    let first = table.found(x);
    let second = table.found(y);
    let Some(place) = lowest(first, second) else {
        return Ok(1);
    };
    if let Some(known) = table.kept(Operation::Composition, x, y) {
        return Ok(known);
    }
    let xs = branches(Operand::First, place, x, first);
    let ys = branches(Operand::Second, place, y, second);
    let low = compose(table, xs.0, ys.0)?;
    let high = compose(table, xs.1, ys.1)?;
    let result = join(table, place, low, high)?;
    table.keep(Slot {
        operation: Operation::Composition,
        x,
        y,
        result,
    });
    Ok(result)
}

impl NodeTable {
    /// The relation that leads from one state to another exactly where `x` leads from the one to some state in the middle, and
    /// `y` from there to the other.
    ///
    /// Variable `2 i` is the old value of `i`, and `2 i + 1` the new one. Conjunction and quantification are one walk through
    /// pairs of references (Burch, Clarke, McMillan, Dill, Hwang 1990).
    pub fn composition(&mut self, x: u32, y: u32) -> Result<u32, OutOfMemory>
        requires x { x < length self.old + 2 }
        requires y { y < length self.old + 2 }
        ensures keeps { Keeps self.old self.new }
        ensures limits { KeepsLimits self.old self.new }
        ensures within { IfOk result (λ r. r < length self.new + 2) }
        ensures leads { let nodes = self.new in IfOk result (λ r. (old new : ℕ → Bool) →
            IsTrue (leads_at nodes r old new) ↔ LeadsThrough nodes x y old new) }
    {
        self.valid();
        let made = compose(self, x, y)?;
        Ok(made)
    }
}
