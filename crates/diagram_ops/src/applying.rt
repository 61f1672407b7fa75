ghost use Rattle.std.specs.Prelude.{◌≡◌, ◌+◌, ◌<◌, ◌^◌, ℕ, Some, true, false, IfOk, length};
ghost use Rattle.diagram_ops.specs.private.Applying.{AreApplied, Applies, place_in, cofactor_of};
ghost use Rattle.diagram_ops.specs.private.Applying as applying;
ghost use Rattle.diagram_store.specs.TripleTables.{known};

use crate::scratch::Scratch;
use crate::short_cuts::short_cut;
use diagram_store::{Branch, TripleTable};
use truth_tables::value3;
use wpds_base::OutOfMemory;

/// The table of three places that is the first or the second, whatever the third.
pub(crate) const OR: u8 = 252;

/// The operator with this table at three references, by their lowest variable. Each triple is worked out once.
pub(crate) fn apply(
    scratch: &mut Scratch,
    results: &mut TripleTable,
    table: u8,
    x: u64,
    y: u64,
    z: u64,
) -> Result<u64, OutOfMemory>
    requires x { x < length scratch.old + 2 }
    requires y { y < length scratch.old + 2 }
    requires z { z < length scratch.old + 2 }
    requires results { AreApplied table scratch.old (known results.old) }
    ensures { IfOk result (λ r. Applies table scratch.old scratch.new (known results.new) x y z r) }
{
    let first = scratch.node(x);
    let second = scratch.node(y);
    let third = scratch.node(z);
    let Some(var) = lowest(first, second, third) else {
        return Ok(u64::from(value3(table, x == 1, y == 1, z == 1)));
    };
    if let Some(answer) = short_cut(table, x, y, z) {
        return Ok(answer);
    }
    if let Some(result) = results.get(x, y, z) {
        return Ok(result);
    }
    let xs = cofactors(var, x, first);
    let ys = cofactors(var, y, second);
    let zs = cofactors(var, z, third);
    let low = apply(scratch, results, table, xs.0, ys.0, zs.0)?;
    let high = apply(scratch, results, table, xs.1, ys.1, zs.1)?;
    let result = scratch.branch(var, low, high)?;
    results.insert(x, y, z, result)?;
    Ok(result)
}

// The lowest variable of what three references name, if one of them is a node.
fn lowest(first: Option<Branch>, second: Option<Branch>, third: Option<Branch>) -> Option<u32>
    ensures { result ≡ applying.lower
        (applying.lower (place_in (λ k. k) first) (place_in (λ k. k) second))
        (place_in (λ k. k) third) }
{
    lower(lower(variable(first), variable(second)), variable(third))
}

fn lower(a: Option<u32>, b: Option<u32>) -> Option<u32>
    ensures { result ≡ applying.lower a b }
{
    match (a, b) {
        (Some(v), Some(w)) => Some(v.min(w)),
        (Some(v), None) => Some(v),
        (None, w) => w,
    }
}

fn variable(found: Option<Branch>) -> Option<u32>
    ensures { result ≡ place_in (λ k. k) found }
{
    match found {
        Some(node) => Some(node.var),
        None => None,
    }
}

// Where the walk goes on from a reference, by what it names, where the bit of a variable is false, and where it is true.
fn cofactors(var: u32, reference: u64, found: Option<Branch>) -> (u64, u64)
    ensures low { result.0 ≡ cofactor_of (λ k. k) var false reference found }
    ensures high { result.1 ≡ cofactor_of (λ k. k) var true reference found }
{
    match found {
        Some(node) if node.var == var => (node.low, node.high),
        _ => (reference, reference),
    }
}
