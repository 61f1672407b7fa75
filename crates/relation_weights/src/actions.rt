ghost use Rattle.std.specs.Prelude.{◌≡◌, ◌≤◌, ◌<◌, ◌*◌, ◌&&◌, IsTrue, IfOk, None, Some};
ghost use Rattle.diagram_store.specs.Diagrams.{IsOver};
ghost use Rattle.diagram_ops.specs.Relations.{relates};
ghost use Rattle.truth_tables.specs.Formulas.{formula, is_over};
ghost use Rattle.relation_laws.specs.Relations.{relation_of};
ghost use Rattle.relation_weights.specs.Actions as spec;
ghost use Rattle.relation_weights.specs.Actions.{allows, numbers, AreTargets, IsValueOver};
ghost use Rattle.relation_weights.specs.private.Diagrams.{HasPairs};

use crate::Relation;
use crate::expressions::{new_bit, of_expression};
use crate::frames::frame;
use diagram_ops::{apply_table2, apply_table3};
use diagram_store::Diagram;
use std::alloc::Global;
use std::marker::Model;
use truth_tables::Expr;
use wpds_base::OutOfMemory;

/// What a target of an assignment becomes. Contracts see the formula of an expression, and nothing where it may be either
/// bit.
#[derive(Debug, Drop)]
pub struct Value {
    expression: Option<Expr>,
}

impl Model for Value {
    ghost use Rattle.std.specs.Prelude.{ℕ, Option, option_map};
    ghost use Rattle.std.specs.Coded.{coded_option};
    ghost use Rattle.truth_tables.specs.Formulas.{Formula, formula};
    ghost use Rattle.truth_tables.specs.FormulaCodes.{coded_formula};

    ghost Value = { Option (Formula ℕ) };

    ghost coded = { coded_option coded_formula };

    ghost view = { λ v. option_map formula v.expression };
}

impl Value {
    /// Either bit.
    pub fn free() -> Value
        ensures { result ≡ None }
    {
        Value { expression: None }
    }

    /// The value of an expression in the old state.
    pub fn of(e: Expr) -> Value
        ensures { result ≡ Some (formula e) }
    {
        Value {
            expression: Some(e),
        }
    }
}

// The tables of conjunction, and of a first place where the two others are equal.
const AND: u8 = 8;

const AND_SAME: u8 = 144;

/// The identity on `n` bits where an expression is true in the old state.
pub(crate) fn assumed(alloc: Global, n: u32, e: &Expr) -> Result<Relation, OutOfMemory>
    requires n { n ≤ 24 }
    requires over { IsTrue (is_over n (formula e.now)) }
    ensures { IfOk result (λ w. w ≡ relation_of n (spec.assumed n (formula e.now))) }
{
    let holds = of_expression(alloc, n, e)?;
    let stay = frame(alloc, n, &[])?;
    let made = apply_table2(alloc, AND, &holds, &stay)?;
    Relation::new(alloc, made)
}

/// The assignment of `n` bits, all values taken in the old state.
pub(crate) fn assigned(
    alloc: Global,
    n: u32,
    targets: &[(u32, Value)],
) -> Result<Relation, OutOfMemory>
    requires n { n ≤ 24 }
    requires targets { AreTargets n targets.now }
    ensures { IfOk result (λ w. w ≡ relation_of n (spec.assigned n targets.now)) }
{
    let freed = numbers_of(alloc, targets)?;
    let mut made = frame(alloc, n, &freed)?;
    for k in 0..targets.len() {
        made = with_target(alloc, n, made, &targets[k])?;
    }
    Relation::new(alloc, made)
}

// The numbers of the targets.
fn numbers_of(alloc: Global, targets: &[(u32, Value)]) -> Result<Vec<u32>, OutOfMemory>
    ensures { IfOk result (λ v. v.items ≡ numbers targets.now) }
{
    let mut list = Vec::with_capacity(alloc, targets.len())?;
    for target in targets {
        list.push(target.0)?;
    }
    Ok(list)
}

// The diagram where a target has become what it may.
fn with_target(
    alloc: Global,
    n: u32,
    made: Diagram,
    target: &(u32, Value),
) -> Result<Diagram, OutOfMemory>
    requires n { n ≤ 24 }
    requires target { target.now.0 < n }
    requires over { IsValueOver n target.now.1 }
    requires variables { IsOver (2 * n) made }
    ensures pairs { IfOk result (λ d. HasPairs d (λ x y.
        relates made x y && allows target.now.1 x (y target.now.0))) }
    ensures variables { IfOk result (λ d. IsOver (2 * n) d) }
{
    match &target.1.expression {
        None => Ok(made),
        Some(e) => {
            let old = of_expression(alloc, n, e)?;
            let new = new_bit(alloc, n, target.0)?;
            apply_table3(alloc, AND_SAME, &made, &new, &old)
        }
    }
}
