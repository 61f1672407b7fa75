ghost use Rattle.std.specs.Prelude.{◌≡◌, ◌*◌, ◌≤◌, ◌<◌, IsTrue, IfOk};
ghost use Rattle.diagram_store.specs.Diagrams.{IsOver};
ghost use Rattle.truth_tables.specs.Formulas.{formula, is_over};
ghost use Rattle.relation_weights.specs.Actions.{value_in};
ghost use Rattle.relation_weights.specs.private.Diagrams.{HasPairs};

use diagram_ops::{apply_table2, apply_table3};
use diagram_store::Diagram;
use std::alloc::Global;
use truth_tables::Expr;
use wpds_base::OutOfMemory;

// The table of two places that is true where both are false.
const NEITHER: u8 = 1;

/// The diagram of an expression over the old values of `n` bits.
///
/// It goes as deep as the expression is, and makes one operation on diagrams for each operator.
pub(crate) fn of_expression(alloc: Global, n: u32, e: &Expr) -> Result<Diagram, OutOfMemory>
    requires n { n ≤ 24 }
    requires over { IsTrue (is_over n (formula e.now)) }
    ensures value { IfOk result (λ d. HasPairs d (λ x y. value_in x (formula e.now))) }
    ensures variables { IfOk result (λ d. IsOver (2 * n) d) }
{
    match e {
        Expr::Const(value) => Ok(Diagram::constant(alloc, *value)),
        Expr::Var(number) => old_bit(alloc, n, *number),
        Expr::Not(inner) => {
            let d = of_expression(alloc, n, inner)?;
            apply_table2(alloc, NEITHER, &d, &d)
        }
        Expr::Two { table, left, right } => {
            let a = of_expression(alloc, n, left)?;
            let b = of_expression(alloc, n, right)?;
            apply_table2(alloc, *table, &a, &b)
        }
        Expr::Three { table, a, b, c } => {
            let x = of_expression(alloc, n, a)?;
            let y = of_expression(alloc, n, b)?;
            let z = of_expression(alloc, n, c)?;
            apply_table3(alloc, *table, &x, &y, &z)
        }
    }
}

/// The old value of a number.
pub(crate) fn old_bit(alloc: Global, n: u32, number: u32) -> Result<Diagram, OutOfMemory>
    requires n { n ≤ 24 }
    requires number { number < n }
    ensures value { IfOk result (λ d. HasPairs d (λ x y. x number)) }
    ensures variables { IfOk result (λ d. IsOver (2 * n) d) }
{
    let made = Diagram::literal(alloc, 2 * number)?;
    Ok(made)
}

/// The new value of a number.
pub(crate) fn new_bit(alloc: Global, n: u32, number: u32) -> Result<Diagram, OutOfMemory>
    requires n { n ≤ 24 }
    requires number { number < n }
    ensures value { IfOk result (λ d. HasPairs d (λ x y. y number)) }
    ensures variables { IfOk result (λ d. IsOver (2 * n) d) }
{
    let made = Diagram::literal(alloc, 2 * number + 1)?;
    Ok(made)
}
