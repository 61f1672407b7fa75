//! Whether two sources of weights are equal.

ghost use Rattle.std.specs.Prelude.{◌≡◌, ℕ, IsTrue};
ghost use Rattle.truth_tables.specs.Formulas.{formula};
ghost use Rattle.boolean_lowering.specs.private.Ways.{condition_of};
ghost use Rattle.boolean_lowering.specs.private.Sources.{effect_by};

use crate::source::Source;
use crate::ways::Condition;
use boolean_programs::Choice;
use truth_tables::Expr;

// Whether two expressions are the same tree. It goes as deep as they are alike.
fn same_tree(a: &Expr, b: &Expr) -> bool
    ensures { IsTrue result → formula a.now ≡ formula b.now }
{
    match (a, b) {
        (Expr::Const(x), Expr::Const(y)) => x == y,
        (Expr::Var(x), Expr::Var(y)) => x == y,
        (Expr::Not(x), Expr::Not(y)) => same_tree(x, y),
        (
            Expr::Two { table, left, right },
            Expr::Two {
                table: other,
                left: x,
                right: y,
            },
        ) => table == other && same_tree(left, x) && same_tree(right, y),
        (
            Expr::Three { table, a, b, c },
            Expr::Three {
                table: other,
                a: x,
                b: y,
                c: z,
            },
        ) => table == other && same_tree(a, x) && same_tree(b, y) && same_tree(c, z),
        _ => false,
    }
}

// Whether two values are the same.
fn same_choice(a: &Choice, b: &Choice) -> bool
    ensures { IsTrue result → a.now ≡ b.now }
{
    match (a, b) {
        (Choice::Star, Choice::Star) => true,
        (Choice::Is(x), Choice::Is(y)) => same_tree(x.as_expr(), y.as_expr()),
        _ => false,
    }
}

// Whether values are the same, one by one.
fn same_values(a: &[Choice], b: &[Choice]) -> bool
    ensures { IsTrue result → a.now ≡ b.now }
{
    if a.len() != b.len() {
        return false;
    }
    for place in 0..a.len() {
        if !same_choice(&a[place], &b[place]) {
            return false;
        }
    }
    true
}

// Whether two conditions are the same.
fn same_condition(a: Condition<'_>, b: Condition<'_>) -> bool
    ensures { IsTrue result → condition_of a.entry ≡ condition_of b.entry }
{
    match (a, b) {
        (Condition::Always, Condition::Always) => true,
        (Condition::Holds(x), Condition::Holds(y)) | (Condition::Fails(x), Condition::Fails(y)) => {
            same_tree(x.as_expr(), y.as_expr())
        }
        _ => false,
    }
}

/// Whether two sources are equal, so that the same weight is made from them.
pub(crate) fn same_source(a: Source<'_>, b: Source<'_>) -> bool
    ensures { (f : ℕ → ℕ) → IsTrue result → effect_by f a.entry ≡ effect_by f b.entry }
{
    match (a, b) {
        (Source::Assumption(x), Source::Assumption(y)) => same_condition(x, y),
        (
            Source::Assignment { targets, values },
            Source::Assignment {
                targets: others,
                values: theirs,
            },
        ) => targets == others && same_values(values, theirs),
        (
            Source::Filling {
                first,
                values,
                free,
            },
            Source::Filling {
                first: begin,
                values: theirs,
                free: many,
            },
        ) => first == begin && free == many && same_values(values, theirs),
        _ => false,
    }
}
