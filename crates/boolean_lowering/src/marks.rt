//! Numbers that tell most sources of weights apart.

use crate::source::Source;
use crate::ways::Condition;
use boolean_programs::Choice;
use truth_tables::Expr;

// Two numbers mixed by a multiplication (Knuth 1998, section 6.4).
fn mixed(one: u64, other: u64) -> u64 {
    (one ^ other).wrapping_mul(0x9E37_79B9_7F4A_7C15)
}

// It goes as deep as the expression is.
fn mark_of_tree(e: &Expr) -> u64 {
    match e {
        Expr::Const(value) => mixed(1, u64::from(*value)),
        Expr::Var(number) => mixed(2, u64::from(*number)),
        Expr::Not(inner) => mixed(3, mark_of_tree(inner)),
        Expr::Two { table, left, right } => {
            let first = mixed(u64::from(*table), mark_of_tree(left));
            mixed(first, mark_of_tree(right))
        }
        Expr::Three { table, a, b, c } => {
            let first = mixed(u64::from(*table), mark_of_tree(a));
            let both = mixed(first, mark_of_tree(b));
            mixed(both, mark_of_tree(c))
        }
    }
}

fn mark_of_values(values: &[Choice]) -> u64 {
    let mut mark = 4;
    for choice in values {
        mark = match choice {
            Choice::Star => mixed(mark, 5),
            Choice::Is(e) => mixed(mark, mark_of_tree(e.as_expr())),
        };
    }
    mark
}

fn mark_of_numbers(numbers: &[u32]) -> u64 {
    let mut mark = 6;
    for number in numbers {
        mark = mixed(mark, u64::from(*number));
    }
    mark
}

/// A number that is the same for equal sources, and tells most others apart.
pub(crate) fn mark_of(source: Source<'_>) -> u64 {
    let mark = match source {
        Source::Assumption(Condition::Always) => 7,
        Source::Assumption(Condition::Holds(e)) => mixed(8, mark_of_tree(e.as_expr())),
        Source::Assumption(Condition::Fails(e)) => mixed(9, mark_of_tree(e.as_expr())),
        Source::Assignment { targets, values } => {
            mixed(mark_of_numbers(targets), mark_of_values(values))
        }
        Source::Filling {
            first,
            values,
            free,
        } => {
            let ends = mixed(u64::from(first), u64::from(free));
            mixed(ends, mark_of_values(values))
        }
    };
    mark ^ (mark / 0x1_0000_0000)
}
