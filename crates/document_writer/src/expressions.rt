//! Expressions are written by their tables.

ghost use Rattle.std.specs.Prelude.{◌≡◌, ◌++◌, OnOk};
ghost use Rattle.truth_tables.specs.Formulas.{formula};
ghost use Rattle.document_forms.specs.Writing.{digit_text, expression_text};

use crate::names::push_name;
use crate::numbers::push_number;
use crate::rows::push;
use document_forms::Expression;
use truth_tables::Expr;
use wpds_base::OutOfMemory;
use wpds_port::Text;

// Adds a constant.
fn push_digit(out: &mut Vec<u8>, value: bool) -> Result<(), OutOfMemory>
    ensures { OnOk result (out.new.items ≡ out.old.items ++ digit_text value) }
{
    push(out, if value { b"1" } else { b"0" })
}

// Adds an expression in memory. It goes as deep as the expression is.
fn push_expr(out: &mut Vec<u8>, names: &[Text], expr: &Expr) -> Result<(), OutOfMemory>
    ensures { OnOk result (
        out.new.items ≡ out.old.items ++ expression_text names.now (formula expr.now)) }
{
    match expr {
        Expr::Const(value) => push_digit(out, *value),
        Expr::Var(number) => push_name(out, names, *number),
        Expr::Not(inner) => {
            push(out, b"! ")?;
            push_expr(out, names, inner)
        }
        Expr::Two { table, left, right } => {
            push(out, b"tab2 ")?;
            push_number(out, u64::from(*table))?;
            push(out, b" ( ")?;
            push_expr(out, names, left)?;
            push(out, b", ")?;
            push_expr(out, names, right)?;
            push(out, b" )")
        }
        Expr::Three { table, a, b, c } => {
            push(out, b"tab3 ")?;
            push_number(out, u64::from(*table))?;
            push(out, b" ( ")?;
            push_expr(out, names, a)?;
            push(out, b", ")?;
            push_expr(out, names, b)?;
            push(out, b", ")?;
            push_expr(out, names, c)?;
            push(out, b" )")
        }
    }
}

/// Adds an expression over variables with these names.
pub(crate) fn push_expression(
    out: &mut Vec<u8>,
    names: &[Text],
    expression: &Expression,
) -> Result<(), OutOfMemory>
    ensures { OnOk result (
        out.new.items ≡ out.old.items ++ expression_text names.now expression.now) }
{
    let expr = expression.to_expr(*out.allocator())?;
    push_expr(out, names, &expr)
}
