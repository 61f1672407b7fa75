ghost use Rattle.std.specs.Prelude.{◌≡◌, IsTrue, length};
ghost use Rattle.truth_tables.specs.Formulas.{formula, is_over, value_under};

use crate::{value2, value3};

/// An expression over numbered variables.
#[derive(Debug, Drop)]
pub enum Expr {
    Const(bool),
    Var(u32),
    Not(Box<Expr>),
    /// An operator of two places by its table, which is below 16.
    Two {
        table: u8,
        left: Box<Expr>,
        right: Box<Expr>,
    },
    /// An operator of three places by its table.
    Three {
        table: u8,
        a: Box<Expr>,
        b: Box<Expr>,
        c: Box<Expr>,
    },
}

/// The value of an expression where the variables have these bits.
///
/// It goes as deep as the expression is.
pub fn eval(e: &Expr, bits: &[bool]) -> bool
    requires { IsTrue (is_over (length bits.now) (formula e.now)) }
    ensures { result ≡ value_under bits.now (formula e.now) }
{
    match e {
        Expr::Const(value) => *value,
        Expr::Var(number) => bits[*number as usize],
        Expr::Not(inner) => !eval(inner, bits),
        Expr::Two { table, left, right } => value2(*table, eval(left, bits), eval(right, bits)),
        Expr::Three { table, a, b, c } => {
            value3(*table, eval(a, bits), eval(b, bits), eval(c, bits))
        }
    }
}
