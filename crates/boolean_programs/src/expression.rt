ghost use Rattle.std.specs.Prelude.{◌≡◌, IsTrue, length};
ghost use Rattle.truth_tables.specs.Formulas.{formula, is_over, value_under};

use std::marker::Model;
use truth_tables::{Expr, eval};

/// An expression of a program, which contracts see as its formula over numbers of variables.
#[derive(Debug, Drop)]
pub struct Expression {
    tree: Expr,
}

impl Model for Expression {
    ghost use Rattle.std.specs.Prelude.{ℕ};
    ghost use Rattle.truth_tables.specs.Formulas.{Formula, formula};
    ghost use Rattle.truth_tables.specs.FormulaCodes.{coded_formula};

    ghost Value = { Formula ℕ };

    ghost coded = { coded_formula };

    ghost view = { λ e. formula e.tree };
}

impl Expression {
    /// The expression of this tree. It takes no memory.
    pub fn from_expr(tree: Expr) -> Expression
        ensures { result ≡ formula tree }
    {
        Expression { tree }
    }

    /// The expression as a tree.
    pub fn as_expr(&self) -> &Expr
        ensures { formula result.now ≡ self.now }
    {
        &self.tree
    }

    /// The value where the variables have these bits. It takes no memory.
    ///
    /// It goes as deep as the expression is.
    pub fn value(&self, bits: &[bool]) -> bool
        requires { IsTrue (is_over (length bits.now) self.now) }
        ensures { result ≡ value_under bits.now self.now }
    {
        eval(&self.tree, bits)
    }
}
