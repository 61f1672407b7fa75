ghost use Rattle.std.specs.Prelude.{◌≡◌, false, IfOk, unwrap_or};
ghost use Rattle.truth_tables.specs.Formulas.{Constant, formula};
ghost use Rattle.truth_tables.specs.Postfix.{first};

use std::alloc::Global;
use std::marker::Model;
use truth_tables::{Expr, Part, Postfix};
use wpds_base::OutOfMemory;

/// An expression of a document, which contracts see as its formula over numbers of variables.
///
/// A constant or a variable takes no memory of its own, and each part of another expression 8 bytes.
#[derive(Debug, Drop)]
pub struct Expression {
    held: Held,
}

// How an expression is held. Most are a variable, and are held in place.
#[derive(Debug, Drop)]
enum Held {
    Const(bool),
    Var(u32),
    Parts(Postfix),
}

impl Model for Expression {
    ghost use Rattle.std.specs.Prelude.{ℕ};
    ghost use Rattle.truth_tables.specs.Formulas.{Formula};
    ghost use Rattle.truth_tables.specs.FormulaCodes.{coded_formula};
    ghost use Rattle.document_forms.specs.HeldExpressions.{held_formula};

    ghost Value = { Formula ℕ };

    ghost coded = { coded_formula };

    ghost view = { λ e. held_formula e.held };
}

impl Expression {
    /// The newest of these expressions, and `false` where there is none. It takes no memory.
    #[tactic(auto, using(crate::proofs::HeldLemmas::constant_held, crate::proofs::HeldLemmas::variable_held))]
    pub fn from_parts(parts: Postfix) -> Expression
        ensures { result ≡ unwrap_or (first parts) (Constant false) }
    {
        let held = match parts.newest_leaf() {
            Some(Part::Const(value)) => Held::Const(value),
            Some(Part::Var(number)) => Held::Var(number),
            _ => Held::Parts(parts),
        };
        Expression { held }
    }

    /// The expression as a tree, to be evaluated or written.
    pub fn to_expr(&self, alloc: Global) -> Result<Expr, OutOfMemory>
        ensures { IfOk result (λ e. formula e ≡ self.now) }
    {
        match &self.held {
            Held::Const(value) => Ok(Expr::Const(*value)),
            Held::Var(number) => Ok(Expr::Var(*number)),
            Held::Parts(parts) => {
                let newest = parts.to_expr(alloc)?;
                Ok(newest.unwrap_or(Expr::Const(false)))
            }
        }
    }
}
