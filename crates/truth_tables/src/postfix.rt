ghost use Rattle.std.specs.Prelude.{◌≡◌, [], ◌∷◌, IfOk, OnOk, OnErr, map, option_map, slice_index_or};
ghost use Rattle.truth_tables.specs.Formulas.{formula, renamed};
ghost use Rattle.truth_tables.specs.Postfix.{taken, built, first, newest_leaf, part_renamed};
ghost use Rattle.truth_tables.specs.private.Trees.{formulas_of};
ghost use Rattle.truth_tables.specs.declared.part.Part.TheVariants.{Not, Two, Three};

use crate::{Expr, Part};
use std::alloc::Global;
use std::marker::Model;
use wpds_base::OutOfMemory;

/// Expressions over numbered variables, as the list of their parts, each behind its operands.
///
/// Contracts see their formulas, the newest first. An operator takes as many as it has places, and
/// where they are fewer, nothing is left.
#[derive(Debug, Drop)]
pub struct Postfix {
    parts: Vec<Part>,
}

impl Model for Postfix {
    ghost use Rattle.std.specs.Prelude.{ℕ, List};
    ghost use Rattle.truth_tables.specs.Formulas.{Formula};
    ghost use Rattle.std.specs.Coded.{coded_list};
    ghost use Rattle.truth_tables.specs.FormulaCodes.{coded_formula};
    ghost use Rattle.truth_tables.specs.Postfix.{built};

    ghost Value = { List (Formula ℕ) };

    ghost coded = { coded_list coded_formula };

    ghost view = { λ p. built p.parts.items };
}

impl Postfix {
    /// No expression. It takes no memory.
    pub fn new(alloc: Global) -> Postfix
        ensures { result ≡ [] }
    {
        Postfix {
            parts: Vec::new(alloc),
        }
    }

    /// Adds a part behind the others, which takes its operands from the newest expressions.
    #[tactic(auto, using(crate::proofs::PostfixLemmas::part_more))]
    pub fn push(&mut self, part: Part) -> Result<(), OutOfMemory>
        ensures ok { OnOk result (self.new ≡ taken part self.old) }
        ensures err { OnErr result (self.new ≡ self.old) }
    {
        self.parts.push(part)?;
        Ok(())
    }

    /// Gives each variable its number in this list, and 0 behind its end.
    pub fn renumber(&mut self, numbers: &[u32])
        ensures { self.new ≡ map (renamed (λ k. slice_index_or numbers.now k 0)) self.old }
    {
        renumber_parts(&mut self.parts, numbers);
    }

    /// The newest expression as a part, if it is a constant or a variable.
    pub fn newest_leaf(&self) -> Option<Part>
        ensures { result ≡ newest_leaf self.now }
    {
        match self.parts.last() {
            Some(part) => part.leaf(),
            None => None,
        }
    }

    /// The newest expression as a tree.
    #[tactic(auto, using(crate::proofs::PostfixLemmas::first_popped, crate::proofs::PostfixLemmas::none_popped))]
    pub fn to_expr(&self, alloc: Global) -> Result<Option<Expr>, OutOfMemory>
        ensures { IfOk result (λ o. option_map formula o ≡ first self.now) }
    {
        let mut trees = trees_of(alloc, &self.parts)?;
        match trees.pop() {
            Some(tree) => Ok(Some(tree)),
            None => Ok(None),
        }
    }
}

// Gives the variable of each part its number in this list, and 0 behind its end.
fn renumber_parts(parts: &mut [Part], numbers: &[u32])
    ensures { parts.new ≡ map (part_renamed (λ k. slice_index_or numbers.now k 0)) parts.old }
{
    for part in parts.iter_mut() {
        *part = part.renumbered(numbers);
    }
}

// The trees that these parts build, the newest last.
fn trees_of(alloc: Global, parts: &[Part]) -> Result<Vec<Expr>, OutOfMemory>
    ensures { IfOk result (λ trees. formulas_of trees.items ≡ built parts.now) }
{
    let mut trees = Vec::new(alloc);
    for part in parts {
        take(alloc, &mut trees, *part)?;
    }
    Ok(trees)
}

// A part more behind these expressions, the newest last.
fn take(alloc: Global, trees: &mut Vec<Expr>, part: Part) -> Result<(), OutOfMemory>
    ensures { OnOk result (
        formulas_of trees.new.items ≡ taken part (formulas_of trees.old.items)) }
{
    match part {
        Part::Const(value) => put(trees, Expr::Const(value)),
        Part::Var(number) => put(trees, Expr::Var(number)),
        Part::Not => take_one(alloc, trees),
        Part::Two(table) => take_two(alloc, trees, table),
        Part::Three(table) => take_three(alloc, trees, table),
    }
}

#[tactic(auto, using(crate::proofs::PostfixLemmas::newest))]
fn put(trees: &mut Vec<Expr>, tree: Expr) -> Result<(), OutOfMemory>
    ensures { OnOk result (
        formulas_of trees.new.items ≡ formula tree ∷ formulas_of trees.old.items) }
{
    trees.push(tree)?;
    Ok(())
}

// An inverse behind its operand.
#[tactic(auto, using(crate::proofs::PostfixLemmas::none_taken, crate::proofs::PostfixLemmas::one_taken))]
fn take_one(alloc: Global, trees: &mut Vec<Expr>) -> Result<(), OutOfMemory>
    ensures { OnOk result (
        formulas_of trees.new.items ≡ taken Not (formulas_of trees.old.items)) }
{
    let Some(inner) = trees.pop() else {
        return Ok(());
    };
    trees.push(Expr::Not(Box::new(alloc, inner)?))?;
    Ok(())
}

// An operator of two places behind its operands.
#[tactic(auto, using(crate::proofs::PostfixLemmas::none_taken_two, crate::proofs::PostfixLemmas::two_missing, crate::proofs::PostfixLemmas::two_taken))]
fn take_two(alloc: Global, trees: &mut Vec<Expr>, table: u8) -> Result<(), OutOfMemory>
    ensures { OnOk result (
        formulas_of trees.new.items ≡ taken (Two table) (formulas_of trees.old.items)) }
{
    let Some(right) = trees.pop() else {
        return Ok(());
    };
    let Some(left) = trees.pop() else {
        return Ok(());
    };
    trees.push(Expr::Two {
        table,
        left: Box::new(alloc, left)?,
        right: Box::new(alloc, right)?,
    })?;
    Ok(())
}

// An operator of three places behind its operands.
#[tactic(auto, using(crate::proofs::PostfixLemmas::none_taken_three, crate::proofs::PostfixLemmas::three_missing, crate::proofs::PostfixLemmas::three_missing_one, crate::proofs::PostfixLemmas::three_taken))]
fn take_three(alloc: Global, trees: &mut Vec<Expr>, table: u8) -> Result<(), OutOfMemory>
    ensures { OnOk result (
        formulas_of trees.new.items ≡ taken (Three table) (formulas_of trees.old.items)) }
{
    let Some(c) = trees.pop() else {
        return Ok(());
    };
    let Some(b) = trees.pop() else {
        return Ok(());
    };
    let Some(a) = trees.pop() else {
        return Ok(());
    };
    trees.push(Expr::Three {
        table,
        a: Box::new(alloc, a)?,
        b: Box::new(alloc, b)?,
        c: Box::new(alloc, c)?,
    })?;
    Ok(())
}
