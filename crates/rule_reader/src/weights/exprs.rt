//! Expressions of a relation, with numbers in place of the names of variables.

ghost use Rattle.std.specs.Prelude.{◌≡◌, ◌||◌, ℕ, [], ◌∷◌, IfOk, MatchOption, None, Some};
ghost use Rattle.truth_tables.specs.Formulas.{Formula, renamed};
ghost use Rattle.document_forms.specs.Names.{has_unknown};
ghost use Rattle.document_forms.specs.Weights.{ValueForm, value_of};
ghost use Rattle.rule_reader.specs.TreeReads.{variables_among, numbers_of, number_at, IsTreeRead, HasValue, is_star};

use super::WeightFaults;
use crate::names::NameTable;
use document_forms::{Expression, ValueText};
use std::alloc::Global;
use truth_tables::{ExprRead, Postfix, is_variable, one_tree, read_expr, variables_among_words};
use wpds_base::{MOST_DEPTH, OutOfMemory};
use wpds_port::{Lexeme, Mark, Words};

/// An expression that was read.
#[derive(Drop)]
pub struct TreeRead {
    pub expression: Expression,
    pub faults: WeightFaults,
}

/// A value that was read.
#[derive(Drop)]
pub struct ValueRead {
    pub value: ValueText,
    pub faults: WeightFaults,
}

/// Reads a value: `*` or an expression.
pub fn read_value<'t>(
    alloc: Global,
    items: &NameTable<'_>,
    words: &Words<'t>,
) -> Result<Option<ValueRead>, OutOfMemory>
    ensures { IfOk result (λ read. MatchOption read (value_of words.now ≡ None)
        (λ r. (v : ValueForm) × (value_of words.now ≡ Some v) × HasValue items.now v r)) }
{
    if only_star(words) {
        return Ok(Some(ValueRead {
            value: ValueText::Free,
            faults: WeightFaults::none(),
        }));
    }
    match read_tree(alloc, items, words)? {
        Some(tree) => Ok(Some(ValueRead {
            value: ValueText::Is(tree.expression),
            faults: tree.faults,
        })),
        None => Ok(None),
    }
}

fn only_star(words: &Words<'_>) -> bool
    ensures { result ≡ is_star words.now }
{
    match words.split_first() {
        Some((Lexeme::Mark(Mark::Star), rest)) => rest.split_first().is_none(),
        _ => false,
    }
}

/// Reads an expression.
pub fn read_tree<'t>(
    alloc: Global,
    items: &NameTable<'_>,
    words: &Words<'t>,
) -> Result<Option<TreeRead>, OutOfMemory>
    ensures { IfOk result (IsTreeRead items.now words.now) }
{
    one_tree();
    variables_among_words();
    let text = words.reborrow();
    let unknown = has_unknown_variable(items, words);
    match read_expr(alloc, &text, MOST_DEPTH)? {
        ExprRead::Read(parts) => Ok(Some(TreeRead {
            expression: numbered(alloc, items, words, parts)?,
            faults: WeightFaults {
                unknown,
                unlawful: false,
                deep: false,
            },
        })),
        ExprRead::Form => Ok(None),
        ExprRead::Table => Ok(Some(unread(
            alloc,
            WeightFaults {
                unknown,
                unlawful: true,
                deep: false,
            },
        ))),
        ExprRead::Deep => Ok(Some(unread(
            alloc,
            WeightFaults {
                unknown,
                unlawful: false,
                deep: true,
            },
        ))),
    }
}

// An expression with faults, in place of which a constant stands. It takes no memory.
fn unread(alloc: Global, faults: WeightFaults) -> TreeRead
    ensures { result.faults ≡ faults }
{
    TreeRead {
        expression: Expression::from_parts(Postfix::new(alloc)),
        faults,
    }
}

// Whether a variable among the words of an expression is none of the items.
fn has_unknown_variable(items: &NameTable<'_>, words: &Words<'_>) -> bool
    ensures { result ≡ has_unknown items.now (variables_among words.now) }
{
    let mut left = words.reborrow();
    while let Some((lexeme, rest)) = left.split_first() {
        if is_variable(lexeme) && items.number_of(lexeme.text()).is_none() {
            return true;
        }
        left = rest;
    }
    false
}

// The expression, in which a place among the variables of the words has the variable's number.
fn numbered(
    alloc: Global,
    items: &NameTable<'_>,
    words: &Words<'_>,
    mut parts: Postfix,
) -> Result<Expression, OutOfMemory>
    ensures { (f : Formula ℕ) → parts ≡ f ∷ []
        → IfOk result (λ e. e ≡ renamed (number_at items.now words.now) f) }
{
    let numbers = variable_numbers(alloc, items, words)?;
    parts.renumber(&numbers);
    Ok(Expression::from_parts(parts))
}

// The numbers of the variables among the words of an expression, in order. Those that are none of
// the items have 0.
fn variable_numbers(
    alloc: Global,
    items: &NameTable<'_>,
    words: &Words<'_>,
) -> Result<Vec<u32>, OutOfMemory>
    ensures { IfOk result (λ numbers. numbers.items
        ≡ numbers_of items.now (variables_among words.now)) }
{
    let mut numbers = Vec::new(alloc);
    let mut left = words.reborrow();
    while let Some((lexeme, rest)) = left.split_first() {
        if is_variable(lexeme) {
            numbers.push(items.number_of(lexeme.text()).unwrap_or(0))?;
        }
        left = rest;
    }
    Ok(numbers)
}
