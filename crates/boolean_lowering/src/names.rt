//! Expressions and values over variables in place of names.

ghost use Rattle.std.specs.Prelude.{◌≡◌, ◌+◌, ◌<◌, ◌≤◌, ◌++◌, IsTrue, length, map, replicate, IfOk, OnOk};
ghost use Rattle.std.specs.List.{range_with_len};
ghost use Rattle.wpds_base.specs.Limits.{most_related};
ghost use Rattle.truth_tables.specs.Formulas.{formula, renamed, is_over};
ghost use Rattle.boolean_programs.specs.declared.statement.Choice.TheVariants.{Star};
ghost use Rattle.boolean_programs.specs.Lists.{Each};
ghost use Rattle.boolean_programs.specs.Structure.{IsValueOver};
ghost use Rattle.lowering_laws.specs.Lowering.{renamed_choice};
ghost use Rattle.lowering_laws.specs.Weights.{choice_of, targets_of, values_of};
ghost use Rattle.boolean_lowering.specs.private.Layouts.{slot_in, variables_in};

use crate::layout::Layout;
use boolean_programs::Choice;
use relation_weights::Value;
use std::alloc::Global;
use truth_tables::Expr;
use wpds_base::OutOfMemory;

/// An expression with each name by its variable.
///
/// It goes as deep as the expression is.
pub(crate) fn renamed(alloc: Global, layout: Layout, e: &Expr) -> Result<Expr, OutOfMemory>
    requires { IsTrue (is_over (variables_in layout) (renamed (slot_in layout) (formula e.now))) }
    ensures { IfOk result (λ f. formula f ≡ renamed (slot_in layout) (formula e.now)) }
{
    match e {
        Expr::Const(value) => Ok(Expr::Const(*value)),
        Expr::Var(name) => Ok(Expr::Var(layout.slot(*name) as u32)),
        Expr::Not(inner) => {
            let inner = renamed(alloc, layout, inner)?;
            Ok(Expr::Not(Box::new(alloc, inner)?))
        }
        Expr::Two { table, left, right } => {
            let left = renamed(alloc, layout, left)?;
            let right = renamed(alloc, layout, right)?;
            Ok(Expr::Two {
                table: *table,
                left: Box::new(alloc, left)?,
                right: Box::new(alloc, right)?,
            })
        }
        Expr::Three { table, a, b, c } => {
            let a = renamed(alloc, layout, a)?;
            let b = renamed(alloc, layout, b)?;
            let c = renamed(alloc, layout, c)?;
            Ok(Expr::Three {
                table: *table,
                a: Box::new(alloc, a)?,
                b: Box::new(alloc, b)?,
                c: Box::new(alloc, c)?,
            })
        }
    }
}

// A value with each name by its variable.
fn value_of(alloc: Global, layout: Layout, choice: &Choice) -> Result<Value, OutOfMemory>
    requires { IsValueOver (variables_in layout) (renamed_choice (slot_in layout) choice.now) }
    ensures { IfOk result (λ v. choice_of v ≡ renamed_choice (slot_in layout) choice.now) }
{
    match choice {
        Choice::Star => Ok(Value::free()),
        Choice::Is(e) => {
            let tree = renamed(alloc, layout, e.as_expr())?;
            Ok(Value::of(tree))
        }
    }
}

/// The variables of targets, with their values.
pub(crate) fn assigned(
    alloc: Global,
    layout: Layout,
    targets: &[u32],
    values: &[Choice],
) -> Result<Vec<(u32, Value)>, OutOfMemory>
    requires alike { length targets.now ≡ length values.now }
    requires targets { Each (λ v. v < variables_in layout) (map (slot_in layout) targets.now) }
    requires values { Each (IsValueOver (variables_in layout))
        (map (renamed_choice (slot_in layout)) values.now) }
    ensures targets { IfOk result (λ v. targets_of v.items ≡ map (slot_in layout) targets.now) }
    ensures values { IfOk result (λ v.
        values_of v.items ≡ map (renamed_choice (slot_in layout)) values.now) }
{
    let mut pairs = Vec::with_capacity(alloc, targets.len())?;
    for (place, target) in targets.iter().enumerate() {
        let value = value_of(alloc, layout, &values[place])?;
        pairs.push((layout.slot(*target) as u32, value))?;
    }
    Ok(pairs)
}

// Sets variables one after the other to values.
fn push_values(
    alloc: Global,
    layout: Layout,
    pairs: &mut Vec<(u32, Value)>,
    first: u32,
    values: &[Choice],
) -> Result<(), OutOfMemory>
    requires small { first + length values.now ≤ most_related }
    requires values { Each (IsValueOver (variables_in layout))
        (map (renamed_choice (slot_in layout)) values.now) }
    ensures targets { OnOk result (targets_of pairs.new.items
        ≡ targets_of pairs.old.items ++ range_with_len first (length values.now)) }
    ensures values { OnOk result (values_of pairs.new.items
        ≡ values_of pairs.old.items ++ map (renamed_choice (slot_in layout)) values.now) }
{
    for (place, choice) in values.iter().enumerate() {
        let value = value_of(alloc, layout, choice)?;
        pairs.push((first + place as u32, value))?;
    }
    Ok(())
}

// Frees variables one after the other.
fn push_free(pairs: &mut Vec<(u32, Value)>, first: u32, count: u32) -> Result<(), OutOfMemory>
    requires { first + count ≤ most_related }
    ensures targets { OnOk result (targets_of pairs.new.items
        ≡ targets_of pairs.old.items ++ range_with_len first count) }
    ensures values { OnOk result (values_of pairs.new.items
        ≡ values_of pairs.old.items ++ replicate count Star) }
{
    for place in 0..count {
        pairs.push((first + place, Value::free()))?;
    }
    Ok(())
}

/// Variables one after the other, the first of which get values, and as many behind them are free.
pub(crate) fn filled(
    alloc: Global,
    layout: Layout,
    first: u32,
    values: &[Choice],
    free: u32,
) -> Result<Vec<(u32, Value)>, OutOfMemory>
    requires small { first + length values.now + free ≤ most_related }
    requires values { Each (IsValueOver (variables_in layout))
        (map (renamed_choice (slot_in layout)) values.now) }
    ensures targets { IfOk result (λ v.
        targets_of v.items ≡ range_with_len first (length values.now + free)) }
    ensures values { IfOk result (λ v. values_of v.items
        ≡ map (renamed_choice (slot_in layout)) values.now ++ replicate free Star) }
{
    let mut pairs = Vec::new(alloc);
    push_values(alloc, layout, &mut pairs, first, values)?;
    let behind = first + values.len() as u32;
    push_free(&mut pairs, behind, free)?;
    Ok(pairs)
}
