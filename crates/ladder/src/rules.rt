ghost use Rattle.std.specs.Prelude.{◌≡◌, ◌≤◌, ◌<◌, ◌++◌, IfOk, OnOk};
ghost use Rattle.wpds_base.specs.Limits.{most_rungs};
ghost use Rattle.ladder.specs.Ladders.{rule as rule_of, rung_rules, rules_from};

use document_forms::{RuleLine, RuleLines, Symbols, WeightText};
use std::alloc::Global;
use wpds_base::OutOfMemory;

// A rule over the one control.
fn rule(alloc: Global, symbol: u32, right: Vec<u32>, cost: u64) -> Result<RuleLine, OutOfMemory>
    ensures { IfOk result (λ r. r ≡ rule_of symbol right.items cost) }
{
    Ok(RuleLine {
        control: 0,
        symbol,
        to: 0,
        right: Symbols::from_vec(alloc, right)?,
        weight: WeightText::Number(cost),
        map: None,
    })
}

// Adds the rules of a rung.
fn push_rung(alloc: Global, rules: &mut Vec<RuleLine>, rung: u32) -> Result<(), OutOfMemory>
    requires { rung < most_rungs }
    ensures { OnOk result (rules.new.items ≡ rules.old.items ++ rung_rules rung) }
{
    let entry = 3 * rung;
    let first = vec![in alloc; entry + 3, entry + 1]?;
    rules.push(rule(alloc, entry, first, 0)?)?;
    let second = vec![in alloc; entry + 3, entry + 2]?;
    rules.push(rule(alloc, entry + 1, second, 0)?)?;
    rules.push(rule(alloc, entry + 2, Vec::new(alloc), 0)?)?;
    Ok(())
}

/// The rules of so many rungs, and the one of the entry behind them.
pub(crate) fn rules(alloc: Global, rungs: u32) -> Result<RuleLines, OutOfMemory>
    requires { rungs ≤ most_rungs }
    ensures { IfOk result (λ rs. rs ≡ rules_from 0 rungs) }
{
    let mut rules = Vec::new(alloc);
    for rung in 0..rungs {
        push_rung(alloc, &mut rules, rung)?;
    }
    rules.push(rule(alloc, 3 * rungs, Vec::new(alloc), 1)?)?;
    Ok(RuleLines::from_vec(rules))
}
