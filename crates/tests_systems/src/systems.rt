use cost_weights::Cost;
use pushdown_rules::{RuleFault, System};
use std::alloc::Global;

/// Controls p and q, symbols a, b and c: p a -> p b a at 2, and p b -> q at 1.
pub fn calls(alloc: Global, cost: Cost) -> Result<System<Cost>, RuleFault> {
    let mut system = System::new(alloc, cost, 2, 3);
    system.add_rule(alloc, 0, 0, 0, &[1, 0], cost.number(2), None)?;
    system.add_rule(alloc, 0, 1, 1, &[], cost.number(1), None)?;
    Ok(system)
}

/// Control p, symbols a, b and c: p a -> p a a at 1, and p a -> p at 0.
pub fn grows(alloc: Global, cost: Cost) -> Result<System<Cost>, RuleFault> {
    let mut system = System::new(alloc, cost, 1, 3);
    system.add_rule(alloc, 0, 0, 0, &[0, 0], cost.number(1), None)?;
    system.add_rule(alloc, 0, 0, 0, &[], cost.number(0), None)?;
    Ok(system)
}

/// Control p, symbols a, b and c: p a -> p b at 3, and p b -> p c at 3.
pub fn steps(alloc: Global, cost: Cost) -> Result<System<Cost>, RuleFault> {
    let mut system = System::new(alloc, cost, 1, 3);
    system.add_rule(alloc, 0, 0, 0, &[1], cost.number(3), None)?;
    system.add_rule(alloc, 0, 1, 0, &[2], cost.number(3), None)?;
    Ok(system)
}

/// Control p, symbols a and b, and no rule.
pub fn ruleless(alloc: Global, cost: Cost) -> System<Cost> {
    System::new(alloc, cost, 1, 2)
}

/// Control p, symbols a and b: p a -> p b at 3.
pub fn one_step(alloc: Global, cost: Cost) -> Result<System<Cost>, RuleFault> {
    let mut system = System::new(alloc, cost, 1, 2);
    system.add_rule(alloc, 0, 0, 0, &[1], cost.number(3), None)?;
    Ok(system)
}

/// Control p, symbols a, b and c: p a -> p c at 5, 3 and 4, and between them p b -> p c at 2 and 6.
pub fn same_goals(alloc: Global, cost: Cost) -> Result<System<Cost>, RuleFault> {
    let mut system = System::new(alloc, cost, 1, 3);
    system.add_rule(alloc, 0, 0, 0, &[2], cost.number(5), None)?;
    system.add_rule(alloc, 0, 1, 0, &[2], cost.number(2), None)?;
    system.add_rule(alloc, 0, 0, 0, &[2], cost.number(3), None)?;
    system.add_rule(alloc, 0, 1, 0, &[2], cost.number(6), None)?;
    system.add_rule(alloc, 0, 0, 0, &[2], cost.number(4), None)?;
    Ok(system)
}

/// Control p, symbols a and b: p a -> p a b at 1.
pub fn calls_itself(alloc: Global, cost: Cost) -> Result<System<Cost>, RuleFault> {
    let mut system = System::new(alloc, cost, 1, 2);
    system.add_rule(alloc, 0, 0, 0, &[0, 1], cost.number(1), None)?;
    Ok(system)
}

/// Control p, symbols a and b: p a -> p at 3, and p b -> p at 4.
pub fn pops(alloc: Global, cost: Cost) -> Result<System<Cost>, RuleFault> {
    let mut system = System::new(alloc, cost, 1, 2);
    system.add_rule(alloc, 0, 0, 0, &[], cost.number(3), None)?;
    system.add_rule(alloc, 0, 1, 0, &[], cost.number(4), None)?;
    Ok(system)
}

/// Control p, symbols a, b and c: p a -> p b c at 1, p b -> p at 2, and p c -> p a c at 4.
pub fn calls_again(alloc: Global, cost: Cost) -> Result<System<Cost>, RuleFault> {
    let mut system = System::new(alloc, cost, 1, 3);
    system.add_rule(alloc, 0, 0, 0, &[1, 2], cost.number(1), None)?;
    system.add_rule(alloc, 0, 1, 0, &[], cost.number(2), None)?;
    system.add_rule(alloc, 0, 2, 0, &[0, 2], cost.number(4), None)?;
    Ok(system)
}

/// Controls p and q, symbols a to d: p a -> q b c at 1, p a -> q b d at 5, and q b -> p at 2.
pub fn two_calls(alloc: Global, cost: Cost) -> Result<System<Cost>, RuleFault> {
    let mut system = System::new(alloc, cost, 2, 4);
    system.add_rule(alloc, 0, 0, 1, &[1, 2], cost.number(1), None)?;
    system.add_rule(alloc, 0, 0, 1, &[1, 3], cost.number(5), None)?;
    system.add_rule(alloc, 1, 1, 0, &[], cost.number(2), None)?;
    Ok(system)
}
