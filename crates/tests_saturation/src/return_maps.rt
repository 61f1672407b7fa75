ghost use Rattle.tests_saturation.specs.Guarded.{guarded_operations, guarded_laws};

use crate::run_values::are_below;
use pushdown_rules::{Config, RuleFault, System};
use semiring_laws::Semiring;
use std::alloc::Global;
use std::test::Fail;
use wpds_base::OutOfMemory;

/// Whether there is a run, when a return map can forbid a call to return.
#[derive(Clone, Copy, Debug, PartialEq, Eq)]
pub(crate) struct Guarded;

impl Semiring for Guarded {
    type W = bool;

    type Ret = bool;

    ghost operations = { λ _. guarded_operations };

    ghost laws = { λ _. guarded_laws };

    fn zero(&self, _alloc: Global) -> Result<bool, OutOfMemory> {
        Ok(false)
    }

    fn one(&self, _alloc: Global) -> Result<bool, OutOfMemory> {
        Ok(true)
    }

    fn combine(&self, _alloc: Global, a: &bool, b: &bool) -> Result<bool, OutOfMemory> {
        Ok(*a | *b)
    }

    fn extend(&self, _alloc: Global, a: &bool, b: &bool) -> Result<bool, OutOfMemory> {
        Ok(*a & *b)
    }

    fn copy(&self, _alloc: Global, a: &bool) -> Result<bool, OutOfMemory> {
        Ok(*a)
    }

    fn after(&self, _alloc: Global, map: &bool, w: &bool) -> Result<bool, OutOfMemory> {
        Ok(*map & *w)
    }

    fn same(&self, a: &bool, b: &bool) -> bool {
        *a == *b
    }

    fn is_zero(&self, a: &bool) -> bool {
        !*a
    }

    fn plain(&self) -> bool {
        true
    }

    fn same_map(&self, a: &bool, b: &bool) -> bool {
        *a == *b
    }

    fn same_kind(&self, other: &Guarded) -> bool {
        *self == *other
    }
}

/// Symbols a, b, c, d over one control: `a` calls and may not return, `d` calls and may, `b` calls once more either way
/// or returns, `c` returns.
pub(crate) fn guarded_calls(alloc: Global) -> Result<System<Guarded>, RuleFault> {
    let mut system = System::new(alloc, Guarded, 1, 4);
    let rules: [(u32, &[u32], Option<bool>); 6] = [
        (0, &[1, 2], Some(false)),
        (3, &[1, 2], Some(true)),
        (1, &[], None),
        (2, &[], None),
        (1, &[1, 2], Some(true)),
        (1, &[1, 2], Some(false)),
    ];
    for (symbol, right, map) in rules {
        system.add_rule(alloc, 0, symbol, 0, right, true, map)?;
    }
    Ok(system)
}

// The value of a run of rules that the system has, from a stack.
fn value_from(
    alloc: Global,
    system: &System<Guarded>,
    stack: &[u32],
    run: &[u32],
) -> Result<Option<bool>, Fail> {
    if !are_below(system.rules(), run) {
        return Err(Fail::new("the system has no such rule"));
    }
    let start = Config::new(alloc, 0, stack)?;
    let value = system.run_value(alloc, &start, run)?;
    Ok(value)
}

#[test]
fn return_maps(rt: HostRuntime) -> Result<(), Fail> {
    let alloc = rt.alloc();
    let system = guarded_calls(alloc).expect(&rt, "an answer");
    // a stack, a run from it, and the run's value
    let rows: [(&str, &[u32], &[u32], bool); 10] = [
        ("unmatched", &[0], &[0], true),
        ("matched", &[0], &[0, 2], false),
        ("matched, and more", &[0], &[0, 2, 3], false),
        ("matched by a map that allows it", &[3], &[1, 2, 3], true),
        (
            "the inner one matched, the outer one open",
            &[0],
            &[0, 4, 2],
            true,
        ),
        (
            "both matched, the outer one forbidden",
            &[0],
            &[0, 4, 2, 3],
            false,
        ),
        (
            "the inner one matched and forbidden",
            &[3],
            &[1, 5, 2],
            false,
        ),
        ("the inner one forbidden and open", &[3], &[1, 5], true),
        ("below the first stack", &[1, 2], &[2, 3], true),
        ("below the first stack, then a call", &[1, 0], &[2, 0], true),
    ];
    for (name, stack, run, value) in rows {
        assert_eq!(rt;
            value_from(alloc, &system, stack, run)?,
            Some(value),
            "{name}"
        );
    }
    Ok(())
}
