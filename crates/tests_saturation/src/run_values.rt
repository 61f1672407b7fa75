ghost use Rattle.std.specs.Prelude.{◌≡◌, ◌<◌, true, All};

use cost_weights::Cost;
use pushdown_rules::{Config, System};
use semiring_laws::Semiring;
use std::alloc::Global;
use std::test::Fail;
use tests_systems::calls;
use wpds_base::OutOfMemory;

pub(crate) fn are_below(count: u32, run: &[u32]) -> bool
    ensures { result ≡ true → All (λ k. k < count) run.now }
{
    run.iter().all(|k| *k < count)
}

// The value of a run, asked of any semiring. Nothing where it names a rule that the system has not.
fn value_of<S: Semiring>(
    alloc: Global,
    system: &System<S>,
    start: &Config,
    run: &[u32],
) -> Result<Option<S::W>, OutOfMemory> {
    if !are_below(system.rules(), run) {
        return Ok(None);
    }
    system.run_value(alloc, start, run)
}

// What a run of two calls costs, with costs up to a cap.
fn cost_of(
    alloc: Global,
    cap: u64,
    start: &Config,
    run: &[u32],
) -> Result<Option<Option<u64>>, Fail> {
    let system = calls(alloc, Cost::new(cap)?)?;
    Ok(value_of(alloc, &system, start, run)?)
}

#[test]
fn costs_of_runs(rt: HostRuntime) -> Result<(), Fail> {
    let alloc = rt.alloc();
    let start = Config::new(alloc, 0, &[0]).expect(&rt, "an answer");
    // a cap, a run, and its value
    let rows: [(u64, &[u32], Option<Option<u64>>); 6] = [
        (100, &[0, 1], Some(Some(3))),
        (100, &[0], Some(Some(2))),
        (100, &[], Some(Some(0))),
        (100, &[1, 0], None),
        (2, &[0, 1], Some(Some(2))),
        (1, &[0], Some(Some(1))),
    ];
    for (cap, run, value) in rows {
        assert_eq!(rt;
            cost_of(alloc, cap, &start, run)?,
            value,
            "{} rules up to {cap}",
            run.len()
        );
    }
    Ok(())
}
