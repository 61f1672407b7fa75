ghost use Rattle.std.specs.Prelude.{◌≡◌, ◌<◌, ◌∷◌, [], true, All, length, IfOk};

use pushdown_rules::{
    Config, Rule, RuleFault, System, answers_agree, answers_are_greatest_below, calls_return,
    no_call_is_open_over_one_symbol, one_rule_has_its_weight, plain_runs_multiply, rules_are_valid,
    rules_fire_at_their_heads, runs_end, runs_fall_or_stay, runs_from_one_symbol_are_factors,
    runs_join, runs_keep_controls, runs_stop_at_an_empty_stack, same_rule, values_are_products,
    values_fit, zero_where_infeasible,
};
use semiring_laws::{NoMap, Reach, Semiring};
use std::alloc::Global;
use std::test::Fail;

// Controls p and q, symbols a and b: p a -> p b a, and p b -> q.
fn call_and_return(alloc: Global) -> Result<System<Reach>, RuleFault>
    ensures { IfOk result (λ s. length s.rules ≡ 2) }
{
    let mut system = System::new(alloc, Reach, 2, 2);
    system.add_rule(alloc, 0, 0, 0, &[1, 0], true, None)?;
    system.add_rule(alloc, 0, 1, 1, &[], true, None)?;
    Ok(system)
}

fn counts_of<S: Semiring>(system: &System<S>) -> (u32, u32, u32) {
    (system.controls(), system.symbols(), system.rules())
}

#[test]
fn rules_are_kept(rt: HostRuntime) {
    let alloc = rt.alloc();
    let system = call_and_return(alloc).expect(&rt, "an answer");
    assert_eq!(rt; counts_of(&system), (2, 2, 2));
    assert!(rt; system.semiring().same_kind(&Reach));
    let Rule {
        control,
        symbol,
        to,
        right,
        weight,
        map,
    } = system.rule(0);
    assert_eq!(rt; (*control, *symbol, *to, *weight), (0, 0, 0, true));
    assert_eq!(rt; right.as_slice(), [1, 0].as_slice());
    assert_eq!(rt; *map, Some(NoMap::Plain), "a push has the plain map");
    assert_eq!(rt; system.rule(1).map, None);
}

#[test]
fn refusals(rt: HostRuntime) {
    let alloc = rt.alloc();
    let mut system = call_and_return(alloc).expect(&rt, "an answer");
    let plain = Some(NoMap::Plain);
    let rows: [(u32, u32, u32, &[u32], Option<NoMap>, RuleFault); 9] = [
        (0, 2, 0, &[], None, RuleFault::NoSymbol),
        (0, 0, 0, &[0, 2], None, RuleFault::NoSymbol),
        (2, 0, 0, &[], None, RuleFault::NoControl),
        (0, 0, 2, &[], None, RuleFault::NoControl),
        (2, 2, 0, &[], None, RuleFault::NoControl),
        (0, 0, 0, &[0, 0, 0], None, RuleFault::RightTooLong),
        (0, 0, 0, &[0, 0, 2], None, RuleFault::NoSymbol),
        (0, 0, 0, &[0], plain, RuleFault::ReturnOnNonPush),
        (0, 0, 0, &[0, 0, 0], plain, RuleFault::RightTooLong),
    ];
    for (control, symbol, to, right, map, fault) in rows {
        let answer = system.add_rule(alloc, control, symbol, to, right, true, map);
        assert_eq!(rt; answer, Err(fault), "at {control} {symbol} {to}");
        assert_eq!(rt; system.rules(), 2);
    }
    assert_eq!(rt;
        system.add_rule(alloc, 1, 1, 1, &[0, 1], false, plain),
        Ok(2)
    );
}

#[test]
fn firing(rt: HostRuntime) {
    let alloc = rt.alloc();
    let system = call_and_return(alloc).expect(&rt, "an answer");
    let mut config = Config::new(alloc, 0, &[0]).expect(&rt, "an answer");
    // a rule, whether it fires, and where that leads
    let rows: [(u32, bool, u32, &[u32]); 4] = [
        (1, false, 0, &[0]),
        (0, true, 0, &[1, 0]),
        (1, true, 1, &[0]),
        (0, false, 1, &[0]),
    ];
    for (rule, fires, control, stack) in rows {
        assert!(rt; rule < system.rules());
        assert_eq!(rt;
            system
                .fire(alloc, &mut config, rule)
                .expect(&rt, "an answer"),
            fires,
            "rule {rule}"
        );
        assert_eq!(rt; config.control(), control);
        assert!(rt; config.depth() == stack.len());
        for i in 0..config.depth() {
            assert_eq!(rt; Some(config.at(i)), stack.get(i).copied());
        }
    }
}

// The same, and q a -> q a, which no run that counts takes.
fn with_a_rule_that_is_out(alloc: Global) -> Result<System<Reach>, RuleFault> {
    let mut system = call_and_return(alloc)?;
    system.add_rule(alloc, 1, 0, 1, &[0], false, None)?;
    Ok(system)
}

fn are_below(count: u32, run: &[u32]) -> bool
    ensures { result ≡ true → All (λ k. k < count) run.now }
{
    run.iter().all(|k| *k < count)
}

// The value of a run from p a. Nothing where it names a rule that the system has not.
fn value_of(alloc: Global, run: &[u32]) -> Result<Option<bool>, Fail> {
    let system = with_a_rule_that_is_out(alloc)?;
    if !are_below(system.rules(), run) {
        return Ok(None);
    }
    let start = Config::new(alloc, 0, &[0])?;
    Ok(system.run_value(alloc, &start, run)?)
}

#[test]
fn run_values(rt: HostRuntime) -> Result<(), Fail> {
    let rows: [(&[u32], Option<bool>); 5] = [
        (&[0, 1], Some(true)),
        (&[0], Some(true)),
        (&[], Some(true)),
        (&[0, 1, 2], Some(false)),
        (&[1, 0], None),
    ];
    for (run, value) in rows {
        assert_eq!(rt; value_of(rt.alloc(), run)?, value, "{} rules", run.len());
    }
    Ok(())
}

#[test]
fn equal_systems(rt: HostRuntime) {
    let alloc = rt.alloc();
    let system = call_and_return(alloc).expect(&rt, "an answer");
    let mut other = call_and_return(alloc).expect(&rt, "an answer");
    assert!(rt; system.same(&other));
    assert!(rt; same_rule(&Reach, system.rule(0), other.rule(0)));
    assert!(rt; !same_rule(&Reach, system.rule(0), other.rule(1)));
    other
        .add_rule(alloc, 0, 1, 1, &[], true, None)
        .expect(&rt, "an answer");
    assert!(rt; !system.same(&other), "a rule more");
    assert!(rt; !System::new(alloc, Reach, 2, 2).same(&System::new(alloc, Reach, 2, 3)));
}

// What is answered once a system of one control and one symbol is full.
#[derive(Clone, Copy, Debug, PartialEq, Eq, Drop)]
struct Full {
    rules: u32,
    one_more: Option<RuleFault>,
    wrong_control: Option<RuleFault>,
}

fn fill(alloc: Global, count: u32) -> Result<Full, RuleFault> {
    let mut system = System::new(alloc, Reach, 1, 1);
    for _ in 0..count {
        system.add_rule(alloc, 0, 0, 0, &[0], true, None)?;
    }
    let one_more = system.add_rule(alloc, 0, 0, 0, &[0], true, None).err();
    let wrong_control = system.add_rule(alloc, 1, 0, 0, &[0], true, None).err();
    Ok(Full {
        rules: system.rules(),
        one_more,
        wrong_control,
    })
}

#[test]
fn a_rule_over_the_limit(rt: HostRuntime) {
    let full = Full {
        rules: 130_000,
        one_more: Some(RuleFault::TooManyRules),
        wrong_control: Some(RuleFault::NoControl),
    };
    assert_eq!(rt; fill(rt.alloc(), 130_000).expect(&rt, "an answer"), full);
}

// The last controls and symbols that a largest system has, and the first that it has not.
#[test]
fn the_last_control_and_symbol(rt: HostRuntime) {
    let alloc = rt.alloc();
    let mut system = System::new(alloc, Reach, 1_000, 40_000);
    assert_eq!(rt; counts_of(&system), (1_000, 40_000, 0));
    let rows: [(u32, u32, Result<u32, RuleFault>); 3] = [
        (999, 39_999, Ok(0)),
        (1_000, 39_999, Err(RuleFault::NoControl)),
        (999, 40_000, Err(RuleFault::NoSymbol)),
    ];
    for (control, symbol, answer) in rows {
        let added = system.add_rule(alloc, control, symbol, control, &[symbol], true, None);
        assert_eq!(rt; added, answer, "at {control} {symbol}");
    }
}

#[test]
fn laws() {
    answers_agree::<Reach>();
    answers_are_greatest_below::<Reach>();
    calls_return::<Reach>();
    no_call_is_open_over_one_symbol::<Reach>();
    one_rule_has_its_weight::<Reach>();
    plain_runs_multiply::<Reach>();
    rules_are_valid::<Reach>();
    rules_fire_at_their_heads::<Reach>();
    runs_end::<Reach>();
    runs_fall_or_stay::<Reach>();
    runs_from_one_symbol_are_factors::<Reach>();
    runs_join::<Reach>();
    runs_keep_controls::<Reach>();
    runs_stop_at_an_empty_stack::<Reach>();
    values_are_products::<Reach>();
    values_fit::<Reach>();
    zero_where_infeasible::<Reach>();
}

// 0: p a -> q b; 1: p a -> q b c; 2: q a -> p; 3: p a -> p b c; 4: p b -> q b a; 5: p b -> q a.
fn six_rules(alloc: Global) -> Result<System<Reach>, RuleFault> {
    let mut system = System::new(alloc, Reach, 2, 3);
    let rows: [(u32, u32, u32, &[u32]); 6] = [
        (0, 0, 1, &[1]),
        (0, 0, 1, &[1, 2]),
        (1, 0, 0, &[]),
        (0, 0, 0, &[1, 2]),
        (0, 1, 1, &[1, 0]),
        (0, 1, 1, &[0]),
    ];
    for (control, symbol, to, right) in rows {
        system.add_rule(alloc, control, symbol, to, right, true, None)?;
    }
    Ok(system)
}

#[test]
fn rows_of_rules(rt: HostRuntime) {
    let system = six_rules(rt.alloc()).expect(&rt, "an answer");
    let rows: [(u32, u32, [Option<u32>; 4], [Option<u32>; 4]); 4] = [
        (0, 0, [Some(0), Some(1), Some(3), None], [None; 4]),
        (
            0,
            1,
            [Some(4), Some(5), None, None],
            [Some(3), None, None, None],
        ),
        (
            1,
            0,
            [Some(2), None, None, None],
            [Some(5), None, None, None],
        ),
        (1, 1, [None; 4], [Some(0), Some(1), Some(4), None]),
    ];
    for (control, symbol, heads, firsts) in rows {
        for k in 0..4 {
            let head = system.with_head(control, symbol, k);
            assert_eq!(rt; head, heads[k], "head {control} {symbol} {k}");
            let first = system.with_first(control, symbol, k);
            assert_eq!(rt; first, firsts[k], "first {control} {symbol} {k}");
        }
    }
    assert_eq!(rt;
        system.with_first(1, 2, 0),
        None,
        "the second symbol is not looked at"
    );
}

#[test]
fn push_rules(rt: HostRuntime) {
    let system = six_rules(rt.alloc()).expect(&rt, "an answer");
    let seconds: [(u32, [Option<u32>; 3]); 3] = [
        (0, [Some(4), None, None]),
        (1, [None; 3]),
        (2, [Some(1), Some(3), None]),
    ];
    for (symbol, row) in seconds {
        for k in 0..3 {
            assert_eq!(rt;
                system.with_second(symbol, k),
                row[k],
                "second {symbol} {k}"
            );
        }
    }
    for (k, rule) in [Some(1u32), Some(3), Some(4), None].into_iter().enumerate() {
        assert_eq!(rt; system.push_rule(k as u32), rule);
    }
    let numbers = [None, Some(0u32), None, Some(1), Some(2), None, None];
    for (rule, number) in numbers.into_iter().enumerate() {
        assert_eq!(rt; system.push_number(rule as u32), number, "at {rule}");
    }
}
