//! A program that links the library: it builds a system with costs, asks what the cheapest run from one configuration to
//! another costs, and prints that with a listing of the cheapest runs. `docs/GUIDE.md` quotes it.
#![tactic(auto)]

ghost use Rattle.std.specs.Prelude.{IfOk};
ghost use Rattle.pattern_openings.specs.PatternOpenings.{IsOver};

use anyhow::bail;
use config_patterns::{Pattern, is_set};
use cost_weights::Cost;
use pattern_openings::is_over;
use pushdown_rules::System;
use query_answers::answer;
use report_text::listing_text;
use std::alloc::Global;
use witness_graph::Side;
use wpds_base::OpenGate;

// Controls p and q are 0 and 1, symbols a and b too: p a -> p b a is a call at cost 2, and p b -> q its return at cost 1.
fn call_and_return(alloc: Global) -> anyhow::Result<System<Cost>> {
    let cost = Cost::new(100)?;
    let mut system = System::new(alloc, cost, 2, 2);
    let call = system.semiring().number(2);
    system.add_rule(alloc, 0, 0, 0, &[1, 0], call, None)?;
    let back = system.semiring().number(1);
    system.add_rule(alloc, 0, 1, 1, &[], back, None)?;
    Ok(system)
}

// The configuration of a control and one symbol.
fn only(alloc: Global, system: &System<Cost>, control: u32, symbol: u32) -> anyhow::Result<Pattern>
    ensures { IfOk result (IsOver system.now.controls system.now.symbols) }
{
    let mut pattern = Pattern::new(alloc, control, system.symbols());
    let set = [symbol];
    if is_set(&set) {
        pattern.add_item(alloc, &set, false)?;
    }
    if !is_over(&pattern, system.controls(), system.symbols()) {
        bail!("the system has no such control");
    }
    Ok(pattern)
}

fn main(rt: HostRuntime) -> anyhow::Result<()> {
    let alloc = rt.alloc();
    let system = call_and_return(alloc)?;
    let from = only(alloc, &system, 0, 0)?;
    let to = only(alloc, &system, 1, 0)?;
    let found = answer(&rt, alloc, &system, Side::Pre, 1, &from, &to, &OpenGate)?;
    match found.value {
        Some(cost) => println!(rt; "the cheapest run costs {cost}")?,
        None => println!(rt; "there is no run")?,
    }
    if let Some(listing) = &found.listing {
        print!(rt; "{}", listing_text(alloc, listing)?)?;
    }
    Ok(())
}
