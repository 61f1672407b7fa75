ghost use Rattle.std.specs.Prelude.{◌≡◌, ◌++◌, IfOk, OnOk};
ghost use Rattle.std.specs.String.{string_bytes};
ghost use Rattle.report_text.specs.Listings as listings;
ghost use Rattle.report_text.specs.Traces as traces;

use crate::{Expanded, Run, expand};
use itoa::Buffer;
use std::alloc::Global;
use witness_graph::Listing;
use wpds_base::OutOfMemory;

// Adds a rule by its number in the text.
fn add_rule(text: &mut String, rule: u32) -> Result<(), OutOfMemory>
    ensures { let before = string_bytes text.old in
        OnOk result (string_bytes text.new ≡ before ++ listings.rule_text rule) }
{
    let mut buffer = Buffer::new();
    text.push_str("rule ")?;
    text.push_str(buffer.format(u64::from(rule) + 1))?;
    Ok(())
}

// Adds the rules of a run.
fn add_run(text: &mut String, run: &[u32]) -> Result<(), OutOfMemory>
    ensures { let before = string_bytes text.old in
        OnOk result (string_bytes text.new ≡ before ++ traces.run_text run.now) }
{
    let Some((first, rest)) = run.split_first() else {
        text.push_str("empty")?;
        return Ok(());
    };
    add_rule(text, *first)?;
    for rule in rest {
        text.push_str(", ")?;
        add_rule(text, *rule)?;
    }
    Ok(())
}

// Adds the line of a run.
fn add_line(text: &mut String, run: &Run) -> Result<(), OutOfMemory>
    ensures { let before = string_bytes text.old in
        OnOk result (string_bytes text.new ≡ before ++ traces.run_line run.now) }
{
    text.push_str("  run: ")?;
    add_run(text, run.as_slice())?;
    text.push_str("\n")?;
    Ok(())
}

/// The lines of the runs of a listing, one for each in order, or the line that says that they are too long: that their
/// size, the number of their rules and one more for each run, is over the limit. Refused only when out of memory.
pub fn traces_text(alloc: Global, listing: &Listing, limit: u64) -> Result<String, OutOfMemory>
    ensures { IfOk result (λ t. string_bytes t ≡ traces.traces_text limit listing.now) }
{
    let mut text = String::new(alloc);
    match expand(alloc, listing, limit)? {
        Expanded::Runs(runs) => {
            for run in runs.as_slice() {
                add_line(&mut text, run)?;
            }
        }
        Expanded::TooLong => text.push_str("  traces: too long\n")?,
    }
    Ok(text)
}
