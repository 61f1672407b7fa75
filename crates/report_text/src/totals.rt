ghost use Rattle.std.specs.Prelude.{◌≡◌, ◌<◌, ◌+◌, ◌*◌, ◌++◌, ◌∷◌, ◌↔◌, [], ℕ, List, Some, IsTrue, IfSome, IfOk, length, take};
ghost use Rattle.witness_graph.specs.Nodes.{IsNodeAt};
ghost use Rattle.witness_graph.specs.Runs as runs;
ghost use Rattle.report_text.specs.private.Counting.{IsCounted, AreCounted, Amounts};

use std::alloc::Global;
use witness_graph::{Listing, Node, Side, runs_are_those_of_parts};
use wpds_base::OutOfMemory;

/// How many runs a list has, and how many rules these have together.
#[derive(Clone, Copy)]
pub(crate) struct Totals {
    pub(crate) runs: u64,
    pub(crate) rules: u64,
}

/// The totals of a list, or none where its size has no 64 bits.
pub(crate) type Total = Option<Totals>;

// Those of the empty run alone.
const EMPTY_RUN: Totals = Totals { runs: 1, rules: 0 };

/// Whether the runs are the empty run alone.
pub(crate) fn is_empty_run(total: Total) -> bool
    ensures { (runs : List (List ℕ)) → IsCounted total runs → IsTrue result ↔ (runs ≡ [] ∷ []) }
{
    match total {
        Some(Totals { runs, rules }) => runs == 1 && rules == 0,
        None => false,
    }
}

fn of_rule(rule: Option<u32>) -> Totals
    ensures { IsCounted (Some result) (runs.rule_runs rule) }
{
    match rule {
        Some(_) => Totals { runs: 1, rules: 1 },
        None => EMPTY_RUN,
    }
}

// Those of a node's runs, or of the empty run where there is no part.
fn of_part(totals: &[Total], part: Option<u64>) -> Total
    requires { IfSome part (λ k. k < length totals.now) }
    ensures { (known : ℕ → List (List ℕ)) → AreCounted totals.now known →
        IsCounted result (runs.part_runs known part) }
{
    match part {
        Some(number) => totals[number as usize],
        None => Some(EMPTY_RUN),
    }
}

// Those of either's runs.
fn sum(a: Totals, b: Totals) -> Total
    ensures { Amounts result (a.runs + b.runs) (a.rules + b.rules) }
{
    Some(Totals {
        runs: a.runs.checked_add(b.runs)?,
        rules: a.rules.checked_add(b.rules)?,
    })
}

// Those of each run of one followed by each of the other.
fn product(a: Totals, b: Totals) -> Total
    ensures { Amounts result (a.runs * b.runs) (a.rules * b.runs + a.runs * b.rules) }
{
    let left = a.rules.checked_mul(b.runs)?;
    let right = a.runs.checked_mul(b.rules)?;
    Some(Totals {
        runs: a.runs.checked_mul(b.runs)?,
        rules: left.checked_add(right)?,
    })
}

fn of_both(a: Total, b: Total) -> Total
    ensures { (xs ys : List (List ℕ)) → IsCounted a xs → IsCounted b ys →
        IsCounted result (xs ++ ys) }
{
    sum(a?, b?)
}

fn of_concatenations(a: Total, b: Total) -> Total
    ensures { (xs ys : List (List ℕ)) → IsCounted a xs → IsCounted b ys →
        IsCounted result (runs.concatenations xs ys) }
{
    product(a?, b?)
}

fn of_parts(side: Side, rule: Total, first: Total, second: Total) -> Total
    ensures { (rs xs ys : List (List ℕ)) →
        IsCounted rule rs → IsCounted first xs → IsCounted second ys →
        IsCounted result (runs.parts_runs side rs xs ys) }
{
    match side {
        Side::Pre => of_concatenations(rule, of_concatenations(first, second)),
        Side::Post => of_concatenations(first, of_concatenations(second, rule)),
    }
}

// Those of a node's runs, by those of the nodes before it.
fn of_node(side: Side, totals: &[Total], node: Node) -> Total
    requires { IsNodeAt (length totals.now) node }
    ensures { (known : ℕ → List (List ℕ)) → AreCounted totals.now known →
        IsCounted result (runs.runs_over side known node) }
{
    let Node::Lower {
        before,
        rule,
        first,
        second,
    } = node
    else {
        return Some(EMPTY_RUN);
    };
    let first = of_part(totals, first);
    let second = of_part(totals, second);
    let parts = of_parts(side, Some(of_rule(rule)), first, second);
    match before {
        Some(number) => of_both(totals[number as usize], parts),
        None => parts,
    }
}

/// Those of the runs of each node of a listing, each worked out once.
pub(crate) fn node_totals(alloc: Global, listing: &Listing) -> Result<Vec<Total>, OutOfMemory>
    ensures len { IfOk result (λ v. length v.items ≡ length listing.now.nodes) }
    ensures counted { IfOk result (λ v.
        AreCounted v.items (runs.runs_of listing.now.side listing.now.nodes)) }
{
    runs_are_those_of_parts();
    let mut totals = Vec::new(alloc);
    for node in listing.nodes.as_slice() {
        totals.push(of_node(listing.side, &totals, *node))?;
    }
    Ok(totals)
}
