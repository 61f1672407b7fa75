//! The values of sums to several sets of final states, by one walk.
ghost use Rattle.std.specs.Prelude.{◌≡◌, ◌<◌, ◌++◌, ℕ, [], All, IfOk, OnOk, map};
ghost use Rattle.saturation_laws.specs.Openings.{AreKept};
ghost use Rattle.path_sum.specs.Saturated.{IsSaturatedAutomaton};
ghost use Rattle.path_sum.specs.Values.{IsSaturatedTo, AreValuesTo};
ghost use Rattle.path_sum.specs.private.Ends.{pairs_with, pairs_to, weights_at, total_to};

use crate::summing::walk;
use config_patterns::Pattern;
use pattern_openings::final_states;
use pushdown_rules::System;
use saturation_core::weight_now;
use saturation_laws::{Direction, Opening, StateList};
use semiring_laws::{Semiring, combine_all};
use std::alloc::Global;
use weighted_automata::{Label, Place, Transitions};
use witness_graph::Graph;
use wpds_base::OutOfMemory;

// Adds the pair of each of these states of a pattern and a state of the automaton.
fn push_pairs(ends: &[u32], state: u32, places: &mut Vec<Place>) -> Result<(), OutOfMemory>
    ensures { OnOk result (places.new.items ≡ places.old.items ++ pairs_with ends.now state) }
{
    for end in ends {
        places.push(Place {
            from: *end,
            label: Label::Empty,
            to: state,
        })?;
    }
    Ok(())
}

// The pairs of each of these states of a pattern and each of these states of the automaton.
fn pairs_to(alloc: Global, ends: &[u32], states: &[u32]) -> Result<Vec<Place>, OutOfMemory>
    ensures { IfOk result (λ places. places.items ≡ pairs_to ends.now states.now) }
{
    let mut places = Vec::new(alloc);
    for state in states {
        push_pairs(ends, *state, &mut places)?;
    }
    Ok(places)
}

// The weights at these places.
fn weights_at<S: Semiring>(
    alloc: Global,
    semiring: &S,
    sums: &Transitions<S>,
    places: &[Place],
) -> Result<Vec<S::W>, OutOfMemory>
    requires { (n : ℕ) × AreKept (S.operations semiring.now) sums.now.transitions n }
    ensures { IfOk result (λ weights. weights.items
        ≡ weights_at (S.operations semiring.now) sums.now.transitions places.now) }
{
    let mut weights = Vec::new(alloc);
    for place in places {
        weights.push(weight_now(alloc, semiring, sums, *place)?)?;
    }
    Ok(weights)
}

// The weight of all pairs of one of these states of a pattern and one of these of the automaton.
fn total_to<S: Semiring>(
    alloc: Global,
    semiring: &S,
    sums: &Transitions<S>,
    ends: &[u32],
    states: &[u32],
) -> Result<S::W, OutOfMemory>
    requires { (n : ℕ) × AreKept (S.operations semiring.now) sums.now.transitions n }
    ensures { IfOk result (λ v. v
        ≡ total_to (S.operations semiring.now) sums.now.transitions ends.now states.now) }
{
    let places = pairs_to(alloc, ends, states)?;
    let weights = weights_at(alloc, semiring, sums, &places)?;
    combine_all(alloc, semiring, &weights)
}

// The same for each of several sets of states of the automaton.
fn totals_to<S: Semiring>(
    alloc: Global,
    semiring: &S,
    sums: &Transitions<S>,
    ends: &[u32],
    sets: &[StateList],
) -> Result<Vec<S::W>, OutOfMemory>
    requires { (n : ℕ) × AreKept (S.operations semiring.now) sums.now.transitions n }
    ensures { IfOk result (λ vs. vs.items
        ≡ map (total_to (S.operations semiring.now) sums.now.transitions ends.now) sets.now) }
{
    let mut totals = Vec::new(alloc);
    for set in sets {
        totals.push(total_to(alloc, semiring, sums, ends, set.as_slice())?)?;
    }
    Ok(totals)
}

/// The weights of all runs between a pattern and what the edges of an opening read to each of several sets of final states,
/// in order. The transitions are those of a finished saturation from the opening, and the nodes theirs. All are read off one
/// walk from the pattern, which takes what one sum takes; each then takes a look-up for each pair of a final state of the
/// pattern and one of its set. Refused only when out of memory.
pub fn sum_values<S: Semiring, D: Direction<S>>(
    alloc: Global,
    system: &System<S>,
    direction: &D,
    opening: &Opening,
    transitions: &Transitions<S>,
    graph: &Graph,
    pattern: &Pattern,
    finals: &[StateList],
) -> Result<Vec<S::W>, OutOfMemory>
    requires automaton { IsSaturatedAutomaton S.operations D.way system.now direction.now
        opening.now transitions.now.transitions graph.now.nodes }
    requires bare { opening.now.finals ≡ [] }
    requires pattern { pattern.now.control < system.now.controls }
    requires each { All (IsSaturatedTo S.operations D.way system.now direction.now opening.now
        transitions.now.transitions graph.now.nodes) finals.now }
    ensures { IfOk result (λ vs. AreValuesTo S.operations D.way system.now direction.now
        opening.now pattern.now finals.now vs.items) }
{
    let sum = walk(
        alloc,
        system,
        direction,
        opening,
        transitions,
        graph,
        pattern,
    )?;
    let ends = final_states(alloc, pattern)?;
    totals_to(alloc, system.semiring(), sum.pairs.list(), &ends, finals)
}
