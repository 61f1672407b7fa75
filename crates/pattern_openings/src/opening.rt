ghost use Rattle.std.specs.Prelude.{◌≡◌, ◌+◌, ◌^◌, ◌<◌, ◌≤◌, ◌++◌, ◌∷◌, [], IfOk, OnOk, All, map, filter};
ghost use Rattle.config_patterns.specs.declared.edge.Edge.{Edge as EdgeValue};
ghost use Rattle.config_patterns.specs.Edges.{is_final_of};
ghost use Rattle.wpds_base.specs.Limits.{most_items};
ghost use Rattle.pattern_openings.specs.PatternOpenings.{state_of, place_of_edge, finals_of_items, opening_of};

use config_patterns::{Edge, Pattern};
use saturation_laws::{Opening, PlaceList, StateList};
use std::alloc::Global;
use weighted_automata::{Label, Place};
use wpds_base::OutOfMemory;

// The state of a saturation for a state of a pattern.
fn state_of(controls: u32, control: u32, state: u32) -> u32
    requires room { controls + most_items < 2 ^ 32 }
    requires state { state ≤ most_items }
    ensures { result ≡ state_of controls control state }
{
    if state == 0 {
        control
    } else {
        controls + (state - 1)
    }
}

fn place_of_edge(controls: u32, control: u32, edge: Edge) -> Place
    requires room { controls + most_items < 2 ^ 32 }
    requires from { edge.from ≤ most_items }
    requires to { edge.to ≤ most_items }
    ensures { result ≡ place_of_edge controls control edge }
{
    Place {
        from: state_of(controls, control, edge.from),
        label: Label::Symbol(edge.symbol),
        to: state_of(controls, control, edge.to),
    }
}

fn places_of_edges(
    alloc: Global,
    controls: u32,
    control: u32,
    edges: &[Edge],
) -> Result<Vec<Place>, OutOfMemory>
    requires room { controls + most_items < 2 ^ 32 }
    requires states { All
        (λ (e : EdgeValue). (e.from ≤ most_items) × (e.to ≤ most_items)) edges.now }
    ensures { IfOk result (λ places.
        places.items ≡ map (place_of_edge controls control) edges.now) }
{
    let mut places = Vec::new(alloc);
    for edge in edges {
        places.push(place_of_edge(controls, control, *edge))?;
    }
    Ok(places)
}

// Adds a state of a pattern if it is final.
fn push_final(pattern: &Pattern, state: u32, finals: &mut Vec<u32>) -> Result<(), OutOfMemory>
    ensures { OnOk result (finals.new.items ≡ finals.old.items
        ++ filter (is_final_of pattern.now.items) (state ∷ [])) }
{
    if pattern.is_final(state) {
        finals.push(state)?;
    }
    Ok(())
}

/// The final states of a pattern, in order. State 0 is its control, and state `i` that of its item `i - 1`. Refused only when
/// out of memory.
pub fn final_states(alloc: Global, pattern: &Pattern) -> Result<Vec<u32>, OutOfMemory>
    ensures { IfOk result (λ finals. finals.items ≡ finals_of_items pattern.now.items) }
{
    let mut finals = Vec::new(alloc);
    for state in 0..pattern.items() + 1 {
        push_final(pattern, state, &mut finals)?;
    }
    Ok(finals)
}

// The states of a saturation for these states of a pattern.
fn states_of(
    alloc: Global,
    controls: u32,
    control: u32,
    states: &[u32],
) -> Result<Vec<u32>, OutOfMemory>
    requires room { controls + most_items < 2 ^ 32 }
    requires states { All (λ q. q ≤ most_items) states.now }
    ensures { IfOk result (λ numbers.
        numbers.items ≡ map (state_of controls control) states.now) }
{
    let mut numbers = Vec::new(alloc);
    for state in states {
        numbers.push(state_of(controls, control, *state))?;
    }
    Ok(numbers)
}

/// The opening of a pattern: its edges in their order, and its final states. State 0 of the pattern is its control, and
/// state `i` stands for `controls + i - 1`. Items of other patterns may stand between, and are counted with the controls.
/// Refused only when out of memory.
pub fn opening_of(alloc: Global, controls: u32, pattern: &Pattern) -> Result<Opening, OutOfMemory>
    requires { controls + most_items < 2 ^ 32 }
    ensures { IfOk result (λ o. o ≡ opening_of controls pattern.now) }
{
    let edges = pattern.edges(alloc)?;
    let places = places_of_edges(alloc, controls, pattern.control(), edges.as_slice())?;
    let finals = final_states(alloc, pattern)?;
    let finals = states_of(alloc, controls, pattern.control(), &finals)?;
    Ok(Opening {
        edges: PlaceList::from_vec(places),
        finals: StateList::from_vec(finals),
    })
}
