ghost use Rattle.std.specs.Prelude.{◌≡◌, ◌+◌, ◌*◌, ◌^◌, ◌<◌, ◌≤◌, IfOk, length};
ghost use Rattle.wpds_base.specs.Limits.{most_items, most_queries};
ghost use Rattle.pattern_openings.specs.JointOpenings.{joint_edges, joint_finals, items_of};

use crate::opening::opening_of;
use config_patterns::Pattern;
use saturation_laws::{PlaceList, StateList};
use std::alloc::Global;
use wpds_base::OutOfMemory;

/// The automata of several patterns as one.
#[derive(Drop)]
pub struct JointOpening {
    /// The edges of all patterns, in the order of the patterns.
    pub edges: PlaceList,
    /// The final states of each pattern.
    pub finals: Vec<StateList>,
    /// The first number behind those of the items.
    pub states: u32,
}

/// The automata of several patterns as one: the items of the first pattern are numbered from `first` on, and those of each
/// other behind those of the patterns before it. With the final states of one of them it reads the members of this one
/// alone, also beside edges that were there before. Refused only when out of memory.
pub fn joint_opening(
    alloc: Global,
    first: u32,
    patterns: &[Pattern],
) -> Result<JointOpening, OutOfMemory>
    requires room { first + most_queries * most_items < 2 ^ 32 }
    requires few { length patterns.now ≤ most_queries }
    ensures edges { IfOk result (λ o. o.edges ≡ joint_edges first patterns.now) }
    ensures finals { IfOk result (λ o. o.finals.items ≡ joint_finals first patterns.now) }
    ensures states { IfOk result (λ o. o.states ≡ first + items_of patterns.now) }
{
    let mut edges = Vec::new(alloc);
    let mut finals = Vec::new(alloc);
    let mut states = first;
    for pattern in patterns {
        let opening = opening_of(alloc, states, pattern)?;
        edges.extend_from_slice(opening.edges.as_slice())?;
        finals.push(opening.finals)?;
        states += pattern.items();
    }
    Ok(JointOpening {
        edges: PlaceList::from_vec(edges),
        finals,
        states,
    })
}
