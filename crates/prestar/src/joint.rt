ghost use Rattle.std.specs.Prelude.{◌≡◌, ◌<◌, ◌≤◌, [], All, IfOk, length};
ghost use Rattle.config_patterns.specs.Membership.{PatternValue};
ghost use Rattle.pattern_openings.specs.JointOpenings.{joint_edges, joint_finals, edges_alone};
ghost use Rattle.wpds_base.specs.Limits.{most_queries};

use crate::Pre;
use config_patterns::Pattern;
use pattern_openings::joint_opening;
use pushdown_rules::System;
use saturation_core::Book;
use saturation_laws::{Opening, StateList};
use semiring_laws::Semiring;
use std::alloc::Global;
use wpds_base::OutOfMemory;

/// A backward saturation of several patterns together.
#[derive(Drop)]
pub struct JointBook<'s, S: Semiring> {
    /// The book. Its opening accepts nowhere, so that it serves every pattern alike.
    pub book: Book<'s, S, Pre>,
    /// The final states of each pattern.
    pub finals: Vec<StateList>,
}

/// The backward saturation for the configurations of several patterns: the edges of all, those of each with states of its own for
/// the items, and then a transition for each pop rule, as [`crate::pre_opening`] has it for one. It is refused only when memory
/// runs out.
pub fn joint_pre_opening<'s, S: Semiring>(
    alloc: Global,
    system: &'s System<S>,
    targets: &[Pattern],
) -> Result<JointBook<'s, S>, OutOfMemory>
    requires few { length targets.now ≤ most_queries }
    requires controls { let controls = system.now.controls in
        All (λ (d : PatternValue). d.control < controls) targets.now }
    ensures system { IfOk result (λ o. o.book.system ≡ system.now) }
    ensures opening { let edges = joint_edges system.now.controls targets.now in
        IfOk result (λ o. o.book.opening ≡ edges_alone edges) }
    ensures finals { let finals = joint_finals system.now.controls targets.now in
        IfOk result (λ o. o.finals.items ≡ finals) }
    ensures journal { IfOk result (λ o. o.book.journal ≡ []) }
{
    let joint = joint_opening(alloc, system.controls(), targets)?;
    let opening = Opening {
        edges: joint.edges,
        finals: StateList::from_vec(Vec::new(alloc)),
    };
    let book = Book::open(alloc, system, Pre, opening)?;
    Ok(JointBook {
        book,
        finals: joint.finals,
    })
}
