ghost use Rattle.std.specs.Prelude.{◌≡◌, [], length, IfOk};
ghost use Rattle.witness_graph.specs.declared.node.Side.TheVariants.{Post as PostSide};
ghost use Rattle.saturation_laws.specs.Openings.{opening_state};
ghost use Rattle.pattern_openings.specs.PatternOpenings.{IsOver, opening_of};

use crate::Post;
use config_patterns::Pattern;
use pattern_openings::opening_of;
use pushdown_rules::System;
use saturation_core::Book;
use semiring_laws::Semiring;
use std::alloc::Global;
use wpds_base::OutOfMemory;

/// The forward saturation from the configurations of a pattern: its edges, each of weight one. All wait, in this order. It
/// is refused only when memory runs out.
pub fn post_opening<'s, S: Semiring>(
    alloc: Global,
    system: &'s System<S>,
    start: &Pattern,
) -> Result<Book<'s, S, Post>, OutOfMemory>
    requires { IsOver system.now.controls system.now.symbols start.now }
    ensures system { IfOk result (λ b. b.system ≡ system.now) }
    ensures direction { IfOk result (λ b. b.direction.items ≡ length start.now.items) }
    ensures opening { IfOk result (λ b. b.opening ≡ opening_of system.now.controls start.now) }
    ensures state { let opening = opening_of system.now.controls start.now in
        let state = opening_state (S.operations system.now.semiring) PostSide system.now in
        IfOk result (λ b. b.state ≡ state opening.edges) }
    ensures journal { IfOk result (λ b. b.journal ≡ []) }
{
    let opening = opening_of(alloc, system.controls(), start)?;
    let direction = Post {
        items: start.items(),
    };
    Book::open(alloc, system, direction, opening)
}
