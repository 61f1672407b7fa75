use pushdown_rules::System;
use saturation_core::Hand;
use saturation_laws::Direction;
use semiring_laws::Semiring;

/// What a worker is answered that asks for work.
#[derive(Drop)]
pub(crate) enum Asked<'s, S: Semiring, D: Direction<S>> {
    /// A hand, with what it is worked out over.
    Hand {
        hand: Hand<S>,
        system: &'s System<S>,
        direction: D,
    },
    /// Nothing waits, and other seats have hands.
    Idle,
    /// Nothing waits and no hand is out.
    Closed,
    /// There was no memory. Nothing changed.
    Memory,
}
