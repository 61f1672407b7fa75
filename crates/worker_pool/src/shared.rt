//! A book that workers share.
use pushdown_rules::System;
use saturation_core::Book;
use saturation_laws::{Direction, Event, Opening};
use seat_lock::Journaled;
use semiring_laws::Semiring;

/// A book under a lock.
#[derive(Drop)]
pub struct Shared<'s, S: Semiring, D: Direction<S>> {
    pub book: Book<'s, S, D>,
}

/// What no turn changes. No value of it is made.
pub struct Origin<S: Semiring, D: Direction<S>> {
    pub system: System<S>,
    pub direction: D,
    pub opening: Opening,
}

impl<'s, S: Semiring, D: Direction<S>> Journaled for Shared<'s, S, D> {
    type Base = Origin<S, D>;

    type Entry = Event;

    ghost use Rattle.saturation_laws.specs.States.{seat_of};

    ghost base = { λ h. record {
      system = h.book.system;
      direction = h.book.direction;
      opening = h.book.opening;
    } };

    ghost journal = { λ h. h.book.journal };

    ghost number = { seat_of };
}
