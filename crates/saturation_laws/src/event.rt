ghost use Rattle.std.specs.Prelude.{◌≡◌};

use weighted_automata::Place;

/// A step of the core, by one of 64 seats. A seat is one worker's place at the book.
#[derive(Clone, Copy, Debug, PartialEq, Eq)]
pub enum Event {
    /// The seat takes the transition that waits longest, with the jobs that it gives.
    Take { seat: u32, place: Place },
    /// The jobs of the seat's hand are applied, and the hand goes.
    Settle { seat: u32 },
    /// The transition that the seat has taken is queued, and the hand goes.
    GiveBack { seat: u32 },
}
