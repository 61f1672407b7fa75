ghost use Rattle.std.specs.Prelude.{◌≡◌};

use weighted_automata::Place;
use wpds_base::Sequence;

/// Places, in order.
pub type PlaceList = Sequence<Place>;

/// States of an automaton, in order.
pub type StateList = Sequence<u32>;

/// The automaton that a saturation begins with. A configuration is read from the state with its control's number.
#[derive(Drop)]
pub struct Opening {
    /// Its transitions, each with the empty run and weight one.
    pub edges: PlaceList,
    /// The states in which it accepts.
    pub finals: StateList,
}
