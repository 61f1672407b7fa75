ghost use Rattle.std.specs.Prelude.{◌≡◌};

use weighted_automata::Place;

/// What a rule draws from a transition over its head: a goal, and, where a pop returns to the middle state of a push rule,
/// the number of that rule.
#[derive(Clone, Copy, Debug, PartialEq, Eq)]
pub struct Drawn {
    pub frame: Option<u32>,
    pub goal: Place,
}
