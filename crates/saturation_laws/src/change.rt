ghost use Rattle.std.specs.Prelude.{◌≡◌};

use semiring_laws::Semiring;
use std::marker::Model;
use weighted_automata::Place;

/// A weight for a place, with the parts of the runs that have it: a rule, and the nodes of runs that were found earlier.
#[derive(Drop)]
pub struct Change<S: Semiring> {
    /// The place that gets the weight.
    pub goal: Place,
    /// What is combined into the weight that the place has.
    pub weight: S::W,
    /// The rule that the runs' node names.
    pub rule: Option<u32>,
    /// The node that it names first.
    pub first: Option<u64>,
    /// The other node that it names.
    pub second: Option<u64>,
}

impl<S: Semiring> Model for Change<S> {
    ghost use Rattle.saturation_laws.specs.States.{Change};

    ghost Value = { Change S.W };

    ghost view = { λ c. record {
      goal = c.goal;
      weight = c.weight;
      rule = c.rule;
      first = c.first;
      second = c.second;
    } };
}
