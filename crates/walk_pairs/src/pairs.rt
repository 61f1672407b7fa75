ghost use Rattle.std.specs.Prelude.{◌≡◌, ℕ, IfSome, IfNone};
ghost use Rattle.walk_pairs.specs.declared.pairs.Stage.{Stage as StageValue};
ghost use Rattle.walk_pairs.specs.Pairs.{pair_place as pair_value, answer_place as answer_value};

use weighted_automata::{Label, Place};

/// What a pair's second part is, by which its place is told.
#[derive(Clone, Copy, Debug, PartialEq, Eq)]
pub enum Stage {
    /// A control of the system, or where runs begin.
    Down,
    /// A state of the target.
    Across,
    /// An item of the other pattern, as its first part is one of this: both read these next.
    Before,
    /// What `Down` has, where the first part is an item of the pattern, which reads it next.
    Above,
}

/// In which order the weight in hand and an entry's are joined.
#[derive(Clone, Copy, Debug, PartialEq, Eq)]
pub enum Order {
    /// First the one in hand.
    Then,
    /// First the entry's.
    After,
}

/// The place of a pair in the layer of the walk.
pub fn pair_place(stage: Stage, state: u32, to: u32) -> Place
    ensures { result ≡ pair_value stage state to }
{
    let from = match stage {
        Stage::Down => 0,
        Stage::Across => 1,
        Stage::Before => 2,
        Stage::Above => 3,
    };
    Place {
        from,
        label: Label::Symbol(state),
        to,
    }
}

/// The place of the answer in the layer of the walk.
pub fn answer_place() -> Place
    ensures { result ≡ answer_value }
{
    Place {
        from: 0,
        label: Label::Empty,
        to: 0,
    }
}

/// A pair of the walk.
#[derive(Clone, Copy, Debug, PartialEq, Eq)]
pub struct Pair {
    pub stage: Stage,
    pub state: u32,
    pub to: u32,
}

/// The pair that stands at a place, if one does.
pub fn pair_at(place: Place) -> Option<Pair>
    ensures pair { IfSome result (λ p. place ≡ pair_value p.stage p.state p.to) }
    ensures none { IfNone result ((stage : StageValue) (state to : ℕ) →
        place ≡ pair_value stage state to → ⊥) }
{
    let Label::Symbol(state) = place.label else {
        return None;
    };
    let stage = match place.from {
        0 => Stage::Down,
        1 => Stage::Across,
        2 => Stage::Before,
        3 => Stage::Above,
        _ => return None,
    };
    Some(Pair {
        stage,
        state,
        to: place.to,
    })
}
