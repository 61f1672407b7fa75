ghost use Rattle.std.specs.Prelude.{◌≡◌, ℕ, List, Option, Some, ◌++◌, ◌∷◌, IsTrue, map, option_and_then};
ghost use Rattle.wpds_base.specs.Lists.{IsIn};
ghost use Rattle.weighted_automata.specs.declared.place.Place.{Place as PlaceValue};
ghost use Rattle.saturation_laws.specs.Searches.{SearchValue, IsSearch, stopped};
ghost use Rattle.pushdown_rules.specs.Pushdown.{IsSystem};
ghost use Rattle.saturation_laws.specs.Books.{BookValue, IsBook, IsClosed, IsAllApplied, TakesAreBounded, NodesAreBounded, replayed};
ghost use Rattle.saturation_laws.specs.declared.event.Event.{Event as EventValue};
ghost use Rattle.saturation_laws.specs.Jobs.{Tables};
ghost use Rattle.saturation_laws.specs.States.{CoreState, Change as ChangeValue, AreOfOthers, change_of, hand_at, replay};
ghost use Rattle.saturation_laws.specs.Ways.{ListsJobsOnce, jobs_of_place};
ghost use Rattle.semiring_laws.specs.Semiring.{Operations};

use crate::Direction;
use semiring_laws::Semiring;

/// Over every list of legal events from an opening, what holds of every book holds.
pub fn every_order_keeps<S: Semiring, D: Direction<S>>()
    ensures { (b : BookValue S S.W S.Ret D) → IsSystem S.operations b.system
        → IsTrue (D.way.fits_opening b.direction b.system b.opening)
        → replayed S.operations D.way b ≡ Some b.state → IsBook S.operations D.way b }
{}

/// In a closed book every consequence is applied.
pub fn closed_is_applied<S: Semiring, D: Direction<S>>()
    ensures { (b : BookValue S S.W S.Ret D) → IsBook S.operations D.way b → IsClosed b
        → IsAllApplied S.operations D.way b }
{}

/// How often transitions are taken is bounded by the places that the direction can reach, the rank of the semiring and the
/// number of times that a hand was given back; so is the number of nodes.
pub fn takes_are_bounded<S: Semiring, D: Direction<S>>()
    ensures takes { (b : BookValue S S.W S.Ret D) → IsBook S.operations D.way b
        → TakesAreBounded S.operations D.way b }
    ensures nodes { (b : BookValue S S.W S.Ret D) → IsBook S.operations D.way b
        → NodesAreBounded S.operations D.way b }
{}

/// A journal in two parts replays in two steps: the second part from the state that the first part ends in.
pub fn parts_replay_in_steps<S: Semiring>()
    ensures { (s : Operations S.W S.Ret) (d : Tables S S.W S.Ret) (old : CoreState S S.W S.Ret)
        (es fs : List EventValue) → replay s d old (es ++ fs)
        ≡ option_and_then (λ mid. replay s d mid fs) (replay s d old es) }
{}

/// Events of other seats leave a seat's hand as it is.
pub fn others_leave_a_hand<S: Semiring>()
    ensures { (s : Operations S.W S.Ret) (d : Tables S S.W S.Ret) (old new : CoreState S S.W S.Ret)
        (es : List EventValue) (seat : ℕ) → replay s d old es ≡ Some new → AreOfOthers seat es
        → hand_at seat new.hands ≡ hand_at seat old.hands }
{}

/// Each job that a transition gives stands once among them.
pub fn each_job_stands_once<S: Semiring, D: Direction<S>>()
    ensures { ListsJobsOnce S.operations D.way }
{}

/// A turn of a search may be cut short: where the place that waits longest was taken, some of the changes that its transition gives
/// were made, and the place waits again, last, what is left is a search. So one that runs out of memory between two changes need not
/// be lost.
pub fn cut_turns_leave_searches<S: Semiring, D: Direction<S>>()
    ensures { (v : SearchValue S S.W S.Ret D) (x : PlaceValue) (q : List PlaceValue)
        (cs : List (ChangeValue S.W)) →
        IsSearch S.operations D.way v → v.state.queue ≡ x ∷ q →
        let s = S.operations v.system.semiring in
        let d = D.way.tables v.direction v.system in
        ((c : ChangeValue S.W) → IsIn c cs →
        IsIn c (map (change_of s d)
        (jobs_of_place S.operations D.way v.direction v.system x v.state.transitions))) →
        IsSearch S.operations D.way (stopped S.operations D.way x q cs v) }
{}
