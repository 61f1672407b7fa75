ghost use Rattle.std.specs.Prelude.{◌≡◌, ◌≢◌, ℕ, List, Option, Some, is_some, if◌then◌else◌};
ghost use Rattle.std.specs.Int.{bit_at};
ghost use Rattle.weighted_automata.specs.declared.transitions.Entry.{Entry as EntryValue};
ghost use Rattle.saturation_laws.specs.declared.event.Event.{Event as EventValue};
ghost use Rattle.saturation_laws.specs.declared.holding.Holding.{Holding as HoldingValue};
ghost use Rattle.saturation_laws.specs.declared.job.Job.{Job as JobValue};
ghost use Rattle.saturation_laws.specs.States.{AreOfOthers, hand_at, seat_of};
ghost use Rattle.saturation_laws.specs.Books.{BookValue, IsBook, Makes};
ghost use Rattle.saturation_core.specs.declared.hand.Hand.{Hand as HandValue};
ghost use Rattle.saturation_core.specs.declared.hand.Taken.TheVariants.{Hand as InHand};
ghost use Rattle.saturation_core.specs.Calls.{AnswersTake};
ghost use Rattle.saturation_core.specs.DoneValue.{DoneValue};
ghost use Rattle.saturation_core.specs.Goals.{StillTell};
ghost use Rattle.saturation_core.specs.HandsOut.{HasOut, IsLater};
ghost use Rattle.saturation_core.specs.Seats.{seat_bits};
ghost use Rattle.saturation_core.specs.Settled.{CanSettle, jobs_out};

use saturation_laws::Direction;
use semiring_laws::Semiring;

/// Bit `s` of the seats that have hands says whether seat `s` has one.
pub fn bits_are_seats<S: Semiring>()
    ensures { (hands : List (Option (HoldingValue S S.W S.Ret))) (seat : ℕ)
        → bit_at (seat_bits hands) seat ≡ (if is_some (hand_at seat hands) then 1 else 0) }
{}

/// A hand is out from when it was taken on, whatever other seats take, settle or give back.
pub fn hands_stay_out<S: Semiring, D: Direction<S>>()
    ensures taken { (old new : BookValue S S.W S.Ret D) (seat : ℕ) (hand : HandValue S S.W S.Ret)
        → IsBook S.operations D.way old
        → AnswersTake S.operations D.way old seat (InHand hand) new
        → HasOut S.operations D.way new seat hand.jobs hand.goals }
    ensures event { (old new : BookValue S S.W S.Ret D) (e : EventValue) (seat : ℕ)
        (jobs : List (JobValue S S.W S.Ret)) (goals : List (Option (EntryValue S S.W S.Ret)))
        → HasOut S.operations D.way old seat jobs goals
        → Makes S.operations D.way old e new → seat ≢ seat_of e
        → HasOut S.operations D.way new seat jobs goals }
    ensures events { (old new : BookValue S S.W S.Ret D) (es : List EventValue) (seat : ℕ)
        (jobs : List (JobValue S S.W S.Ret)) (goals : List (Option (EntryValue S S.W S.Ret)))
        → HasOut S.operations D.way old seat jobs goals → IsLater old es new → AreOfOthers seat es
        → HasOut S.operations D.way new seat jobs goals }
{}

/// A hand that is out still tells: the book lists its jobs for its seat, and where a goal has the node that was seen there, it has
/// the transition that was seen. So what was worked out of it over the book's system, in the book's direction, can be settled,
/// and `holds` need not be asked.
pub fn hands_out_tell<S: Semiring, D: Direction<S>>()
    ensures tells { (b : BookValue S S.W S.Ret D) (seat : ℕ) (jobs : List (JobValue S S.W S.Ret))
        (goals : List (Option (EntryValue S S.W S.Ret))) → IsBook S.operations D.way b
        → HasOut S.operations D.way b seat jobs goals
        → (jobs_out seat b.state.hands ≡ Some jobs) × StillTell b.state.transitions jobs goals }
    ensures settles { (b : BookValue S S.W S.Ret D) (done : DoneValue S S.W S.Ret D)
        → IsBook S.operations D.way b
        → HasOut S.operations D.way b done.seat done.jobs done.goals
        → done.system ≡ b.system → done.direction ≡ b.direction → CanSettle D.way b done }
{}
