//! What a worker does at a book, whoever lends it.
ghost use Rattle.std.specs.Prelude.{◌≡◌, ◌<◌, true, Some, MatchBool};
ghost use Rattle.wpds_base.specs.Limits.{most_seats};
ghost use Rattle.saturation_laws.specs.declared.event.Event.TheVariants.{Settle, GiveBack};
ghost use Rattle.saturation_core.specs.declared.hand.Hand.{Hand as HandValue};
ghost use Rattle.saturation_laws.specs.Books.{Makes, replayed};
ghost use Rattle.seat_lock.specs.Queue.{of_pass};
ghost use Rattle.saturation_laws.specs.States.{seat_of};
ghost use Rattle.worker_pool.specs.Events.{is_ended};
ghost use Rattle.saturation_core.specs.HandsOut.{HasOut};
ghost use Rattle.worker_pool.specs.Steps.{BookAsked, IsOverBook};

use crate::asked::Asked;
use saturation_core::{Book, Done, Taken, hands_out_tell, hands_stay_out};
use saturation_laws::Direction;
use semiring_laws::Semiring;
use std::alloc::Global;

/// Takes the transition that waits longest, for a seat that has ended what it took.
pub(crate) fn ask<'s, S: Semiring, D: Direction<S>>(
    alloc: Global,
    book: &mut Book<'s, S, D>,
    seat: u32,
) -> Asked<'s, S, D>
    requires seat { seat < most_seats }
    requires ended { is_ended (of_pass seat_of seat book.old.journal) ≡ true }
    ensures asked { BookAsked S.operations D.way book.old seat result book.new }
    ensures replays { replayed S.operations D.way book.new ≡ Some book.new.state }
{
    hands_stay_out::<S, D>();
    let (system, direction) = (book.system(), book.direction());
    let asked = match book.take(alloc, seat) {
        Ok(Taken::Hand(hand)) => Asked::Hand {
            hand,
            system,
            direction,
        },
        Ok(Taken::Idle(_)) => Asked::Idle,
        Ok(Taken::Closed) => Asked::Closed,
        Err(_) => Asked::Memory,
    };
    book.system();
    asked
}

/// How many of those that wait are to be woken after this answer: all where the worker takes no further turn.
pub(crate) fn woken_by<S: Semiring, D: Direction<S>>(asked: &Asked<'_, S, D>) -> u32 {
    match asked {
        Asked::Closed | Asked::Memory => u32::MAX,
        Asked::Hand { .. } | Asked::Idle => 0,
    }
}

/// Whether one that wants a turn is called after this answer: not where the worker comes back at once, to wait.
pub(crate) fn calls_after<S: Semiring, D: Direction<S>>(asked: &Asked<'_, S, D>) -> bool {
    match asked {
        Asked::Hand { .. } | Asked::Closed | Asked::Memory => true,
        Asked::Idle => false,
    }
}

// How many of those that wait are to be woken after so many lowerings: all where nothing will come, and else one for each
// transition that came to wait, but for the one that the settling worker takes next.
fn woken_after<S: Semiring, D: Direction<S>>(book: &Book<'_, S, D>, count: u64) -> u32 {
    if book.is_closed() {
        return u32::MAX;
    }
    count.saturating_sub(1).min(64) as u32
}

/// Settles a hand that was worked out. Where there is no memory for it, the hand is given back, and the answer is false. Says how
/// many of those that wait are to be woken.
pub(crate) fn settle<'s, S: Semiring, D: Direction<S>>(
    alloc: Global,
    book: &mut Book<'s, S, D>,
    done: Done<'s, S, D>,
    wake: &mut u32,
) -> bool
    requires out { HasOut S.operations D.way book.old done.seat done.jobs done.goals }
    requires over { IsOverBook book.old done.system done.direction }
    ensures { MatchBool result
        (Makes S.operations D.way book.old (Settle done.entry.seat) book.new)
        (Makes S.operations D.way book.old (GiveBack done.entry.seat) book.new) }
{
    hands_out_tell::<S, D>();
    let seat = done.seat();
    book.system();
    match book.settle(alloc, done) {
        Ok(lowered) => {
            *wake = woken_after(book, lowered.count);
            true
        }
        Err(_) => {
            book.give_back(seat);
            *wake = u32::MAX;
            false
        }
    }
}

/// Gives a hand back.
pub(crate) fn give_back<S: Semiring, D: Direction<S>>(book: &mut Book<'_, S, D>, seat: u32)
    requires out { (hand : HandValue S S.W S.Ret)
        × HasOut S.operations D.way book.old seat hand.jobs hand.goals }
    ensures { Makes S.operations D.way book.old (GiveBack seat) book.new }
{
    hands_out_tell::<S, D>();
    book.system();
    book.give_back(seat);
}
