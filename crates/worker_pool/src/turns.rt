//! The turns that a worker takes at a book under a lock.
ghost use Rattle.std.specs.Prelude.{◌≡◌, true, false};
ghost use Rattle.saturation_core.specs.declared.hand.Hand.{Hand as HandValue};
ghost use Rattle.seat_lock.specs.Words.{mine, IsOf};
ghost use Rattle.worker_pool.specs.Events.{is_ended};
ghost use Rattle.worker_pool.specs.Turns.{Keeps, HoldsHand, IsBased, IsOver, HasAsked, HasSettled};
ghost use Rattle.worker_pool.specs.Passes.{IsSame};

use crate::asked::Asked;
use crate::{Shared, steps};
use saturation_core::{Done, hands_stay_out};
use saturation_laws::Direction;
use seat_lock::{Pass, SeatLock};
use semiring_laws::Semiring;
use std::alloc::Global;
use std::sync::Wait;

/// Takes the transition that waits longest, in a turn. A worker that leaves with a hand stays away as long as the gate keeps it
/// and the hand takes: it calls one that wants a turn.
pub(crate) fn ask<'s, H: Wait, S: Semiring, D: Direction<S>>(
    rt: &H,
    alloc: Global,
    lock: &SeatLock<Shared<'s, S, D>>,
    pass: Pass<Shared<'s, S, D>>,
) -> (Pass<Shared<'s, S, D>>, Asked<'s, S, D>)
    requires lock { IsOf pass lock.now }
    requires ended { is_ended (mine pass) ≡ true }
    ensures pass { IsSame pass.entry result.0 }
    ensures keeps { Keeps pass.entry.seat.me.0 result.0.seat.me.0 }
    ensures asked { HasAsked S.operations D.way result.1 pass.entry.seat.me.0 result.0.seat.me.0 }
    ensures based { IsBased result.0.seat.me.0 }
{
    let seat = pass.number();
    let mut held = lock.turn(rt, pass);
    let asked = steps::ask(alloc, &mut held.value().book, seat);
    let wake = steps::woken_by(&asked);
    let calls = steps::calls_after(&asked);
    (held.give_to(wake, calls), asked)
}

/// Settles a hand that was worked out, in a turn. Where there is no memory for it, the hand is given back in the same turn,
/// and the answer is false.
pub(crate) fn settle<'s, H: Wait, S: Semiring, D: Direction<S>>(
    rt: &H,
    alloc: Global,
    lock: &SeatLock<Shared<'s, S, D>>,
    pass: Pass<Shared<'s, S, D>>,
    done: Done<'s, S, D>,
) -> (Pass<Shared<'s, S, D>>, bool)
    requires lock { IsOf pass lock.now }
    requires hand { HoldsHand S.operations D.way pass.seat.me.0 done.jobs done.goals }
    requires seat { done.seat ≡ pass.number }
    requires over { IsOver pass.seat.me.0 done.system done.direction }
    ensures pass { IsSame pass.entry result.0 }
    ensures keeps { Keeps pass.entry.seat.me.0 result.0.seat.me.0 }
    ensures settled { HasSettled result.1 pass.entry.seat.me.0 result.0.seat.me.0 }
{
    hands_stay_out::<S, D>();
    let mut held = lock.turn(rt, pass);
    let mut wake = 0;
    let settled = steps::settle(alloc, &mut held.value().book, done, &mut wake);
    (held.give_to(wake, wake == u32::MAX), settled)
}

/// Gives a hand back, in a turn.
pub(crate) fn give_back<'s, H: Wait, S: Semiring, D: Direction<S>>(
    rt: &H,
    lock: &SeatLock<Shared<'s, S, D>>,
    pass: Pass<Shared<'s, S, D>>,
) -> Pass<Shared<'s, S, D>>
    requires lock { IsOf pass lock.now }
    requires hand { (hand : HandValue S S.W S.Ret)
        × HoldsHand S.operations D.way pass.seat.me.0 hand.jobs hand.goals }
    ensures pass { IsSame pass.entry result }
    ensures keeps { Keeps pass.entry.seat.me.0 result.seat.me.0 }
    ensures given { HasSettled false pass.entry.seat.me.0 result.seat.me.0 }
{
    hands_stay_out::<S, D>();
    let seat = pass.number();
    let mut held = lock.turn(rt, pass);
    steps::give_back(&mut held.value().book, seat);
    held.give()
}
