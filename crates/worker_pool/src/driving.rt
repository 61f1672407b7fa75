//! A worker at a book under a lock.
ghost use Rattle.std.specs.Prelude.{◌≡◌, true};
ghost use Rattle.seat_lock.specs.Words.{mine, IsOf};
ghost use Rattle.worker_pool.specs.Events.{is_ended};
ghost use Rattle.worker_pool.specs.Passes.{IsSame};
ghost use Rattle.worker_pool.specs.Turns.{IsBased, Keeps};
ghost use Rattle.worker_pool.specs.Driving.{HasRound, HasDriven, SeesClosed};

use crate::asked::Asked;
use crate::round::Round;
use crate::turns::{ask, give_back, settle};
use crate::{DriveEnd, Driven, Shared};
use saturation_laws::Direction;
use seat_lock::{Pass, SeatLock};
use semiring_laws::Semiring;
use std::alloc::Global;
use std::sync::Wait;
use wpds_base::Gate;

// A worker takes a transition, calls the gate, works out what it gives without the lock, and settles that.
fn one_round<'s, H: Wait, S: Semiring, D: Direction<S>, G: Gate>(
    rt: &H,
    alloc: Global,
    lock: &SeatLock<Shared<'s, S, D>>,
    pass: Pass<Shared<'s, S, D>>,
    gate: &G,
) -> (Pass<Shared<'s, S, D>>, Round)
    requires lock { IsOf pass lock.now }
    requires ended { is_ended (mine pass) ≡ true }
    ensures pass { IsSame pass.entry result.0 }
    ensures keeps { Keeps pass.entry.seat.me.0 result.0.seat.me.0 }
    ensures round { HasRound S.operations D.way result.1 pass.entry.seat.me.0 result.0.seat.me.0 }
    ensures based { IsBased result.0.seat.me.0 }
{
    let seat = pass.number();
    let (pass, asked) = ask(rt, alloc, lock, pass);
    match asked {
        Asked::Idle => (pass, Round::Idle),
        Asked::Closed => (pass, Round::Closed),
        Asked::Memory => (pass, Round::Memory),
        Asked::Hand {
            hand,
            system,
            direction,
        } => {
            gate.between(seat);
            let Ok(done) = hand.work(alloc, system, &direction) else {
                return (give_back(rt, lock, pass), Round::Memory);
            };
            let (pass, settled) = settle(rt, alloc, lock, pass, done);
            let round = if settled {
                Round::Settled
            } else {
                Round::Memory
            };
            (pass, round)
        }
    }
}

/// Works on a book under a lock, with the pass's number for its seat, until nothing waits and no hand is out, or until
/// there is no memory. Then the hand that it has is given back. It has one turn at least, so its pass knows a base.
pub fn drive<'s, H: Wait, S: Semiring, D: Direction<S>, G: Gate>(
    rt: &H,
    alloc: Global,
    lock: &SeatLock<Shared<'s, S, D>>,
    pass: Pass<Shared<'s, S, D>>,
    gate: &G,
) -> Driven<Shared<'s, S, D>>
    requires lock { IsOf pass lock.now }
    requires ended { is_ended (mine pass) ≡ true }
    ensures pass { IsSame pass.entry result.pass }
    ensures keeps { Keeps pass.entry.seat.me.0 result.pass.seat.me.0 }
    ensures driven { HasDriven result.end pass.entry.seat.me.0 result.pass.seat.me.0 }
    ensures closed { result.end ≡ DriveEnd.Closed
        → SeesClosed S.operations D.way pass.entry.seat.me.0 result.pass.seat.me.0 }
    ensures based { IsBased result.pass.seat.me.0 }
{
    let mut pass = pass;
    for _ in rt.forever() {
        let (next, round) = one_round(rt, alloc, lock, pass, gate);
        match round {
            Round::Settled => pass = next,
            Round::Idle => pass = lock.wait(rt, next),
            Round::Closed => {
                return Driven {
                    end: DriveEnd::Closed,
                    pass: next,
                };
            }
            Round::Memory => {
                return Driven {
                    end: DriveEnd::Memory,
                    pass: next,
                };
            }
        }
    }
    unreachable!()
}
