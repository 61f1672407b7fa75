//! The lock, its passes, and its turns.
ghost use Rattle.std.specs.Prelude.{◌≡◌, ℕ, ◌+◌, ◌<◌, ◌≤◌, [], ◌∷◌, true, None, Some, IfOk, IfErr, MatchResult, length};
ghost use Rattle.seat_lock.specs.declared.view.Stage.TheVariants.{Idle, Waiting, Turn};
ghost use Rattle.seat_lock.specs.Queue.{Each, Among, first_view, at_stage, one_more, newcomer, joined, Comes};
ghost use Rattle.seat_lock.specs.Passes.{IsPass, Grown, Gave, is_idle, is_turn, is_out};

use crate::bell::Bell;
use crate::door::Door;
use crate::plays::{Count, Cut, Draw, Glue, Look, Serve};
use crate::view::{Journaled, Place, Queue, View};
use atomic_table::{Refused, Table};
use std::alloc::Global;
use std::snapshot::Snapshot;
use std::sync::Wait;

/// A lock round a value that keeps a journal.
#[derive(Drop)]
pub struct SeatLock<T: Journaled> {
    table: Table<Option<T>, View<T::Base, T::Entry>, Snapshot<T>, Queue<T>, Global>,
    bell: Bell,
    door: Door,
    ghost sized: { (table.shared.table_id.words ≡ 2) × (table.shared.table_id.slots ≡ 1) },
}

/// There was no memory.
#[derive(Drop)]
pub struct LockFault<T> {
    pub value: T,
}

/// Not each pass that was made has been joined in. All is untouched.
#[derive(Drop)]
pub struct CloseFault<T: Journaled> {
    pub lock: SeatLock<T>,
    pub pass: Pass<T>,
    pub made: u32,
}

/// What a thread takes turns with.
#[derive(Drop)]
pub struct Pass<T: Journaled> {
    number: u32,
    left: u32,
    joined: u32,
    made: u32,
    heard: u64,
    seat: Place<T>,
    ghost rests: { (is_idle seat.me.0.stage ≡ true) × (seat.me.1 ≡ []) },
    ghost is: { IsPass number left joined made seat.me.0 },
}

/// A turn: the value is out. It has no `Drop`, so it ends in `give`.
pub struct Held<'a, T: Journaled> {
    lock: &'a SeatLock<T>,
    number: u32,
    left: u32,
    joined: u32,
    made: u32,
    ticket: u64,
    seat: Place<T>,
    pub(crate) value: T,
    ghost of: { seat.table_id ≡ lock.now.table.shared.table_id },
    ghost turn: { is_turn ticket seat.me.0.stage ≡ true },
    ghost out: { is_out seat.me.1 ≡ true },
    ghost is: { IsPass number left joined made seat.me.0 },
}

impl<T: Journaled> SeatLock<T> {
    ghost use Rattle.seat_lock.specs.Words.{Fits, IsOf, IsFirst, IsTurnOf};

    /// A lock for so many passes, and the pass 0.
    pub fn new(alloc: Global, value: T, seats: u32) -> Result<(SeatLock<T>, Pass<T>), LockFault<T>>
        requires seats { (0 < seats) × (seats ≤ 64) }
        requires empty { T.journal value ≡ [] }
        ensures { MatchResult result (λ r. IsFirst r.0 (T.base value) seats r.1)
            (λ f. f.value ≡ value) }
    {
        let about = Snapshot::of(&value);
        let mut slots = match Vec::with_capacity(alloc, 1) {
            Ok(slots) => slots,
            Err(_) => return Err(LockFault { value }),
        };
        slots.push_reserved(Some(value));
        match Table::new(alloc, &[0, 0], slots, &about) {
            Ok((table, seat)) => {
                let pass = Pass {
                    number: 0,
                    left: seats - 1,
                    joined: 1,
                    made: 1,
                    heard: 0,
                    seat,
                };
                let (bell, door) = (Bell::new(), Door::new());
                Ok((SeatLock { table, bell, door }, pass))
            }
            Err(Refused { mut slots }) => {
                let Some(Some(value)) = slots.pop() else {
                    unreachable!()
                };
                slots.destroy_empty();
                Err(LockFault { value })
            }
        }
    }

    // The ticket that the seat drew.
    fn draw<H: Wait>(&self, rt: &H, seat: &mut Place<T>) -> u64
        requires lock { seat.old.table_id ≡ self.now.table.shared.table_id }
        requires idle { seat.old.me.0.stage ≡ Idle }
        ensures lock { seat.new.table_id ≡ seat.old.table_id }
        ensures drawn { seat.new.me ≡ (at_stage (Waiting result) seat.old.me.0, seat.old.me.1) }
    {
        let shared = &self.table.shared;
        for _ in rt.forever() {
            let next = shared.peek(0);
            if next < u64::MAX {
                let found = shared.compare_exchange::<Draw>(seat, 0, next, next + 1);
                if found == next {
                    return next;
                }
            }
        }
        unreachable!()
    }

    // Waits until the ticket is served, which it is at the first look: its holder went through the door alone.
    fn reach<H: Wait>(&self, rt: &H, seat: &mut Place<T>, ticket: u64)
        requires lock { seat.old.table_id ≡ self.now.table.shared.table_id }
        requires waiting { seat.old.me.0.stage ≡ Waiting ticket }
        requires claims { 0 < length seat.old.me.0.claims }
        ensures lock { seat.new.table_id ≡ seat.old.table_id }
        ensures turn { Comes T.base T.journal T.number ticket seat.old.me seat.new.me }
    {
        let shared = &self.table.shared;
        for _ in rt.forever() {
            let serving = shared.load::<Look>(seat, 1);
            if serving == ticket {
                return;
            }
        }
        unreachable!()
    }

    /// Waits for the lock. After 2^64 - 1 turns it waits for ever.
    pub fn turn<H: Wait>(&self, rt: &H, pass: Pass<T>) -> Held<'_, T>
        requires lock { IsOf pass self.now }
        ensures fits { Fits T.number pass (T.base result.value) (T.journal result.value) }
        ensures held { IsTurnOf pass result }
        ensures turn { let stage = Turn result.ticket (T.journal result.value) in
            result.seat.me.0 ≡ at_stage stage pass.seat.me.0 }
    {
        let Pass {
            number,
            left,
            joined,
            made,
            heard: _,
            mut seat,
        } = pass;
        self.door.enter(rt);
        let ticket = self.draw(rt, &mut seat);
        self.reach(rt, &mut seat, ticket);
        let Some(value) = self.table.shared.exchange(&mut seat, 0, None) else {
            unreachable!()
        };
        Held {
            lock: self,
            number,
            left,
            joined,
            made,
            ticket,
            seat,
            value,
        }
    }

    /// Sleeps until a turn rings that began after the pass's last one, and may return at any time.
    pub fn wait<H: Wait>(&self, rt: &H, pass: Pass<T>) -> Pass<T>
        requires lock { IsOf pass self.now }
        ensures same { result ≡ pass }
    {
        self.door.call();
        self.bell.wait(rt, pass.heard);
        pass
    }
}

impl<T: Journaled> SeatLock<T> {
    ghost use Rattle.seat_lock.specs.Words.{Fits, IsOf, HasMadeOne, IsMadeBy, HasTakenIn};

    /// Makes one more pass, which has seen what pass 0 has.
    pub fn split(&self, pass: Pass<T>) -> (Pass<T>, Pass<T>)
        requires lock { IsOf pass self.now }
        requires left { (pass.number ≡ 0) × (0 < pass.left) }
        ensures first { HasMadeOne pass result.0 }
        ensures second { IsMadeBy pass result.1 }
    {
        let Pass {
            number,
            left,
            joined,
            made,
            heard,
            mut seat,
        } = pass;
        let other = self.table.shared.split_seat::<Cut>(&mut seat);
        let first = Pass {
            number,
            left: left - 1,
            joined,
            made: made + 1,
            heard,
            seat,
        };
        let second = Pass {
            number: made,
            left: 0,
            joined: 1,
            made: 0,
            heard,
            seat: other,
        };
        (first, second)
    }

    /// Pass 0 takes another in, and keeps what both know.
    pub fn join(&self, pass: Pass<T>, other: Pass<T>) -> Pass<T>
        requires lock { IsOf pass self.now × IsOf other self.now }
        requires first { pass.number ≡ 0 }
        ensures pass { HasTakenIn pass other result }
        ensures both { result.seat.me.0 ≡ joined pass.seat.me.0 other.seat.me.0 }
    {
        let Pass {
            number,
            left,
            joined,
            made,
            heard,
            mut seat,
        } = pass;
        let Pass {
            number: _,
            left: _,
            joined: more,
            made: _,
            heard: _,
            seat: other,
        } = other;
        self.table.shared.join_seat::<Glue>(&mut seat, other);
        self.table.shared.load::<Count>(&mut seat, 0);
        Pass {
            number,
            left,
            joined: joined + more,
            made,
            heard,
            seat,
        }
    }

    /// Takes the value out, once each pass that was made has been joined in.
    pub fn close(self, pass: Pass<T>) -> Result<T, CloseFault<T>>
        requires lock { IsOf pass self }
        requires first { pass.number ≡ 0 }
        ensures { MatchResult result
            (λ x. (pass.made ≤ pass.joined) × Fits T.number pass (T.base x) (T.journal x)
            × Each (λ e. Among (T.number e) pass.seat.me.0.claims) (T.journal x))
            (λ f. (pass.joined < pass.made)
            × (f.lock ≡ self) × (f.pass ≡ pass) × (f.made ≡ pass.made)) }
    {
        if pass.joined < pass.made {
            let made = pass.made;
            return Err(CloseFault {
                lock: self,
                pass,
                made,
            });
        }
        let SeatLock {
            table,
            bell: _,
            door: _,
        } = self;
        let Pass {
            number: _,
            left: _,
            joined: _,
            made: _,
            heard: _,
            seat,
        } = pass;
        let mut closed = table.close_with(seat);
        let slot = closed.take(0);
        closed.free();
        let Some(value) = slot else { unreachable!() };
        Ok(value)
    }
}

impl<T: Journaled> Pass<T> {
    pub fn number(&self) -> u32
        ensures { result ≡ self.now.number }
    {
        self.number
    }

    /// How many passes can still be made.
    pub fn left(&self) -> u32
        ensures { result ≡ self.now.left }
    {
        self.left
    }

    /// How many passes this one is, with those that it joined in.
    pub fn joined(&self) -> u32
        ensures { result ≡ self.now.joined }
    {
        self.joined
    }
}

impl<'a, T: Journaled> Held<'a, T> {
    ghost use Rattle.seat_lock.specs.Words.{IsPassOf};

    /// Ends the turn, in which the journal grew by entries of this pass alone, and the base stayed. Whoever waits is woken.
    pub fn give(self) -> Pass<T>
        requires base { self.seat.me.0.base ≡ Some (T.base self.value) }
        requires grown { Grown T.number self.seat.me.0 (T.journal self.value) }
        ensures gave { Gave self.entry.seat.me.0 (T.journal self.entry.value) result.seat.me.0 }
        ensures pass { IsPassOf self.entry result }
    {
        self.give_to(u32::MAX, true)
    }

    /// Ends the turn as `give` does. At most so many of those that wait are woken. Of those that want a turn one is called, if
    /// that is asked for; otherwise the pass takes another turn soon or waits, since who wants a turn may be left asleep until
    /// then. So a pass that stays away for long has one called.
    pub fn give_to(self, most: u32, calls: bool) -> Pass<T>
        requires base { self.seat.me.0.base ≡ Some (T.base self.value) }
        requires grown { Grown T.number self.seat.me.0 (T.journal self.value) }
        ensures gave { Gave self.entry.seat.me.0 (T.journal self.entry.value) result.seat.me.0 }
        ensures pass { IsPassOf self.entry result }
    {
        let Held {
            lock,
            number,
            left,
            joined,
            made,
            ticket: _,
            mut seat,
            value,
        } = self;
        let (shared, bell) = (&lock.table.shared, &lock.bell);
        let nothing = shared.exchange(&mut seat, 0, Some(value));
        let None = nothing else { unreachable!() };
        // Before the turn ends, so that whoever takes a later turn has heard it.
        let heard = bell.ring(most);
        shared.fetch_add::<Serve>(&mut seat, 1, 1);
        lock.door.leave(!calls);
        bell.wake(most);
        Pass {
            number,
            left,
            joined,
            made,
            heard,
            seat,
        }
    }
}
