//! Handing out passes, and taking them in again.
ghost use Rattle.std.specs.Prelude.{◌≡◌, ◌<◌, ◌≤◌, ◌+◌, ◌-◌, [], ◌∷◌, All, IfOk, ℕ, Option, length, slice_index_or, vec_len};
ghost use Rattle.std.specs.Option.{IsSomeAnd};
ghost use Rattle.seat_lock.specs.Words.{IsOf};
ghost use Rattle.worker_pool.specs.declared.shared.Origin.{Origin};
ghost use Rattle.worker_pool.specs.Errands.{HasMadeNone, IsFresh, IsDone, IsFirst, IsJoined};

use crate::Shared;
use crate::errand::{Errand, run_all};
use saturation_laws::Direction;
use seat_lock::{Journaled, Pass, SeatLock};
use semiring_laws::Semiring;
use std::alloc::Global;
use std::sync::Wait;
use std::thread::Threads;
use wpds_base::{Gate, OutOfMemory};

// An errand for each worker, that of pass 0 last.
fn split_all<'l, 's, S: Semiring, D: Direction<S>>(
    alloc: Global,
    lock: &'l SeatLock<Shared<'s, S, D>>,
    pass: Pass<Shared<'s, S, D>>,
    workers: u32,
) -> Result<Vec<Errand<'l, Shared<'s, S, D>>>, OutOfMemory>
    requires workers { 0 < workers }
    requires lock { IsOf pass lock.now }
    requires first { HasMadeNone workers pass }
    ensures len { IfOk result (λ v. vec_len v ≡ workers) }
    ensures fresh { IfOk result
        (λ v. All (λ e. IsSomeAnd e.pass (IsFresh lock.now workers)) v.items) }
    ensures first { IfOk result
        (λ v. (d : _) → IsSomeAnd (slice_index_or v.items (workers - 1) d).pass
        (IsFirst pass.entry.seat.me.0.base workers)) }
{
    let mut errands = Vec::with_capacity(alloc, workers as usize)?;
    let mut first = pass;
    for _made in 1..workers {
        let (rest, other) = lock.split(first);
        first = rest;
        errands.push_reserved(Errand {
            lock,
            pass: Some(other),
        });
    }
    errands.push_reserved(Errand {
        lock,
        pass: Some(first),
    });
    Ok(errands)
}

// Joins the passes of errands in pass 0, one after another.
fn join_rest<'s, S: Semiring, D: Direction<S>>(
    lock: &SeatLock<Shared<'s, S, D>>,
    first: Pass<Shared<'s, S, D>>,
    errands: &mut [Errand<'_, Shared<'s, S, D>>],
    workers: u32,
) -> Pass<Shared<'s, S, D>>
    requires first { (first.number ≡ 0) × IsJoined lock.now workers first.joined first }
    requires count { first.joined + length errands.old ≡ workers }
    requires done { All (λ e. IsSomeAnd e.pass (IsDone lock.now workers)) errands.old }
    ensures joined { IsJoined lock.now workers workers result }
    ensures first { (result.number ≡ 0) × (result.made ≡ first.entry.made)
        × (result.seat.me.0.base ≡ first.entry.seat.me.0.base) }
{
    let mut first = first;
    for errand in errands {
        let Some(other) = errand.pass.take() else {
            unreachable!()
        };
        first = lock.join(first, other);
    }
    first
}

// Has each errand run in a thread of its own, and joins their passes in pass 0, which is the last.
fn run_and_join<
    's,
    H: Threads + Wait + Sync,
    S: Semiring<W: Send + Sync, Ret: Send + Sync> + Send + Sync,
    D: Direction<S> + Send + Sync,
    G: Gate,
>(
    rt: &H,
    alloc: Global,
    lock: &SeatLock<Shared<'s, S, D>>,
    errands: &mut [Errand<'_, Shared<'s, S, D>>],
    workers: u32,
    gate: &G,
) -> Pass<Shared<'s, S, D>>
    requires len { (length errands.old ≡ workers) × (0 < workers) }
    requires fresh { All (λ e. IsSomeAnd e.pass (IsFresh lock.now workers)) errands.old }
    requires first { (base : Option (Origin S D S.W S.Ret))
        × ((d : _) → IsSomeAnd (slice_index_or errands.old (workers - 1) d).pass
        (IsFirst base workers)) }
    ensures joined { IsJoined lock.now workers workers result }
    ensures first { (base : Option (Origin S D S.W S.Ret))
        → ((d : _) → IsSomeAnd (slice_index_or errands.old (workers - 1) d).pass
        (IsFirst base workers))
        → IsFirst base workers result }
{
    run_all(rt, alloc, errands, workers as usize, gate);
    let Some((last, rest)) = errands.split_last_mut() else {
        unreachable!()
    };
    let Some(first) = last.pass.take() else {
        unreachable!()
    };
    join_rest(lock, first, rest, workers)
}

// Lets errands go. Where the value's type names a lifetime, this is proved in a function over any type alone.
fn let_go<'l, T: Journaled>(errands: Vec<Errand<'l, T>>) {
    drop(errands);
}

/// As many workers as were asked for drive the book under the lock, each with a pass of its own, and pass 0 is given back
/// with all of them joined in. It is refused only for want of memory, and then nothing was done.
pub(crate) fn work_all<
    's,
    H: Threads + Wait + Sync,
    S: Semiring<W: Send + Sync, Ret: Send + Sync> + Send + Sync,
    D: Direction<S> + Send + Sync,
    G: Gate,
>(
    rt: &H,
    alloc: Global,
    lock: &SeatLock<Shared<'s, S, D>>,
    pass: Pass<Shared<'s, S, D>>,
    workers: u32,
    gate: &G,
) -> Result<Pass<Shared<'s, S, D>>, OutOfMemory>
    requires workers { 0 < workers }
    requires lock { IsOf pass lock.now }
    requires first { HasMadeNone workers pass }
    ensures joined { IfOk result (IsJoined lock.now workers workers) }
    ensures first { IfOk result (IsFirst pass.entry.seat.me.0.base workers) }
{
    let mut errands = split_all(alloc, lock, pass, workers)?;
    let pass = run_and_join(rt, alloc, lock, &mut errands, workers, gate);
    let_go(errands);
    Ok(pass)
}
