//! What a thread is handed.
ghost use Rattle.std.specs.Prelude.{◌≡◌, ◌<◌, ◌≤◌, ◌+◌, ◌-◌, true, All, IfOk, IfSome, Some, ℕ, length, slice_index_or, vec_len};
ghost use Rattle.std.specs.Option.{ForSome, IsSomeAnd};
ghost use Rattle.seat_lock.specs.Words.{mine, IsOf};
ghost use Rattle.seat_lock.specs.Passes.{own_entries};
ghost use Rattle.worker_pool.specs.Events.{is_ended};
ghost use Rattle.worker_pool.specs.Errands.{HasRun};

use crate::{Shared, drive};
use saturation_laws::Direction;
use seat_lock::{Journaled, Pass, SeatLock};
use semiring_laws::Semiring;
use std::alloc::Global;
use std::sync::Wait;
use std::thread;
use std::thread::Threads;
use wpds_base::Gate;

/// The lock, and a pass of it. One value, so that a closure names the book's lifetime once.
#[derive(Drop)]
pub(crate) struct Errand<'l, T: Journaled> {
    pub lock: &'l SeatLock<T>,
    pub pass: Option<Pass<T>>,
    pub ghost of: { ForSome pass (λ p. IsOf p lock.now) },
}

// Works with the pass until the book is closed, or there is no memory.
fn run<'s, H: Wait, S: Semiring, D: Direction<S>, G: Gate>(
    rt: &H,
    alloc: Global,
    errand: &mut Errand<'_, Shared<'s, S, D>>,
    gate: &G,
)
    requires ended { IfSome errand.old.pass (λ p. is_ended (mine p) ≡ true) }
    ensures ran { IfSome errand.old.pass (λ p. IsSomeAnd errand.new.pass (HasRun p)) }
{
    let Some(pass) = errand.pass.take() else {
        return;
    };
    let driven = drive(rt, alloc, errand.lock, pass, gate);
    errand.pass = Some(driven.pass);
}

/// As many threads as there are errands work on the book. Where a thread can't be started, the caller does its work.
pub(crate) fn run_all<
    's,
    H: Threads + Wait + Sync,
    S: Semiring<W: Send + Sync, Ret: Send + Sync> + Send + Sync,
    D: Direction<S> + Send + Sync,
    G: Gate,
>(rt: &H, alloc: Global, errands: &mut [Errand<'_, Shared<'s, S, D>>], threads: usize, gate: &G)
    requires threads { 0 < threads }
    requires ended { All (λ e. IfSome e.pass (λ p. is_ended (mine p) ≡ true)) errands.old }
    ensures ran { (k : ℕ) (d : _) → k < length errands.old
        → IfSome (slice_index_or errands.old k d).pass
        (λ p. IsSomeAnd (slice_index_or errands.new k d).pass (HasRun p)) }
    ensures len { length errands.new ≡ length errands.old }
{
    thread::for_each_mut(
        rt,
        errands,
        threads,
        &|_, errand|
            requires { IfSome errand.old.pass (λ p. is_ended (mine p) ≡ true) }
        { run(rt, alloc, errand, gate) },
    );
}
