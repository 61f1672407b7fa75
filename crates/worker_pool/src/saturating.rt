//! Workers in threads.
ghost use Rattle.std.specs.Prelude.{◌≡◌, [], IfOk};
ghost use Rattle.saturation_laws.specs.Books.{IsBook, IsClosed};
ghost use Rattle.worker_pool.specs.Alone.{HasBase, IsAlone};
ghost use Rattle.worker_pool.specs.Errands.{IsWorkedBySeats};
ghost use Rattle.worker_pool.specs.Workers.{IsWorkerCount};

use crate::gathering::work_all;
use crate::{Shared, saturate_alone};
use saturation_core::Book;
use saturation_laws::Direction;
use seat_lock::SeatLock;
use semiring_laws::Semiring;
use std::alloc::Global;
use std::sync::Wait;
use std::thread::Threads;
use wpds_base::{Gate, OutOfMemory};

// Saturates a book by workers under a lock.
fn saturate_shared<
    's,
    H: Threads + Wait + Sync,
    S: Semiring<W: Send + Sync, Ret: Send + Sync> + Send + Sync,
    D: Direction<S> + Send + Sync,
    G: Gate,
>(
    rt: &H,
    alloc: Global,
    book: Book<'s, S, D>,
    workers: u32,
    gate: &G,
) -> Result<Book<'s, S, D>, OutOfMemory>
    requires workers { IsWorkerCount workers }
    requires empty { book.journal ≡ [] }
    ensures closed { IfOk result IsClosed }
    ensures base { IfOk result (HasBase book.entry) }
    ensures seats { IfOk result (λ b. IsWorkedBySeats workers b.journal) }
    ensures book { IfOk result (IsBook S.operations D.way) }
{
    let Ok((lock, pass)) = SeatLock::new(alloc, Shared { book }, workers) else {
        return Err(OutOfMemory);
    };
    let pass = work_all(rt, alloc, &lock, pass, workers, gate)?;
    let Ok(shared) = lock.close(pass) else {
        unreachable!()
    };
    let book = shared.book;
    book.system();
    // Where each worker ended for want of memory, the book is not closed.
    if book.is_closed() {
        return Ok(book);
    }
    Err(OutOfMemory)
}

/// Saturates a book by so many workers, in threads where there are two or more. It is refused only for want of memory, and
/// then the book is gone.
pub fn saturate<
    's,
    H: Threads + Wait + Sync,
    S: Semiring<W: Send + Sync, Ret: Send + Sync> + Send + Sync,
    D: Direction<S> + Send + Sync,
    G: Gate,
>(
    rt: &H,
    alloc: Global,
    book: Book<'s, S, D>,
    workers: u32,
    gate: &G,
) -> Result<Book<'s, S, D>, OutOfMemory>
    requires workers { IsWorkerCount workers }
    requires empty { book.journal ≡ [] }
    ensures closed { IfOk result IsClosed }
    ensures base { IfOk result (HasBase book.entry) }
    ensures alone { workers ≡ 1 → IfOk result (λ b. IsAlone b.journal) }
    ensures seats { IfOk result (λ b. IsWorkedBySeats workers b.journal) }
    ensures book { IfOk result (IsBook S.operations D.way) }
{
    if workers == 1 {
        return saturate_alone(alloc, book, gate);
    }
    saturate_shared(rt, alloc, book, workers, gate)
}
