ghost use Rattle.std.specs.Prelude.{◌≡◌, [], IfOk};
ghost use Rattle.saturation_laws.specs.Books.{IsBook, IsClosed};
ghost use Rattle.worker_pool.specs.Alone.{HasBase, IsAlone};

use saturation_core::Book;
use saturation_laws::Direction;
use semiring_laws::Semiring;
use std::alloc::Global;
use wpds_base::{Gate, OutOfMemory};

/// Saturates a book by seat 0 alone, which settles what a transition gives before it takes the next, until nothing waits.
/// It works in place, without hands, and calls the gate once for each transition, between taking and settling it. It is
/// refused only when out of memory, and then the book is gone.
pub fn saturate_alone<'s, S: Semiring, D: Direction<S>, G: Gate>(
    alloc: Global,
    book: Book<'s, S, D>,
    gate: &G,
) -> Result<Book<'s, S, D>, OutOfMemory>
    requires { book.journal ≡ [] }
    ensures closed { IfOk result IsClosed }
    ensures base { IfOk result (HasBase book.entry) }
    ensures alone { IfOk result (λ b. IsAlone b.journal) }
    ensures book { IfOk result (IsBook S.operations D.way) }
{
    let mut book = book;
    book.system();
    'turns: while !book.is_closed() {
        book = book.turn_alone(alloc, 0, gate)?;
    }
    Ok(book)
}
