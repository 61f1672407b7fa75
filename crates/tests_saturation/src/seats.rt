use saturation_core::{Book, Done, Taken};
use saturation_laws::Direction;
use semiring_laws::Semiring;
use std::alloc::Global;
use wpds_base::OutOfMemory;

// Lets a seat take, and works its hand out.
fn work<'s, S: Semiring, D: Direction<S>>(
    alloc: Global,
    book: &mut Book<'s, S, D>,
    seat: u32,
) -> Result<Option<Done<'s, S, D>>, OutOfMemory> {
    if seat >= 64 || book.has_hand(seat) {
        return Ok(None);
    }
    let (system, direction) = (book.system(), book.direction());
    let Taken::Hand(hand) = book.take(alloc, seat)? else {
        return Ok(None);
    };
    match hand.work(alloc, system, &direction) {
        Ok(done) => Ok(Some(done)),
        Err(_) => Err(OutOfMemory),
    }
}

// Settles a hand that was worked out, if there is one and the book can.
fn settle<S: Semiring, D: Direction<S>>(
    alloc: Global,
    book: &mut Book<'_, S, D>,
    done: Option<Done<'_, S, D>>,
) -> Result<bool, OutOfMemory> {
    let Some(done) = done else {
        return Ok(false);
    };
    if !book.holds(&done) {
        return Ok(false);
    }
    match book.settle(alloc, done) {
        Ok(_) => Ok(true),
        Err(_) => Err(OutOfMemory),
    }
}

// Saturates by one seat, and says whether the book is closed then.
fn close_alone<S: Semiring, D: Direction<S>>(
    alloc: Global,
    book: &mut Book<'_, S, D>,
) -> Result<bool, OutOfMemory> {
    for _ in 0..100u32 {
        let done = work(alloc, book, 0)?;
        if !settle(alloc, book, done)? {
            return Ok(book.is_closed());
        }
    }
    Ok(false)
}

// Saturates by two seats that take one after the other, of which the second settles first. Says whether the book is
// closed then.
fn close_in_turn<S: Semiring, D: Direction<S>>(
    alloc: Global,
    book: &mut Book<'_, S, D>,
) -> Result<bool, OutOfMemory> {
    for _ in 0..100u32 {
        let first = work(alloc, book, 0)?;
        let second = work(alloc, book, 1)?;
        let later = settle(alloc, book, second)?;
        let earlier = settle(alloc, book, first)?;
        if !later && !earlier {
            return Ok(book.is_closed());
        }
    }
    Ok(false)
}

/// Which seats saturate a book.
#[derive(Clone, Copy, Debug)]
pub(crate) enum Seats {
    /// One, which settles what it took before it takes again.
    One,
    /// Two that take one after the other, of which the second settles first.
    Two,
}

/// Saturates a book, and gives it back if it is closed then.
pub(crate) fn closed<'s, S: Semiring, D: Direction<S>>(
    alloc: Global,
    book: Book<'s, S, D>,
    seats: Seats,
) -> Result<Option<Book<'s, S, D>>, OutOfMemory> {
    let mut book = book;
    let is_closed = match seats {
        Seats::One => close_alone(alloc, &mut book)?,
        Seats::Two => close_in_turn(alloc, &mut book)?,
    };
    if is_closed {
        return Ok(Some(book));
    }
    Ok(None)
}
