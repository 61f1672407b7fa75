//! What a value shows, and what a seat at the lock's table knows.
ghost use Rattle.std.specs.Prelude.{ℕ, List};

use atomic_table::{Seat, TableRule};
use std::collections::LinkedList;
use std::marker::PhantomData;
use std::snapshot::Snapshot;

/// A value that keeps a journal.
pub trait Journaled {
    /// What no turn changes.
    type Base;

    type Entry;

    ghost base: { Self → Self.Base };

    ghost journal: { Self → List Self.Entry };

    /// The number of the pass that an entry is of.
    ghost number: { Self.Entry → ℕ };
}

pub enum Stage<E> {
    Idle,
    /// With this ticket.
    Waiting(u64),
    /// With this ticket, and the journal as the turn found it.
    Turn(u64, LinkedList<E>),
}

/// What a seat knows. No value of it is made.
pub struct View<B, E> {
    pub base: Option<B>,
    pub seen: LinkedList<E>,
    /// The numbers that the seat has, with the entries of each: its own first, then those joined in. None: it is spent.
    pub claims: LinkedList<(u64, LinkedList<E>)>,
    /// How many passes were made. Only pass 0 knows.
    pub made: u64,
    pub stage: Stage<E>,
}

/// The rule of the lock's table. Word 0 is the next ticket, word 1 the ticket that is served.
pub(crate) struct Queue<T> {
    value: PhantomData<T>,
}

impl<T: Journaled> TableRule<Option<T>, View<T::Base, T::Entry>, Snapshot<T>> for Queue<T> {
    ghost use Rattle.seat_lock.specs.Queue.{Queued, first_view};

    ghost holds = { λ key. Queued T.base T.journal T.number (T.base key.value) };

    ghost first = { λ key. first_view (T.base key.value) };
}

pub(crate) type Place<T> = Seat<Option<T>, View<<T as Journaled>::Base, <T as Journaled>::Entry>>;
