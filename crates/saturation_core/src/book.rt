ghost use Rattle.std.specs.Prelude.{ℕ, ◌≡◌, ◌≢◌, ◌↔◌, ◌<◌, ◌+◌, [], ◌∷◌, ◌++◌, IsTrue, IfOk, IfErr, OnOk, OnErr, IsSome, is_some, length};
ghost use Rattle.wpds_base.specs.Limits.{most_seats};
ghost use Rattle.saturation_laws.specs.declared.event.Event.TheVariants.{Take, Settle, GiveBack};
ghost use Rattle.saturation_laws.specs.States.{hand_at};
ghost use Rattle.saturation_laws.specs.Ways.{start_of};
ghost use Rattle.saturation_laws.specs.Bound.{takes, takes_of};
ghost use Rattle.saturation_laws.specs.Books.{IsBook, Makes, IsClosed, NoHand};
ghost use Rattle.saturation_core.specs.Calls.{AnswersTake, HandWorks, TakesAndSettles};
ghost use Rattle.saturation_core.specs.Settled.{CanSettle};

use crate::found::Found;
use crate::goals::{list_goals, still_tell};
use crate::hands::{no_hands, none_out, place_out, put, seats_out};
use crate::journal::Journal;
use crate::plan::plan_jobs;
use crate::queue::list_jobs;
use crate::same::{agree, lists, same_side};
use crate::{Done, Hand, Lowered, SettleFault, Taken};
use pushdown_rules::System;
use saturation_laws::{Change, Direction, Holding, Opening, SharedJobs};
use semiring_laws::Semiring;
use std::alloc::Global;
use std::marker::Model;
use weighted_automata::Transitions;
use witness_graph::Graph;
use wpds_base::{Gate, OutOfMemory};

/// A saturation: what was found, what waits, which hands are out, and the events so far.
#[derive(Drop)]
pub struct Book<'s, S: Semiring, D: Direction<S>> {
    system: &'s System<S>,
    direction: D,
    opening: Opening,
    // in a box, so that a book is small where it is handed on by value
    found: Box<Found<S>>,
    out: Vec<Option<Holding<S>>>,
    journal: Journal,
    // kept from one turn to the next for its memory alone
    changes: Vec<Change<S>>,
}

impl<'s, S: Semiring, D: Direction<S>> Model for Book<'s, S, D> {
    ghost use Rattle.std.specs.Prelude.{◌≡◌};
    ghost use Rattle.saturation_laws.specs.Books.{BookValue, IsBook};

    ghost Value = { BookValue S S.W S.Ret D };

    ghost use Rattle.saturation_core.specs.BookView.{book_view, HasRoom};
    ghost use Rattle.saturation_core.specs.private.Written.{AreThere};

    ghost view = { book_view };

    ghost invariant = { λ b. IsBook S.operations D.way (book_view b) × HasRoom b
        × (b.found.value.graph.side ≡ (D.way.tables b.direction b.system.now).side)
        × AreThere b.found.value.transitions.transitions b.journal.events };
}

impl<'s, S: Semiring, D: Direction<S>> Book<'s, S, D> {
    /// A saturation that begins with these edges, each of weight one, and backwards with a transition for each pop rule.
    /// Every transition waits, and no hand is out. It is refused only when out of memory, and then what it was given is gone.
    pub fn open(
        alloc: Global,
        system: &'s System<S>,
        direction: D,
        opening: Opening,
    ) -> Result<Book<'s, S, D>, OutOfMemory>
        requires { IsTrue (D.way.fits_opening direction system.now opening) }
        ensures { IfOk result (λ b. b ≡ record {
          system = system.now;
          direction = direction;
          opening = opening;
          state = start_of S.operations D.way direction system.now opening;
          journal = [];
        }) }
    {
        let side = direction.side();
        let mut begun = Found::new(alloc, side)?;
        let edges = opening.edges.as_slice();
        begun.add_edges(alloc, system.semiring(), edges)?;
        begun.add_pops_of(alloc, side, system)?;
        let found = Box::new(alloc, begun)?;
        Ok(Book {
            system,
            direction,
            opening,
            found,
            out: no_hands(alloc)?,
            journal: Journal::new(alloc),
            changes: Vec::new(alloc),
        })
    }

    /// The system. What holds of every book stands in `book`.
    pub fn system(&self) -> &'s System<S>
        ensures value { result.now ≡ self.now.system }
        ensures book { IsBook S.operations D.way self.now }
    {
        self.system
    }

    /// Which way it goes.
    pub fn direction(&self) -> D
        ensures { result ≡ self.now.direction }
    {
        self.direction
    }

    /// What it began with.
    pub fn opening(&self) -> &Opening
        ensures { result.now ≡ self.now.opening }
    {
        &self.opening
    }

    /// What was found so far.
    pub fn transitions(&self) -> &Transitions<S>
        ensures { result.now.transitions ≡ self.now.state.transitions }
    {
        self.found.transitions.list()
    }

    /// The runs that were found so far.
    pub fn graph(&self) -> &Graph
        ensures nodes { result.now.nodes ≡ self.now.state.nodes }
        ensures side { result.now.side ≡ (D.way.tables self.now.direction self.now.system).side }
    {
        &self.found.graph
    }

    /// Whether the queue is empty and no hand is out.
    pub fn is_closed(&self) -> bool
        ensures { IsTrue result ↔ IsClosed self.now }
    {
        match self.found.transitions.front() {
            None => none_out(&self.out),
            Some(_) => false,
        }
    }

    /// Whether a seat has a hand.
    pub fn has_hand(&self, seat: u32) -> bool
        requires { seat < most_seats }
        ensures { result ≡ is_some (hand_at seat self.now.state.hands) }
    {
        place_out(&self.out, seat as usize).is_some()
    }

    /// How often a transition was taken.
    pub fn takes(&self) -> u128
        ensures { result ≡ takes self.now.journal }
    {
        self.journal.takes()
    }

    /// How often this seat has taken one.
    pub fn takes_of(&self, seat: u32) -> u128
        requires { seat < most_seats }
        ensures { result ≡ takes_of seat self.now.journal }
    {
        self.journal.takes_of(seat)
    }

    /// Puts the transition of a hand back into the queue, and takes the hand away.
    pub fn give_back(&mut self, seat: u32)
        requires out { IsSome (hand_at seat self.old.state.hands) }
        ensures { Makes S.operations D.way self.old (GiveBack seat) self.new }
    {
        let at = seat as usize;
        if let Some(place) = place_out(&self.out, at) {
            self.found.transitions.enqueue(place);
            self.journal.give_back(seat);
            put(&mut self.out, at, None);
        }
    }

    /// The transition that waits longest, with its jobs, and what is at their goals, as the seat's hand. It is refused only
    /// when out of memory.
    pub fn take(&mut self, alloc: Global, seat: u32) -> Result<Taken<S>, OutOfMemory>
        requires seat { seat < most_seats }
        requires free { hand_at seat self.old.state.hands ≡ None }
        ensures taken { IfOk result (λ t. AnswersTake S.operations D.way self.old seat t self.new) }
        ensures works { IfOk result (λ t. HandWorks S.operations D.way self.old t) }
        ensures err { OnErr result (self.new ≡ self.old) }
    {
        let transitions = &self.found.transitions;
        match transitions.front() {
            None => Ok(self.at_rest()),
            Some(next) => {
                let (direction, system) = (&self.direction, self.system);
                let listed = list_jobs(alloc, direction, system, transitions, next)?;
                let (semiring, places) = (system.semiring(), transitions.list());
                let goals = list_goals(alloc, semiring, places, listed.as_slice())?;
                let jobs = SharedJobs::new(alloc, listed)?;
                let kept = jobs.share()?;
                let place = next.place;
                self.journal.take(seat, next.number)?;
                self.found.transitions.pop();
                put(
                    &mut self.out,
                    seat as usize,
                    Some(Holding { place, jobs: kept }),
                );
                Ok(Taken::Hand(Hand { seat, jobs, goals }))
            }
        }
    }

    // What a seat is answered where nothing waits.
    fn at_rest(&self) -> Taken<S>
        requires { self.now.state.queue ≡ [] }
        ensures taken { (seat : ℕ) → AnswersTake S.operations D.way self.now seat result self.now }
        ensures works { HandWorks S.operations D.way self.now result }
    {
        if none_out(&self.out) {
            return Taken::Closed;
        }
        Taken::Idle(seats_out(&self.out))
    }

    /// Takes the transition that waits longest, works out its jobs, and settles them in place, all for one seat: the same
    /// as `take`, `work` and `settle`, but without a hand. It calls the gate once, between taking the transition and
    /// settling it. It is refused only when out of memory, and then the book is gone.
    pub fn turn_alone<G: Gate>(
        self,
        alloc: Global,
        seat: u32,
        gate: &G,
    ) -> Result<Book<'s, S, D>, OutOfMemory>
        requires seat { seat < most_seats }
        requires free { NoHand self }
        requires waits { self.state.queue ≢ [] }
        ensures { IfOk result (TakesAndSettles S.operations D.way seat self.entry) }
    {
        let mut book = self;
        let (system, direction) = (book.system, book.direction);
        let mut kept = book.found;
        let found = &mut *kept;
        let Some(next) = found.transitions.pop() else {
            unreachable!()
        };
        book.journal.take(seat, next.number)?;
        gate.between(seat);
        let mut changes = book.changes;
        found.apply_place(alloc, &direction, system, next, &mut changes)?;
        book.found = kept;
        book.changes = changes;
        book.journal.settle(seat);
        Ok(book)
    }

    /// Whether the book can settle this hand: the seat's hand lists its jobs, its side is the book's, and so are the
    /// semiring and each rule that a job names, and each goal that has the node that was seen has the transition that was seen.
    /// Nothing more is asked to settle it. No other rule is compared, and no memory is taken.
    pub fn holds(&self, done: &Done<'_, S, D>) -> bool
        ensures { IsTrue result ↔ CanSettle D.way self.now done.now }
    {
        let (one, other) = (self.system, done.system());
        let jobs = done.jobs().as_slice();
        if !same_side(self.direction.side(), done.side()) {
            return false;
        }
        if !one.semiring().same_kind(other.semiring()) {
            return false;
        }
        if !agree(one, other, jobs) {
            return false;
        }
        let (semiring, seat) = (one.semiring(), done.seat() as usize);
        if !lists(semiring, &self.out, seat, jobs) {
            return false;
        }
        let transitions = self.found.transitions.list();
        still_tell(semiring, transitions, jobs, done.goals().as_slice())
    }

    /// Applies the jobs of a hand, in order: each goal's weight is combined with what the job is worth, and where that
    /// changes the weight, the goal gets a new node and waits, last. Then the hand goes. Where a goal still has the node that was
    /// seen, what was worked out without the book is taken. It is refused only when out of memory.
    pub fn settle<'d>(
        &mut self,
        alloc: Global,
        done: Done<'d, S, D>,
    ) -> Result<Lowered, SettleFault<'d, S, D>>
        requires { CanSettle D.way self.old done }
        ensures settled { OnOk result
            (Makes S.operations D.way self.old (Settle done.entry.seat) self.new) }
        ensures count { IfOk result
            (λ l. length self.old.state.nodes + l.count ≡ length self.new.state.nodes) }
        ensures err { OnErr result (self.new ≡ self.old) }
        ensures fault { IfErr result (λ f. f.done ≡ done.entry) }
    {
        match self.apply(alloc, &done) {
            Ok(lowered) => Ok(lowered),
            Err(_) => Err(SettleFault { done }),
        }
    }

    // Settles a hand: works out what its jobs lower, makes room, and only then changes anything.
    fn apply(&mut self, alloc: Global, done: &Done<'_, S, D>) -> Result<Lowered, OutOfMemory>
        requires { CanSettle D.way self.old done.now }
        ensures settled { OnOk result
            (Makes S.operations D.way self.old (Settle done.now.seat) self.new) }
        ensures count { IfOk result
            (λ l. length self.old.state.nodes + l.count ≡ length self.new.state.nodes) }
        ensures err { OnErr result (self.new ≡ self.old) }
    {
        let seat = done.seat();
        let semiring = self.system.semiring();
        done.candidates();
        let plan = plan_jobs(alloc, semiring, &self.found, done)?;
        let found = &mut *self.found;
        found.make_room(alloc, &plan)?;
        let count = plan.len() as u64;
        found.lower_all(alloc, plan);
        self.journal.settle(seat);
        put(&mut self.out, seat as usize, None);
        Ok(Lowered { count })
    }
}
