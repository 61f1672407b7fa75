ghost use Rattle.std.specs.Prelude.{◌≡◌, ◌<◌, ◌≤◌, ◌+◌, ◌++◌, ◌∷◌, [], OnOk, OnErr, length};
ghost use Rattle.wpds_base.specs.Limits.{most_seats};
ghost use Rattle.saturation_core.specs.JournalEvents.{Take, Settle, GiveBack};
ghost use Rattle.saturation_core.specs.private.Records.{is_taken_by, taken_by};
ghost use Rattle.saturation_core.specs.private.Written.{takes_in, takes_in_of};

use std::alloc::Global;
use std::marker::Model;
use wpds_base::OutOfMemory;

/// An event without its transition, by one of 64 seats.
#[derive(Clone, Copy, Debug)]
pub(crate) enum Mark {
    Take { seat: u8 },
    Settle { seat: u8 },
    GiveBack { seat: u8 },
}

/// The events of a book, in order. The transitions that are taken stand apart, by number, so that an event is a mark of
/// two bytes, and a take has four bytes besides.
#[derive(Drop)]
pub struct Journal {
    marks: Vec<Mark>,
    // Those of the takes, in order.
    numbers: Vec<u32>,
}

impl Model for Journal {
    ghost use Rattle.std.specs.Prelude.{◌≡◌, ◌-◌, vec_len, vec_capacity, length};
    ghost use Rattle.saturation_core.specs.JournalEvents.{JournalEvents};
    ghost use Rattle.saturation_core.specs.private.Records.{events_of, taken};

    ghost Value = { JournalEvents };

    ghost view = { λ j. record {
      events = events_of j.marks.items j.numbers.items;
      spare = vec_capacity j.marks - vec_len j.marks;
    } };

    ghost invariant = { λ j. taken j.marks.items ≡ length j.numbers.items };
}

// Whether the mark is a take of this seat.
fn takes_for(mark: Mark, seat: u32) -> bool
    ensures { result ≡ is_taken_by seat mark }
{
    match mark {
        Mark::Take { seat: taker } => u32::from(taker) == seat,
        Mark::Settle { .. } => false,
        Mark::GiveBack { .. } => false,
    }
}

// How many of the marks are takes of this seat.
fn count_takes_of(marks: &[Mark], seat: u32) -> u128
    ensures { result ≡ taken_by seat marks.now }
{
    let mut count = 0;
    for mark in marks {
        if takes_for(*mark, seat) {
            count += 1;
        }
    }
    count
}

impl Journal {
    /// No event, and no room. It takes no memory.
    pub(crate) fn new(alloc: Global) -> Journal
        ensures { result.events ≡ [] }
    {
        Journal {
            marks: Vec::new(alloc),
            numbers: Vec::new(alloc),
        }
    }

    /// Writes down that a seat takes the transition with a number, and makes room for one more event of each seat.
    pub(crate) fn take(&mut self, seat: u32, number: u32) -> Result<(), OutOfMemory>
        requires { seat < most_seats }
        ensures ok { OnOk result (self.new.events ≡ self.old.events ++ Take seat number ∷ []) }
        ensures room { OnOk result (most_seats ≤ self.new.spare) }
        ensures err { OnErr result (self.new.events ≡ self.old.events) }
        ensures kept { OnErr result (self.old.spare ≤ self.new.spare) }
    {
        self.marks.reserve(65)?;
        self.numbers.push(number)?;
        self.marks.push_reserved(Mark::Take { seat: seat as u8 });
        Ok(())
    }

    /// Writes down that a seat settles its hand.
    pub(crate) fn settle(&mut self, seat: u32)
        requires seat { seat < most_seats }
        requires room { 0 < self.old.spare }
        ensures events { self.new.events ≡ self.old.events ++ Settle seat ∷ [] }
        ensures spare { self.old.spare ≤ self.new.spare + 1 }
    {
        self.marks.push_reserved(Mark::Settle { seat: seat as u8 });
    }

    /// Writes down that a seat gives its hand back.
    pub(crate) fn give_back(&mut self, seat: u32)
        requires seat { seat < most_seats }
        requires room { 0 < self.old.spare }
        ensures events { self.new.events ≡ self.old.events ++ GiveBack seat ∷ [] }
        ensures spare { self.old.spare ≤ self.new.spare + 1 }
    {
        self.marks
            .push_reserved(Mark::GiveBack { seat: seat as u8 });
    }

    /// How many of the events are takes.
    pub(crate) fn takes(&self) -> u128
        ensures { result ≡ takes_in self.now.events }
    {
        self.numbers.len() as u128
    }

    /// How many of the events are takes of this seat.
    pub(crate) fn takes_of(&self, seat: u32) -> u128
        ensures { result ≡ takes_in_of seat self.now.events }
    {
        count_takes_of(&self.marks, seat)
    }
}
