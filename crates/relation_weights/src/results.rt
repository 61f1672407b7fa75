//! Results that are kept for when the same operation comes again.
ghost use Rattle.std.specs.Prelude.{◌≡◌, IfOk, IfSome, IsTrue};
ghost use Rattle.relation_weights.specs.Relations.{after_of};
ghost use Rattle.relation_weights.specs.private.Steps.{result_of};
ghost use Rattle.relation_weights.specs.declared.rel_map.RelMap.TheVariants.{Slots};

use crate::rel_map::are_same;
use crate::{Relation, Slot};
use once_cell::race::OnceBox;
use std::alloc::Global;
use std::sync::atomic::AtomicU64;
use std::sync::atomic::Ordering::SeqCst;
use wpds_base::OutOfMemory;

// How many results are kept at most: of unions and compositions, and of return maps.
const MOST_OF_PAIRS: usize = 65_536;

const MOST_OF_RETURNS: usize = 4_096;

// How many nodes the kept relations have at most, each relation counted as often as it is kept: 96 MiB of nodes.
const MOST_NODES: u64 = 4_194_304;

// How many places a mark gives, one behind the other.
const TRIES: u64 = 4;

/// What is made of two relations.
#[derive(Clone, Copy, Debug, PartialEq, Eq)]
pub(crate) enum Step {
    Union,
    Composition,
}

/// Two relations over so many bits, and what was made of them.
#[derive(Drop)]
pub(crate) struct OfPair {
    pub(crate) n: u32,
    pub(crate) step: Step,
    pub(crate) a: Relation,
    pub(crate) b: Relation,
    pub(crate) result: Relation,
    pub(crate) ghost right: { result ≡ result_of n step a b },
}

impl OfPair {
    // Whether this is what a step makes of two relations over so many bits.
    fn is_of(&self, n: u32, step: Step, a: &Relation, b: &Relation) -> bool
        ensures { IsTrue result → self.now.result ≡ result_of n step a.now b.now }
    {
        self.n == n && self.step == step && self.a.is_same(a) && self.b.is_same(b)
    }
}

/// A relation over so many bits, and what is returned of it by these slots.
#[derive(Drop)]
pub(crate) struct OfReturn {
    pub(crate) n: u32,
    pub(crate) slots: [Slot; 24],
    pub(crate) of: Relation,
    pub(crate) result: Relation,
    pub(crate) ghost right: { result ≡ after_of n (Slots slots) of },
}

impl OfReturn {
    // Whether this is what is returned of a relation over so many bits, by these slots.
    fn is_of(&self, n: u32, slots: &[Slot; 24], of: &Relation) -> bool
        ensures { IsTrue result → self.now.result ≡ after_of n (Slots slots.now) of.now }
    {
        self.n == n && are_same(&self.slots, slots) && self.of.is_same(of)
    }
}

/// Results, each at a place that its mark gives, for good: what finds these places taken is not kept. Any thread may look
/// one up and add one, and none waits for another.
#[derive(Drop)]
pub(crate) struct Results {
    pairs: Vec<OnceBox<OfPair>>,
    returns: Vec<OnceBox<OfReturn>>,
    // How many nodes the relations have that were to be kept.
    nodes: AtomicU64,
}

impl Results {
    /// No results.
    pub(crate) fn new(alloc: Global) -> Result<Results, OutOfMemory> {
        Ok(Results {
            pairs: empty_places(alloc, MOST_OF_PAIRS)?,
            returns: empty_places(alloc, MOST_OF_RETURNS)?,
            nodes: AtomicU64::new(0),
        })
    }

    /// What was made of two relations, if it is kept.
    pub(crate) fn of_pair(
        &self,
        n: u32,
        step: Step,
        a: &Relation,
        b: &Relation,
    ) -> Result<Option<Relation>, OutOfMemory>
        ensures { IfOk result (λ r. IfSome r (λ w. w ≡ result_of n step a.now b.now)) }
    {
        let mark = mark_of_pair(step, a, b);
        for turn in 0..TRIES {
            match at(&self.pairs, mark.wrapping_add(turn)) {
                Some(kept) if kept.is_of(n, step, a, b) => return Ok(Some(kept.result.share()?)),
                _ => (),
            }
        }
        Ok(None)
    }

    /// What was returned of a relation, if it is kept.
    pub(crate) fn of_return(
        &self,
        n: u32,
        slots: &[Slot; 24],
        of: &Relation,
    ) -> Result<Option<Relation>, OutOfMemory>
        ensures { IfOk result (λ r. IfSome r (λ w. w ≡ after_of n (Slots slots.now) of.now)) }
    {
        let mark = of.mark();
        for turn in 0..TRIES {
            match at(&self.returns, mark.wrapping_add(turn)) {
                Some(kept) if kept.is_of(n, slots, of) => return Ok(Some(kept.result.share()?)),
                _ => (),
            }
        }
        Ok(None)
    }

    /// Keeps what was made of two relations, where there is room for their nodes, a place and memory.
    pub(crate) fn keep_pair(&self, alloc: Global, made: OfPair) {
        if self.takes(&[&made.a, &made.b, &made.result]) {
            let mark = mark_of_pair(made.step, &made.a, &made.b);
            keep(alloc, &self.pairs, mark, made);
        }
    }

    /// Keeps what was returned of a relation, where there is room for their nodes, a place and memory.
    pub(crate) fn keep_return(&self, alloc: Global, made: OfReturn) {
        if self.takes(&[&made.of, &made.result]) {
            let mark = made.of.mark();
            keep(alloc, &self.returns, mark, made);
        }
    }

    // Whether there is room for the nodes of these relations. They are counted as kept then.
    fn takes(&self, relations: &[&Relation]) -> bool {
        let mut more = 0u64;
        for relation in relations {
            more = more.saturating_add(relation.diagram().nodes().len() as u64);
        }
        if self.nodes.load(SeqCst).saturating_add(more) > MOST_NODES {
            return false;
        }
        self.nodes.fetch_add(more, SeqCst);
        true
    }
}

// So many places, each empty.
fn empty_places<T: Drop>(alloc: Global, count: usize) -> Result<Vec<OnceBox<T>>, OutOfMemory> {
    let mut places = Vec::with_capacity(alloc, count)?;
    for _ in 0..count {
        places.push(OnceBox::new(alloc))?;
    }
    Ok(places)
}

// What is kept at the place of a mark.
fn at<T>(places: &[OnceBox<T>], mark: u64) -> Option<&T> {
    let place = places.get(place_of(mark, places.len()))?;
    place.get()
}

// Keeps a result at the first place of its mark that is empty, where there is memory.
fn keep<T: Drop>(alloc: Global, places: &[OnceBox<T>], mark: u64, made: T) {
    let Ok(mut left) = Box::new(alloc, made) else {
        return;
    };
    for turn in 0..TRIES {
        if let Some(place) = places.get(place_of(mark.wrapping_add(turn), places.len())) {
            match place.set(left) {
                Ok(()) => return,
                Err(refused) => left = refused,
            }
        } else {
            return;
        }
    }
}

// Which of so many places a mark gives.
fn place_of(mark: u64, count: usize) -> usize {
    mark.checked_rem(count as u64).unwrap_or(0) as usize
}

// A number that tells most operands apart.
fn mark_of_pair(step: Step, a: &Relation, b: &Relation) -> u64 {
    let first = match step {
        Step::Union => mixed(a.mark(), 1),
        Step::Composition => mixed(a.mark(), 2),
    };
    let both = mixed(first, b.mark());
    both ^ (both / 0x1_0000_0000)
}

// Two numbers mixed by a multiplication.
pub(crate) fn mixed(one: u64, other: u64) -> u64 {
    (one ^ other).wrapping_mul(0x9E37_79B9_7F4A_7C15)
}
