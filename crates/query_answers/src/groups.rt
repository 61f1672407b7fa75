//! How many patterns one joint book is opened for.

ghost use Rattle.std.specs.Prelude.{◌≡◌, ◌<◌, ◌≤◌, length};

use config_patterns::Pattern;
use pushdown_rules::System;
use semiring_laws::Semiring;

// A joint book begins with all patterns where its queries end: how many edges these have together, how many transitions over a
// symbol the states of their items may come to have, one for each control, and how many pairs of a state of the pattern where runs
// begin and one of the book a walk may come to. More transitions than these do not stay in a processor's caches: a further book
// is closed faster then, though it finds anew what leads from control to control.
const MOST_EDGES: u64 = 1_000_000;

const MOST_TRANSITIONS: u64 = 60_000;

const MOST_PAIRS: u64 = 4_000_000;

// How large patterns are together.
#[derive(Clone, Copy)]
struct Size {
    edges: u64,
    items: u64,
}

// How many edges the automaton of a pattern has: an item's symbols lead to it from itself if it has a star, and from each
// state before it with nothing but starred items between.
fn edge_count(pattern: &Pattern) -> u64 {
    let mut edges = 0u64;
    let mut sources = 1u64;
    for k in 0..pattern.items() {
        let item = pattern.item(k);
        let from = sources.saturating_add(item.star as u64);
        edges = edges.saturating_add(from.saturating_mul(item.set.len() as u64));
        sources = if item.star { from } else { 1 };
    }
    edges
}

impl Size {
    // With one more pattern.
    fn with(self, pattern: &Pattern) -> Size {
        Size {
            edges: self.edges.saturating_add(edge_count(pattern)),
            items: self.items.saturating_add(u64::from(pattern.items())),
        }
    }

    // Whether a book of patterns of this size stays within the limits, and so does a walk that begins at a pattern with so many
    // items.
    fn is_within<S: Semiring>(self, system: &System<S>, items: u32) -> bool {
        let controls = u64::from(system.controls());
        let transitions = self
            .items
            .saturating_mul(controls)
            .saturating_mul(u64::from(system.symbols()));
        let states = u64::from(items).saturating_add(1);
        let pairs = self.items.saturating_add(controls).saturating_mul(states);
        self.edges <= MOST_EDGES && transitions <= MOST_TRANSITIONS && pairs <= MOST_PAIRS
    }
}

/// How many of these patterns a joint book takes, from the first on: one at least, and as many as stay within the limits. Its queries
/// begin at another pattern.
pub(crate) fn group_len<S: Semiring>(system: &System<S>, from: &Pattern, tos: &[Pattern]) -> usize
    requires { 0 < length tos.now }
    ensures some { 0 < result }
    ensures within { result ≤ length tos.now }
{
    let mut size = Size { edges: 0, items: 0 };
    for (k, to) in tos.iter().enumerate() {
        size = size.with(to);
        if k > 0 && !size.is_within(system, from.items()) {
            return k;
        }
    }
    tos.len()
}
