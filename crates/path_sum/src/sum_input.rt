ghost use Rattle.std.specs.Prelude.{◌≡◌, ◌&&◌, ◌<◌, ◌∷◌, [], ℕ, IfOk, IfSome, Some, false, length, slice_get};
ghost use Rattle.config_patterns.specs.Edges.{is_final_of};
ghost use Rattle.config_patterns.specs.Membership.{has_symbol};
ghost use Rattle.config_patterns.specs.Validity.{IsPattern};
ghost use Rattle.config_patterns.specs.declared.item.Item.{Item as ItemValue};
ghost use Rattle.weighted_automata.specs.declared.place.Label.TheVariants.{Symbol};
ghost use Rattle.path_sum.specs.Sums.{has_state, ways_of};
ghost use Rattle.path_sum.specs.private.Work.{item_at, ReadsAlone};

use crate::lookup::{Lookup, lookups_of};
use config_patterns::{Item, Pattern};
use saturation_laws::Opening;
use semiring_laws::Semiring;
use std::alloc::Global;
use std::marker::Model;
use weighted_automata::{Label, Transitions};
use witness_graph::Side;
use wpds_base::OutOfMemory;

/// What a sum goes over: transitions, the opening that they began with, and a pattern with the sets of its items.
#[derive(Drop)]
pub(crate) struct SumInput<'a, S: Semiring> {
    semiring: &'a S,
    side: Side,
    opening: &'a Opening,
    transitions: &'a Transitions<S>,
    pattern: &'a Pattern,
    lookups: Vec<Lookup>,
}

impl<'a, S: Semiring> Model for SumInput<'a, S> {
    ghost use Rattle.path_sum.specs.private.Inputs.{SumInputValue};
    ghost use Rattle.path_sum.specs.private.Lookups.{AreLookups};

    ghost Value = { SumInputValue S S.W S.Ret };

    ghost view = { λ t. record {
      semiring = t.semiring.now;
      side = t.side;
      opening = t.opening.now;
      transitions = t.transitions.now.transitions;
      pattern = t.pattern.now;
    } };

    ghost invariant = { λ t. AreLookups t.lookups.items t.pattern.now.items };
}

impl<'a, S: Semiring> SumInput<'a, S> {
    /// The input of a sum over these transitions, which read to the opening, and this pattern. The sets of its items are
    /// made ready here, once. Refused only when out of memory.
    pub(crate) fn new(
        alloc: Global,
        semiring: &'a S,
        side: Side,
        opening: &'a Opening,
        transitions: &'a Transitions<S>,
        pattern: &'a Pattern,
    ) -> Result<SumInput<'a, S>, OutOfMemory>
        ensures { IfOk result (λ t. t ≡ record {
          semiring = semiring.now;
          side = side;
          opening = opening.now;
          transitions = transitions.now.transitions;
          pattern = pattern.now;
        }) }
    {
        let lookups = lookups_of(alloc, pattern)?;
        Ok(SumInput {
            semiring,
            side,
            opening,
            transitions,
            pattern,
            lookups,
        })
    }

    /// The semiring of the weights.
    pub(crate) fn semiring(&self) -> &'a S
        ensures { result.now ≡ self.now.semiring }
    {
        self.semiring
    }

    /// Which way the runs go.
    pub(crate) fn side(&self) -> Side
        ensures { result ≡ self.now.side }
    {
        self.side
    }

    /// The transitions.
    pub(crate) fn transitions(&self) -> &'a Transitions<S>
        ensures { result.now.transitions ≡ self.now.transitions }
    {
        self.transitions
    }

    /// The control of the pattern.
    pub(crate) fn control(&self) -> u32
        ensures { result ≡ self.now.pattern.control }
    {
        self.pattern.control()
    }

    /// How many items the pattern has.
    pub(crate) fn items(&self) -> u32
        ensures count { result ≡ length self.now.pattern.items }
        ensures valid { IsPattern self.now.pattern }
    {
        self.pattern.items()
    }

    /// Whether an item of the pattern, counted from 0, has a star.
    pub(crate) fn is_starred(&self, item: u32) -> bool
        requires { item < length self.now.pattern.items }
        ensures { (y : ItemValue) → slice_get self.now.pattern.items item ≡ Some y →
            result ≡ y.star }
    {
        self.pattern.item(item).star
    }

    /// Whether an item of the pattern, counted from 0, has a symbol in its set.
    pub(crate) fn takes(&self, item: u32, symbol: u32) -> bool
        requires { item < length self.now.pattern.items }
        ensures { (y : ItemValue) → slice_get self.now.pattern.items item ≡ Some y →
            result ≡ has_symbol symbol y.set }
    {
        self.lookups[item as usize].has(symbol)
    }

    // Whether an item with a star ends in a state of the pattern, so that it reads on there.
    fn reads_on(&self, state: u32) -> bool
        ensures { (y : ItemValue) → item_at state self.now.pattern.items ≡ Some y →
            result ≡ y.star }
    {
        state > 0 && state <= self.items() && self.is_starred(state - 1)
    }

    /// What the pattern reads from one of its states, where that is one symbol alone or nothing.
    pub(crate) fn only_label(&self, state: u32) -> Option<Label>
        ensures { IfSome result (ReadsAlone (ways_of self.now.pattern).edges state) }
    {
        if self.reads_on(state) {
            return None;
        }
        if state >= self.items() {
            return Some(Label::Empty);
        }
        one_symbol(self.pattern.item(state))
    }

    /// Whether a state of the pattern is final, and one of the automaton.
    pub(crate) fn ends_at(&self, state: u32, other: u32) -> bool
        ensures { result ≡ (is_final_of self.now.pattern.items state
            && has_state other self.now.opening.finals) }
    {
        self.pattern.is_final(state) && has_number(self.opening.finals.as_slice(), other)
    }
}

// The symbol of an item that takes it once and no other.
fn one_symbol(item: &Item) -> Option<Label>
    ensures { IfSome result (λ l. (item.now.star ≡ false) × (g : ℕ)
        × (l ≡ Symbol g) × (item.now.set ≡ g ∷ [])) }
{
    if item.star || item.set.len() != 1 {
        return None;
    }
    Some(Label::Symbol(item.set.at(0)))
}

fn has_number(states: &[u32], state: u32) -> bool
    ensures { result ≡ has_state state states.now }
{
    states.contains(&state)
}
