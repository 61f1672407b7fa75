ghost use Rattle.std.specs.Prelude.{ℕ, ◌≡◌, ◌<◌, ◌≤◌, ◌+◌, ◌++◌, nat_eq, None, Some, IfOk, OnOk, IfSome, IsTrue, length, drop, slice_get, if◌then◌else◌, [], ◌∷◌};
ghost use Rattle.config_patterns.specs.declared.item.Item.{Item as ItemValue};
ghost use Rattle.wpds_base.specs.Limits.{most_items};
ghost use Rattle.semiring_laws.specs.Semiring.{Fits};
ghost use Rattle.weighted_automata.specs.declared.place.Label.TheVariants.{Symbol};
ghost use Rattle.key_rows.specs.Rows.{index_from};
ghost use Rattle.weighted_automata.specs.declared.place.Label.{Label as LabelValue};
ghost use Rattle.weighted_automata.specs.Entries.{Present, is_from};
ghost use Rattle.saturation_laws.specs.States.{apply};
ghost use Rattle.saturation_laws.specs.Openings.{AreKept};
ghost use Rattle.saturation_laws.specs.Paths.{in_order};
ghost use Rattle.path_sum.specs.private.Growing.{CanDraw, MovesBy, GrowsBy, given, state_of};
ghost use Rattle.path_sum.specs.Sums.{bare_sum, ways_of, pair_place, can_move, first_part, second_part, Along};
ghost use Rattle.path_sum.specs.private.Work.{edge_moves, into_moves, on_moves, back_moves, item_at, HaveMoves, moves_by, pair_moves, end_moves, moves_of, ReadsAlone};

use crate::change::apply_parts;
use crate::sum_input::SumInput;
use direction_parts::lower_index;
use saturation_core::{NumberedPlace, QueuedTransitions};
use semiring_laws::Semiring;
use std::alloc::Global;
use weighted_automata::{Entry, Label, Place, Transitions};
use witness_graph::{Graph, Overlay, Side};
use wpds_base::OutOfMemory;

/// A sum while it grows: a weight and a node for each pair that was reached, which of them wait, and the nodes. A pair of a
/// state of the pattern and a state of the automaton is a place between them that reads nothing. On an error it is left in an
/// unspecified state.
#[derive(Drop)]
pub(crate) struct Growing<'g, S: Semiring> {
    pub(crate) pairs: QueuedTransitions<S>,
    pub(crate) nodes: Overlay<'g>,
}

/// Where the answer stands among the pairs: the only place there that reads a symbol.
pub(crate) const ANSWER: Place = Place {
    from: 0,
    label: Label::Symbol(0),
    to: 0,
};

/// The product of two weights, in the side's order.
pub(crate) fn product<S: Semiring>(
    alloc: Global,
    semiring: &S,
    side: Side,
    pair: &S::W,
    transition: &S::W,
) -> Result<S::W, OutOfMemory>
    requires pair { Fits (S.operations semiring.now) pair.now }
    requires transition { Fits (S.operations semiring.now) transition.now }
    ensures { IfOk result (λ w.
        w ≡ in_order (S.operations semiring.now) side pair.now transition.now) }
{
    match side {
        Side::Pre => semiring.extend(alloc, pair, transition),
        Side::Post => semiring.extend(alloc, transition, pair),
    }
}

// The nodes of a pair and of a transition, in the side's order.
fn parts(side: Side, pair: u64, transition: u64) -> (u64, u64)
    ensures first { result.0 ≡ first_part side pair transition }
    ensures second { result.1 ≡ second_part side pair transition }
{
    match side {
        Side::Pre => (pair, transition),
        Side::Post => (transition, pair),
    }
}

// Where the next of a row stands behind a place of the list, if it stands there or behind it.
fn behind<S: Semiring>(transitions: &Transitions<S>, at: Option<u64>, k: u64) -> Option<u64>
    ensures { (state : ℕ) (label : LabelValue) → let test = is_from state label in
        at ≡ index_from test k transitions.now.transitions →
        result ≡ index_from test (k + 1) transitions.now.transitions }
{
    let Some(j) = at else {
        return None;
    };
    if j != k {
        return at;
    }
    transitions.next_from(k)
}

impl<'g, S: Semiring> Growing<'g, S> {
    // Combines a weight into a place, with the runs of these nodes.
    fn apply(
        &mut self,
        alloc: Global,
        semiring: &S,
        place: Place,
        weight: &S::W,
        first: u64,
        second: Option<u64>,
    ) -> Result<(), OutOfMemory>
        requires kept { AreKept (S.operations semiring.now) self.old.pairs.transitions
            (length self.old.nodes.nodes) }
        requires weight { Fits (S.operations semiring.now) weight.now }
        requires first { first < length self.old.nodes.nodes }
        requires second { IfSome second (λ k. k < length self.old.nodes.nodes) }
        ensures state { OnOk result (state_of self.new
            ≡ apply (S.operations semiring.now) (given place weight.now first second)
            (state_of self.old)) }
        ensures kept { OnOk result (AreKept (S.operations semiring.now) self.new.pairs.transitions
            (length self.new.nodes.nodes)) }
        ensures graph { self.new.nodes.graph ≡ self.old.nodes.graph }
    {
        apply_parts(
            alloc,
            semiring,
            &mut self.pairs,
            &mut self.nodes,
            place,
            weight,
            first,
            second,
        )
    }

    // The pair whose transition has this number.
    fn pair(&self, number: u32) -> &Entry<S>
        requires { number < length self.now.pairs.transitions }
        ensures { slice_get self.now.pairs.transitions number ≡ Some result.now }
    {
        self.pairs.list().entry(u64::from(number))
    }

    // Goes along a transition from a pair with its source, to a pair with its target. The pair is read by its number each time,
    // since its weight may have been lowered.
    fn follow(
        &mut self,
        alloc: Global,
        input: &SumInput<S>,
        number: u32,
        i: u32,
        j: u32,
        transition: &Entry<S>,
    ) -> Result<(), OutOfMemory>
        requires ready { CanDraw S.operations input.now number
            (pair_place i transition.now.place.from) (state_of self.old) }
        requires there { Present input.now.transitions transition.now }
        requires edge { IsTrue (can_move (ways_of input.now.pattern).edges
            i transition.now.place.label j) }
        ensures moves { OnOk result (MovesBy S.operations input.now
            (Along i j transition.now.place) (state_of self.old) (state_of self.new)) }
        ensures ready { OnOk result (CanDraw S.operations input.now number
            (pair_place i transition.now.place.from) (state_of self.new)) }
        ensures graph { self.new.nodes.graph ≡ self.old.nodes.graph }
    {
        let goal = Place {
            from: j,
            label: Label::Empty,
            to: transition.place.to,
        };
        let from = self.pair(number);
        let semiring = input.semiring();
        let side = input.side();
        let weight = product(alloc, semiring, side, &from.weight, &transition.weight)?;
        let (first, second) = parts(side, from.node, transition.node);
        self.apply(alloc, semiring, goal, &weight, first, Some(second))?;
        Ok(())
    }

    // Goes along a transition on a symbol into an item of the pattern, if it takes the symbol.
    fn follow_into(
        &mut self,
        alloc: Global,
        input: &SumInput<S>,
        number: u32,
        i: u32,
        symbol: u32,
        item: u32,
        transition: &Entry<S>,
    ) -> Result<(), OutOfMemory>
        requires ready { CanDraw S.operations input.now number
            (pair_place i transition.now.place.from) (state_of self.old) }
        requires there { Present input.now.transitions transition.now }
        requires label { transition.now.place.label ≡ Symbol symbol }
        requires item { item < length input.now.pattern.items }
        requires few { length input.now.pattern.items ≤ most_items }
        requires moves { (y : ItemValue) → slice_get input.now.pattern.items item ≡ Some y →
            HaveMoves (ways_of input.now.pattern).edges i symbol transition.now.place
            (into_moves i symbol transition.now.place (item + 1) y) }
        ensures grows { OnOk result (
            (y : ItemValue) → slice_get input.now.pattern.items item ≡ Some y →
            GrowsBy S.operations input.now
            (into_moves i symbol transition.now.place (item + 1) y)
            (state_of self.old) (state_of self.new)) }
        ensures ready { OnOk result (CanDraw S.operations input.now number
            (pair_place i transition.now.place.from) (state_of self.new)) }
        ensures graph { self.new.nodes.graph ≡ self.old.nodes.graph }
    {
        if !input.takes(item, symbol) {
            return Ok(());
        }
        self.follow(alloc, input, number, i, item + 1, transition)?;
        Ok(())
    }

    // Goes along a transition on a symbol into the items above a state, up to the first without star.
    fn follow_on(
        &mut self,
        alloc: Global,
        input: &SumInput<S>,
        number: u32,
        i: u32,
        symbol: u32,
        transition: &Entry<S>,
    ) -> Result<(), OutOfMemory>
        requires ready { CanDraw S.operations input.now number
            (pair_place i transition.now.place.from) (state_of self.old) }
        requires there { Present input.now.transitions transition.now }
        requires label { transition.now.place.label ≡ Symbol symbol }
        requires moves { HaveMoves (ways_of input.now.pattern).edges i symbol transition.now.place
            (on_moves i symbol transition.now.place (i + 1) (drop i input.now.pattern.items)) }
        ensures grows { OnOk result (GrowsBy S.operations input.now
            (on_moves i symbol transition.now.place (i + 1) (drop i input.now.pattern.items))
            (state_of self.old) (state_of self.new)) }
        ensures ready { OnOk result (CanDraw S.operations input.now number
            (pair_place i transition.now.place.from) (state_of self.new)) }
        ensures graph { self.new.nodes.graph ≡ self.old.nodes.graph }
    {
        for item in i..input.items() {
            self.follow_into(alloc, input, number, i, symbol, item, transition)?;
            if !input.is_starred(item) {
                return Ok(());
            }
        }
        Ok(())
    }

    // Goes along a transition on a symbol to the state where it is, if that is an item's with a star.
    fn follow_back(
        &mut self,
        alloc: Global,
        input: &SumInput<S>,
        number: u32,
        i: u32,
        symbol: u32,
        transition: &Entry<S>,
    ) -> Result<(), OutOfMemory>
        requires ready { CanDraw S.operations input.now number
            (pair_place i transition.now.place.from) (state_of self.old) }
        requires there { Present input.now.transitions transition.now }
        requires label { transition.now.place.label ≡ Symbol symbol }
        requires state { i ≤ length input.now.pattern.items }
        requires few { length input.now.pattern.items ≤ most_items }
        requires moves { HaveMoves (ways_of input.now.pattern).edges i symbol transition.now.place
            (back_moves i symbol transition.now.place (item_at i input.now.pattern.items)) }
        ensures grows { OnOk result (GrowsBy S.operations input.now
            (back_moves i symbol transition.now.place (item_at i input.now.pattern.items))
            (state_of self.old) (state_of self.new)) }
        ensures ready { OnOk result (CanDraw S.operations input.now number
            (pair_place i transition.now.place.from) (state_of self.new)) }
        ensures graph { self.new.nodes.graph ≡ self.old.nodes.graph }
    {
        if i == 0 || !input.is_starred(i - 1) {
            return Ok(());
        }
        self.follow_into(alloc, input, number, i, symbol, i - 1, transition)?;
        Ok(())
    }

    // Goes along a transition on a symbol, with each edge of the pattern on it.
    fn follow_edges(
        &mut self,
        alloc: Global,
        input: &SumInput<S>,
        number: u32,
        i: u32,
        symbol: u32,
        transition: &Entry<S>,
    ) -> Result<(), OutOfMemory>
        requires ready { CanDraw S.operations input.now number
            (pair_place i transition.now.place.from) (state_of self.old) }
        requires there { Present input.now.transitions transition.now }
        requires label { transition.now.place.label ≡ Symbol symbol }
        ensures grows { OnOk result (GrowsBy S.operations input.now
            (edge_moves i symbol transition.now.place (ways_of input.now.pattern).edges)
            (state_of self.old) (state_of self.new)) }
        ensures ready { OnOk result (CanDraw S.operations input.now number
            (pair_place i transition.now.place.from) (state_of self.new)) }
        ensures graph { self.new.nodes.graph ≡ self.old.nodes.graph }
    {
        if i > input.items() {
            return Ok(());
        }
        self.follow_back(alloc, input, number, i, symbol, transition)?;
        self.follow_on(alloc, input, number, i, symbol, transition)?;
        Ok(())
    }

    // Goes along a transition from a pair with its source.
    fn follow_any(
        &mut self,
        alloc: Global,
        input: &SumInput<S>,
        number: u32,
        i: u32,
        transition: &Entry<S>,
    ) -> Result<(), OutOfMemory>
        requires ready { CanDraw S.operations input.now number
            (pair_place i transition.now.place.from) (state_of self.old) }
        requires there { Present input.now.transitions transition.now }
        ensures grows { OnOk result (GrowsBy S.operations input.now
            (moves_by input.now.opening (ways_of input.now.pattern) i transition.now)
            (state_of self.old) (state_of self.new)) }
        ensures ready { OnOk result (CanDraw S.operations input.now number
            (pair_place i transition.now.place.from) (state_of self.new)) }
        ensures graph { self.new.nodes.graph ≡ self.old.nodes.graph }
    {
        match transition.place.label {
            Label::Empty => self.follow(alloc, input, number, i, i, transition),
            Label::Symbol(symbol) => self.follow_edges(alloc, input, number, i, symbol, transition),
        }
    }

    // Goes along each transition from a pair, over the row of all that go from its state.
    fn follow_row(
        &mut self,
        alloc: Global,
        input: &SumInput<S>,
        number: u32,
        i: u32,
        state: u32,
    ) -> Result<(), OutOfMemory>
        requires ready { CanDraw S.operations input.now number (pair_place i state)
            (state_of self.old) }
        ensures grows { OnOk result (GrowsBy S.operations input.now
            (pair_moves input.now.opening (ways_of input.now.pattern) i state input.now.transitions)
            (state_of self.old) (state_of self.new)) }
        ensures ready { OnOk result (CanDraw S.operations input.now number
            (pair_place i state) (state_of self.new)) }
        ensures graph { self.new.nodes.graph ≡ self.old.nodes.graph }
    {
        let transitions = input.transitions();
        let mut at = transitions.first_out_of(state);
        while let Some(k) = at {
            self.follow_any(alloc, input, number, i, transitions.entry(k))?;
            at = transitions.next_out_of(k);
        }
        Ok(())
    }

    // The same, over the rows of those that read one label and of those that read nothing. The pattern reads no other label.
    fn follow_label(
        &mut self,
        alloc: Global,
        input: &SumInput<S>,
        number: u32,
        i: u32,
        state: u32,
        label: Label,
    ) -> Result<(), OutOfMemory>
        requires ready { CanDraw S.operations input.now number (pair_place i state)
            (state_of self.old) }
        requires alone { ReadsAlone (ways_of input.now.pattern).edges i label }
        ensures grows { OnOk result (GrowsBy S.operations input.now
            (pair_moves input.now.opening (ways_of input.now.pattern) i state input.now.transitions)
            (state_of self.old) (state_of self.new)) }
        ensures ready { OnOk result (CanDraw S.operations input.now number
            (pair_place i state) (state_of self.new)) }
        ensures graph { self.new.nodes.graph ≡ self.old.nodes.graph }
    {
        let transitions = input.transitions();
        let mut reading = transitions.first_from(state, label);
        let mut empty = transitions.first_from(state, Label::Empty);
        'rows: while let Some(k) = lower_index(reading, empty) {
            self.follow_any(alloc, input, number, i, transitions.entry(k))?;
            reading = behind(transitions, reading, k);
            empty = behind(transitions, empty, k);
        }
        Ok(())
    }

    // Goes along each transition from a pair.
    fn follow_all(
        &mut self,
        alloc: Global,
        input: &SumInput<S>,
        number: u32,
        i: u32,
        state: u32,
    ) -> Result<(), OutOfMemory>
        requires ready { CanDraw S.operations input.now number (pair_place i state)
            (state_of self.old) }
        ensures grows { OnOk result (GrowsBy S.operations input.now
            (pair_moves input.now.opening (ways_of input.now.pattern) i state input.now.transitions)
            (state_of self.old) (state_of self.new)) }
        ensures ready { OnOk result (CanDraw S.operations input.now number
            (pair_place i state) (state_of self.new)) }
        ensures graph { self.new.nodes.graph ≡ self.old.nodes.graph }
    {
        match input.only_label(i) {
            Some(label) => self.follow_label(alloc, input, number, i, state, label),
            None => self.follow_row(alloc, input, number, i, state),
        }
    }

    // Adds a pair of final states to the answer.
    #[tactic(auto, using(crate::proofs::ReadyLemmas::numbered_entry))]
    fn finish(
        &mut self,
        alloc: Global,
        input: &SumInput<S>,
        number: u32,
        i: u32,
        state: u32,
    ) -> Result<(), OutOfMemory>
        requires ready { CanDraw S.operations input.now number (pair_place i state)
            (state_of self.old) }
        ensures grows { OnOk result (GrowsBy S.operations input.now
            (end_moves input.now.opening (ways_of input.now.pattern) i state)
            (state_of self.old) (state_of self.new)) }
        ensures graph { self.new.nodes.graph ≡ self.old.nodes.graph }
    {
        if !input.ends_at(i, state) {
            return Ok(());
        }
        let from = self.pair(number);
        let semiring = input.semiring();
        let weight = semiring.copy(alloc, &from.weight)?;
        let node = from.node;
        self.apply(alloc, semiring, ANSWER, &weight, node, None)?;
        Ok(())
    }

    /// Adds all that goes on from a place. Its transition is read by its number.
    pub(crate) fn draw(
        &mut self,
        alloc: Global,
        input: &SumInput<S>,
        taken: NumberedPlace,
    ) -> Result<(), OutOfMemory>
        requires ready { CanDraw S.operations input.now taken.number taken.place
            (state_of self.old) }
        ensures grows { OnOk result (GrowsBy S.operations input.now
            (moves_of input.now.opening (ways_of input.now.pattern) input.now.transitions
            taken.place)
            (state_of self.old) (state_of self.new)) }
        ensures graph { self.new.nodes.graph ≡ self.old.nodes.graph }
    {
        let place = taken.place;
        match place.label {
            Label::Empty => {
                self.follow_all(alloc, input, taken.number, place.from, place.to)?;
                self.finish(alloc, input, taken.number, place.from, place.to)?;
                Ok(())
            }
            Label::Symbol(_) => Ok(()),
        }
    }
}
