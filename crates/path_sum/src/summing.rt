ghost use Rattle.std.specs.Prelude.{◌≡◌, ◌<◌, ◌≤◌, ◌+◌, ◌*◌, ◌↔◌, ◌∷◌, [], None, Some, IfOk, MatchOption, length};
ghost use Rattle.semiring_laws.specs.Semiring.{Operations};
ghost use Rattle.weighted_automata.specs.Entries.{entry_at};
ghost use Rattle.saturation_laws.specs.Books.{IsClosed};
ghost use Rattle.saturation_laws.specs.Openings.{AreKept};
ghost use Rattle.path_sum.specs.Sums.{answer_place};
ghost use Rattle.path_sum.specs.private.Growing.{IsShownOver, BeginsBehind, begun_of, state_of};
ghost use Rattle.path_sum.specs.private.Rounds.{IsWalked};
ghost use Rattle.path_sum.specs.Saturated.{IsSaturatedAutomaton};
ghost use Rattle.path_sum.specs.Answers.{Shows, IsValueOf};
ghost use Rattle.path_sum.specs.Results.{IsSumOver, IsSumOf};

use crate::Answer;
use crate::growing::{ANSWER, Growing};
use crate::sum_input::SumInput;
use config_patterns::Pattern;
use pushdown_rules::System;
use saturation_core::{Book, QueuedTransitions, weight_now};
use saturation_laws::{Direction, Opening};
use semiring_laws::Semiring;
use std::alloc::Global;
use weighted_automata::{Label, Place, Transitions};
use witness_graph::{Graph, Listing, Node, Overlay, shorter};
use wpds_base::OutOfMemory;

// The sum with the first pair alone, which has the empty run.
fn start<'g, S: Semiring>(
    alloc: Global,
    input: &SumInput<S>,
    graph: &'g Graph,
) -> Result<Growing<'g, S>, OutOfMemory>
    ensures state { IfOk result (λ x.
        state_of x ≡ begun_of S.operations input.now graph.now.nodes) }
    ensures graph { IfOk result (λ x. x.nodes.graph ≡ graph.now) }
{
    let first = Place {
        from: 0,
        label: Label::Empty,
        to: input.control(),
    };
    let mut nodes = Overlay::new(alloc, graph);
    let mut pairs = QueuedTransitions::new(alloc);
    let number = nodes.push_node(alloc, Node::Start)?;
    let one = input.semiring().one(alloc)?;
    pairs.lower(alloc, first, None, one, number)?;
    Ok(Growing { pairs, nodes })
}

// The listing of the answer's node, made shorter, where it is asked for.
fn list_answer<S: Semiring>(
    alloc: Global,
    sum: &Growing<S>,
    listed: bool,
) -> Result<Option<Listing>, OutOfMemory>
    requires kept { (s : Operations S.W S.Ret)
        × AreKept s sum.now.pairs.transitions (length sum.now.nodes.nodes) }
    requires begins { BeginsBehind sum.now.nodes.graph.nodes sum.now.nodes.nodes }
    ensures { IfOk result (IsShownOver listed sum.now.nodes
        (entry_at answer_place sum.now.pairs.transitions)) }
{
    let graph = sum.nodes.graph();
    let added = sum.nodes.added();
    if !listed {
        return Ok(None);
    }
    let pairs = sum.pairs.list();
    match pairs.find(ANSWER) {
        Some(k) => {
            let node = pairs.entry(k).node;
            let listing = shorter(alloc, graph, added, node)?;
            Ok(Some(listing))
        }
        None => Ok(None),
    }
}

/// The sum with all that goes on from its first pair: nothing waits behind it.
pub(crate) fn walk<'g, S: Semiring, D: Direction<S>>(
    alloc: Global,
    system: &System<S>,
    direction: &D,
    opening: &Opening,
    transitions: &Transitions<S>,
    graph: &'g Graph,
    pattern: &Pattern,
) -> Result<Growing<'g, S>, OutOfMemory>
    requires automaton { IsSaturatedAutomaton S.operations D.way system.now direction.now
        opening.now transitions.now.transitions graph.now.nodes }
    requires pattern { pattern.now.control < system.now.controls }
    ensures walked { IfOk result (λ x. IsWalked S.operations D.way system.now direction.now
        opening.now transitions.now.transitions graph.now.nodes pattern.now (state_of x)) }
    ensures graph { IfOk result (λ x. x.nodes.graph ≡ graph.now) }
{
    let semiring = system.semiring();
    let side = direction.side();
    let input = SumInput::new(alloc, semiring, side, opening, transitions, pattern)?;
    let mut sum = start(alloc, &input, graph)?;
    'rounds: while let Some(taken) = sum.pairs.pop() {
        sum.draw(alloc, &input, taken)?;
    }
    Ok(sum)
}

// The sum that [`sum_parts`] answers, with its listing where that is asked for.
fn sum_shown<S: Semiring, D: Direction<S>>(
    alloc: Global,
    system: &System<S>,
    direction: &D,
    opening: &Opening,
    transitions: &Transitions<S>,
    graph: &Graph,
    pattern: &Pattern,
    listed: bool,
) -> Result<Answer<S>, OutOfMemory>
    requires automaton { IsSaturatedAutomaton S.operations D.way system.now direction.now
        opening.now transitions.now.transitions graph.now.nodes }
    requires side { graph.now.side ≡ (D.way.tables direction.now system.now).side }
    requires pattern { pattern.now.control < system.now.controls }
    ensures { IfOk result (Shows listed (IsSumOver S.operations D.way system.now direction.now
        opening.now transitions.now.transitions graph.now.nodes pattern.now)) }
{
    let sum = walk(
        alloc,
        system,
        direction,
        opening,
        transitions,
        graph,
        pattern,
    )?;
    let semiring = system.semiring();
    let value = weight_now(alloc, semiring, sum.pairs.list(), ANSWER)?;
    let listing = list_answer(alloc, &sum, listed)?;
    Ok(Answer { value, listing })
}

/// The weight of all runs between a pattern and an opening, from the pattern's members to what the opening reads where
/// the direction goes backwards, and the other way round forwards: the combination, over the members and all paths of
/// the transitions that read one to a final state, of the product along the path (Reps, Schwoon, Jha, Melski 2005). The
/// transitions are those of a finished saturation from the opening, and the nodes theirs. What is listed are the sum's
/// own nodes made shorter (`shorter`). Refused only when out of memory. The graph is not copied; beside it at most
/// so many nodes are made as there are pairs and one, times the top rank and one. Each time that a pair of its source waits a
/// transition is looked at once, or not at all where the pattern can read one other symbol alone.
pub fn sum_parts<S: Semiring, D: Direction<S>>(
    alloc: Global,
    system: &System<S>,
    direction: &D,
    opening: &Opening,
    transitions: &Transitions<S>,
    graph: &Graph,
    pattern: &Pattern,
) -> Result<Answer<S>, OutOfMemory>
    requires automaton { IsSaturatedAutomaton S.operations D.way system.now direction.now
        opening.now transitions.now.transitions graph.now.nodes }
    requires side { graph.now.side ≡ (D.way.tables direction.now system.now).side }
    requires pattern { pattern.now.control < system.now.controls }
    ensures { IfOk result (IsSumOver S.operations D.way system.now direction.now
        opening.now transitions.now.transitions graph.now.nodes pattern.now) }
{
    sum_shown(
        alloc,
        system,
        direction,
        opening,
        transitions,
        graph,
        pattern,
        true,
    )
}

// The sum over a closed book, with its listing where that is asked for.
fn sum_book<S: Semiring, D: Direction<S>>(
    alloc: Global,
    book: &Book<'_, S, D>,
    pattern: &Pattern,
    listed: bool,
) -> Result<Answer<S>, OutOfMemory>
    requires closed { IsClosed book.now }
    requires pattern { pattern.now.control < book.now.system.controls }
    ensures { IfOk result (Shows listed (IsSumOf S.operations D.way book.now pattern.now)) }
{
    let system = book.system();
    let direction = book.direction();
    let opening = book.opening();
    let transitions = book.transitions();
    let graph = book.graph();
    sum_shown(
        alloc,
        system,
        &direction,
        opening,
        transitions,
        graph,
        pattern,
        listed,
    )
}

/// The weight of all runs between a pattern and the opening of a closed book, as [`sum_parts`] says, with its listing.
/// Refused only when out of memory.
pub fn sum<S: Semiring, D: Direction<S>>(
    alloc: Global,
    book: &Book<'_, S, D>,
    pattern: &Pattern,
) -> Result<Answer<S>, OutOfMemory>
    requires closed { IsClosed book.now }
    requires pattern { pattern.now.control < book.now.system.controls }
    ensures { IfOk result (IsSumOf S.operations D.way book.now pattern.now) }
{
    sum_book(alloc, book, pattern, true)
}

/// The weight that [`sum`] answers, without making a listing. Refused only when out of memory.
pub fn sum_value<S: Semiring, D: Direction<S>>(
    alloc: Global,
    book: &Book<'_, S, D>,
    pattern: &Pattern,
) -> Result<S::W, OutOfMemory>
    requires closed { IsClosed book.now }
    requires pattern { pattern.now.control < book.now.system.controls }
    ensures { IfOk result (IsValueOf (IsSumOf S.operations D.way book.now pattern.now)) }
{
    Ok(sum_book(alloc, book, pattern, false)?.value)
}
