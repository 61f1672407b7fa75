ghost use Rattle.std.specs.Prelude.{◌≡◌, ◌+◌, ◌++◌, map, Some, OnOk};
ghost use Rattle.saturation_laws.specs.Views.{seen};
ghost use Rattle.key_rows.specs.Rows.{index_where, index_from};
ghost use Rattle.poststar.specs.private.Meetings.{may_glue};
ghost use Rattle.std.specs.List.{flat_map};
ghost use Rattle.semiring_laws.specs.Semiring.{Fits};
ghost use Rattle.direction_parts.specs.Places.{reads_symbol};
ghost use Rattle.direction_parts.specs.Passes.{only_if};
ghost use Rattle.poststar_laws.specs.Rows.{are_glued};
ghost use Rattle.poststar_laws.specs.Jobs.{glue_job, glue_jobs};
ghost use Rattle.direction_parts.specs.Worths.{AreFit};

use direction_parts::Draw;
use pushdown_rules::System;
use saturation_laws::{JobKind, JobView};
use semiring_laws::Semiring;
use std::alloc::Global;
use weighted_automata::{Entry, Label, Place, Transitions};
use wpds_base::OutOfMemory;

fn reads_symbol(label: Label) -> bool
    ensures { result ≡ reads_symbol label }
{
    match label {
        Label::Symbol(_) => true,
        Label::Empty => false,
    }
}

// Whether an empty place leads to where another begins, which reads a symbol.
fn are_glued(deep: Place, empty: Place) -> bool
    ensures { result ≡ are_glued deep empty }
{
    reads_symbol(deep.label) && empty.label.is(Label::Empty) && empty.to == deep.from
}

// The job of a transition that reads a symbol, and an empty one.
fn glue_job<'t, S: Semiring>(deep: &'t Entry<S>, empty: &'t Entry<S>) -> JobView<'t, S>
    ensures { seen result ≡ glue_job deep.now empty.now }
{
    let goal = Place {
        from: empty.place.from,
        label: deep.place.label,
        to: deep.place.to,
    };
    JobView {
        kind: JobKind::PostGlue,
        rule: None,
        frame: None,
        first: Some(deep),
        second: Some(empty),
        goal,
    }
}

// Draws the job of these two, if they meet.
fn list_if_glued<S: Semiring, K: Draw<S>>(
    alloc: Global,
    draw: &K,
    system: &System<S>,
    deep: &Entry<S>,
    empty: &Entry<S>,
    into: &mut Vec<K::Made>,
) -> Result<(), OutOfMemory>
    requires deep { Fits (S.operations system.now.semiring) deep.now.weight }
    requires empty { Fits (S.operations system.now.semiring) empty.now.weight }
    ensures { let meets = are_glued deep.now.place empty.now.place in
        let more = map (K.made system.now) (only_if meets (glue_job deep.now empty.now)) in
        OnOk result (into.new.items ≡ into.old.items ++ more) }
{
    if are_glued(deep.place, empty.place) {
        into.push(draw.draw(alloc, system, &glue_job(deep, empty))?)?;
    }
    Ok(())
}

// Draws the jobs of a transition and another, whichever of them reads a symbol.
fn list_glue<S: Semiring, K: Draw<S>>(
    alloc: Global,
    draw: &K,
    system: &System<S>,
    taken: &Entry<S>,
    other: &Entry<S>,
    into: &mut Vec<K::Made>,
) -> Result<(), OutOfMemory>
    requires taken { Fits (S.operations system.now.semiring) taken.now.weight }
    requires other { Fits (S.operations system.now.semiring) other.now.weight }
    ensures { let more = map (K.made system.now) (glue_jobs taken.now other.now) in
        OnOk result (into.new.items ≡ into.old.items ++ more) }
{
    list_if_glued(alloc, draw, system, taken, other, into)?;
    list_if_glued(alloc, draw, system, other, taken, into)
}

// Where the first transition stands that may meet one at a place.
fn first_glued<S: Semiring>(transitions: &Transitions<S>, place: Place) -> Option<u64>
    ensures { result ≡ index_where (may_glue place) transitions.now.transitions }
{
    if reads_symbol(place.label) {
        transitions.first_empty_into(place.from)
    } else {
        transitions.first_out_of(place.to)
    }
}

// Where the next stands behind one of them.
fn next_glued<S: Semiring>(transitions: &Transitions<S>, place: Place, i: u64) -> Option<u64>
    ensures { let ts = transitions.now.transitions in
        let test = may_glue place in
        index_from test i ts ≡ Some i → result ≡ index_from test (i + 1) ts }
{
    if reads_symbol(place.label) {
        transitions.next_empty_into(i)
    } else {
        transitions.next_out_of(i)
    }
}

/// Draws the jobs of a transition and each that it may meet, in their order.
pub(crate) fn list_glues<S: Semiring, K: Draw<S>>(
    alloc: Global,
    draw: &K,
    system: &System<S>,
    transitions: &Transitions<S>,
    taken: &Entry<S>,
    into: &mut Vec<K::Made>,
) -> Result<(), OutOfMemory>
    requires fit { AreFit (S.operations system.now.semiring) transitions.now.transitions }
    requires taken { Fits (S.operations system.now.semiring) taken.now.weight }
    ensures { let more = flat_map (glue_jobs taken.now) transitions.now.transitions in
        OnOk result (into.new.items ≡ into.old.items ++ map (K.made system.now) more) }
{
    let mut at = first_glued(transitions, taken.place);
    'partners: while let Some(i) = at {
        list_glue(alloc, draw, system, taken, transitions.entry(i), into)?;
        at = next_glued(transitions, taken.place, i);
    }
    Ok(())
}
