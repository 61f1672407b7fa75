ghost use Rattle.std.specs.Prelude.{◌≡◌, ◌≤◌, ◌++◌, map, OnOk};
ghost use Rattle.semiring_laws.specs.Semiring.{Fits};
ghost use Rattle.wpds_base.specs.Limits.{most_items};
ghost use Rattle.key_rows.specs.Rows.{index_where};
ghost use Rattle.saturation_laws.specs.declared.job.JobKind.TheVariants.{PostPopMiddle, PostPopOther};
ghost use Rattle.saturation_laws.specs.Ways.{HaveFitWeights};
ghost use Rattle.poststar_laws.specs.Middles.{base_of, frame_of};
ghost use Rattle.poststar_laws.specs.Jobs.{kind_jobs, post_jobs};
ghost use Rattle.poststar.specs.private.Passes.{kind_of, fires_on, IsBase};

use crate::drawing::list_rule;
use crate::glue::list_glues;
use crate::middles::{frame_of, middle_of};
use crate::pass::Pass;
use direction_parts::Draw;
use pushdown_rules::System;
use semiring_laws::Semiring;
use std::alloc::Global;
use weighted_automata::{Entry, Label, Place, Transitions};
use wpds_base::OutOfMemory;

// The first rule that fires where a transition begins.
fn first_rule<S: Semiring>(system: &System<S>, place: Place) -> Option<u32>
    ensures { result ≡ index_where (fires_on place.from place.label) system.now.rules }
{
    match place.label {
        Label::Symbol(symbol) => system.first_with_head(place.from, symbol),
        Label::Empty => None,
    }
}

// Draws the jobs of one kind, by the rules that fire where the transition begins, of which the first is given. The push rule
// is given of which the transition leads to the middle.
fn list_rules<S: Semiring, K: Draw<S>>(
    alloc: Global,
    draw: &K,
    system: &System<S>,
    pass: Pass,
    base: u32,
    frame: Option<u32>,
    first: Option<u32>,
    taken: &Entry<S>,
    into: &mut Vec<K::Made>,
) -> Result<(), OutOfMemory>
    requires base { IsBase base }
    requires frame { frame ≡ frame_of base system.now.rules taken.now.place.to }
    requires first { let place = taken.now.place in
        first ≡ index_where (fires_on place.from place.label) system.now.rules }
    requires taken { Fits (S.operations system.now.semiring) taken.now.weight }
    ensures { let more = kind_jobs base system.now (kind_of pass) taken.now in
        OnOk result (into.new.items ≡ into.old.items ++ map (K.made system.now) more) }
{
    let mut at = first;
    'rules: while let Some(k) = at {
        let middle = middle_of(system, base, k);
        list_rule(
            alloc,
            draw,
            system,
            pass,
            frame,
            middle,
            k,
            system.rule(k),
            taken,
            into,
        )?;
        at = system.next_with_head(k);
    }
    Ok(())
}

// Draws the jobs of the pop rules of both kinds, of which one has none.
fn list_pops<S: Semiring, K: Draw<S>>(
    alloc: Global,
    draw: &K,
    system: &System<S>,
    base: u32,
    frame: Option<u32>,
    first: Option<u32>,
    taken: &Entry<S>,
    into: &mut Vec<K::Made>,
) -> Result<(), OutOfMemory>
    requires base { IsBase base }
    requires frame { frame ≡ frame_of base system.now.rules taken.now.place.to }
    requires first { let place = taken.now.place in
        first ≡ index_where (fires_on place.from place.label) system.now.rules }
    requires taken { Fits (S.operations system.now.semiring) taken.now.weight }
    ensures { let jobs = kind_jobs base system.now in
        let more = jobs PostPopMiddle taken.now ++ jobs PostPopOther taken.now in
        OnOk result (into.new.items ≡ into.old.items ++ map (K.made system.now) more) }
{
    let pass = Pass::pops_of(frame);
    list_rules(alloc, draw, system, pass, base, frame, first, taken, into)
}

/// Draws the jobs of a transition, by kind, by rule, and then by the other input, where the opening has so many items.
pub(crate) fn list_jobs<S: Semiring, K: Draw<S>>(
    alloc: Global,
    draw: &K,
    system: &System<S>,
    items: u32,
    transitions: &Transitions<S>,
    taken: &Entry<S>,
    into: &mut Vec<K::Made>,
) -> Result<(), OutOfMemory>
    requires items { items ≤ most_items }
    requires fit { HaveFitWeights S.operations system.now transitions.now.transitions }
    requires taken { Fits (S.operations system.now.semiring) taken.now.weight }
    ensures { let ts = transitions.now.transitions in
        let all = post_jobs (base_of items system.now) system.now ts taken.now in
        OnOk result (into.new.items ≡ into.old.items ++ map (K.made system.now) all) }
{
    let base = system.controls() + items;
    let frame = frame_of(system, base, taken.place.to);
    let first = first_rule(system, taken.place);
    let (steps, enters, leaves) = (Pass::Steps, Pass::Enters, Pass::Leaves);
    list_rules(alloc, draw, system, steps, base, frame, first, taken, into)?;
    list_pops(alloc, draw, system, base, frame, first, taken, into)?;
    list_rules(alloc, draw, system, enters, base, frame, first, taken, into)?;
    list_rules(alloc, draw, system, leaves, base, frame, first, taken, into)?;
    list_glues(alloc, draw, system, transitions, taken, into)
}
