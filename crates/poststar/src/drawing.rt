ghost use Rattle.std.specs.Prelude.{◌≡◌, ◌++◌, map, OnOk};
ghost use Rattle.saturation_laws.specs.Views.{seen};
ghost use Rattle.semiring_laws.specs.Semiring.{Fits};
ghost use Rattle.weighted_automata.specs.declared.place.Label.TheVariants.{Symbol};
ghost use Rattle.poststar_laws.specs.Rows.{is_pop, skip, step_drawn, return_drawn, pop_drawn, enter_drawn, leave_drawn, drawn};
ghost use Rattle.poststar_laws.specs.Jobs.{drawn_job, rule_jobs};
ghost use Rattle.poststar.specs.private.Passes.{kind_of};

use crate::pass::Pass;
use direction_parts::{Draw, one_symbol, two_symbols};
use poststar_laws::Drawn;
use pushdown_rules::{Rule, System};
use saturation_laws::JobView;
use semiring_laws::Semiring;
use std::alloc::Global;
use weighted_automata::{Entry, Label, Place};
use wpds_base::OutOfMemory;

// The place over a symbol.
fn over(from: u32, symbol: u32, to: u32) -> Place
    ensures { result ≡ record { from = from; label = Symbol symbol; to = to } }
{
    Place {
        from,
        label: Label::Symbol(symbol),
        to,
    }
}

// The place that reads nothing.
fn skip(from: u32, to: u32) -> Place
    ensures { result ≡ skip from to }
{
    Place {
        from,
        label: Label::Empty,
        to,
    }
}

fn is_pop<S: Semiring>(rule: &Rule<S>) -> bool
    ensures { result ≡ is_pop rule.now }
{
    rule.right.len() == 0
}

// What a step rule draws to a state.
fn step_drawn<S: Semiring>(rule: &Rule<S>, state: u32) -> Option<Drawn>
    ensures { result ≡ step_drawn rule.now state }
{
    let Some(top) = one_symbol(rule.right.as_slice()) else {
        return None;
    };
    Some(Drawn {
        frame: None,
        goal: over(rule.to, top, state),
    })
}

// What a pop rule draws to the middle state of a push rule.
fn return_drawn<S: Semiring>(frame: Option<u32>, rule: &Rule<S>, state: u32) -> Option<Drawn>
    ensures { result ≡ return_drawn frame rule.now state }
{
    let Some(number) = frame else {
        return None;
    };
    if !is_pop(rule) {
        return None;
    }
    Some(Drawn {
        frame: Some(number),
        goal: skip(rule.to, state),
    })
}

// What a pop rule draws to a state that is no middle.
fn pop_drawn<S: Semiring>(frame: Option<u32>, rule: &Rule<S>, state: u32) -> Option<Drawn>
    ensures { result ≡ pop_drawn frame rule.now state }
{
    if frame.is_some() || !is_pop(rule) {
        return None;
    }
    Some(Drawn {
        frame: None,
        goal: skip(rule.to, state),
    })
}

// What a push rule draws to its own middle state.
fn enter_drawn<S: Semiring>(middle: u32, rule: &Rule<S>) -> Option<Drawn>
    ensures { result ≡ enter_drawn middle rule.now }
{
    let Some((top, _)) = two_symbols(rule.right.as_slice()) else {
        return None;
    };
    Some(Drawn {
        frame: None,
        goal: over(rule.to, top, middle),
    })
}

// What a push rule draws from its middle state on to a state.
fn leave_drawn<S: Semiring>(middle: u32, rule: &Rule<S>, state: u32) -> Option<Drawn>
    ensures { result ≡ leave_drawn middle rule.now state }
{
    let Some((_, below)) = two_symbols(rule.right.as_slice()) else {
        return None;
    };
    Some(Drawn {
        frame: None,
        goal: over(middle, below, state),
    })
}

// What a rule with a middle state draws to a state, which is the middle of the push rule `frame`.
fn drawn<S: Semiring>(
    pass: Pass,
    frame: Option<u32>,
    middle: u32,
    rule: &Rule<S>,
    state: u32,
) -> Option<Drawn>
    ensures { result ≡ drawn (kind_of pass) frame middle rule.now state }
{
    match pass {
        Pass::Steps => step_drawn(rule, state),
        Pass::Returns => return_drawn(frame, rule, state),
        Pass::Pops => pop_drawn(frame, rule, state),
        Pass::Enters => enter_drawn(middle, rule),
        Pass::Leaves => leave_drawn(middle, rule, state),
    }
}

// The job of what a rule draws from a transition.
fn drawn_job<'t, S: Semiring>(
    pass: Pass,
    number: u32,
    drawn: Drawn,
    taken: &'t Entry<S>,
) -> JobView<'t, S>
    ensures { seen result ≡ drawn_job (kind_of pass) number drawn taken.now }
{
    JobView {
        kind: pass.kind(),
        rule: Some(number),
        frame: drawn.frame,
        first: Some(taken),
        second: None,
        goal: drawn.goal,
    }
}

/// Draws the job of a rule, if it draws one from a transition. Its middle state is given, and the push rule of which the
/// transition leads to the middle.
pub(crate) fn list_rule<S: Semiring, K: Draw<S>>(
    alloc: Global,
    draw: &K,
    system: &System<S>,
    pass: Pass,
    frame: Option<u32>,
    middle: u32,
    number: u32,
    rule: &Rule<S>,
    taken: &Entry<S>,
    into: &mut Vec<K::Made>,
) -> Result<(), OutOfMemory>
    requires { Fits (S.operations system.now.semiring) taken.now.weight }
    ensures { let more = rule_jobs (kind_of pass) frame middle taken.now number rule.now in
        OnOk result (into.new.items ≡ into.old.items ++ map (K.made system.now) more) }
{
    // most rules of a row are of another kind
    if rule.right.len() != pass.pushed() {
        return Ok(());
    }
    let Some(found) = drawn(pass, frame, middle, rule, taken.place.to) else {
        return Ok(());
    };
    if taken
        .place
        .is_from(rule.control, Label::Symbol(rule.symbol))
    {
        into.push(draw.draw(alloc, system, &drawn_job(pass, number, found, taken))?)?;
    }
    Ok(())
}
