ghost use Rattle.std.specs.Prelude.{◌≡◌, ◌+◌, ◌++◌, ◌&&◌, map, OnOk};
ghost use Rattle.saturation_laws.specs.Views.{seen};
ghost use Rattle.std.specs.List.{flat_map};
ghost use Rattle.semiring_laws.specs.Semiring.{Fits};
ghost use Rattle.prestar_laws.specs.Jobs.{push_job, goes_on, are_inputs, pair_jobs, may_be_input, pairs_of};
ghost use Rattle.direction_parts.specs.Worths.{AreFit};
ghost use Rattle.prestar.specs.private.Pushes.{kind_of};
ghost use Rattle.weighted_automata.specs.declared.place.Label.TheVariants.{Symbol};
ghost use Rattle.weighted_automata.specs.Places.{same_label};
ghost use Rattle.weighted_automata.specs.Entries.{is_from};
ghost use Rattle.prestar.specs.private.Rows.{is_first, is_second};
ghost use Rattle.key_rows.specs.Rows.{index_where, index_from};
ghost use Rattle.direction_parts.specs.Passes.{only_if};

use direction_parts::{Draw, lower_index};
use pushdown_rules::{Rule, System};
use saturation_laws::{JobKind, JobView};
use semiring_laws::Semiring;
use std::alloc::Global;
use weighted_automata::{Entry, Label, Place, Transitions};
use wpds_base::OutOfMemory;

/// What becomes of the procedure that a push calls.
#[derive(Clone, Copy, Debug, PartialEq, Eq)]
pub(crate) enum Callee {
    /// It comes to a control, from which the second input goes on.
    Returns,
    /// It comes to any other state.
    StaysOpen,
}

impl Callee {
    fn kind(self) -> JobKind
        ensures { result ≡ kind_of self }
    {
        match self {
            Callee::Returns => JobKind::PrePushControl,
            Callee::StaysOpen => JobKind::PrePushOther,
        }
    }

    /// Whether a push of this kind goes on in a state.
    pub(crate) fn goes_on(self, controls: u32, state: u32) -> bool
        ensures { result ≡ goes_on controls (kind_of self) state }
    {
        match self {
            Callee::Returns => state < controls,
            Callee::StaysOpen => state >= controls,
        }
    }
}

/// A push rule, in a pass for pushes of one kind. It leaves `top` above `below`.
#[derive(Drop)]
pub(crate) struct Push<'a, S: Semiring> {
    pub(crate) controls: u32,
    pub(crate) callee: Callee,
    pub(crate) number: u32,
    pub(crate) rule: &'a Rule<S>,
    pub(crate) top: u32,
    pub(crate) below: u32,
}

impl<'a, S: Semiring> Push<'a, S> {
    // Whether its callee goes on in a state.
    fn goes_on(&self, state: u32) -> bool
        ensures { result ≡ goes_on self.now.controls (kind_of self.now.callee) state }
    {
        self.callee.goes_on(self.controls, state)
    }

    // Whether two transitions are its inputs.
    fn takes(&self, first: &Entry<S>, second: &Entry<S>) -> bool
        ensures { let push = self.now in
            let kind = kind_of push.callee in
            result ≡ are_inputs push.controls kind push.rule.now push.top push.below first.now
            second.now }
    {
        let state = first.place.to;
        first.place.is_from(self.rule.to, Label::Symbol(self.top))
            && second.place.is_from(state, Label::Symbol(self.below))
            && self.goes_on(state)
    }

    // Whether a transition can be one of its inputs.
    fn may_take(&self, taken: &Entry<S>) -> bool
        ensures { result ≡ may_be_input self.now.rule.now self.now.top self.now.below taken.now }
    {
        taken.place.is_from(self.rule.to, Label::Symbol(self.top))
            || taken.place.label.is(Label::Symbol(self.below))
    }

    // Its job from two transitions.
    fn job<'t>(&self, first: &'t Entry<S>, second: &'t Entry<S>) -> JobView<'t, S>
        ensures { let push = self.now in
            let made = push_job (kind_of push.callee) push.number push.rule.now in
            seen result ≡ made first.now second.now }
    {
        let goal = Place {
            from: self.rule.control,
            label: Label::Symbol(self.rule.symbol),
            to: second.place.to,
        };
        JobView {
            kind: self.callee.kind(),
            rule: Some(self.number),
            frame: None,
            first: Some(first),
            second: Some(second),
            goal,
        }
    }

    // Draws its job from two transitions, where they are its inputs.
    fn list_if<K: Draw<S>>(
        &self,
        alloc: Global,
        draw: &K,
        system: &System<S>,
        listed: bool,
        first: &Entry<S>,
        second: &Entry<S>,
        into: &mut Vec<K::Made>,
    ) -> Result<(), OutOfMemory>
        requires first { Fits (S.operations system.now.semiring) first.now.weight }
        requires second { Fits (S.operations system.now.semiring) second.now.weight }
        ensures { let push = self.now in
            let made = push_job (kind_of push.callee) push.number push.rule.now in
            let more = map (K.made system.now) (only_if listed (made first.now second.now)) in
            OnOk result (into.new.items ≡ into.old.items ++ more) }
    {
        if listed {
            into.push(draw.draw(alloc, system, &self.job(first, second))?)?;
        }
        Ok(())
    }

    // Draws its jobs from a transition and another, whichever of them is the first input.
    fn list_pair<K: Draw<S>>(
        &self,
        alloc: Global,
        draw: &K,
        system: &System<S>,
        taken: &Entry<S>,
        other: &Entry<S>,
        into: &mut Vec<K::Made>,
    ) -> Result<(), OutOfMemory>
        requires taken { Fits (S.operations system.now.semiring) taken.now.weight }
        requires other { Fits (S.operations system.now.semiring) other.now.weight }
        ensures { let push = self.now in
            let kind = kind_of push.callee in
            let pair = pair_jobs push.controls kind push.number push.rule.now push.top push.below in
            let more = map (K.made system.now) (pair taken.now other.now) in
            OnOk result (into.new.items ≡ into.old.items ++ more) }
    {
        let first = self.takes(taken, other);
        self.list_if(alloc, draw, system, first, taken, other, into)?;
        let second = !other.place.is(taken.place) && self.takes(other, taken);
        self.list_if(alloc, draw, system, second, other, taken, into)
    }

    // Whether a transition can be its first input, and its callee goes on behind it.
    fn fits_first(&self, taken: &Entry<S>) -> bool
        ensures { let push = self.now in
            let goes = goes_on push.controls (kind_of push.callee) taken.now.place.to in
            result ≡ (is_from push.rule.now.to (Symbol push.top) taken.now && goes) }
    {
        taken.place.is_from(self.rule.to, Label::Symbol(self.top)) && self.goes_on(taken.place.to)
    }

    // Whether a transition can be its second input, and its callee goes on there.
    fn fits_second(&self, taken: &Entry<S>) -> bool
        ensures { let push = self.now in
            let goes = goes_on push.controls (kind_of push.callee) taken.now.place.from in
            result ≡ (same_label taken.now.place.label (Symbol push.below) && goes) }
    {
        taken.place.label.is(Label::Symbol(self.below)) && self.goes_on(taken.place.from)
    }

    // Where the first transition stands that is its second input, if this one is the first.
    fn first_second(&self, transitions: &Transitions<S>, taken: &Entry<S>) -> Option<u64>
        ensures { let push = self.now in
            let test = is_second push.controls (kind_of push.callee) push.rule.now push.top in
            result ≡ index_where (test push.below taken.now) transitions.now.transitions }
    {
        if !self.fits_first(taken) {
            return None;
        }
        transitions.first_from(taken.place.to, Label::Symbol(self.below))
    }

    // Where the transition stands that is its first input, if this one is the second.
    fn only_first(&self, transitions: &Transitions<S>, taken: &Entry<S>) -> Option<u64>
        ensures { let push = self.now in
            let test = is_first push.controls (kind_of push.callee) push.rule.now push.top in
            result ≡ index_where (test push.below taken.now) transitions.now.transitions }
    {
        if !self.fits_second(taken) {
            return None;
        }
        transitions.find(Place {
            from: self.rule.to,
            label: Label::Symbol(self.top),
            to: taken.place.from,
        })
    }

    // Where its next second input stands behind one place of the list, if it stands there or behind it.
    fn second_behind(
        &self,
        transitions: &Transitions<S>,
        taken: &Entry<S>,
        at: Option<u64>,
        i: u64,
    ) -> Option<u64>
        ensures { let push = self.now in
            let kind = kind_of push.callee in
            let test = is_second push.controls kind push.rule.now push.top push.below taken.now in
            let ts = transitions.now.transitions in
            at ≡ index_from test i ts → result ≡ index_from test (i + 1) ts }
    {
        let Some(j) = at else {
            return None;
        };
        if j != i {
            return at;
        }
        transitions.next_from(i)
    }

    // The same for its first input, of which there is one at most.
    fn first_behind(
        &self,
        transitions: &Transitions<S>,
        taken: &Entry<S>,
        at: Option<u64>,
        i: u64,
    ) -> Option<u64>
        ensures { let push = self.now in
            let kind = kind_of push.callee in
            let test = is_first push.controls kind push.rule.now push.top push.below taken.now in
            let ts = transitions.now.transitions in
            at ≡ index_from test i ts → result ≡ index_from test (i + 1) ts }
    {
        // the places of the transitions are distinct
        let _count = transitions.len();
        let Some(j) = at else {
            return None;
        };
        if j != i {
            return at;
        }
        None
    }

    // Draws its jobs from a transition and each other that can be its other input, in their order.
    fn list_pairs<K: Draw<S>>(
        &self,
        alloc: Global,
        draw: &K,
        system: &System<S>,
        transitions: &Transitions<S>,
        taken: &Entry<S>,
        into: &mut Vec<K::Made>,
    ) -> Result<(), OutOfMemory>
        requires fit { AreFit (S.operations system.now.semiring) transitions.now.transitions }
        requires taken { Fits (S.operations system.now.semiring) taken.now.weight }
        ensures { let push = self.now in
            let kind = kind_of push.callee in
            let pair = pair_jobs push.controls kind push.number push.rule.now push.top push.below in
            let all = flat_map (pair taken.now) transitions.now.transitions in
            OnOk result (into.new.items ≡ into.old.items ++ map (K.made system.now) all) }
    {
        let mut second = self.first_second(transitions, taken);
        let mut first = self.only_first(transitions, taken);
        'partners: while let Some(i) = lower_index(second, first) {
            self.list_pair(alloc, draw, system, taken, transitions.entry(i), into)?;
            second = self.second_behind(transitions, taken, second, i);
            first = self.first_behind(transitions, taken, first, i);
        }
        Ok(())
    }

    /// Draws its jobs of which a transition is an input.
    pub(crate) fn list<K: Draw<S>>(
        &self,
        alloc: Global,
        draw: &K,
        system: &System<S>,
        transitions: &Transitions<S>,
        taken: &Entry<S>,
        into: &mut Vec<K::Made>,
    ) -> Result<(), OutOfMemory>
        requires fit { AreFit (S.operations system.now.semiring) transitions.now.transitions }
        requires taken { Fits (S.operations system.now.semiring) taken.now.weight }
        ensures { let push = self.now in
            let pairs = pairs_of push.controls (kind_of push.callee) transitions.now.transitions in
            let all = pairs taken.now push.number push.rule.now push.top push.below in
            OnOk result (into.new.items ≡ into.old.items ++ map (K.made system.now) all) }
    {
        if !self.may_take(taken) {
            return Ok(());
        }
        self.list_pairs(alloc, draw, system, transitions, taken, into)
    }
}
