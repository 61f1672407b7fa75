ghost use Rattle.std.specs.Prelude.{◌≡◌, ◌+◌};
ghost use Rattle.key_rows.specs.Rows.{index_where, index_from};
ghost use Rattle.prestar_laws.specs.Jobs.{goes_on};
ghost use Rattle.prestar.specs.private.Pushes.{kind_of};
ghost use Rattle.prestar.specs.private.Rows.{may_be_first, may_be_second};

use crate::push::Callee;
use pushdown_rules::System;
use semiring_laws::Semiring;

/// A pass over the push rules of one kind, for a transition from one state over a symbol to another.
#[derive(Drop)]
pub(crate) struct Pass<'a, S: Semiring> {
    pub(crate) system: &'a System<S>,
    pub(crate) callee: Callee,
    pub(crate) from: u32,
    pub(crate) symbol: u32,
    pub(crate) to: u32,
}

impl<'a, S: Semiring> Pass<'a, S> {
    // Whether a call goes on in a state.
    fn goes_on(&self, state: u32) -> bool
        ensures { let p = self.now.system.now in
            result ≡ goes_on p.controls (kind_of self.now.callee) state }
    {
        self.callee.goes_on(self.system.controls(), state)
    }

    /// The first rule of which the transition may be the first input.
    pub(crate) fn first_onto(&self) -> Option<u32>
        ensures { let pass = self.now in
            let test = may_be_first pass.system.now.controls (kind_of pass.callee) pass.from in
            result ≡ index_where (test pass.symbol pass.to) pass.system.now.rules }
    {
        if !self.goes_on(self.to) {
            return None;
        }
        self.system.first_onto(self.from, self.symbol)
    }

    /// The first rule of which it may be the second input.
    pub(crate) fn first_over(&self) -> Option<u32>
        ensures { let pass = self.now in
            let test = may_be_second pass.system.now.controls (kind_of pass.callee) pass.from in
            result ≡ index_where (test pass.symbol) pass.system.now.rules }
    {
        if !self.goes_on(self.from) {
            return None;
        }
        self.system.first_over(self.symbol)
    }

    /// The next rule behind one of which it may be the first input, where a row stands there or behind it.
    pub(crate) fn onto_behind(&self, at: Option<u32>, k: u32) -> Option<u32>
        ensures { let pass = self.now in
            let controls = pass.system.now.controls in
            let test = may_be_first controls (kind_of pass.callee) pass.from pass.symbol pass.to in
            let rules = pass.system.now.rules in
            at ≡ index_from test k rules → result ≡ index_from test (k + 1) rules }
    {
        let Some(j) = at else {
            return None;
        };
        if j != k {
            return at;
        }
        self.system.next_onto(k)
    }

    /// The same for the second input.
    pub(crate) fn over_behind(&self, at: Option<u32>, k: u32) -> Option<u32>
        ensures { let pass = self.now in
            let controls = pass.system.now.controls in
            let test = may_be_second controls (kind_of pass.callee) pass.from pass.symbol in
            let rules = pass.system.now.rules in
            at ≡ index_from test k rules → result ≡ index_from test (k + 1) rules }
    {
        let Some(j) = at else {
            return None;
        };
        if j != k {
            return at;
        }
        self.system.next_over(k)
    }
}
