ghost use Rattle.std.specs.Prelude.{◌≡◌};
ghost use Rattle.semiring_laws.specs.Semiring.{Fits};

use crate::Weigher;
use pushdown_rules::System;
use semiring_laws::Semiring;
use std::alloc::Global;
use std::marker::Model;
use wpds_base::OutOfMemory;

/// Makes weights by the semiring's own calls, and keeps them as they are.
#[derive(Drop)]
pub struct PlainWeigher<'s, S: Semiring> {
    alloc: Global,
    system: &'s System<S>,
}

impl<'s, S: Semiring> Model for PlainWeigher<'s, S> {
    ghost use Rattle.pushdown_rules.specs.Pushdown.{Pushdown};

    ghost Value = { Pushdown S S.W S.Ret };

    ghost view = { λ m. m.system.now };
}

impl<'s, S: Semiring> PlainWeigher<'s, S> {
    /// The weights of a system.
    pub fn new(alloc: Global, system: &'s System<S>) -> PlainWeigher<'s, S>
        ensures { result ≡ system.now }
    {
        PlainWeigher { alloc, system }
    }
}

impl<'s, S: Semiring> Weigher<S> for PlainWeigher<'s, S> {
    type W = S::W;

    ghost pushdown = { λ m. m };

    ghost Knows = { λ m w. Fits (S.operations m.semiring) w };

    ghost worth = { λ m w. w };

    fn one(&mut self) -> Result<S::W, OutOfMemory> {
        self.system.semiring().one(self.alloc)
    }

    fn copy(&mut self, a: &S::W) -> Result<S::W, OutOfMemory> {
        self.system.semiring().copy(self.alloc, a)
    }

    fn is_zero(&self, a: &S::W) -> bool {
        self.system.semiring().is_zero(a)
    }

    fn extend(&mut self, a: &S::W, b: &S::W) -> Result<S::W, OutOfMemory> {
        self.system.semiring().extend(self.alloc, a, b)
    }

    fn rule(&mut self, k: u32) -> Result<S::W, OutOfMemory> {
        self.system
            .semiring()
            .copy(self.alloc, &self.system.rule(k).weight)
    }

    fn rule_then(&mut self, k: u32, a: &S::W) -> Result<S::W, OutOfMemory> {
        self.system
            .semiring()
            .extend(self.alloc, &self.system.rule(k).weight, a)
    }

    fn then_rule(&mut self, a: &S::W, k: u32) -> Result<S::W, OutOfMemory> {
        self.system
            .semiring()
            .extend(self.alloc, a, &self.system.rule(k).weight)
    }

    fn returned(&mut self, k: u32, a: &S::W) -> Result<S::W, OutOfMemory> {
        match &self.system.rule(k).map {
            Some(map) => self.system.semiring().after(self.alloc, map, a),
            None => self.copy(a),
        }
    }

    fn lowered(&mut self, old: &S::W, weight: &S::W) -> Result<Option<S::W>, OutOfMemory> {
        self.system.semiring().lowered(self.alloc, old, weight)
    }

    fn value(&self, a: &S::W) -> Result<S::W, OutOfMemory> {
        self.system.semiring().copy(self.alloc, a)
    }

    fn no_value(&self) -> Result<S::W, OutOfMemory> {
        self.system.semiring().zero(self.alloc)
    }

    fn is_full(&self) -> bool {
        false
    }

    fn renewed(&self) -> Result<PlainWeigher<'s, S>, OutOfMemory> {
        Ok(PlainWeigher::new(self.alloc, self.system))
    }

    fn known(&mut self, w: &S::W) -> Result<S::W, OutOfMemory> {
        self.system.semiring().copy(self.alloc, w)
    }

    ghost fits = { λ m w known. known };
}
