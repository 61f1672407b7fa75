ghost use Rattle.std.specs.Prelude.{◌≡◌, ◌≤◌, ◌<◌, All, IsTrue, IfOk};
ghost use Rattle.wpds_base.specs.Limits.{most_related};
ghost use Rattle.semiring_laws.specs.Semiring.{Fits};
ghost use Rattle.truth_tables.specs.Formulas.{formula, is_over};
ghost use Rattle.relation_laws.specs.Relations.{relation_of, identity, leads, union, composition};
ghost use Rattle.relation_weights.specs.Actions as spec;
ghost use Rattle.relation_weights.specs.Actions.{frame_pairs, AreTargets};
ghost use Rattle.relation_weights.specs.Relations.{relation_operations, relation_fits, after_of, map_fits};
ghost use Rattle.relation_weights.specs.declared.rel_map.RelMap.TheVariants.{Slots};
ghost use Rattle.relation_weights.specs.private.Steps.{result_of};
ghost use Rattle.relation_weights.specs.RelationLaws.{relation_laws};

use crate::actions::{assigned, assumed};
use crate::frames::frame;
use crate::results::{OfPair, OfReturn, Results, Step};
use crate::returns::returned;
use crate::{RelMap, Relation, Slot, Value};
use diagram_ops::{apply_table2, compose_relations};
use diagram_store::Diagram;
use semiring_laws::Semiring;
use std::alloc::Global;
use std::marker::Model;
use truth_tables::Expr;
use wpds_base::OutOfMemory;

// The table of disjunction.
const OR: u8 = 14;

/// The semiring of relations between states of so many bits, at most 24 (as the weights of Boolean programs: Schwoon 2002;
/// Reps, Schwoon, Jha and Melski 2005). Combine is the union, extend is the composition, the first relation first, zero is
/// the empty relation and one the identity. Contracts see it as the number of bits.
///
/// Extending by zero or the identity, combining with zero or an equal relation, and a return map that changes nothing
/// share an operand, and make no operation on diagrams. That zero or an equal relation lowers nothing is told before any.
/// Where no more can share a relation, a copy answers out of memory.
#[derive(Drop)]
pub struct Relations {
    n: u32,
    // Results of operations that were made, where they are kept.
    results: Option<Results>,
}

impl Model for Relations {
    ghost use Rattle.std.specs.Prelude.{ℕ, ◌≤◌};
    ghost use Rattle.wpds_base.specs.Limits.{most_related};

    ghost Value = { ℕ };

    ghost view = { λ r. r.n };

    ghost invariant = { λ r. r.n ≤ most_related };
}

impl Relations {
    /// The relations between states of `n` bits.
    pub fn new(n: u32) -> Relations
        requires { n ≤ most_related }
        ensures { result ≡ n }
    {
        Relations { n, results: None }
    }

    /// The same, but results of operations are kept, for when an operation comes again. Where there is no memory for a
    /// table of them, none is kept.
    pub fn keeping_results(alloc: Global, n: u32) -> Relations
        requires { n ≤ most_related }
        ensures { result ≡ n }
    {
        Relations {
            n,
            results: Results::new(alloc).ok(),
        }
    }

    /// How many bits a state has.
    pub fn bits(&self) -> u32
        ensures bits { result ≡ self.now }
        ensures few { result ≤ most_related }
    {
        self.n
    }

    /// The assignment of these targets. All values are taken in the old state, and the other numbers stay.
    pub fn assign(&self, alloc: Global, targets: &[(u32, Value)]) -> Result<Relation, OutOfMemory>
        requires { AreTargets self.now targets.now }
        ensures pairs { IfOk result (λ w.
            w ≡ relation_of self.now (spec.assigned self.now targets.now)) }
        ensures fits { IfOk result (λ w. Fits (relation_operations self.now) w) }
    {
        assigned(alloc, self.n, targets)
    }

    /// The identity where the expression is true in the old state.
    pub fn assume(&self, alloc: Global, e: &Expr) -> Result<Relation, OutOfMemory>
        requires { IsTrue (is_over self.now (formula e.now)) }
        ensures pairs { IfOk result (λ w.
            w ≡ relation_of self.now (spec.assumed self.now (formula e.now))) }
        ensures fits { IfOk result (λ w. Fits (relation_operations self.now) w) }
    {
        assumed(alloc, self.n, e)
    }

    /// Each listed number may have either bit, and the others stay. One that is listed twice counts once.
    pub fn choose(&self, alloc: Global, vars: &[u32]) -> Result<Relation, OutOfMemory>
        requires { All (λ v. v < self.now) vars.now }
        ensures pairs { IfOk result (λ w.
            w ≡ relation_of self.now (frame_pairs self.now vars.now)) }
        ensures fits { IfOk result (λ w. Fits (relation_operations self.now) w) }
    {
        let made = frame(alloc, self.n, vars)?;
        Relation::new(alloc, made)
    }

    // What a step makes of two relations: what was kept, or else what is made now, to be kept.
    fn result(
        &self,
        alloc: Global,
        step: Step,
        a: &Relation,
        b: &Relation,
    ) -> Result<Relation, OutOfMemory>
        requires left { IsTrue (relation_fits self.now a.now) }
        requires right { IsTrue (relation_fits self.now b.now) }
        ensures { IfOk result (λ w. w ≡ result_of self.now step a.now b.now) }
    {
        let n = self.n;
        let Some(results) = &self.results else {
            return made_by(alloc, n, step, a, b);
        };
        if let Some(kept) = results.of_pair(n, step, a, b)? {
            return Ok(kept);
        }
        let result = made_by(alloc, n, step, a, b)?;
        let made = OfPair {
            n,
            step,
            a: a.share()?,
            b: b.share()?,
            result: result.share()?,
        };
        results.keep_pair(alloc, made);
        Ok(result)
    }

    // What is returned by these slots: what was kept, or else what is made now, to be kept.
    fn result_of_return(
        &self,
        alloc: Global,
        slots: &[Slot; 24],
        of: &Relation,
    ) -> Result<Relation, OutOfMemory>
        requires slots { IsTrue (map_fits self.now (Slots slots.now)) }
        requires weight { IsTrue (relation_fits self.now of.now) }
        ensures { IfOk result (λ w. w ≡ after_of self.now (Slots slots.now) of.now) }
    {
        let n = self.n;
        let Some(results) = &self.results else {
            return returned(alloc, n, slots, of);
        };
        if let Some(kept) = results.of_return(n, slots, of)? {
            return Ok(kept);
        }
        let result = returned(alloc, n, slots, of)?;
        let made = OfReturn {
            n,
            slots: *slots,
            of: of.share()?,
            result: result.share()?,
        };
        results.keep_return(alloc, made);
        Ok(result)
    }
}

// The identity on so many bits.
fn identity_on(alloc: Global, n: u32) -> Result<Relation, OutOfMemory>
    requires { n ≤ 24 }
    ensures { IfOk result (λ w. w ≡ relation_of n (identity n)) }
{
    let made = frame(alloc, n, &[])?;
    Relation::new(alloc, made)
}

// Whether a relation is the identity. Few others have so many nodes.
fn is_identity(alloc: Global, n: u32, w: &Relation) -> Result<bool, OutOfMemory>
    requires { n ≤ 24 }
    ensures { IfOk result (λ b. IsTrue b → w.now ≡ relation_of n (identity n)) }
{
    if w.diagram().nodes().len() != 3 * n as usize {
        return Ok(false);
    }
    let stay = identity_on(alloc, n)?;
    Ok(w.is_same(&stay))
}

// The union, by the operation on diagrams.
fn united(alloc: Global, n: u32, a: &Relation, b: &Relation) -> Result<Relation, OutOfMemory>
    requires left { IsTrue (relation_fits n a.now) }
    requires right { IsTrue (relation_fits n b.now) }
    ensures { IfOk result (λ w. w ≡ relation_of n (union (leads a.now) (leads b.now))) }
{
    let made = apply_table2(alloc, OR, a.diagram(), b.diagram())?;
    Relation::new(alloc, made)
}

// The composition, by the operation on diagrams.
fn composed(alloc: Global, n: u32, a: &Relation, b: &Relation) -> Result<Relation, OutOfMemory>
    requires left { IsTrue (relation_fits n a.now) }
    requires right { IsTrue (relation_fits n b.now) }
    ensures { IfOk result (λ w. w ≡ relation_of n (composition n (leads a.now) (leads b.now))) }
{
    let made = compose_relations(alloc, n, a.diagram(), b.diagram())?;
    Relation::new(alloc, made)
}

// What a step makes of two relations, by the operation on diagrams.
fn made_by(
    alloc: Global,
    n: u32,
    step: Step,
    a: &Relation,
    b: &Relation,
) -> Result<Relation, OutOfMemory>
    requires left { IsTrue (relation_fits n a.now) }
    requires right { IsTrue (relation_fits n b.now) }
    ensures { IfOk result (λ w. w ≡ result_of n step a.now b.now) }
{
    match step {
        Step::Union => united(alloc, n, a, b),
        Step::Composition => composed(alloc, n, a, b),
    }
}

impl Semiring for Relations {
    type W = Relation;

    type Ret = RelMap;

    ghost operations = { relation_operations };

    ghost laws = { relation_laws };

    fn zero(&self, alloc: Global) -> Result<Relation, OutOfMemory> {
        let never = Diagram::constant(alloc, false);
        Relation::new(alloc, never)
    }

    fn one(&self, alloc: Global) -> Result<Relation, OutOfMemory> {
        identity_on(alloc, self.n)
    }

    fn combine(&self, alloc: Global, a: &Relation, b: &Relation) -> Result<Relation, OutOfMemory> {
        if a.is_empty() {
            return b.share();
        }
        if b.is_empty() {
            return a.share();
        }
        if a.is_same(b) {
            return a.share();
        }
        self.result(alloc, Step::Union, a, b)
    }

    fn extend(&self, alloc: Global, a: &Relation, b: &Relation) -> Result<Relation, OutOfMemory> {
        if a.is_empty() {
            return a.share();
        }
        if b.is_empty() {
            return b.share();
        }
        if is_identity(alloc, self.n, a)? {
            return b.share();
        }
        if is_identity(alloc, self.n, b)? {
            return a.share();
        }
        self.result(alloc, Step::Composition, a, b)
    }

    fn lowered(
        &self,
        alloc: Global,
        old: &Relation,
        weight: &Relation,
    ) -> Result<Option<Relation>, OutOfMemory> {
        if weight.is_empty() || weight.is_same(old) {
            return Ok(None);
        }
        if old.is_empty() {
            let weight = weight.share()?;
            return Ok(Some(weight));
        }
        let sum = self.result(alloc, Step::Union, old, weight)?;
        if sum.is_same(old) {
            return Ok(None);
        }
        Ok(Some(sum))
    }

    fn copy(&self, _alloc: Global, a: &Relation) -> Result<Relation, OutOfMemory> {
        a.share()
    }

    fn after(&self, alloc: Global, map: &RelMap, w: &Relation) -> Result<Relation, OutOfMemory> {
        match map {
            RelMap::Plain => w.share(),
            RelMap::Slots(slots) => self.result_of_return(alloc, slots, w),
        }
    }

    fn same(&self, a: &Relation, b: &Relation) -> bool {
        a.is_same(b)
    }

    fn is_zero(&self, a: &Relation) -> bool {
        a.is_empty()
    }

    fn plain(&self) -> RelMap {
        RelMap::Plain
    }

    fn same_map(&self, a: &RelMap, b: &RelMap) -> bool {
        a.is_same(b)
    }

    fn same_kind(&self, other: &Relations) -> bool {
        self.n == other.n
    }
}
