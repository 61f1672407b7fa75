ghost use Rattle.std.specs.Prelude.{◌≡◌, ◌≤◌, ◌<◌, ◌↔◌, ℕ, IsTrue, IfOk};
ghost use Rattle.wpds_base.specs.Limits.{most_copied};
ghost use Rattle.semiring_laws.specs.Semiring.{Fits};
ghost use Rattle.copy_weights.specs.Forms.{has, tabulate, changed, changes_of, AreChanges, is_listed, set_of};
ghost use Rattle.copy_weights.specs.declared.form.CopyW.TheVariants.{Map};
ghost use Rattle.copy_weights.specs.declared.form.CopyMap.TheVariants.{Restore};
ghost use Rattle.copy_weights.specs.CopyConst.{copy_operations};
ghost use Rattle.copy_weights.specs.CopyLaws.{copy_laws};

use crate::lists::{composed, has_meets, identity, is_identity, meets, restored};
use crate::making::{set_of, with_changes};
use crate::{CopyMap, CopyW, Form, Forms};
use semiring_laws::Semiring;
use std::alloc::Global;
use std::marker::Model;
use wpds_base::OutOfMemory;

/// The semiring of copy constants over so many variables, at most 64 (copy-constant propagation of Sagiv, Reps and
/// Horwitz 1996, as weights: Reps, Schwoon, Jha and Melski 2005). A weight has a form for each variable, or is zero, for
/// no run: combine takes the meet of the forms, variable by variable, and extend puts the first's forms in for the
/// variables of the second's. Contracts see it as the number of variables. Where no more can share a weight's forms, a copy
/// answers out of memory.
#[derive(Clone, Copy, Debug)]
pub struct CopyConst {
    vars: u32,
}

impl Model for CopyConst {
    ghost use Rattle.std.specs.Prelude.{ℕ, ◌≤◌};
    ghost use Rattle.wpds_base.specs.Limits.{most_copied};

    ghost Value = { ℕ };

    ghost view = { λ c. c.vars };

    ghost invariant = { λ c. c.vars ≤ most_copied };

    ghost inverse = { λ n. record { vars = n } };
}

impl CopyConst {
    /// The copy constants over so many variables.
    pub fn new(vars: u32) -> CopyConst
        requires { vars ≤ most_copied }
        ensures { result ≡ vars }
    {
        CopyConst { vars }
    }

    /// The weight of these changes; the other variables keep their value. Of two changes of one variable the first
    /// counts. A change of a variable that is not there is left out, and so is a source that is not there.
    pub fn make(&self, alloc: Global, changes: &[(u32, Form)]) -> Result<CopyW, OutOfMemory>
        ensures forms { IfOk result (λ w. w ≡ Map (changes_of self.now changes.now)) }
        ensures whole { AreChanges self.now changes.now →
            IfOk result (λ w. w ≡ Map (tabulate self.now (changed changes.now))) }
        ensures fits { IfOk result (λ w. Fits (copy_operations self.now) w) }
    {
        let forms = with_changes(alloc, self.vars as usize, changes)?;
        map_of(forms)
    }

    /// The return map that restores these variables. One that is not there is left out.
    pub fn restore(&self, vars: &[u32]) -> CopyMap
        ensures map { result ≡ Restore (set_of self.now vars.now) }
        ensures variables { (k : ℕ) → k < self.now →
            has (set_of self.now vars.now) k ≡ is_listed vars.now k }
    {
        let vars = set_of(self.vars, vars);
        CopyMap::Restore { vars }
    }

    // Whether the runs of the second weight add nothing to those of the first.
    fn has_all(&self, a: &CopyW, b: &CopyW) -> bool
        requires left { Fits (copy_operations self.now) a.now }
        requires right { Fits (copy_operations self.now) b.now }
        ensures { IsTrue result ↔ ((copy_operations self.now).combine a.now b.now ≡ a.now) }
    {
        match (a, b) {
            (_, CopyW::Zero) => true,
            (CopyW::Zero, CopyW::Map { .. }) => false,
            (CopyW::Map { forms: f }, CopyW::Map { forms: g }) => {
                has_meets(f.as_slice(), g.as_slice())
            }
        }
    }

    // Whether each variable keeps its value.
    fn is_one(&self, w: &CopyW) -> bool
        requires { Fits (copy_operations self.now) w.now }
        ensures { IsTrue result → w.now ≡ (copy_operations self.now).one }
    {
        let _vars = self.vars;
        match w {
            CopyW::Zero => false,
            CopyW::Map { forms } => is_identity(forms.as_slice()),
        }
    }

    // The runs of either weight, where the first does not have all of them.
    fn joined(&self, alloc: Global, a: &CopyW, b: &CopyW) -> Result<CopyW, OutOfMemory>
        requires left { Fits (copy_operations self.now) a.now }
        requires right { Fits (copy_operations self.now) b.now }
        ensures { IfOk result (λ w. w ≡ (copy_operations self.now).combine a.now b.now) }
    {
        if self.has_all(b, a) {
            return copied(b);
        }
        match (a, b) {
            (CopyW::Zero, _) => copied(b),
            (_, CopyW::Zero) => copied(a),
            (CopyW::Map { forms: f }, CopyW::Map { forms: g }) => {
                let forms = meets(alloc, f.as_slice(), g.as_slice())?;
                map_of(forms)
            }
        }
    }
}

// The weight that has these forms.
fn map_of(forms: Vec<Form>) -> Result<CopyW, OutOfMemory>
    ensures { IfOk result (λ w. w ≡ Map forms.items) }
{
    let forms = Forms::new(forms)?;
    Ok(CopyW::Map { forms })
}

// An equal weight.
fn copied(w: &CopyW) -> Result<CopyW, OutOfMemory>
    ensures { IfOk result (λ v. v ≡ w.now) }
{
    match w {
        CopyW::Zero => Ok(CopyW::Zero),
        CopyW::Map { forms } => {
            let forms = forms.share()?;
            Ok(CopyW::Map { forms })
        }
    }
}

fn are_same(a: &[Form], b: &[Form]) -> bool
    ensures { IsTrue result ↔ (a.now ≡ b.now) }
{
    a == b
}

impl Semiring for CopyConst {
    type W = CopyW;

    type Ret = CopyMap;

    ghost operations = { copy_operations };

    ghost laws = { copy_laws };

    fn zero(&self, _alloc: Global) -> Result<CopyW, OutOfMemory> {
        Ok(CopyW::Zero)
    }

    fn one(&self, alloc: Global) -> Result<CopyW, OutOfMemory> {
        let forms = identity(alloc, self.vars as usize)?;
        map_of(forms)
    }

    fn combine(&self, alloc: Global, a: &CopyW, b: &CopyW) -> Result<CopyW, OutOfMemory> {
        if self.has_all(a, b) {
            return copied(a);
        }
        self.joined(alloc, a, b)
    }

    fn extend(&self, alloc: Global, a: &CopyW, b: &CopyW) -> Result<CopyW, OutOfMemory> {
        let _vars = self.vars;
        if self.is_one(b) {
            return copied(a);
        }
        if self.is_one(a) {
            return copied(b);
        }
        match (a, b) {
            (CopyW::Map { forms: f }, CopyW::Map { forms: g }) => {
                let forms = composed(alloc, f.as_slice(), g.as_slice())?;
                map_of(forms)
            }
            _ => Ok(CopyW::Zero),
        }
    }

    fn lowered(
        &self,
        alloc: Global,
        old: &CopyW,
        weight: &CopyW,
    ) -> Result<Option<CopyW>, OutOfMemory> {
        if self.has_all(old, weight) {
            return Ok(None);
        }
        let sum = self.joined(alloc, old, weight)?;
        Ok(Some(sum))
    }

    fn copy(&self, _alloc: Global, a: &CopyW) -> Result<CopyW, OutOfMemory> {
        copied(a)
    }

    fn after(&self, alloc: Global, map: &CopyMap, w: &CopyW) -> Result<CopyW, OutOfMemory> {
        let _vars = self.vars;
        match (map, w) {
            (CopyMap::Restore { vars }, CopyW::Map { forms: f }) => {
                let forms = restored(alloc, *vars, f.as_slice())?;
                map_of(forms)
            }
            _ => copied(w),
        }
    }

    fn same(&self, a: &CopyW, b: &CopyW) -> bool {
        match (a, b) {
            (CopyW::Zero, CopyW::Zero) => true,
            (CopyW::Map { forms: f }, CopyW::Map { forms: g }) => {
                are_same(f.as_slice(), g.as_slice())
            }
            _ => false,
        }
    }

    fn is_zero(&self, a: &CopyW) -> bool {
        matches!(a, CopyW::Zero)
    }

    fn plain(&self) -> CopyMap {
        CopyMap::Plain
    }

    fn same_map(&self, a: &CopyMap, b: &CopyMap) -> bool {
        *a == *b
    }

    fn same_kind(&self, other: &CopyConst) -> bool {
        self.vars == other.vars
    }
}
