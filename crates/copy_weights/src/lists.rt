ghost use Rattle.std.specs.Prelude.{◌≡◌, ◌↔◌, ◌≤◌, ◌<◌, IsTrue, IfOk, length, cond};
ghost use Rattle.copy_weights.specs.Forms as spec;

use crate::Form;
use crate::meets::{has_form, itself, meet, put};
use std::alloc::Global;
use wpds_base::OutOfMemory;

/// The meets, variable by variable.
pub(crate) fn meets(alloc: Global, a: &[Form], b: &[Form]) -> Result<Vec<Form>, OutOfMemory>
    requires { length a.now ≡ length b.now }
    ensures { IfOk result (λ v. v.items ≡ spec.meets (length a.now) a.now b.now) }
{
    let mut list = Vec::with_capacity(alloc, a.len())?;
    for k in 0..a.len() {
        list.push(meet(a[k], b[k]))?;
    }
    Ok(list)
}

fn is_same(f: Form, g: Form) -> bool
    ensures { IsTrue result ↔ (f ≡ g) }
{
    f == g
}

/// Whether the meets with the second's forms are the first's.
pub(crate) fn has_meets(a: &[Form], b: &[Form]) -> bool
    requires { length a.now ≡ length b.now }
    ensures { IsTrue result ↔ (spec.meets (length a.now) a.now b.now ≡ a.now) }
{
    for k in 0..a.len() {
        if !has_form(a[k], b[k]) {
            return false;
        }
    }
    true
}

/// Whether each variable is itself.
pub(crate) fn is_identity(a: &[Form]) -> bool
    requires { length a.now ≤ 64 }
    ensures { IsTrue result → a.now ≡ spec.identity (length a.now) }
{
    for k in 0..a.len() {
        if !is_same(itself(k), a[k]) {
            return false;
        }
    }
    true
}

/// The second's forms with the first's put in for their variables.
pub(crate) fn composed(alloc: Global, a: &[Form], b: &[Form]) -> Result<Vec<Form>, OutOfMemory>
    requires same { length a.now ≡ length b.now }
    requires few { length a.now ≤ 64 }
    ensures { IfOk result (λ v. v.items ≡ spec.composed (length a.now) a.now b.now) }
{
    let mut list = Vec::with_capacity(alloc, a.len())?;
    for k in 0..b.len() {
        list.push(put(a, b[k]))?;
    }
    Ok(list)
}

/// Each variable itself.
pub(crate) fn identity(alloc: Global, n: usize) -> Result<Vec<Form>, OutOfMemory>
    requires { n ≤ 64 }
    ensures { IfOk result (λ v. v.items ≡ spec.identity n) }
{
    let mut list = Vec::with_capacity(alloc, n)?;
    for k in 0..n {
        list.push(itself(k))?;
    }
    Ok(list)
}

/// The forms, but some variables are themselves.
pub(crate) fn restored(alloc: Global, vars: u64, a: &[Form]) -> Result<Vec<Form>, OutOfMemory>
    requires { length a.now ≤ 64 }
    ensures { IfOk result (λ v. v.items ≡ spec.restored (length a.now) vars a.now) }
{
    let mut list = Vec::with_capacity(alloc, a.len())?;
    for k in 0..a.len() {
        list.push(restored_form(vars, k, a[k]))?;
    }
    Ok(list)
}

// The form of a variable, itself where it is one of these.
fn restored_form(vars: u64, k: usize, f: Form) -> Form
    requires { k < 64 }
    ensures { result ≡ cond (spec.has vars k) (spec.itself k) f }
{
    if (vars >> k) & 1 == 1 {
        return itself(k);
    }
    f
}
