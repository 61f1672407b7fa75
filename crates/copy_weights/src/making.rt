ghost use Rattle.std.specs.Prelude.{◌≡◌, ◌≤◌, ◌%◌, ◌^◌, IfOk, nat_lt, slice_set, if◌then◌else◌};
ghost use Rattle.copy_weights.specs.Forms as spec;

use crate::Form;
use crate::lists::identity;
use std::alloc::Global;
use wpds_base::OutOfMemory;

/// Each of so many variables itself, but for these changes.
pub(crate) fn with_changes(
    alloc: Global,
    n: usize,
    changes: &[(u32, Form)],
) -> Result<Vec<Form>, OutOfMemory>
    requires { n ≤ 64 }
    ensures { IfOk result (λ v. v.items ≡ spec.changes_of n changes.now) }
{
    let mut list = identity(alloc, n)?;
    for k in 0..changes.len() {
        let change = changes[changes.len() - 1 - k];
        set_form(&mut list, change.0 as usize, over(n, change.1));
    }
    Ok(list)
}

// Changes the form of a variable, if there is such a variable.
fn set_form(list: &mut [Form], k: usize, form: Form)
    ensures { list.new ≡ slice_set list.old k form }
{
    if k < list.len() {
        list[k] = form;
    }
}

// The form without its sources from n on.
fn over(n: usize, form: Form) -> Form
    requires { n ≤ 64 }
    ensures { result ≡ spec.over n form }
{
    match form {
        Form::Varying => Form::Varying,
        Form::Meet { constant, from } => Form::Meet {
            constant,
            from: low_bits(n, from),
        },
    }
}

fn low_bits(n: usize, set: u64) -> u64
    requires { n ≤ 64 }
    ensures { result ≡ set % 2 ^ n }
{
    if n == 64 { set } else { set % (1 << n) }
}

/// The set of these variables, without those from n on.
pub(crate) fn set_of(n: u32, vars: &[u32]) -> u64
    requires { n ≤ 64 }
    ensures { result ≡ spec.set_of n vars.now }
{
    let mut set = 0;
    for k in vars {
        set |= member(n, *k);
    }
    set
}

// The set of one variable, empty if it is not below n.
fn member(n: u32, k: u32) -> u64
    requires { n ≤ 64 }
    ensures { result ≡ (if nat_lt k n then 2 ^ k else 0) }
{
    if k < n { 1 << k } else { 0 }
}
