//! What variables become by a copy.

ghost use Rattle.std.specs.Prelude.{◌≡◌, ◌++◌, ◌==◌, ◌/◌, ◌%◌, ◌^◌, ◌||◌, OnOk, IfOk, map, codes};
ghost use Rattle.document_forms.specs.declared.weight.FormText.TheVariants.{Meet};
ghost use Rattle.document_forms.specs.Names.{name};
ghost use Rattle.document_forms.specs.Writing.{members, form_text, pair_text};
ghost use Rattle.document_writer.specs.private.Forms.{constant_text};
ghost use Rattle.document_writer.specs.private.Rows.{behind_blanks, marked, has_some};

use crate::names::push_name;
use crate::numbers::push_signed;
use crate::rows::{push, push_mark};
use document_forms::{FormText, VariableForm};
use wpds_base::OutOfMemory;
use wpds_port::Text;

// Whether a set of variables has one.
fn has_variable(from: u64, variable: usize) -> bool
    ensures { result ≡ (from / 2 ^ variable % 2 == 1) }
{
    if variable >= 64 {
        return false;
    }
    (from >> variable) % 2 == 1
}

// Adds the number of a form, if it has one.
fn push_constant(out: &mut Vec<u8>, constant: Option<i64>) -> Result<(), OutOfMemory>
    ensures { OnOk result (out.new.items ≡ out.old.items ++ constant_text constant) }
{
    match constant {
        Some(constant) => push_signed(out, constant),
        None => Ok(()),
    }
}

// Adds the variables of a set behind what stands before, if something does. Returns whether
// something stands there then.
fn push_members(
    out: &mut Vec<u8>,
    names: &[Text],
    from: u64,
    behind: bool,
) -> Result<bool, OutOfMemory>
    ensures texts { OnOk result (out.new.items ≡ out.old.items
        ++ marked (codes ", ") behind (map (name names.now) (members names.now from))) }
    ensures some { IfOk result (λ some.
        some ≡ (behind || has_some (members names.now from))) }
{
    let mut some = behind;
    for (variable, name) in names.iter().enumerate() {
        if !has_variable(from, variable) {
            continue;
        }
        push_mark(out, b", ", some)?;
        push(out, name.as_bytes())?;
        some = true;
    }
    Ok(some)
}

// Adds the meet of a number, if there is one, and a set of variables.
fn push_meet(
    out: &mut Vec<u8>,
    names: &[Text],
    constant: Option<i64>,
    from: u64,
) -> Result<(), OutOfMemory>
    ensures { OnOk result (out.new.items ≡ out.old.items
        ++ form_text names.now (Meet constant from)) }
{
    push_constant(out, constant)?;
    if push_members(out, names, from, constant.is_some())? {
        return Ok(());
    }
    push(out, b"undef")
}

// Adds what a variable becomes.
fn push_form(out: &mut Vec<u8>, names: &[Text], form: FormText) -> Result<(), OutOfMemory>
    ensures { OnOk result (out.new.items ≡ out.old.items ++ form_text names.now form) }
{
    match form {
        FormText::Varying => push(out, b"?"),
        FormText::Meet { constant, from } => push_meet(out, names, constant, from),
    }
}

// Adds a variable and what it becomes.
fn push_pair(out: &mut Vec<u8>, names: &[Text], pair: VariableForm) -> Result<(), OutOfMemory>
    ensures { OnOk result (out.new.items ≡ out.old.items ++ pair_text names.now pair) }
{
    push_name(out, names, pair.variable)?;
    push(out, b"=")?;
    push_form(out, names, pair.form)
}

/// Adds variables with what they become, a blank before each.
pub(crate) fn push_pairs(
    out: &mut Vec<u8>,
    names: &[Text],
    pairs: &[VariableForm],
) -> Result<(), OutOfMemory>
    ensures { OnOk result (
        out.new.items ≡ out.old.items ++ behind_blanks (map (pair_text names.now) pairs.now)) }
{
    for pair in pairs {
        push(out, b" ")?;
        push_pair(out, names, *pair)?;
    }
    Ok(())
}
