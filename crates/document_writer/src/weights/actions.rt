//! Actions of relations.

ghost use Rattle.std.specs.Prelude.{◌≡◌, ◌++◌, OnOk, map};
ghost use Rattle.document_forms.specs.Names.{name};
ghost use Rattle.document_forms.specs.Writing.{listed, in_turn, value_text, action_text};

use crate::expressions::push_expression;
use crate::names::{push_name, push_names};
use crate::rows::{push, push_mark};
use document_forms::{Action, Assignment, ValueText};
use wpds_base::OutOfMemory;
use wpds_port::Text;

// Adds a value.
fn push_value(out: &mut Vec<u8>, names: &[Text], value: &ValueText) -> Result<(), OutOfMemory>
    ensures { OnOk result (out.new.items ≡ out.old.items ++ value_text names.now value.now) }
{
    match value {
        ValueText::Free => push(out, b"*"),
        ValueText::Is(expression) => push_expression(out, names, expression),
    }
}

// Adds the targets of assignments.
fn push_targets(
    out: &mut Vec<u8>,
    names: &[Text],
    assignments: &[Assignment],
) -> Result<(), OutOfMemory>
    ensures { OnOk result (out.new.items ≡ out.old.items
        ++ listed (map (λ p. name names.now p.variable) assignments.now)) }
{
    for (place, assignment) in assignments.iter().enumerate() {
        push_mark(out, b", ", place > 0)?;
        push_name(out, names, assignment.variable)?;
    }
    Ok(())
}

// Adds the values of assignments.
fn push_values(
    out: &mut Vec<u8>,
    names: &[Text],
    assignments: &[Assignment],
) -> Result<(), OutOfMemory>
    ensures { OnOk result (out.new.items ≡ out.old.items
        ++ listed (map (λ p. value_text names.now p.value) assignments.now)) }
{
    for (place, assignment) in assignments.iter().enumerate() {
        push_mark(out, b", ", place > 0)?;
        push_value(out, names, &assignment.value)?;
    }
    Ok(())
}

// Adds an action.
fn push_action(out: &mut Vec<u8>, names: &[Text], action: &Action) -> Result<(), OutOfMemory>
    ensures { OnOk result (out.new.items ≡ out.old.items ++ action_text names.now action.now) }
{
    match action {
        Action::Assume(expression) => {
            push(out, b"assume ")?;
            push_expression(out, names, expression)
        }
        Action::Choose(variables) => {
            push(out, b"choose")?;
            push_names(out, names, variables.as_slice())
        }
        Action::Assign(assignments) => {
            push_targets(out, names, assignments.as_slice())?;
            push(out, b" := ")?;
            push_values(out, names, assignments.as_slice())
        }
    }
}

/// Adds actions in their order.
pub(crate) fn push_actions(
    out: &mut Vec<u8>,
    names: &[Text],
    actions: &[Action],
) -> Result<(), OutOfMemory>
    ensures { OnOk result (
        out.new.items ≡ out.old.items ++ in_turn (map (action_text names.now) actions.now)) }
{
    for (place, action) in actions.iter().enumerate() {
        push_mark(out, b" ; ", place > 0)?;
        push_action(out, names, action)?;
    }
    Ok(())
}
