//! Calls, and what stands behind `:=`.

ghost use Rattle.std.specs.Prelude.{◌≡◌, ◌∷◌, ℕ, IfOk, List, Some, None, MatchOption, false};
ghost use Rattle.wpds_port.specs.declared.Mark.TheVariants.{Open};
ghost use Rattle.wpds_port.specs.declared.Word.TheVariants.{Name, Mark as Sign};
ghost use Rattle.program_forms.specs.Forms.{arguments_of, some_values_of, callee_of, call_of};
ghost use Rattle.program_lines.specs.Texts.{IsRead, targets_said, statement_said};
ghost use Rattle.program_lines.specs.private.Labels.{begins_with_call, sides_of};

use crate::lists::{are_some_values, are_values, is_list};
use crate::texts::StatementText;
use rule_reader::{is_name, split_name};
use std::alloc::Global;
use wpds_base::OutOfMemory;
use wpds_port::{Lexeme, Mark, Words};

// The arguments before the bracket that closes a call.
fn read_arguments<'t>(alloc: Global, words: &Words<'t>) -> Result<Option<Words<'t>>, OutOfMemory>
    ensures { IfOk result (IsRead (arguments_of words.now) some_values_of) }
{
    let (inside, behind) = words.split_outside(Lexeme::Mark(Mark::Close));
    let Some(rest) = behind else {
        return Ok(None);
    };
    if rest.split_first().is_some() {
        return Ok(None);
    }
    if are_some_values(alloc, &inside)? {
        return Ok(Some(inside));
    }
    Ok(None)
}

/// The name and the opening bracket with which words begin, and the words behind them.
pub(crate) fn split_opened<'t>(words: &Words<'t>) -> Option<(&'t [u8], Words<'t>)>
    ensures { MatchOption result (begins_with_call words.now ≡ false)
        (λ p. words.now ≡ Name p.0.now ∷ Sign Open ∷ p.1) }
{
    let (name, rest) = split_name(words)?;
    match rest.split_first() {
        Some((Lexeme::Mark(Mark::Open), inside)) => Some((name, inside)),
        _ => None,
    }
}

// The call that stands behind the word `call`, with these targets.
fn read_callee<'t>(
    alloc: Global,
    targets: Option<Words<'t>>,
    words: &Words<'t>,
) -> Result<Option<StatementText<'t>>, OutOfMemory>
    ensures { (xs : List (List ℕ)) → targets_said targets.entry ≡ Some xs
        → IfOk result (IsRead (callee_of xs words.now) statement_said) }
{
    let Some((callee, inside)) = split_opened(words) else {
        return Ok(None);
    };
    match read_arguments(alloc, &inside)? {
        Some(arguments) => Ok(Some(StatementText::Call {
            targets,
            callee,
            arguments,
        })),
        None => Ok(None),
    }
}

/// The call that the words are, with these targets.
pub(crate) fn read_call<'t>(
    alloc: Global,
    targets: Option<Words<'t>>,
    words: &Words<'t>,
) -> Result<Option<StatementText<'t>>, OutOfMemory>
    ensures { (xs : List (List ℕ)) → targets_said targets.entry ≡ Some xs
        → IfOk result (IsRead (call_of xs words.now) statement_said) }
{
    let Some((first, rest)) = words.split_first() else {
        return Ok(None);
    };
    if !is_name(first, b"call") {
        return Ok(None);
    }
    read_callee(alloc, targets, &rest)
}

/// The statement with these words before `:=` and behind it.
pub(crate) fn read_becomes<'t>(
    alloc: Global,
    front: &Words<'t>,
    back: &Words<'t>,
) -> Result<Option<StatementText<'t>>, OutOfMemory>
    ensures { IfOk result (IsRead (sides_of front.now back.now) statement_said) }
{
    if !is_list(front) {
        return Ok(None);
    }
    if let Some(call) = read_call(alloc, Some(front.reborrow()), back)? {
        return Ok(Some(call));
    }
    if !are_values(alloc, back)? {
        return Ok(None);
    }
    Ok(Some(StatementText::Assign {
        targets: front.reborrow(),
        values: back.reborrow(),
    }))
}
