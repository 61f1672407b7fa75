//! The weights line.

ghost use Rattle.std.specs.Prelude.{◌≡◌, ◌∷◌, [], IfOk, option_map};
ghost use Rattle.std.specs.Result.{result_err};
ghost use Rattle.wpds_port.specs.Words.{word_of};
ghost use Rattle.wpds_base.specs.Faults.{first_fault};
ghost use Rattle.document_forms.specs.FirstRefusal.{by_form};
ghost use Rattle.document_forms.specs.Forms.{CostWeights, line_form, weights_named, weights_of};
ghost use Rattle.document_forms.specs.Kinds.{weights_conditions};
ghost use Rattle.document_reader.specs.private.Readings.{SaysWeights};
ghost use Rattle.document_reader.specs.private.LineForms.{form_in, weights_said, IsDeclared};

use crate::lines::line_front;
use document_forms::WeightsLine;
use rule_reader::{is_name, number};
use wpds_base::MOST_COST;
use wpds_port::{Kind, Lexeme, Words};

// Weights by the words behind `weights`, the cap by its digits.
#[derive(Clone, Copy, Debug)]
pub(crate) enum WeightsWords<'t> {
    Reach,
    Cost(&'t [u8]),
    GenKill,
    Copy,
    Relation,
}

// The weights that a word alone names.
fn named<'t>(lexeme: Lexeme<'t>) -> Option<WeightsWords<'t>>
    ensures { option_map weights_said result ≡ weights_named (word_of lexeme.entry) }
{
    if is_name(lexeme, b"reach") {
        return Some(WeightsWords::Reach);
    }
    if is_name(lexeme, b"genkill") {
        return Some(WeightsWords::GenKill);
    }
    if is_name(lexeme, b"copy") {
        return Some(WeightsWords::Copy);
    }
    if is_name(lexeme, b"relation") {
        return Some(WeightsWords::Relation);
    }
    None
}

// The weights that a name and a number name.
fn capped<'t>(lexeme: Lexeme<'t>, cap: Lexeme<'t>) -> Option<WeightsWords<'t>>
    ensures { option_map weights_said result
        ≡ weights_of (word_of lexeme.entry ∷ word_of cap.entry ∷ []) }
{
    match cap {
        Lexeme::Number(digits) if is_name(lexeme, b"cost") => Some(WeightsWords::Cost(digits)),
        _ => None,
    }
}

/// The weights that words behind `weights` say.
pub(crate) fn said_weights<'t>(words: &Words<'t>) -> Option<WeightsWords<'t>>
    ensures { option_map weights_said result ≡ weights_of words.now }
{
    let (first, rest) = words.split_first()?;
    let Some((second, rest)) = rest.split_first() else {
        return named(first);
    };
    match rest.split_first() {
        None => capped(first, second),
        Some(_) => None,
    }
}

// The costs up to this cap, if it is within the limits.
fn costs(digits: &[u8]) -> Option<WeightsLine>
    ensures { IsDeclared (CostWeights digits.now) result }
{
    let cap = number(digits)?;
    if 1 <= cap && cap <= MOST_COST {
        Some(WeightsLine::Cost { cap })
    } else {
        None
    }
}

// The weights, if their cap is within the limits.
fn declared(said: WeightsWords) -> Option<WeightsLine>
    ensures { IsDeclared (weights_said said.entry) result }
{
    match said {
        WeightsWords::Reach => Some(WeightsLine::Reach),
        WeightsWords::Cost(digits) => costs(digits),
        WeightsWords::GenKill => Some(WeightsLine::GenKill),
        WeightsWords::Copy => Some(WeightsLine::Copy),
        WeightsWords::Relation => Some(WeightsLine::Relation),
    }
}

/// The weights that the second line declares, or the kind by which its form is refused.
pub(crate) fn weights_line(line: &[u8]) -> Result<WeightsLine, Kind>
    ensures weights { IfOk result (SaysWeights line.now) }
    ensures kind { result_err result
        ≡ first_fault (by_form weights_conditions (line_form line.now)) }
{
    let Some((first, words)) = line_front(line) else {
        return Err(Kind::Form);
    };
    if !is_name(first, b"weights") {
        return Err(Kind::Form);
    }
    let Some(said) = said_weights(&words) else {
        return Err(Kind::Form);
    };
    match declared(said) {
        Some(weights) => Ok(weights),
        None => Err(Kind::Count),
    }
}
