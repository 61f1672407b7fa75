ghost use Rattle.std.specs.Prelude.{ℕ, IfOk, option_and_then};
ghost use Rattle.wpds_port.specs.Words.{text_words};
ghost use Rattle.program_forms.specs.Forms.{form_of};
ghost use Rattle.program_lines.specs.Texts.{IsRead, line_said};
ghost use Rattle.program_tables.specs.Judging.{IsJudged};

use crate::place::Place;
use document_reader::is_text;
use program_lines::{LineText, read_form};
use std::alloc::Global;
use wpds_base::OutOfMemory;
use wpds_port::{Kind, Words};

// The form of a line, if it has one.
fn read_line<'t>(alloc: Global, line: &'t [u8]) -> Result<Option<LineText<'t>>, OutOfMemory>
    ensures { IfOk result (IsRead (option_and_then form_of (text_words line.now)) line_said) }
{
    match Words::of(line) {
        Some(words) => read_form(alloc, &words),
        None => Ok(None),
    }
}

/// What a line behind the header says, if it may stand at this place, or else the kind by which it
/// is refused.
pub fn judge<'t>(
    alloc: Global,
    place: &Place,
    line: &'t [u8],
) -> Result<Result<LineText<'t>, Kind>, OutOfMemory>
    ensures { IfOk result (λ judged. (n : ℕ)
        → IsJudged place.now (record { number = n; bytes = line.now }) judged) }
{
    if !is_text(line) {
        return Ok(Err(Kind::NotText));
    }
    let Some(text) = read_line(alloc, line)? else {
        return Ok(Err(Kind::Form));
    };
    if !place.fits(&text) {
        return Ok(Err(Kind::Form));
    }
    Ok(Ok(text))
}
