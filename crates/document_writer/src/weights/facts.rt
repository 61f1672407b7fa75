//! Facts that are generated and killed.

ghost use Rattle.std.specs.Prelude.{◌≡◌, ◌++◌, OnOk, map};
ghost use Rattle.document_forms.specs.Writing.{sign_text};
ghost use Rattle.document_writer.specs.private.Rows.{behind_blanks};

use crate::names::push_name;
use crate::rows::push;
use document_forms::FactSign;
use wpds_base::OutOfMemory;
use wpds_port::Text;

// Adds a fact behind its sign.
fn push_sign(out: &mut Vec<u8>, names: &[Text], sign: FactSign) -> Result<(), OutOfMemory>
    ensures { OnOk result (out.new.items ≡ out.old.items ++ sign_text names.now sign) }
{
    push(out, if sign.plus { b"+" } else { b"-" })?;
    push_name(out, names, sign.fact)
}

/// Adds facts with their signs, a blank before each.
pub(crate) fn push_signs(
    out: &mut Vec<u8>,
    names: &[Text],
    signs: &[FactSign],
) -> Result<(), OutOfMemory>
    ensures { OnOk result (
        out.new.items ≡ out.old.items ++ behind_blanks (map (sign_text names.now) signs.now)) }
{
    for sign in signs {
        push(out, b" ")?;
        push_sign(out, names, *sign)?;
    }
    Ok(())
}
