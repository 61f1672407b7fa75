//! Names are written by their numbers.

ghost use Rattle.std.specs.Prelude.{◌≡◌, ◌++◌, OnOk, map};
ghost use Rattle.document_forms.specs.Names.{name};
ghost use Rattle.document_forms.specs.Writing.{spaced};
ghost use Rattle.document_writer.specs.private.Rows.{behind_blanks};

use crate::rows::{push, push_mark};
use wpds_base::OutOfMemory;
use wpds_port::Text;

/// Adds the name with a number, if there is one.
pub(crate) fn push_name(out: &mut Vec<u8>, names: &[Text], number: u32) -> Result<(), OutOfMemory>
    ensures { OnOk result (out.new.items ≡ out.old.items ++ name names.now number) }
{
    match names.get(number as usize) {
        Some(name) => push(out, name.as_bytes()),
        None => Ok(()),
    }
}

/// Adds the names with these numbers, a blank before each.
pub(crate) fn push_names(
    out: &mut Vec<u8>,
    names: &[Text],
    numbers: &[u32],
) -> Result<(), OutOfMemory>
    ensures { OnOk result (
        out.new.items ≡ out.old.items ++ behind_blanks (map (name names.now) numbers.now)) }
{
    for number in numbers {
        push(out, b" ")?;
        push_name(out, names, *number)?;
    }
    Ok(())
}

/// Adds the names with these numbers, a blank between.
pub(crate) fn push_spaced(
    out: &mut Vec<u8>,
    names: &[Text],
    numbers: &[u32],
) -> Result<(), OutOfMemory>
    ensures { OnOk result (
        out.new.items ≡ out.old.items ++ spaced (map (name names.now) numbers.now)) }
{
    for (place, number) in numbers.iter().enumerate() {
        push_mark(out, b" ", place > 0)?;
        push_name(out, names, *number)?;
    }
    Ok(())
}
