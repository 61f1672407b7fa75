//! Bytes are added to a text.

ghost use Rattle.std.specs.Prelude.{◌≡◌, [], ◌++◌, OnOk, if◌then◌else◌};

use wpds_base::OutOfMemory;

/// Adds these bytes.
pub(crate) fn push(out: &mut Vec<u8>, text: &[u8]) -> Result<(), OutOfMemory>
    ensures { OnOk result (out.new.items ≡ out.old.items ++ text.now) }
{
    out.extend_from_slice(text)?;
    Ok(())
}

/// Adds a mark between what stands before and what comes, if something stands before.
pub(crate) fn push_mark(out: &mut Vec<u8>, mark: &[u8], behind: bool) -> Result<(), OutOfMemory>
    ensures { OnOk result (
        out.new.items ≡ out.old.items ++ (if behind then mark.now else [])) }
{
    if behind {
        push(out, mark)?;
    }
    Ok(())
}
