//! Names with their bits.

ghost use Rattle.std.specs.Prelude.{◌≡◌, ◌+◌, ◌++◌, ℕ, length, IfOk, OnOk};
ghost use Rattle.boolean_machine.specs.Picks.{listed};
ghost use Rattle.boolean_meaning.specs.Bits.{bit_of};
ghost use Rattle.state_text.specs.States.{bit_text, bits_text};

use boolean_programs::Proc;
use wpds_base::{OutOfMemory, Text};

// Adds a name with its bit.
fn add_bit(text: &mut Vec<u8>, name: &Text, bit: bool) -> Result<(), OutOfMemory>
    ensures { OnOk result (text.new.items ≡ text.old.items ++ bit_text name.now bit) }
{
    text.push(b' ')?;
    text.extend_from_slice(name.as_bytes())?;
    text.extend_from_slice(if bit { b"=1" } else { b"=0" })?;
    Ok(())
}

/// Adds these names, each with its bit: the lowest bits of a number, the lowest for the first name. It
/// answers the number of the bits that are left.
pub(crate) fn add_bits(text: &mut Vec<u8>, names: &[Text], number: u32) -> Result<u32, OutOfMemory>
    ensures text { let bits = listed (length names.now) (bit_of number) in
        OnOk result (text.new.items ≡ text.old.items ++ bits_text names.now bits) }
    ensures left { IfOk result (λ rest. (k : ℕ)
        → bit_of rest k ≡ bit_of number (length names.now + k)) }
{
    let mut left = names;
    let mut rest = number;
    while let Some((name, after)) = left.split_first() {
        add_bit(text, name, rest % 2 == 1)?;
        rest /= 2;
        left = after;
    }
    Ok(rest)
}

/// Adds the names of a procedure with their bits: its parameters, and then its other locals.
pub(crate) fn add_locals(text: &mut Vec<u8>, owner: &Proc, locals: u32) -> Result<(), OutOfMemory>
    ensures { let names = owner.now.params ++ owner.now.locals in
        let bits = listed (length owner.now.params + length owner.now.locals) (bit_of locals) in
        OnOk result (text.new.items ≡ text.old.items ++ bits_text names bits) }
{
    let rest = add_bits(text, owner.params.as_slice(), locals)?;
    add_bits(text, owner.locals.as_slice(), rest)?;
    Ok(())
}
