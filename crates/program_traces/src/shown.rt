//! The bits of a setting as a number.

ghost use Rattle.std.specs.Prelude.{◌≡◌, ◌≤◌, ◌+◌};
ghost use Rattle.diagram_store.specs.Meaning.{bits_of};
ghost use Rattle.boolean_machine.specs.Picks.{listed};
ghost use Rattle.boolean_meaning.specs.Bits.{number_of};

// The bit of a variable, false past the end.
fn bit_at(setting: &[bool], variable: usize) -> bool
    ensures { result ≡ bits_of setting.now variable }
{
    match setting.get(variable) {
        Some(bit) => *bit,
        None => false,
    }
}

/// The number that has the bits of so many variables from one on, the lowest bit first.
pub(crate) fn number_at(setting: &[bool], from: usize, count: usize) -> u32
    requires from { from ≤ 24 }
    requires count { count ≤ 24 }
    ensures { result ≡ number_of (listed count (λ j. bits_of setting.now (from + j))) }
{
    let mut number: u32 = 0;
    for done in 0..count {
        number = 2 * number + u32::from(bit_at(setting, from + (count - 1 - done)));
    }
    number
}
