ghost use Rattle.std.specs.Prelude.{◌≡◌, nat_le, if◌then◌else◌, Some, None};
ghost use Rattle.truth_tables.specs.Grammar.{number_of};

/// The number that the digits write, if it is at most `most`.
pub(crate) fn table_number(digits: &[u8], most: u8) -> Option<u8>
    ensures { result ≡ (if nat_le (number_of digits.now) most
        then Some (number_of digits.now) else None) }
{
    let mut number: u32 = 0;
    for digit in digits {
        number = 10 * number + u32::from(digit.saturating_sub(b'0'));
        if number > u32::from(most) {
            return None;
        }
    }
    Some(number as u8)
}
