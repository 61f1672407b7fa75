ghost use Rattle.std.specs.Prelude.{◌≡◌, ◌+◌, ◌-◌, ◌*◌, ◌^◌, nat_lt, if◌then◌else◌, Some, None};
ghost use Rattle.truth_tables.specs.Grammar.{number_of};
ghost use Rattle.rule_reader.specs.Digits.{as_u64};

/// The number that the digits write, if 64 bits hold it.
pub fn number(digits: &[u8]) -> Option<u64>
    ensures { result ≡ as_u64 (number_of digits.now) }
{
    let mut number = 0;
    for digit in digits {
        match with_digit(number, *digit) {
            Some(more) => number = more,
            None => return None,
        }
    }
    Some(number)
}

// The number with a digit more.
fn with_digit(number: u64, digit: u8) -> Option<u64>
    ensures { result ≡ as_u64 (10 * number + (digit - 48)) }
{
    let more = 10 * u128::from(number) + u128::from(digit.saturating_sub(b'0'));
    u64::try_from(more).ok()
}
