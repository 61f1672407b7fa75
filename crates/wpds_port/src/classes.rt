//! What each byte may be in a word.
ghost use Rattle.std.specs.Prelude.{◌≡◌};
ghost use Rattle.wpds_port.specs.Tokens.{is_blank, is_digit, begins_name, goes_on_name};

const BEGINS_NAME: u8 = 1;

const GOES_ON_NAME: u8 = 2;

const DIGIT: u8 = 4;

const BLANK: u8 = 8;

// For each byte the sum of what holds of it of the four above.
#[rattlefmt::skip]
static CLASSES: [u8; 256] = [
    0, 0, 0, 0, 0, 0, 0, 0, 0, 8, 0, 0, 0, 0, 0, 0,
    0, 0, 0, 0, 0, 0, 0, 0, 0, 0, 0, 0, 0, 0, 0, 0,
    8, 0, 0, 0, 2, 0, 0, 0, 0, 0, 0, 0, 0, 0, 0, 0,
    6, 6, 6, 6, 6, 6, 6, 6, 6, 6, 0, 0, 0, 0, 0, 0,
    2, 3, 3, 3, 3, 3, 3, 3, 3, 3, 3, 3, 3, 3, 3, 3,
    3, 3, 3, 3, 3, 3, 3, 3, 3, 3, 3, 0, 0, 0, 0, 3,
    0, 3, 3, 3, 3, 3, 3, 3, 3, 3, 3, 3, 3, 3, 3, 3,
    3, 3, 3, 3, 3, 3, 3, 3, 3, 3, 3, 0, 0, 0, 0, 0,
    0, 0, 0, 0, 0, 0, 0, 0, 0, 0, 0, 0, 0, 0, 0, 0,
    0, 0, 0, 0, 0, 0, 0, 0, 0, 0, 0, 0, 0, 0, 0, 0,
    0, 0, 0, 0, 0, 0, 0, 0, 0, 0, 0, 0, 0, 0, 0, 0,
    0, 0, 0, 0, 0, 0, 0, 0, 0, 0, 0, 0, 0, 0, 0, 0,
    0, 0, 0, 0, 0, 0, 0, 0, 0, 0, 0, 0, 0, 0, 0, 0,
    0, 0, 0, 0, 0, 0, 0, 0, 0, 0, 0, 0, 0, 0, 0, 0,
    0, 0, 0, 0, 0, 0, 0, 0, 0, 0, 0, 0, 0, 0, 0, 0,
    0, 0, 0, 0, 0, 0, 0, 0, 0, 0, 0, 0, 0, 0, 0, 0,
];

#[inline(always)]
pub(crate) fn blank(b: u8) -> bool
    ensures { result ≡ is_blank b }
{
    CLASSES[b as usize] & BLANK != 0
}

#[inline(always)]
pub(crate) fn digit(b: u8) -> bool
    ensures { result ≡ is_digit b }
{
    CLASSES[b as usize] & DIGIT != 0
}

#[inline(always)]
pub(crate) fn name_begins(b: u8) -> bool
    ensures { result ≡ begins_name b }
{
    CLASSES[b as usize] & BEGINS_NAME != 0
}

#[inline(always)]
pub(crate) fn name_goes_on(b: u8) -> bool
    ensures { result ≡ goes_on_name b }
{
    CLASSES[b as usize] & GOES_ON_NAME != 0
}
