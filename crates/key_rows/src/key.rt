ghost use Rattle.std.specs.Prelude.{◌≡◌, ℕ, IsTrue};
ghost use Rattle.std.specs.Ordering.{eq_by_cmp, nat_cmp};
ghost use Rattle.key_rows.specs.Keys.{mixed as mixed_value, first_mixed};
ghost use Rattle.key_rows.specs.KeyLaws.{numbers_alike};

/// A key that rows are looked up by.
pub trait Key: Ord + Copy + Drop {
    /// The number that a key is spread to, by round.
    ghost spread: { ℕ → Self → ℕ };

    /// A number that tells most keys apart, in each round another. Cells are found by it, so that keys which are made to
    /// have one number in a round are slow to find in that round alone.
    fn spread(self, round: u64) -> u64
        ensures { result ≡ spread round self };

    /// Whether two keys are one, as the order tells.
    fn is_key(self, other: Self) -> bool
        ensures { result ≡ eq_by_cmp Self.cmp self other }
    {
        self.cmp(&other).is_eq()
    }

    /// Equal keys are spread alike.
    ghost alike: { (n : ℕ) (a b : Self) → IsTrue (eq_by_cmp Self.cmp a b)
        → spread n a ≡ spread n b };
}

/// A hash and a word more, mixed by a multiplication and a fold of its upper half (Knuth 1998, section 6.4).
pub fn mixed(hash: u64, word: u32) -> u64
    ensures { result ≡ mixed_value hash word }
{
    mixed_word(hash, u64::from(word))
}

/// The same with a word of eight bytes.
#[inline(always)]
pub(crate) fn mixed_word(hash: u64, word: u64) -> u64
    ensures { result ≡ mixed_value hash word }
{
    let product = (hash ^ word).wrapping_mul(0x9E37_79B9_7F4A_7C15);
    product ^ (product / 0x1_0000_0000)
}

impl Key for u32 {
    ghost spread = { λ n k. mixed_value (first_mixed n) k };

    fn spread(self, round: u64) -> u64 {
        mixed(mixed(round, 1), self)
    }

    fn is_key(self, other: u32) -> bool {
        self == other
    }

    ghost alike = { numbers_alike };
}
