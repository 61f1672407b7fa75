ghost use Rattle.std.specs.Prelude.{◌≡◌, ◌<◌};
ghost use Rattle.truth_tables.specs.Tables.{value2_of, value3_of, value_bit};

// Bit `place` of a table.
fn bit(table: u8, place: u8) -> bool
    requires { place < 8 }
    ensures { result ≡ value_bit table place }
{
    (table >> place) & 1 == 1
}

/// The value of an operator of two places: bit `2a + b` of its table.
pub fn value2(table: u8, a: bool, b: bool) -> bool
    requires { table < 16 }
    ensures { result ≡ value2_of table a b }
{
    bit(table, 2 * u8::from(a) + u8::from(b))
}

/// The value of an operator of three places: bit `4a + 2b + c` of its table.
///
/// Table 202 is 'if a then b else c'.
pub fn value3(table: u8, a: bool, b: bool, c: bool) -> bool
    ensures { result ≡ value3_of table a b c }
{
    bit(table, 4 * u8::from(a) + 2 * u8::from(b) + u8::from(c))
}

/// The operator of two places with the table `T`, which is below 16.
pub struct Table2<const T: u8>;

impl<const T: u8> Table2<T> {
    /// The value at two places: bit `2a + b` of the table.
    pub fn value(a: bool, b: bool) -> bool
        requires { T < 16 }
        ensures { result ≡ value2_of T a b }
    {
        value2(T, a, b)
    }
}

/// The operator of three places with the table `T`.
pub struct Table3<const T: u8>;

impl<const T: u8> Table3<T> {
    /// The value at three places: bit `4a + 2b + c` of the table.
    pub fn value(a: bool, b: bool, c: bool) -> bool
        ensures { result ≡ value3_of T a b c }
    {
        value3(T, a, b, c)
    }
}
