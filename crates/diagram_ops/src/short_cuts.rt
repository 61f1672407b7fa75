ghost use Rattle.std.specs.Prelude.{◌≡◌, ◌<◌, ◌↔◌, ℕ, Bool, true, false, IsTrue, IfSome, IfNone};
ghost use Rattle.truth_tables.specs.Tables.{value_bit, value3_of};
ghost use Rattle.diagram_ops.specs.private.ShortCuts.{CanBe, IsPossibleRow, IsShortCut};

// The rows of a table of three places on which its first, its second and its third place is true.
const FIRST: u8 = 240;

const SECOND: u8 = 204;

const THIRD: u8 = 170;

const ALL: u8 = 255;

/// A constant or one of the references, if it has the table's value on each row that they leave.
pub(crate) fn short_cut(table: u8, x: u64, y: u64, z: u64) -> Option<u64>
    ensures right { IfSome result (λ r. IsShortCut table x y z r) }
    ensures found { IfNone result ((r : ℕ) → ¬ IsShortCut table x y z r) }
{
    let rows = possible_rows(x, y, z);
    if are_same_on(rows, table, 0) {
        return Some(0);
    }
    if are_same_on(rows, table, ALL) {
        return Some(1);
    }
    if are_same_on(rows, table, FIRST) {
        return Some(x);
    }
    if are_same_on(rows, table, SECOND) {
        return Some(y);
    }
    if are_same_on(rows, table, THIRD) {
        return Some(z);
    }
    None
}

// Whether two tables have the same value on each of these rows.
fn are_same_on(rows: u8, table: u8, other: u8) -> bool
    ensures { IsTrue result ↔ ((a b c : Bool) → value3_of rows a b c ≡ true
        → value3_of table a b c ≡ value3_of other a b c) }
{
    (table ^ other) & rows == 0
}

// The rows that three references leave.
fn possible_rows(x: u64, y: u64, z: u64) -> u8
    ensures { (a b c : Bool) → (value3_of result a b c ≡ true) ↔ IsPossibleRow x y z a b c }
{
    rows_of(FIRST, x)
        & rows_of(SECOND, y)
        & rows_of(THIRD, z)
        & rows_of_both(FIRST, SECOND, x, y)
        & rows_of_both(FIRST, THIRD, x, z)
        & rows_of_both(SECOND, THIRD, y, z)
}

// The rows that a reference leaves, by those on which its place is true.
fn rows_of(place: u8, reference: u64) -> u8
    ensures { (k : ℕ) → k < 8 → (value_bit result k ≡ true) ↔ CanBe reference (value_bit place k) }
{
    match reference {
        0 => place ^ ALL,
        1 => place,
        _ => ALL,
    }
}

// The rows that two references leave where they are equal, by those on which their places are true.
fn rows_of_both(first: u8, second: u8, x: u64, y: u64) -> u8
    ensures { (k : ℕ) → k < 8
        → (value_bit result k ≡ true) ↔ (x ≡ y → value_bit first k ≡ value_bit second k) }
{
    if x == y { first ^ second ^ ALL } else { ALL }
}
