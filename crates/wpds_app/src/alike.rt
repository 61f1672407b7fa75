//! Whether two patterns are written alike, so that one saturation serves both.

ghost use Rattle.std.specs.Prelude.{◌≡◌, ◌↔◌, IsTrue};

use document_forms::{ItemText, PatternText, SetText};

fn same_set(a: &SetText, b: &SetText) -> bool
    ensures { IsTrue result ↔ (a.now ≡ b.now) }
{
    match (a, b) {
        (SetText::All, SetText::All) => true,
        (SetText::Listed(a), SetText::Listed(b)) => a.as_slice() == b.as_slice(),
        _ => false,
    }
}

fn same_item(a: &ItemText, b: &ItemText) -> bool
    ensures { IsTrue result ↔ (a.now ≡ b.now) }
{
    a.star == b.star && same_set(&a.set, &b.set)
}

fn same_items(a: &[ItemText], b: &[ItemText]) -> bool
    ensures { IsTrue result ↔ (a.now ≡ b.now) }
{
    if a.len() != b.len() {
        return false;
    }
    for i in 0..a.len() {
        if !same_item(&a[i], &b[i]) {
            return false;
        }
    }
    true
}

/// Whether they have the same control and, one by one, the same items.
pub(crate) fn same_pattern(a: &PatternText, b: &PatternText) -> bool
    ensures { IsTrue result ↔ (a.now ≡ b.now) }
{
    a.control == b.control && same_items(a.items.as_slice(), b.items.as_slice())
}
