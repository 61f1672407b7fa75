ghost use Rattle.std.specs.Prelude.{◌≡◌, ◌↔◌, IsTrue};

/// Where a returned bit comes from.
#[derive(Clone, Copy, Debug, PartialEq, Eq)]
pub enum Slot {
    /// The value from before the call.
    Caller,
    /// The callee's value of this number. There are at most 24, so a byte holds it, and a map takes 48 bytes.
    Callee(u8),
}

/// What a return map makes of the relation of a call.
#[derive(Clone, Copy, Debug)]
pub enum RelMap {
    /// The relation itself.
    Plain,
    /// Each bit after the call comes from its slot. Slots from the number of variables on are not looked at.
    Slots([Slot; 24]),
}

impl RelMap {
    /// Whether two maps are equal, slot by slot.
    pub(crate) fn is_same(&self, other: &RelMap) -> bool
        ensures { IsTrue result ↔ (self.now ≡ other.now) }
    {
        match (self, other) {
            (RelMap::Plain, RelMap::Plain) => true,
            (RelMap::Slots(a), RelMap::Slots(b)) => are_same(a, b),
            _ => false,
        }
    }
}

/// Whether two lists of slots are equal.
pub(crate) fn are_same(a: &[Slot], b: &[Slot]) -> bool
    ensures { IsTrue result ↔ (a.now ≡ b.now) }
{
    a == b
}
