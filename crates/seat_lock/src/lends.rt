// `value` has a file of its own: its clause names the row of `Held`, which the file that declares `Held` cannot import.
ghost use Rattle.std.specs.Prelude.{◌≡◌, []};
ghost use Rattle.std.specs.Borrow.{Lends, sem};
ghost use mir.Syntax.{named};
ghost use Rattle.seat_lock.specs.contracts.lock.Held.{the_row};
ghost use Rattle.seat_lock.specs.Lending.{with_value};

use crate::lock::Held;
use crate::view::Journaled;

impl<'a, T: Journaled> Held<'a, T> {
    /// The value. When the borrow ends, the turn has what was written through it.
    pub fn value<'s>(&'s mut self) -> &'s mut T
        ensures* writes_back { sem 𝓛 (Lends
            (the_row (record { mir = named 1; lft = [] }) T.row T.Base.row T.Entry.row T.Journaled)
            T.row self.entry result (with_value self.old)) }
        ensures value { result.now ≡ self.old.value }
    {
        &mut self.value
    }
}
