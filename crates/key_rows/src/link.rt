ghost use Rattle.std.specs.Prelude.{◌≡◌, ◌<◌, None, Some};
ghost use Rattle.key_rows.specs.private.Links.{most_cells};

use std::marker::Model;

/// The number of a cell, or none, in four bytes.
#[derive(Clone, Copy, Debug, Drop)]
pub(crate) struct Link {
    // The greatest number stands for none: as many cells are refused.
    number: u32,
}

impl Model for Link {
    ghost use Rattle.std.specs.Prelude.{ℕ, Option};
    ghost use Rattle.std.proofs.Common.{ap};
    ghost use Rattle.key_rows.specs.private.Links.{linked, unlinked, unlinked_again};

    ghost Value = { Option ℕ };

    ghost view = { λ l. linked l.number };

    ghost inverse = { λ o. record { number = unlinked o } };

    ghost inverse_ok = { λ l _. ap (λ n. record { number = n }) (unlinked_again l.number) };
}

impl Link {
    /// To no cell.
    pub(crate) fn none() -> Link
        ensures { result ≡ None }
    {
        Link { number: u32::MAX }
    }

    /// To the cell of a number.
    pub(crate) fn to(number: u32) -> Link
        requires { number < most_cells }
        ensures { result ≡ Some number }
    {
        Link { number }
    }

    /// The cell that it leads to.
    pub(crate) fn get(self) -> Option<u32>
        ensures { result ≡ self }
    {
        if self.number == u32::MAX {
            None
        } else {
            Some(self.number)
        }
    }
}
