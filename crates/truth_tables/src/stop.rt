ghost use Rattle.std.specs.Prelude.{◌≡◌};
ghost use Rattle.truth_tables.specs.declared.stop.Stop.TheVariants.{Memory};

use std::alloc::AllocFailed;
use wpds_base::OutOfMemory;

/// Why the reading of an expression stops before its end.
#[derive(Clone, Copy, Debug, PartialEq, Eq)]
pub(crate) enum Stop {
    /// The words are no expression.
    Form,
    /// Each expression that begins so is too deep, or has a table number that is too large.
    Excess,
    Memory,
}

impl<T: Drop> From<AllocFailed<T>> for Stop {
    ghost from_gives = { λ _ e. e ≡ Memory };

    fn from(_: AllocFailed<T>) -> Stop {
        Stop::Memory
    }
}

impl From<OutOfMemory> for Stop {
    ghost from_gives = { λ _ e. e ≡ Memory };

    fn from(_: OutOfMemory) -> Stop {
        Stop::Memory
    }
}
