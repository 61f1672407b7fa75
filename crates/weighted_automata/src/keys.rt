ghost use Rattle.std.specs.Prelude.{◌≡◌};
ghost use Rattle.weighted_automata.specs.private.Spread.{label_word as word_of, place_spread, source_spread, places_alike, sources_alike};

use crate::index::Source;
use crate::{Label, Place};
use key_rows::{Key, Keyed, mixed};

// A word that stands for a label.
fn label_word(label: Label) -> u32
    ensures { result ≡ word_of label }
{
    match label {
        Label::Symbol(symbol) => symbol,
        Label::Empty => u32::MAX,
    }
}

impl Key for Place {
    ghost spread = { place_spread };

    fn spread(self, round: u64) -> u64 {
        let from = mixed(mixed(round, 2), self.from);
        mixed(mixed(from, label_word(self.label)), self.to)
    }

    fn is_key(self, other: Place) -> bool {
        other.is(self)
    }

    ghost alike = { places_alike };
}

impl Keyed<Place> for Place {
    ghost key_of = { λ p. p };

    fn key(&self) -> Place {
        *self
    }
}

impl Key for Source {
    ghost spread = { source_spread };

    fn spread(self, round: u64) -> u64 {
        mixed(mixed(mixed(round, 3), self.state), label_word(self.label))
    }

    fn is_key(self, other: Source) -> bool {
        self.state == other.state && other.label.is(self.label)
    }

    ghost alike = { sources_alike };
}
