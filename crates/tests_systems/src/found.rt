use cost_weights::Cost;
use saturation_core::Book;
use saturation_laws::Direction;
use semiring_laws::Semiring;
use weighted_automata::{Entry, Label, Place};

/// A transition from a state over a symbol to a state, and its weight.
pub type Row = (u32, u32, u32, u64);

/// The transition at a place, if the book has one.
pub fn entry_at<'b, S: Semiring, D: Direction<S>>(
    book: &'b Book<'_, S, D>,
    place: Place,
) -> Option<&'b Entry<S>> {
    let transitions = book.transitions();
    match transitions.find(place) {
        Some(k) if k < transitions.len() => Some(transitions.entry(k)),
        _ => None,
    }
}

/// Whether the book has these transitions with these weights, and no others.
pub fn has_rows<D: Direction<Cost>>(book: &Book<'_, Cost, D>, rows: &[Row]) -> bool {
    if book.transitions().len() != rows.len() as u64 {
        return false;
    }
    for (from, symbol, to, cost) in rows {
        let place = Place {
            from: *from,
            label: Label::Symbol(*symbol),
            to: *to,
        };
        let Some(entry) = entry_at(book, place) else {
            return false;
        };
        if entry.weight != Some(*cost) {
            return false;
        }
    }
    true
}
