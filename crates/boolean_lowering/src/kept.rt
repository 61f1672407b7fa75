//! Weights that are kept for when another line has an equal source.

ghost use Rattle.std.specs.Prelude.{IsTrue, IfSome};
ghost use Rattle.boolean_lowering.specs.private.Sources.{IsWeightOf, IsWeightOf-prop};

use crate::alike::same_source;
use crate::layout::Layout;
use crate::marks::mark_of;
use crate::source::Source;
use once_cell::race::OnceBox;
use relation_weights::Relation;
use std::alloc::Global;
use wpds_base::OutOfMemory;

// How many weights are kept at most.
const MOST: usize = 4_096;

// A weight, and what it was made from.
#[derive(Drop)]
struct MadeWeight<'p> {
    layout: Layout,
    source: Source<'p>,
    weight: Relation,
    ghost right: { IsWeightOf layout source weight } by { IsWeightOf-prop layout source weight },
}

impl MadeWeight<'_> {
    // Whether it was made from this.
    fn is_of(&self, layout: Layout, source: Source<'_>) -> bool
        ensures { IsTrue result → IsWeightOf layout source.entry self.now.weight }
    {
        self.layout.is_same(layout) && same_source(self.source, source)
    }
}

/// Weights, each at the place that the mark of its source gives, for good: what finds its place
/// taken is not kept.
#[derive(Drop)]
pub(crate) struct KeptWeights<'p> {
    places: Vec<OnceBox<MadeWeight<'p>>>,
}

impl<'p> KeptWeights<'p> {
    /// No weights.
    pub(crate) fn new(alloc: Global) -> Result<KeptWeights<'p>, OutOfMemory> {
        let mut places = Vec::with_capacity(alloc, MOST)?;
        for _ in 0..MOST {
            places.push(OnceBox::new(alloc))?;
        }
        Ok(KeptWeights { places })
    }

    /// The weight that was made from an equal source, if it is kept.
    pub(crate) fn find(&self, layout: Layout, source: Source<'_>) -> Option<&Relation>
        ensures { IfSome result (λ w. IsWeightOf layout source.entry w.now) }
    {
        let made = self.places.get(self.place_of(source))?.get()?;
        if made.is_of(layout, source) {
            Some(&made.weight)
        } else {
            None
        }
    }

    /// Keeps a weight, where its place is free and there is memory.
    pub(crate) fn keep(&self, alloc: Global, layout: Layout, source: Source<'p>, weight: Relation)
        requires { IsWeightOf layout source weight }
    {
        let made = MadeWeight {
            layout,
            source,
            weight,
        };
        let Ok(made) = Box::new(alloc, made) else {
            return;
        };
        if let Some(place) = self.places.get(self.place_of(source)) {
            let _kept = place.set(made);
        }
    }

    // The place that the mark of a source gives.
    fn place_of(&self, source: Source<'_>) -> usize {
        let count = self.places.len() as u64;
        mark_of(source).checked_rem(count).unwrap_or(0) as usize
    }
}
