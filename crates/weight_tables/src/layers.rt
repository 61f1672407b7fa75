ghost use Rattle.std.specs.Prelude.{◌≡◌, ◌<◌, [], length, Some, IfNone, IfSome, slice_get, true};
ghost use Rattle.weight_tables.specs.Entries.{TableEntry, NoneWaits, taken};
ghost use Rattle.weight_tables.specs.private.Layered.{list_of, no_layers, with_list};
ghost use Rattle.weight_tables.specs.private.Renewed.{HaveMarks, with_layer_cells};

use crate::Layer;
use crate::cell::Cell;
use crate::entry_list::EntryList;
use std::alloc::Global;

/// The entries of each layer.
#[derive(Drop)]
pub(crate) struct Layers<W: Drop> {
    pub(crate) base: EntryList<W>,
    pub(crate) target: EntryList<W>,
    pub(crate) walk: EntryList<W>,
}

/// The weights of each layer by number, with their marks.
#[derive(Drop)]
pub(crate) struct LayerCells<W: Drop> {
    pub(crate) base: Vec<Cell<W>>,
    pub(crate) target: Vec<Cell<W>>,
    pub(crate) walk: Vec<Cell<W>>,
}

impl<W: Drop> Layers<W> {
    /// No entries. It takes no memory.
    pub(crate) fn new(alloc: Global) -> Layers<W>
        ensures { result ≡ no_layers }
    {
        Layers {
            base: EntryList::new(alloc),
            target: EntryList::new(alloc),
            walk: EntryList::new(alloc),
        }
    }

    /// The entries of a layer.
    pub(crate) fn list(&self, layer: Layer) -> &EntryList<W>
        ensures { result.now ≡ list_of layer self.now }
    {
        match layer {
            Layer::Base => &self.base,
            Layer::Target => &self.target,
            Layer::Walk => &self.walk,
        }
    }

    /// The weight of an entry.
    pub(crate) fn weight(&self, layer: Layer, t: u32) -> &W
        requires { t < length (list_of layer self.now) }
        ensures { (e : TableEntry W) × (slice_get (list_of layer self.now) t ≡ Some e)
            × (result.now ≡ e.weight) }
    {
        self.list(layer).weight(t)
    }

    /// Takes the entry of a layer that waits longest, and says its number.
    pub(crate) fn pop(&mut self, layer: Layer) -> Option<u32>
        ensures none { IfNone result (NoneWaits (list_of layer self.old)) }
        ensures stays { IfNone result (self.new ≡ self.old) }
        ensures entry { IfSome result (λ t. (e : TableEntry W)
            × (slice_get (list_of layer self.old) t ≡ Some e) × (e.waits ≡ true)) }
        ensures within { IfSome result (λ t. t < length (list_of layer self.new)) }
        ensures taken { IfSome result (λ t.
            self.new ≡ with_list layer (taken t (list_of layer self.old)) self.old) }
    {
        match layer {
            Layer::Base => self.base.pop(),
            Layer::Target => self.target.pop(),
            Layer::Walk => self.walk.pop(),
        }
    }

    /// Takes all entries out of a layer. It takes no memory.
    pub(crate) fn renew(&mut self, alloc: Global, layer: Layer)
        ensures { self.new ≡ with_list layer [] self.old }
    {
        match layer {
            Layer::Base => self.base = EntryList::new(alloc),
            Layer::Target => self.target = EntryList::new(alloc),
            Layer::Walk => self.walk = EntryList::new(alloc),
        }
    }

    /// Puts other weights in the place of all, with the marks that are there.
    pub(crate) fn put_cells(&mut self, cells: LayerCells<W>)
        requires { HaveMarks self.old cells }
        ensures { self.new ≡ with_layer_cells cells self.old }
    {
        self.base.put_cells(cells.base);
        self.target.put_cells(cells.target);
        self.walk.put_cells(cells.walk);
    }
}
