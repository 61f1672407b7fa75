ghost use Rattle.std.specs.Prelude.{◌≡◌, ◌<◌, length, Some, slice_get, OnOk};
ghost use Rattle.weight_tables.specs.Entries.{TableEntry, index_at, lowered_in};
ghost use Rattle.weight_tables.specs.Growth.{Grows};
ghost use Rattle.weight_tables.specs.private.Kept.{AllKnown, AreKnown, valued, valued_layers};
ghost use Rattle.weight_tables.specs.private.Layered.{list_of, with_list};

use crate::entry_list::EntryList;
use crate::layers::Layers;
use crate::{Layer, Weigher};
use semiring_laws::Semiring;
use weighted_automata::Place;
use wpds_base::OutOfMemory;

// Lowers the weight of an entry by another.
fn lower_entry<S: Semiring, M: Weigher<S>>(
    weigher: &mut M,
    list: &mut EntryList<M::W>,
    t: u32,
    weight: &M::W,
) -> Result<(), OutOfMemory>
    requires list { AllKnown (M.Knows weigher.old) list.old }
    requires weight { M.Knows weigher.old weight.now }
    requires number { t < length list.old }
    ensures grows { Grows M.pushdown M.Knows M.worth weigher.old weigher.new }
    ensures known { AllKnown (M.Knows weigher.new) list.new }
    ensures ok { OnOk result (let s = S.operations (M.pushdown weigher.old).semiring in
        (e : TableEntry M.W) → slice_get list.old t ≡ Some e
        → index_at e.place list.old ≡ Some t
        → valued (M.worth weigher.new) list.new ≡ lowered_in s e.place
        (M.worth weigher.old weight.now) (valued (M.worth weigher.old) list.old)) }
{
    let made = weigher.lowered(list.weight(t), weight)?;
    match made {
        Some(sum) => list.write(t, sum),
        None => Ok(()),
    }
}

// Lowers the weight of a place by one that is given away.
fn lower_place<S: Semiring, M: Weigher<S>>(
    weigher: &mut M,
    list: &mut EntryList<M::W>,
    place: Place,
    weight: M::W,
) -> Result<(), OutOfMemory>
    requires list { AllKnown (M.Knows weigher.old) list.old }
    requires weight { M.Knows weigher.old weight }
    ensures grows { Grows M.pushdown M.Knows M.worth weigher.old weigher.new }
    ensures known { AllKnown (M.Knows weigher.new) list.new }
    ensures ok { OnOk result (let s = S.operations (M.pushdown weigher.old).semiring in
        valued (M.worth weigher.new) list.new ≡ lowered_in s place
        (M.worth weigher.old weight) (valued (M.worth weigher.old) list.old)) }
{
    if weigher.is_zero(&weight) {
        return Ok(());
    }
    let found = list.meet(place, weight)?;
    match found {
        Some(met) => lower_entry(weigher, list, met.number, &met.weight),
        None => Ok(()),
    }
}

// Lowers the weight of a place by one that stays where it is.
fn lower_place_by<S: Semiring, M: Weigher<S>>(
    weigher: &mut M,
    list: &mut EntryList<M::W>,
    place: Place,
    weight: &M::W,
) -> Result<(), OutOfMemory>
    requires list { AllKnown (M.Knows weigher.old) list.old }
    requires weight { M.Knows weigher.old weight.now }
    ensures grows { Grows M.pushdown M.Knows M.worth weigher.old weigher.new }
    ensures known { AllKnown (M.Knows weigher.new) list.new }
    ensures ok { OnOk result (let s = S.operations (M.pushdown weigher.old).semiring in
        valued (M.worth weigher.new) list.new ≡ lowered_in s place
        (M.worth weigher.old weight.now) (valued (M.worth weigher.old) list.old)) }
{
    if weigher.is_zero(weight) {
        return Ok(());
    }
    match list.find(place) {
        Some(t) => lower_entry(weigher, list, t, weight),
        None => {
            let copy = weigher.copy(weight)?;
            list.add(place, copy)
        }
    }
}

/// Lowers the weight of a place by one that is given away.
pub(crate) fn lower<S: Semiring, M: Weigher<S>>(
    weigher: &mut M,
    layers: &mut Layers<M::W>,
    layer: Layer,
    place: Place,
    weight: M::W,
) -> Result<(), OutOfMemory>
    requires layers { AreKnown (M.Knows weigher.old) layers.old }
    requires weight { M.Knows weigher.old weight }
    ensures grows { Grows M.pushdown M.Knows M.worth weigher.old weigher.new }
    ensures known { AreKnown (M.Knows weigher.new) layers.new }
    ensures ok { OnOk result (let s = S.operations (M.pushdown weigher.old).semiring in
        let old = valued_layers (M.worth weigher.old) layers.old in
        valued_layers (M.worth weigher.new) layers.new ≡ with_list layer
        (lowered_in s place (M.worth weigher.old weight) (list_of layer old)) old) }
{
    match layer {
        Layer::Base => lower_place(weigher, &mut layers.base, place, weight),
        Layer::Target => lower_place(weigher, &mut layers.target, place, weight),
        Layer::Walk => lower_place(weigher, &mut layers.walk, place, weight),
    }
}

/// Lowers the weight of a place by one that stays where it is.
pub(crate) fn lower_by<S: Semiring, M: Weigher<S>>(
    weigher: &mut M,
    layers: &mut Layers<M::W>,
    layer: Layer,
    place: Place,
    weight: &M::W,
) -> Result<(), OutOfMemory>
    requires layers { AreKnown (M.Knows weigher.old) layers.old }
    requires weight { M.Knows weigher.old weight.now }
    ensures grows { Grows M.pushdown M.Knows M.worth weigher.old weigher.new }
    ensures known { AreKnown (M.Knows weigher.new) layers.new }
    ensures ok { OnOk result (let s = S.operations (M.pushdown weigher.old).semiring in
        let old = valued_layers (M.worth weigher.old) layers.old in
        valued_layers (M.worth weigher.new) layers.new ≡ with_list layer
        (lowered_in s place (M.worth weigher.old weight.now) (list_of layer old)) old) }
{
    match layer {
        Layer::Base => lower_place_by(weigher, &mut layers.base, place, weight),
        Layer::Target => lower_place_by(weigher, &mut layers.target, place, weight),
        Layer::Walk => lower_place_by(weigher, &mut layers.walk, place, weight),
    }
}
