//! The settings before a return, from those behind it.

ghost use Rattle.std.specs.Prelude.{◌≡◌, ◌≤◌, ◌<◌, ◌↔◌, ℕ, Bool, IsTrue, IfOk, length, slice_index_or, false};
ghost use Rattle.semiring_laws.specs.Semiring.{Fits, FitsMap};
ghost use Rattle.diagram_store.specs.Meaning.{bits_of};
ghost use Rattle.relation_weights.specs.Relations.{relation_operations};
ghost use Rattle.setting_runs.specs.Relations.{IsRestored};
ghost use Rattle.relation_picks.specs.Picks.{AreBitsBelow, HasBits};
ghost use Rattle.run_settings.specs.Settings.{slot_at};
ghost use Rattle.run_settings.specs.private.Links.{IsBack, IsReturn, Joins};

use crate::machine::Call;
use diagram_ops::Bits;
use relation_picks::{pick_end, pick_middle};
use relation_weights::{RelMap, Relation, Relations, Slot, weights_are_sets_of_pairs};
use semiring_laws::Semiring;
use std::alloc::Global;
use wpds_base::OutOfMemory;

// Where a map takes a variable from.
fn slot_at(map: &RelMap, variable: u32) -> Slot
    requires { variable < 24 }
    ensures { result ≡ slot_at map.now variable }
{
    match map {
        RelMap::Plain => Slot::Callee(variable as u8),
        RelMap::Slots(slots) => slots[variable as usize],
    }
}

// The bits of the callee's setting that came back, by the setting behind the return.
fn bits_back(
    alloc: Global,
    n: u32,
    map: &RelMap,
    behind: &[bool],
) -> Result<Vec<(u32, bool)>, OutOfMemory>
    requires n { n ≤ 24 }
    requires map { FitsMap (relation_operations n) map.now }
    requires behind { length behind.now ≡ n }
    ensures below { IfOk result (λ v. AreBitsBelow n v.items) }
    ensures bits { IfOk result (λ v. (y : ℕ → Bool) → HasBits v.items y
        ↔ ((k : ℕ) → k < n → IsBack (slot_at map.now k) y (slice_index_or behind.now k false))) }
{
    let mut wanted = Vec::with_capacity(alloc, n as usize)?;
    for k in 0..n {
        if let Slot::Callee(from) = slot_at(map, k) {
            wanted.push((u32::from(from), behind[k as usize]))?;
        }
    }
    Ok(wanted)
}

/// The settings at a call and before the rule that returned from it.
#[derive(Drop)]
pub(crate) struct Returned {
    pub(crate) caller: Bits,
    pub(crate) last: Bits,
}

// The callee's setting at its end.
fn ended(
    alloc: Global,
    n: u32,
    map: &RelMap,
    value: &Relation,
    caller: &[bool],
    behind: &[bool],
) -> Result<Bits, OutOfMemory>
    requires n { n ≤ 24 }
    requires map { FitsMap (relation_operations n) map.now }
    requires value { Fits (relation_operations n) value.now }
    requires caller { length caller.now ≡ n }
    requires behind { length behind.now ≡ n }
    requires joins { Joins ((relation_operations n).after map.now value.now)
        caller.now behind.now }
    ensures long { IfOk result (λ e. length e ≡ n) }
    ensures joins { IfOk result (λ e. Joins value.now caller.now e) }
    ensures restored { IfOk result (λ e.
        IsRestored n (slot_at map.now) (bits_of caller.now) (bits_of e) (bits_of behind.now)) }
{
    // the law of what a return map does
    weights_are_sets_of_pairs();
    let wanted = bits_back(alloc, n, map, behind)?;
    pick_end(alloc, n, value, caller, &wanted)
}

/// What was before a return from a call, by the value of the callee so far and the weight of the
/// rule that returned.
pub(crate) fn before_return(
    alloc: Global,
    n: u32,
    relations: &Relations,
    call: &Call<'_>,
    value: &Relation,
    weight: &Relation,
    below: &[bool],
    behind: &[bool],
) -> Result<Returned, OutOfMemory>
    requires n { relations.now ≡ n }
    requires few { n ≤ 24 }
    requires saved { Fits (relation_operations n) call.now.saved }
    requires map { FitsMap (relation_operations n) call.now.map }
    requires value { Fits (relation_operations n) value.now }
    requires weight { Fits (relation_operations n) weight.now }
    requires below { length below.now ≡ n }
    requires behind { length behind.now ≡ n }
    requires joins { let s = relation_operations n in Joins (s.extend call.now.saved
        (s.after call.now.map (s.extend value.now weight.now))) below.now behind.now }
    ensures { IfOk result (λ r.
        IsReturn n call.now value.now weight.now below.now behind.now r.caller r.last) }
{
    let whole = relations.extend(alloc, value, weight)?;
    let returned = relations.after(alloc, call.map, &whole)?;
    let caller = pick_middle(alloc, n, &call.saved, &returned, below, behind)?;
    let ended = ended(alloc, n, call.map, &whole, caller.as_slice(), behind)?;
    let last = pick_middle(alloc, n, value, weight, caller.as_slice(), ended.as_slice())?;
    Ok(Returned { caller, last })
}
