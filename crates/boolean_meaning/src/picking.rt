//! The bits that values get, and the names that get them.

ghost use Rattle.std.specs.Prelude.{IsTrue, ◌≡◌, ℕ, ◌+◌, ◌≤◌, length, option_map, slice_get, IfOk, OnOk};
ghost use Rattle.wpds_base.specs.Limits.{most_related};
ghost use Rattle.truth_tables.specs.Formulas.{is_over};
ghost use Rattle.boolean_programs.specs.Lists.{Each, place_in};
ghost use Rattle.boolean_programs.specs.Structure.{IsValueOver};
ghost use Rattle.boolean_machine.specs.Machine.{value_at};
ghost use Rattle.boolean_machine.specs.Picks.{listed, picked, stars, written};
ghost use Rattle.boolean_meaning.specs.Bits.{bit_of};
ghost use Rattle.boolean_meaning.specs.private.GivenValues.{values_of, choice_of};
ghost use Rattle.boolean_meaning.specs.private.Outcomes.{bit_in, IsPicked};

use crate::valuation::Valuation;
use boolean_machine::lists_are_states;
use boolean_programs::{Choice, Expression};
use std::alloc::Global;
use wpds_base::OutOfMemory;

/// The values that targets get: those of a line, or so many free ones.
#[derive(Clone, Copy)]
pub(crate) enum Values<'p> {
    Listed(&'p [Choice]),
    AllFree(u32),
}

/// A value: a free one, or that of an expression.
#[derive(Clone, Copy)]
pub(crate) enum Value<'p> {
    Free,
    Of(&'p Expression),
}

impl<'p> Value<'p> {
    /// The value that is written so.
    pub(crate) fn of(choice: &'p Choice) -> Value<'p>
        ensures { choice_of result ≡ choice.now }
    {
        match choice {
            Choice::Star => Value::Free,
            Choice::Is(e) => Value::Of(e),
        }
    }
}

impl<'p> Values<'p> {
    /// How many values there are.
    pub(crate) fn len(&self) -> usize
        ensures { result ≡ length (values_of self.now) }
    {
        match self {
            Values::Listed(values) => values.len(),
            Values::AllFree(count) => *count as usize,
        }
    }

    /// The value at a place.
    pub(crate) fn get(&self, place: usize) -> Option<Value<'p>>
        ensures { option_map choice_of result ≡ slice_get (values_of self.now) place }
    {
        match self {
            Values::AllFree(count) => {
                if place < *count as usize {
                    Some(Value::Free)
                } else {
                    None
                }
            }
            Values::Listed(values) => match values.get(place) {
                Some(choice) => Some(Value::of(choice)),
                None => None,
            },
        }
    }
}

/// The value of an expression in a state where the names have these bits.
pub(crate) fn value_in(e: &Expression, old: &[bool]) -> bool
    requires { IsTrue (is_over (length old.now) e.now) }
    ensures { result ≡ value_at (bit_in old.now) e.now }
{
    lists_are_states();
    e.value(old)
}

// The bit of the value at a place, where a free one takes the lowest picked bit.
fn picked_bit(values: &Values<'_>, place: usize, old: &[bool], bits: &mut u32) -> bool
    requires over { Each (IsValueOver (length old.now)) (values_of values.now) }
    ensures { IsPicked (bit_in old.now) (slice_get (values_of values.now) place)
        bits.old bits.new result }
{
    match values.get(place) {
        Some(Value::Of(e)) => value_in(e, old),
        Some(Value::Free) => {
            let lowest = *bits % 2 == 1;
            *bits /= 2;
            lowest
        }
        None => false,
    }
}

/// The place of a name among targets.
pub(crate) fn place_in(targets: &[u32], name: u32) -> Option<usize>
    ensures { result ≡ place_in targets.now name }
{
    for (place, target) in targets.iter().enumerate() {
        if *target == name {
            return Some(place);
        }
    }
    None
}

/// The bits of values, all taken in the old state, where the free ones take the lowest picked bits.
/// Of these the further ones are left.
pub(crate) fn picked(
    alloc: Global,
    values: Values<'_>,
    old: &[bool],
    bits: &mut u32,
) -> Result<Vec<bool>, OutOfMemory>
    requires { Each (IsValueOver (length old.now)) (values_of values) }
    ensures new { IfOk result (λ new.
        new.items ≡ picked (bit_in old.now) (bit_of bits.old) 0 (values_of values.entry)) }
    ensures left { OnOk result ((j : ℕ)
        → bit_of bits.new j ≡ bit_of bits.old (stars (values_of values.entry) + j)) }
{
    let mut new = Vec::new(alloc);
    let mut place = 0;
    while place < values.len() {
        new.push(picked_bit(&values, place, old, bits))?;
        place += 1;
    }
    Ok(new)
}

// The bit of a name behind targets that got new bits, where it had this one.
fn written_bit(targets: &[u32], new: &[bool], name: u32, had: bool) -> bool
    ensures { result ≡ written targets.now new.now (λ _. had) name }
{
    match place_in(targets, name) {
        Some(place) => new.get(place).copied().unwrap_or(false),
        None => had,
    }
}

/// The bits of names behind targets that got new bits.
pub(crate) fn written(targets: &[u32], new: &[bool], kept: &[bool]) -> Valuation
    requires { length kept.now ≤ most_related }
    ensures { result
        ≡ listed (length kept.now) (written targets.now new.now (bit_in kept.now)) }
{
    let mut bits = Valuation::new();
    for (name, had) in kept.iter().enumerate() {
        bits.push(written_bit(targets, new, name as u32, *had));
    }
    bits
}
