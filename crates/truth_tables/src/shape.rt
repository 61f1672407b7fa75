//! Whether words are an expression, told without building it: where it is too deep to be built.
//!
//! Only brackets and tables that are open are kept, a byte for each: how operators group doesn't
//! matter to whether words are an expression.

ghost use Rattle.std.specs.Prelude.{◌≡◌, IfOk, option_map, reverse};
ghost use Rattle.wpds_port.specs.Words.{word_of};
ghost use Rattle.truth_tables.specs.Grammar.{has_large_table};
ghost use Rattle.truth_tables.specs.Stacks.{tree_of};
ghost use Rattle.truth_tables.specs.private.Shapes.{shape_name, shape_number, shape_comma, shape_close, shape_mark, next_shape, large_at, shape_pushed, shape_now, is_whole};

use crate::Operator;
use crate::numbers::table_number;
use std::alloc::Global;
use wpds_base::OutOfMemory;
use wpds_port::{Lexeme, Mark, Words};

/// A bracket or a table that is open: behind its opening bracket, or behind a comma of the table.
#[derive(Clone, Copy, Drop)]
pub(crate) enum OpenShape {
    Bracket,
    First2,
    Second2,
    First3,
    Second3,
    Third3,
}

/// Where the reading of a shape stands, beside the stack of what is open.
#[derive(Clone, Copy, Drop)]
pub(crate) enum Place {
    /// An operand is wanted.
    Wanted,
    /// Behind `tab2` or `tab3`.
    Behind2,
    Behind3,
    /// Behind the number of such a table.
    Counted2,
    Counted3,
    /// Behind an operand.
    Behind,
}

// A name where an operand is wanted.
fn at_name(name: &[u8]) -> Option<Place>
    ensures { result ≡ shape_name name.now }
{
    if name == b"return".as_slice() {
        return None;
    }
    if name == b"tab2".as_slice() {
        return Some(Place::Behind2);
    }
    if name == b"tab3".as_slice() {
        return Some(Place::Behind3);
    }
    Some(Place::Behind)
}

// A number where an operand is wanted.
fn at_number(digits: &[u8]) -> Option<Place>
    ensures { result ≡ shape_number digits.now }
{
    if digits == b"0".as_slice() || digits == b"1".as_slice() {
        return Some(Place::Behind);
    }
    None
}

// Leaves a shape open, behind which an operand is wanted.
fn open(stack: &mut Vec<OpenShape>, shape: OpenShape) -> Result<Option<Place>, OutOfMemory>
    ensures { IfOk result (λ o. shape_now o stack.new.items
        ≡ shape_pushed (reverse stack.old.items) shape) }
{
    stack.push(shape)?;
    Ok(Some(Place::Wanted))
}

// A comma behind an operand.
fn at_comma(stack: &mut Vec<OpenShape>) -> Result<Option<Place>, OutOfMemory>
    ensures { IfOk result (λ o. shape_now o stack.new.items
        ≡ shape_comma (reverse stack.old.items)) }
{
    match stack.pop() {
        Some(OpenShape::First2) => open(stack, OpenShape::Second2),
        Some(OpenShape::First3) => open(stack, OpenShape::Second3),
        Some(OpenShape::Second3) => open(stack, OpenShape::Third3),
        _ => Ok(None),
    }
}

// A closing bracket behind an operand.
fn at_close(stack: &mut Vec<OpenShape>) -> Option<Place>
    ensures { shape_now result stack.new.items ≡ shape_close (reverse stack.old.items) }
{
    match stack.pop() {
        Some(OpenShape::Bracket | OpenShape::Second2 | OpenShape::Third3) => Some(Place::Behind),
        _ => None,
    }
}

// A mark behind an operand.
fn behind_operand(stack: &mut Vec<OpenShape>, mark: Mark) -> Result<Option<Place>, OutOfMemory>
    ensures { IfOk result (λ o. shape_now o stack.new.items
        ≡ shape_mark mark (reverse stack.old.items)) }
{
    if Operator::of(mark).is_some() {
        return Ok(Some(Place::Wanted));
    }
    match mark {
        Mark::Comma => at_comma(stack),
        Mark::Close => Ok(at_close(stack)),
        _ => Ok(None),
    }
}

// One word more. None: with it the words are no expression.
fn step(
    stack: &mut Vec<OpenShape>,
    place: Place,
    lexeme: Lexeme<'_>,
) -> Result<Option<Place>, OutOfMemory>
    ensures { IfOk result (λ o. shape_now o stack.new.items
        ≡ next_shape (reverse stack.old.items) place (word_of lexeme.entry)) }
{
    match (place, lexeme) {
        (Place::Wanted, Lexeme::Name(name)) => Ok(at_name(name)),
        (Place::Wanted, Lexeme::Number(digits)) => Ok(at_number(digits)),
        (Place::Wanted, Lexeme::Mark(Mark::Not)) => Ok(Some(Place::Wanted)),
        (Place::Wanted, Lexeme::Mark(Mark::Open)) => open(stack, OpenShape::Bracket),
        (Place::Behind2, Lexeme::Number(_)) => Ok(Some(Place::Counted2)),
        (Place::Behind3, Lexeme::Number(_)) => Ok(Some(Place::Counted3)),
        (Place::Counted2, Lexeme::Mark(Mark::Open)) => open(stack, OpenShape::First2),
        (Place::Counted3, Lexeme::Mark(Mark::Open)) => open(stack, OpenShape::First3),
        (Place::Behind, Lexeme::Mark(mark)) => behind_operand(stack, mark),
        _ => Ok(None),
    }
}

// Whether the word is the number of a table, and too large.
fn is_large(place: Place, lexeme: Lexeme<'_>) -> bool
    ensures { result ≡ large_at place (word_of lexeme.entry) }
{
    match (place, lexeme) {
        (Place::Behind2, Lexeme::Number(digits)) => table_number(digits, 15).is_none(),
        (Place::Behind3, Lexeme::Number(digits)) => table_number(digits, 255).is_none(),
        _ => false,
    }
}

/// Whether an expression has a table number that is too large; nothing where the words are none.
pub(crate) fn large_table(alloc: Global, words: Words<'_>) -> Result<Option<bool>, OutOfMemory>
    ensures { IfOk result (λ o. o ≡ option_map has_large_table (tree_of words.entry)) }
{
    let mut stack = Vec::new(alloc);
    let mut place = Place::Wanted;
    let mut large = false;
    let mut left = words;
    while let Some((lexeme, rest)) = left.split_first() {
        large |= is_large(place, lexeme);
        match step(&mut stack, place, lexeme)? {
            Some(next) => place = next,
            None => return Ok(None),
        }
        left = rest;
    }
    if may_end(&stack, place) {
        Ok(Some(large))
    } else {
        Ok(None)
    }
}

// Whether the words may end here.
fn may_end(stack: &[OpenShape], place: Place) -> bool
    ensures { result ≡ is_whole (reverse stack.now, place) }
{
    match place {
        Place::Behind => stack.is_empty(),
        _ => false,
    }
}
