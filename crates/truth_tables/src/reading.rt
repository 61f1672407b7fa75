ghost use Rattle.std.specs.Prelude.{◌≡◌, IfOk};
ghost use Rattle.truth_tables.specs.Texts.{IsAnswer};
ghost use Rattle.truth_tables.specs.private.Kept.{IsBuilding, IsNextPlace, unbuilt_answer};

use crate::reader::{Position, Reader};
use crate::shape::large_table;
use crate::stop::Stop;
use crate::{Postfix, is_variable};
use std::alloc::Global;
use wpds_base::OutOfMemory;
use wpds_port::Words;

/// What reading words as an expression returns.
#[derive(Debug, Drop)]
pub enum ExprRead {
    /// The expression, in which a variable's number is its place among the variables of the words.
    Read(Postfix),
    /// The words are no expression.
    Form,
    /// They are one with a table number that is too large.
    Table,
    /// They are one that is too deep.
    Deep,
}

// The place behind a word among the variables.
fn place_behind(place: u32, is_variable: bool) -> Result<u32, Stop>
    ensures { IsNextPlace place is_variable result }
{
    if !is_variable {
        return Ok(place);
    }
    match place.checked_add(1) {
        Some(next) => Ok(next),
        None => Err(Stop::Memory),
    }
}

// Builds the expression that the words are, as long as it can be one that is to be read. So no more
// is open at once than `limit`.
fn build(alloc: Global, limit: u32, words: Words<'_>) -> Result<Postfix, Stop>
    ensures { IsBuilding limit words.entry result }
{
    let mut reader = Reader::new(alloc);
    let mut position = Position::Wanted;
    let mut place = 0;
    let mut left = words;
    while let Some((lexeme, rest)) = left.split_first() {
        position = reader.step(limit, position, lexeme, place)?;
        place = place_behind(place, is_variable(lexeme))?;
        left = rest;
    }
    reader.finish(limit, position)
}

// The answer where the words are no expression that is to be read, by its large table if they are
// an expression.
fn unbuilt(large: Option<bool>) -> ExprRead
    ensures { result ≡ unbuilt_answer large }
{
    match large {
        Some(true) => ExprRead::Table,
        Some(false) => ExprRead::Deep,
        None => ExprRead::Form,
    }
}

/// Reads the words as an expression.
///
/// It may be `depth` deep: an atom is 1 deep, and an operator, `!`, a table and a pair of brackets
/// is 1 deeper than its deepest part.
///
/// Words that are no expression are told before a table number that is too large, and that before
/// an expression that is too deep.
pub fn read_expr(alloc: Global, words: &Words<'_>, depth: u32) -> Result<ExprRead, OutOfMemory>
    ensures { IfOk result (IsAnswer words.now depth) }
{
    match build(alloc, depth, words.reborrow()) {
        Ok(parts) => Ok(ExprRead::Read(parts)),
        Err(Stop::Form) => Ok(ExprRead::Form),
        Err(Stop::Excess) => Ok(unbuilt(large_table(alloc, words.reborrow())?)),
        Err(Stop::Memory) => Err(OutOfMemory),
    }
}
