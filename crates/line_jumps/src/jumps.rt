ghost use Rattle.std.specs.Prelude.{◌≡◌, [], reverse, IfOk};
ghost use Rattle.line_jumps.specs.Jumps.{others};
ghost use Rattle.line_jumps.specs.private.Blocks.{ahead_by, lines_ahead, other_by};

use crate::blocks::{Ends, behind_else, behind_end, newest_opened, pass_down, pass_up};
use boolean_programs::{BodyLine, Statement};
use std::alloc::Global;
use wpds_base::OutOfMemory;

// The line to which a line may jump ahead, by the blocks that are open below it.
fn line_ahead(statement: &Statement, blocks: &[Ends]) -> u32
    ensures { result ≡ ahead_by statement.now (reverse blocks.now) }
{
    match statement {
        Statement::If(_) => behind_else(blocks),
        Statement::Else | Statement::While(_) => behind_end(blocks),
        _ => 0,
    }
}

// The lines to which the lines of a body may jump ahead, from the last to the first.
fn lines_ahead(alloc: Global, body: &[BodyLine]) -> Result<Vec<u32>, OutOfMemory>
    ensures { IfOk result (λ v. v.items ≡ reverse (lines_ahead body.now)) }
{
    let mut ahead = Vec::with_capacity(alloc, body.len())?;
    let mut blocks = Vec::new(alloc);
    let mut next = 0;
    let mut place = body.len();
    while place > 0 {
        place -= 1;
        let line = &body[place];
        ahead.push(line_ahead(&line.statement, &blocks))?;
        pass_up(&mut blocks, line.statement.bracket(), next)?;
        next = line.line;
    }
    Ok(ahead)
}

// The other line of a line, by the lines that opened the blocks which are open above it.
fn other_line(statement: &Statement, ahead: u32, opened: &[u32]) -> u32
    ensures { result ≡ other_by statement.now ahead (reverse opened.now) }
{
    match statement {
        Statement::EndWhile => newest_opened(opened),
        _ => ahead,
    }
}

/// The other line of each line of a body, in order: behind the `else` or the `end` of its block for
/// an `if`, behind the `end` for an `else` and a `while`, the `while` for its `end`, and 0 for all
/// else. It takes two walks over the lines.
pub fn other_lines(alloc: Global, body: &[BodyLine]) -> Result<Vec<u32>, OutOfMemory>
    ensures { IfOk result (λ v. v.items ≡ others [] body.now) }
{
    let mut ahead = lines_ahead(alloc, body)?;
    let mut lines = Vec::with_capacity(alloc, body.len())?;
    let mut opened = Vec::new(alloc);
    for line in body {
        let below = ahead.pop().unwrap_or(0);
        lines.push(other_line(&line.statement, below, &opened))?;
        pass_down(&mut opened, line)?;
    }
    Ok(lines)
}
