//! The open blocks of a walk through the lines of a body.

ghost use Rattle.std.specs.Prelude.{◌≡◌, reverse, OnOk};
ghost use Rattle.boolean_programs.specs.Lines.{bracket};
ghost use Rattle.line_jumps.specs.private.Blocks.{opened_top, end_at, else_at, passed_down, passed_up};

use boolean_programs::{BodyLine, Bracket};
use wpds_base::OutOfMemory;

/// The lines behind the two ends of a block: behind its `else`, or its `end` where it has none, and
/// behind its `end`.
#[derive(Clone, Copy)]
pub(crate) struct Ends {
    pub(crate) behind_else: u32,
    pub(crate) behind_end: u32,
}

/// The line that opened the newest block, by the lines that opened the open ones.
pub(crate) fn newest_opened(opened: &[u32]) -> u32
    ensures { result ≡ opened_top (reverse opened.now) }
{
    match opened.last() {
        Some(line) => *line,
        None => 0,
    }
}

/// The line behind the `end` of the newest block.
pub(crate) fn behind_end(blocks: &[Ends]) -> u32
    ensures { result ≡ end_at (reverse blocks.now) 0 }
{
    match blocks.last() {
        Some(ends) => ends.behind_end,
        None => 0,
    }
}

/// The line behind the `else` of the newest block, or behind its `end` where it has none.
pub(crate) fn behind_else(blocks: &[Ends]) -> u32
    ensures { result ≡ else_at (reverse blocks.now) 0 }
{
    match blocks.last() {
        Some(ends) => ends.behind_else,
        None => 0,
    }
}

/// Goes on below a line.
pub(crate) fn pass_down(opened: &mut Vec<u32>, line: &BodyLine) -> Result<(), OutOfMemory>
    ensures { OnOk result (reverse opened.new.items
        ≡ passed_down (bracket line.now.statement) line.now.line (reverse opened.old.items)) }
{
    match line.statement.bracket() {
        Bracket::Opens => opened.push(line.line)?,
        Bracket::Closes => {
            opened.pop();
        }
        Bracket::Parts | Bracket::Inside => {}
    }
    Ok(())
}

/// Goes on above a line, below which this line stands.
pub(crate) fn pass_up(
    blocks: &mut Vec<Ends>,
    bracket: Bracket,
    next: u32,
) -> Result<(), OutOfMemory>
    ensures { OnOk result (reverse blocks.new.items
        ≡ passed_up bracket next (reverse blocks.old.items)) }
{
    match bracket {
        Bracket::Opens => {
            blocks.pop();
        }
        Bracket::Parts => {
            let behind_end = behind_end(blocks);
            blocks.pop();
            blocks.push(Ends {
                behind_else: next,
                behind_end,
            })?;
        }
        Bracket::Closes => blocks.push(Ends {
            behind_else: next,
            behind_end: next,
        })?,
        Bracket::Inside => {}
    }
    Ok(())
}
