ghost use Rattle.std.specs.Prelude.{◌≡◌, ◌∷◌, ◌++◌, [], List, IfOk, OnOk, Option, Some, is_some, if◌then◌else◌, map};
ghost use Rattle.document_forms.specs.Lines.{Line as LineValue};
ghost use Rattle.program_forms.specs.Declared.{whole};
ghost use Rattle.program_forms.specs.Places.{Stated, said, at_top, judged_from, stated};
ghost use Rattle.program_tables.specs.Judging.{AreJudged};
ghost use Rattle.program_tables.specs.Tables.{AreTablesOf};
ghost use Rattle.program_tables.specs.private.Walks.{HasWalked, AreJudgedAbove};

use crate::judging::judge;
use crate::place::Place;
use crate::tables::Tables;
use document_reader::{Line, Lines};
use program_lines::LineText;
use std::alloc::Global;
use wpds_base::OutOfMemory;
use wpds_port::Refusal;

/// A line that may stand where it does.
#[derive(Drop)]
pub struct StatedLine<'t> {
    pub number: u64,
    pub text: LineText<'t>,
}

/// What the lines of a program say, up to the first that is refused for itself or for its place.
#[derive(Drop)]
pub struct StatedLines<'t> {
    pub lines: Vec<StatedLine<'t>>,
    /// The first that is refused, behind the lines.
    pub refused: Option<Refusal>,
}

impl<'t> StatedLines<'t> {
    // Nothing was judged so far.
    fn new(alloc: Global) -> StatedLines<'t>
        ensures lines { result.lines.items ≡ [] }
        ensures refused { result.refused ≡ None }
    {
        StatedLines {
            lines: Vec::new(alloc),
            refused: None,
        }
    }

    // Keeps a line, if none above it was refused: the lines below that aren't read again.
    fn keep(&mut self, line: StatedLine<'t>) -> Result<(), OutOfMemory>
        ensures lines { OnOk result (self.new.lines.items ≡ (if is_some self.old.refused
            then self.old.lines.items else self.old.lines.items ++ line.entry ∷ [])) }
        ensures refused { self.new.refused ≡ self.old.refused }
    {
        if self.refused.is_none() {
            self.lines.push(line)?;
        }
        Ok(())
    }

    // Keeps a refusal, if it is the first.
    fn refuse(&mut self, refusal: Refusal)
        ensures lines { self.new.lines.items ≡ self.old.lines.items }
        ensures refused { self.new.refused ≡ (if is_some self.old.refused
            then self.old.refused else Some refusal) }
    {
        if self.refused.is_none() {
            self.refused = Some(refusal);
        }
    }
}

// Takes what a line declares, if it may stand there, and goes behind it; and keeps what it says.
fn walk_line<'t>(
    alloc: Global,
    tables: &mut Tables<'t>,
    place: &mut Place,
    kept: &mut StatedLines<'t>,
    line: Line<'t>,
) -> Result<(), OutOfMemory>
    ensures tables { (done : List Stated) → AreTablesOf (whole done) tables.old
        → OnOk result (HasWalked done place.old place.new
        (record { number = line.entry.number; bytes = line.entry.bytes.now }) tables.new) }
    ensures kept { (all left : List LineValue) → AreJudgedAbove all place.old
        (record { number = line.entry.number; bytes = line.entry.bytes.now } ∷ left)
        kept.old.lines.items kept.old.refused
        → OnOk result (AreJudgedAbove all place.new left kept.new.lines.items kept.new.refused) }
{
    match judge(alloc, place, line.bytes)? {
        Ok(text) => {
            tables.take(place.begun(), line.number, &text)?;
            place.advance(&text)?;
            kept.keep(StatedLine {
                number: line.number,
                text,
            })
        }
        Err(kind) => {
            kept.refuse(Refusal {
                line: line.number,
                kind,
            });
            Ok(())
        }
    }
}

/// Reads what the lines behind the header declare, all together, and keeps what they say, so that
/// no line has to be judged again. After an answer out of memory the lines are gone.
pub fn read_tables<'t>(
    alloc: Global,
    mut lines: Lines<'t>,
) -> Result<(Tables<'t>, StatedLines<'t>), OutOfMemory>
    ensures tables { IfOk result (λ read.
        AreTablesOf (whole (stated (judged_from at_top (map said lines.entry.lines)))) read.0) }
    ensures judged { IfOk result (λ read.
        AreJudged at_top lines.entry.lines read.1.lines.items read.1.refused) }
{
    let mut tables = Tables::new(alloc);
    let mut place = Place::at_top(alloc);
    let mut kept = StatedLines::new(alloc);
    while let Some(line) = lines.next() {
        walk_line(alloc, &mut tables, &mut place, &mut kept, line)?;
    }
    Ok((tables, kept))
}
