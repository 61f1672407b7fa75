//! Words are read as an expression, a word at a time. What is built stands in one list, each part
//! behind its operands, and of what is open only what can't be told from that list.

ghost use Rattle.std.specs.Prelude.{◌≡◌, ◌+◌, ℕ, [], nat_lt, if◌then◌else◌, Ok, Err};
ghost use Rattle.wpds_port.specs.declared.Word.TheVariants.{Name as NameWord, Number as NumberWord, Mark as MarkWord};
ghost use Rattle.wpds_port.specs.Words.{word_of};
ghost use Rattle.truth_tables.specs.Stacks.{at_comma as reading_at_comma, at_close as reading_at_close, behind_operand as reading_behind};
ghost use Rattle.truth_tables.specs.private.Kept.{IsMade, IsJoining, IsOpening, IsStepping, IsBracketed, IsBehind, IsEnding, behind_made, counted2, counted3, with_operator};
ghost use Rattle.truth_tables.specs.declared.reader.Position.TheVariants.{Wanted as WantedPosition};
ghost use Rattle.truth_tables.specs.declared.stop.Stop.TheVariants.{Excess};

use crate::numbers::table_number;
use crate::stop::Stop;
use crate::{Operator, Part, Postfix};
use std::alloc::Global;
use wpds_port::{Lexeme, Mark};

/// What stands open before an operand. Of each operand that is built, the depth is kept.
#[derive(Clone, Copy, Debug)]
pub(crate) enum OpenPart {
    Not,
    Operator(Operator, u32),
    Bracket,
    /// A table of two places, before its first and its second operand.
    First2(u8),
    Second2(u8, u32),
    /// A table of three places, before its first, its second and its third operand.
    First3(u8),
    Second3(u8, u32),
    Third3(u8, u32, u32),
}

/// Where the reading of an expression stands, beside what is open.
#[derive(Clone, Copy, Debug)]
pub(crate) enum Position {
    /// An operand is wanted.
    Wanted,
    /// Behind `tab2` or `tab3`.
    Behind2,
    Behind3,
    /// Behind the number of such a table.
    Counted2(u8),
    Counted3(u8),
    /// Behind an operand of this depth.
    Behind(u32),
}

/// What was read of an expression: what stands open, the newest last, and what is built.
#[derive(Drop)]
pub(crate) struct Reader {
    pending: Vec<OpenPart>,
    parts: Postfix,
}

// The depth of an expression over parts of this depth.
fn above(limit: u32, below: u32) -> Result<u32, Stop>
    ensures { result ≡ (if nat_lt below limit then Ok (below + 1) else Err Excess) }
{
    if below < limit {
        Ok(below + 1)
    } else {
        Err(Stop::Excess)
    }
}

// Puts the last part of an operand behind the others, whose operands are so deep. It tells its depth.
#[tactic(auto, using(crate::proofs::KeptLemmas::made_deep, crate::proofs::KeptLemmas::made_so, crate::proofs::KeptLemmas::made_no_memory))]
fn put(parts: &mut Postfix, limit: u32, below: u32, part: Part) -> Result<u32, Stop>
    ensures { IsMade limit below part parts.old result parts.new }
{
    let made = above(limit, below)?;
    parts.push(part)?;
    Ok(made)
}

// The position behind an operand.
fn behind(made: Result<u32, Stop>) -> Result<Position, Stop>
    ensures { result ≡ behind_made made }
{
    Ok(Position::Behind(made?))
}

// The number of a table of two places.
fn at_number2(digits: &[u8]) -> Result<Position, Stop>
    ensures { result ≡ counted2 digits.now }
{
    match table_number(digits, 15) {
        Some(number) => Ok(Position::Counted2(number)),
        None => Err(Stop::Excess),
    }
}

// The number of a table of three places.
fn at_number3(digits: &[u8]) -> Result<Position, Stop>
    ensures { result ≡ counted3 digits.now }
{
    match table_number(digits, 255) {
        Some(number) => Ok(Position::Counted3(number)),
        None => Err(Stop::Excess),
    }
}

impl Reader {
    /// Nothing is read yet.
    pub(crate) fn new(alloc: Global) -> Reader
        ensures open { result.pending.items ≡ [] }
        ensures built { result.parts ≡ [] }
    {
        Reader {
            pending: Vec::new(alloc),
            parts: Postfix::new(alloc),
        }
    }

    // Leaves a part open, behind which an operand is wanted.
    fn opened(&mut self, limit: u32, part: OpenPart) -> Result<Position, Stop>
        ensures open { IsOpening limit self.old.pending.items part result self.new.pending.items }
        ensures built { self.new.parts ≡ self.old.parts }
    {
        if self.pending.len() >= limit as usize {
            return Err(Stop::Excess);
        }
        self.pending.push(part)?;
        Ok(Position::Wanted)
    }

    // Joins an operand with what is open before it and binds at least as strongly.
    #[tactic(auto, using(crate::proofs::KeptLemmas::no_memory, crate::proofs::KeptLemmas::at_start))]
    fn join(&mut self, limit: u32, level: u8, operand: u32) -> Result<u32, Stop>
        ensures { IsJoining limit level self.old.pending.items self.old.parts operand result
            self.new.pending.items self.new.parts }
    {
        let mut joined = operand;
        while let Some(top) = self.pending.pop() {
            match top {
                OpenPart::Not => {
                    joined = put(&mut self.parts, limit, joined, Part::Not)?;
                }
                OpenPart::Operator(operator, left) => {
                    if operator.level() < level {
                        self.pending.push(top)?;
                        return Ok(joined);
                    }
                    joined = put(
                        &mut self.parts,
                        limit,
                        left.max(joined),
                        Part::Two(operator.table()),
                    )?;
                }
                other => {
                    self.pending.push(other)?;
                    return Ok(joined);
                }
            }
        }
        Ok(joined)
    }

    // A name where an operand is wanted, in this place among the variables.
    #[tactic(auto, using(crate::proofs::StepLemmas::name_return, crate::proofs::StepLemmas::name_variable))]
    fn at_name(&mut self, limit: u32, name: &[u8], place: u32) -> Result<Position, Stop>
        ensures { IsStepping limit WantedPosition (NameWord name.now) place
            self.old.pending.items self.old.parts result self.new.pending.items self.new.parts }
    {
        if name == b"return".as_slice() {
            return Err(Stop::Form);
        }
        if name == b"tab2".as_slice() {
            return Ok(Position::Behind2);
        }
        if name == b"tab3".as_slice() {
            return Ok(Position::Behind3);
        }
        behind(put(&mut self.parts, limit, 0, Part::Var(place)))
    }

    // A number where an operand is wanted.
    #[tactic(auto, using(crate::proofs::StepLemmas::number_other))]
    fn at_number(&mut self, limit: u32, digits: &[u8]) -> Result<Position, Stop>
        ensures { (place : ℕ) → IsStepping limit WantedPosition (NumberWord digits.now) place
            self.old.pending.items self.old.parts result self.new.pending.items self.new.parts }
    {
        if digits == b"0".as_slice() {
            return behind(put(&mut self.parts, limit, 0, Part::Const(false)));
        }
        if digits == b"1".as_slice() {
            return behind(put(&mut self.parts, limit, 0, Part::Const(true)));
        }
        Err(Stop::Form)
    }

    // A mark where an operand is wanted.
    #[tactic(auto, using(crate::proofs::MarkLemmas::no_operand))]
    fn at_mark(&mut self, limit: u32, mark: Mark) -> Result<Position, Stop>
        ensures { (place : ℕ) → IsStepping limit WantedPosition (MarkWord mark) place
            self.old.pending.items self.old.parts result self.new.pending.items self.new.parts }
    {
        match mark {
            Mark::Not => self.opened(limit, OpenPart::Not),
            Mark::Open => self.opened(limit, OpenPart::Bracket),
            _ => Err(Stop::Form),
        }
    }

    // A word where an operand is wanted.
    fn at_operand(&mut self, limit: u32, lexeme: Lexeme<'_>, place: u32) -> Result<Position, Stop>
        ensures { IsStepping limit WantedPosition (word_of lexeme.entry) place
            self.old.pending.items self.old.parts result self.new.pending.items self.new.parts }
    {
        match lexeme {
            Lexeme::Name(name) => self.at_name(limit, name, place),
            Lexeme::Number(digits) => self.at_number(limit, digits),
            Lexeme::Mark(mark) => self.at_mark(limit, mark),
        }
    }

    // A mark that must open this part.
    #[tactic(auto, using(crate::proofs::MarkLemmas::bracket_so, crate::proofs::MarkLemmas::no_bracket))]
    fn at_bracket(&mut self, limit: u32, part: OpenPart, mark: Mark) -> Result<Position, Stop>
        ensures open { IsBracketed limit self.old.pending.items part mark result
            self.new.pending.items }
        ensures built { self.new.parts ≡ self.old.parts }
    {
        match mark {
            Mark::Open => self.opened(limit, part),
            _ => Err(Stop::Form),
        }
    }

    // A comma behind an operand that is joined.
    #[tactic(auto, using(crate::proofs::StepLemmas::comma_none, crate::proofs::StepLemmas::comma_first2, crate::proofs::StepLemmas::comma_first3, crate::proofs::StepLemmas::comma_second3, crate::proofs::StepLemmas::comma_other))]
    fn at_comma(&mut self, limit: u32, depth: u32) -> Result<Position, Stop>
        ensures { IsBehind reading_at_comma limit self.old.pending.items self.old.parts depth
            result self.new.pending.items self.new.parts }
    {
        let Some(top) = self.pending.pop() else {
            return Err(Stop::Form);
        };
        match top {
            OpenPart::First2(table) => self.opened(limit, OpenPart::Second2(table, depth)),
            OpenPart::First3(table) => self.opened(limit, OpenPart::Second3(table, depth)),
            OpenPart::Second3(table, a) => self.opened(limit, OpenPart::Third3(table, a, depth)),
            _ => Err(Stop::Form),
        }
    }

    // A closing bracket behind an operand that is joined.
    #[tactic(auto, using(crate::proofs::StepLemmas::close_none, crate::proofs::StepLemmas::close_bracket, crate::proofs::StepLemmas::close_second2, crate::proofs::StepLemmas::close_third3, crate::proofs::StepLemmas::close_other))]
    fn at_close(&mut self, limit: u32, depth: u32) -> Result<Position, Stop>
        ensures { IsBehind reading_at_close limit self.old.pending.items self.old.parts depth
            result self.new.pending.items self.new.parts }
    {
        let Some(top) = self.pending.pop() else {
            return Err(Stop::Form);
        };
        match top {
            OpenPart::Bracket => behind(above(limit, depth)),
            OpenPart::Second2(table, a) => {
                behind(put(&mut self.parts, limit, a.max(depth), Part::Two(table)))
            }
            OpenPart::Third3(table, a, b) => {
                behind(put(
                    &mut self.parts,
                    limit,
                    a.max(b.max(depth)),
                    Part::Three(table),
                ))
            }
            _ => Err(Stop::Form),
        }
    }

    // An operator behind an operand.
    fn at_operator(&mut self, limit: u32, depth: u32, operator: Operator) -> Result<Position, Stop>
        ensures { IsBehind (with_operator operator) limit self.old.pending.items self.old.parts
            depth result self.new.pending.items self.new.parts }
    {
        let joined = self.join(limit, operator.least_left(), depth)?;
        self.opened(limit, OpenPart::Operator(operator, joined))
    }

    // A mark behind an operand.
    #[tactic(auto, using(crate::proofs::MarkLemmas::mark_comma, crate::proofs::MarkLemmas::mark_close, crate::proofs::MarkLemmas::mark_other))]
    fn behind_operand(&mut self, limit: u32, depth: u32, mark: Mark) -> Result<Position, Stop>
        ensures { IsBehind (reading_behind mark) limit self.old.pending.items self.old.parts depth
            result self.new.pending.items self.new.parts }
    {
        if let Some(operator) = Operator::of(mark) {
            return self.at_operator(limit, depth, operator);
        }
        match mark {
            Mark::Comma => {
                let joined = self.join(limit, 1, depth)?;
                self.at_comma(limit, joined)
            }
            Mark::Close => {
                let joined = self.join(limit, 1, depth)?;
                self.at_close(limit, joined)
            }
            _ => Err(Stop::Form),
        }
    }

    /// One word more, in this place among the variables if it is one.
    #[tactic(auto, using(crate::proofs::StepLemmas::number2_steps, crate::proofs::StepLemmas::number3_steps, crate::proofs::MarkLemmas::mark_steps, crate::proofs::MarkLemmas::no_step))]
    pub(crate) fn step(
        &mut self,
        limit: u32,
        position: Position,
        lexeme: Lexeme<'_>,
        place: u32,
    ) -> Result<Position, Stop>
        ensures { IsStepping limit position (word_of lexeme.entry) place
            self.old.pending.items self.old.parts result self.new.pending.items self.new.parts }
    {
        match (position, lexeme) {
            (Position::Wanted, lexeme) => self.at_operand(limit, lexeme, place),
            (Position::Behind2, Lexeme::Number(digits)) => at_number2(digits),
            (Position::Behind3, Lexeme::Number(digits)) => at_number3(digits),
            (Position::Counted2(number), Lexeme::Mark(mark)) => {
                self.at_bracket(limit, OpenPart::First2(number), mark)
            }
            (Position::Counted3(number), Lexeme::Mark(mark)) => {
                self.at_bracket(limit, OpenPart::First3(number), mark)
            }
            (Position::Behind(depth), Lexeme::Mark(mark)) => self.behind_operand(
                limit, depth, mark,
            ),
            _ => Err(Stop::Form),
        }
    }

    /// The expression behind the last word, if nothing else is open there.
    #[tactic(auto, using(crate::proofs::MarkLemmas::ends_elsewhere))]
    pub(crate) fn finish(mut self, limit: u32, position: Position) -> Result<Postfix, Stop>
        ensures { IsEnding limit position self.pending.items self.parts result }
    {
        let Position::Behind(depth) = position else {
            return Err(Stop::Form);
        };
        self.join(limit, 1, depth)?;
        if self.pending.is_empty() {
            Ok(self.parts)
        } else {
            Err(Stop::Form)
        }
    }
}
