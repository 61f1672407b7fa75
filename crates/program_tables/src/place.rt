ghost use Rattle.std.specs.Prelude.{◌≡◌, ℕ, List, IfOk, Some, option_map};
ghost use Rattle.program_forms.specs.Forms.{LineForm, ProcForm, StatementForm};
ghost use Rattle.program_forms.specs.Places.{at_top, fits as fits_at, next_place, within, opened, is_in_if as is_in_if_at, turned, ended};
ghost use Rattle.program_lines.specs.Texts.{line_said, statement_said};
ghost use Rattle.program_tables.specs.Blocks.{block_said, newest as newest_of};

use program_lines::{LineText, StatementText};
use std::alloc::Global;
use std::marker::Model;
use wpds_base::OutOfMemory;

/// An open block.
#[derive(Clone, Copy, Debug, PartialEq, Eq)]
pub enum Block {
    /// An `if` above its `else`.
    If,
    /// An `if` below its `else`.
    Else,
    While,
}

/// Where a line of a program stands, by the lines above it.
#[derive(Drop)]
pub struct Place {
    begun: u32,
    inside: bool,
    heading: bool,
    // The newest last.
    blocks: Vec<Block>,
}

impl Model for Place {
    ghost use Rattle.program_forms.specs.Places.{Place as PlaceValue};
    ghost use Rattle.program_tables.specs.Blocks.{place_of};

    ghost Value = { PlaceValue };

    ghost view = { λ p. place_of p.begun p.inside p.heading p.blocks.items };
}

impl Place {
    /// The place of the line behind the header.
    pub fn at_top(alloc: Global) -> Place
        ensures { result ≡ at_top }
    {
        Place {
            begun: 0,
            inside: false,
            heading: false,
            blocks: Vec::new(alloc),
        }
    }

    /// How many `proc` lines stand above.
    pub fn begun(&self) -> u32
        ensures { result ≡ self.now.begun }
    {
        self.begun
    }

    /// The newest open block.
    #[tactic(auto, using(crate::proofs::BlockLemmas::newest_last))]
    pub fn newest(&self) -> Option<Block>
        ensures { option_map block_said result ≡ newest_of self.now.blocks }
    {
        self.blocks.last().copied()
    }

    // Whether the newest open block is an `if` above its `else`.
    #[tactic(auto, using(crate::proofs::BlockLemmas::in_if, crate::proofs::BlockLemmas::not_in_if))]
    fn is_in_if(&self) -> bool
        ensures { result ≡ is_in_if_at self.now.blocks }
    {
        matches!(self.newest(), Some(Block::If))
    }

    /// Whether a line with this text may stand here.
    pub fn fits(&self, text: &LineText<'_>) -> bool
        ensures { (f : LineForm) → line_said text.now ≡ Some f → result ≡ fits_at self.now f }
    {
        match text {
            LineText::Global { .. } => !self.inside,
            LineText::Proc { .. } => true,
            LineText::Local { .. } => self.inside && self.heading,
            LineText::Statement { .. } => self.inside,
            LineText::Else => self.inside && self.is_in_if(),
            LineText::End => self.inside,
            LineText::Query { .. } => !self.inside,
        }
    }

    // Begins a procedure.
    fn begin(&mut self) -> Result<(), OutOfMemory>
        ensures { (f : List ℕ) (ps : List (List ℕ)) (n : ℕ)
            → IfOk result (λ _. self.new ≡ next_place self.old (ProcForm f ps n)) }
    {
        self.begun = self.begun.checked_add(1).ok_or(OutOfMemory)?;
        self.inside = true;
        self.heading = true;
        self.blocks.clear();
        Ok(())
    }

    // Goes behind a statement.
    #[tactic(auto, using(crate::proofs::BlockLemmas::newest_push))]
    fn state(&mut self, text: &StatementText<'_>) -> Result<(), OutOfMemory>
        ensures { (s : StatementForm) → statement_said text.now ≡ Some s
            → IfOk result (λ _. self.new ≡ within self.old (opened s self.old.blocks)) }
    {
        match text {
            StatementText::If(_) => self.blocks.push(Block::If)?,
            StatementText::While(_) => self.blocks.push(Block::While)?,
            _ => {}
        }
        self.inside = true;
        self.heading = false;
        Ok(())
    }

    // Goes behind an `else`.
    #[tactic(auto, using(crate::proofs::BlockLemmas::newest_push))]
    fn turn(&mut self) -> Result<(), OutOfMemory>
        ensures { IfOk result (λ _. self.new ≡ within self.old (turned self.old.blocks)) }
    {
        if self.blocks.pop().is_some() {
            self.blocks.push(Block::Else)?;
        }
        self.inside = true;
        self.heading = false;
        Ok(())
    }

    // Goes behind an `end`.
    #[tactic(auto, using(crate::proofs::BlockLemmas::newest_push))]
    fn end(&mut self)
        ensures { self.new ≡ ended self.old self.old.blocks }
    {
        self.inside = self.blocks.pop().is_some();
        self.heading = false;
    }

    /// Goes behind a line with this text, which may stand here. It answers out of memory where it
    /// gets none for an open block, and the place is of no use then.
    pub fn advance(&mut self, text: &LineText<'_>) -> Result<(), OutOfMemory>
        ensures { (f : LineForm) → line_said text.now ≡ Some f
            → IfOk result (λ _. self.new ≡ next_place self.old f) }
    {
        match text {
            LineText::Global { .. } => Ok(()),
            LineText::Proc { .. } => self.begin(),
            LineText::Local { .. } => Ok(()),
            LineText::Statement { statement, .. } => self.state(statement),
            LineText::Else => self.turn(),
            LineText::End => {
                self.end();
                Ok(())
            }
            LineText::Query { .. } => Ok(()),
        }
    }
}
