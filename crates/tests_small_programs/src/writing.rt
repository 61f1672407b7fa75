//! The texts of small random programs.

use crate::draws::Draws;
use std::alloc::Global;
use wpds_base::OutOfMemory;

/// A procedure: its first lines, the names that stand in it, how many values it returns, and whom it calls: those
/// of a higher level.
#[derive(Clone, Copy)]
struct Procedure {
    head: &'static str,
    names: [&'static str; 4],
    returns: usize,
    level: usize,
}

// The one name of its own stands twice.
const MAIN: Procedure = Procedure {
    head: "proc main()\n  local x\n",
    names: ["g", "h", "x", "x"],
    returns: 0,
    level: 0,
};

const ONE: Procedure = Procedure {
    head: "proc first(p) returns 1\n  local q\n",
    names: ["g", "h", "p", "q"],
    returns: 1,
    level: 1,
};

const TWO: Procedure = Procedure {
    head: "proc second(r, s) returns 2\n",
    names: ["g", "h", "r", "s"],
    returns: 2,
    level: 2,
};

const OPERATORS: [&str; 6] = ["&", "|", "^", "=", "!=", "=>"];

// Places of two names that differ.
const PAIRS: [(usize, usize); 4] = [(0, 1), (1, 0), (0, 2), (2, 1)];

/// The labels of a procedure: the first of their numbers, and how many there are.
#[derive(Clone, Copy)]
struct Labels {
    first: usize,
    count: usize,
}

/// What is open where a line is written.
#[derive(Clone, Copy, PartialEq, Eq)]
enum Block {
    Nothing,
    If,
    Else,
    While,
}

/// A program that is being written, and its queries.
#[derive(Drop)]
struct Writer {
    alloc: Global,
    draws: Draws,
    // Whether a procedure may call any.
    recursive: bool,
    text: String,
    queries: String,
    // How many labels there are.
    labels: usize,
}

impl Writer {
    fn new(alloc: Global, seed: u64, recursive: bool) -> Writer {
        Writer {
            alloc,
            draws: Draws::new(seed),
            recursive,
            text: String::new(alloc),
            queries: String::new(alloc),
            labels: 0,
        }
    }

    fn name(&mut self, owner: Procedure) -> &'static str {
        self.draws.one_of(&owner.names)
    }

    fn expression(&mut self, owner: Procedure) -> Result<String, OutOfMemory> {
        let first = self.name(owner);
        let second = self.name(owner);
        let operator = self.draws.one_of(&OPERATORS);
        let text = match self.draws.below(20) {
            0 => format!(in self.alloc; "0")?,
            1 => format!(in self.alloc; "1")?,
            2..=4 => format!(in self.alloc; "{first}")?,
            5..=7 => format!(in self.alloc; "!{first}")?,
            _ => format!(in self.alloc; "{first} {operator} {second}")?,
        };
        Ok(text)
    }

    fn value(&mut self, owner: Procedure) -> Result<String, OutOfMemory> {
        if self.draws.below(4) == 0 {
            return Ok(String::from_str(self.alloc, "*")?);
        }
        self.expression(owner)
    }

    fn values(&mut self, owner: Procedure, count: usize) -> Result<String, OutOfMemory> {
        let mut text = String::new(self.alloc);
        for place in 0..count {
            if place > 0 {
                text.push_str(", ")?;
            }
            text.push_str(self.value(owner)?.as_str())?;
        }
        Ok(text)
    }

    // Two targets.
    fn two(&mut self, owner: Procedure) -> Result<String, OutOfMemory> {
        let (a, b) = PAIRS[self.draws.below(PAIRS.len())];
        let (first, second) = (owner.names[a], owner.names[b]);
        Ok(format!(in self.alloc; "{first}, {second}")?)
    }

    fn assignment(&mut self, owner: Procedure) -> Result<String, OutOfMemory> {
        if self.draws.below(3) == 0 {
            let targets = self.two(owner)?;
            let values = self.values(owner, 2)?;
            return Ok(format!(in self.alloc; "{targets} := {values}")?);
        }
        let target = self.name(owner);
        let value = self.value(owner)?;
        Ok(format!(in self.alloc; "{target} := {value}")?)
    }

    // A call of one of the two procedures that may be called, or `skip` where none may be.
    fn call(&mut self, owner: Procedure) -> Result<String, OutOfMemory> {
        if !self.recursive && owner.level == 2 {
            return Ok(String::from_str(self.alloc, "skip")?);
        }
        let may_be_first = self.recursive || owner.level == 0;
        let count = if may_be_first && self.draws.below(2) == 0 {
            1
        } else {
            2
        };
        let name = if count == 1 { "first" } else { "second" };
        let values = self.values(owner, count)?;
        if self.draws.below(4) == 0 {
            return Ok(format!(in self.alloc; "call {name}({values})")?);
        }
        let targets = if count == 1 {
            String::from_str(self.alloc, self.name(owner))?
        } else {
            self.two(owner)?
        };
        Ok(format!(in self.alloc; "{targets} := call {name}({values})")?)
    }

    // A goto to one label, two or three.
    fn goto(&mut self, labels: Labels) -> Result<String, OutOfMemory> {
        let mut text = String::from_str(self.alloc, "goto")?;
        for _ in 0..self.draws.below(3).saturating_add(1) {
            let label = labels
                .first
                .saturating_add(self.draws.below(labels.count.max(1)));
            text.push_str(format!(in self.alloc; " L{label}")?.as_str())?;
        }
        Ok(text)
    }

    fn statement(&mut self, owner: Procedure, labels: Labels) -> Result<String, OutOfMemory> {
        match self.draws.below(14) {
            0 => Ok(String::from_str(self.alloc, "skip")?),
            1 => {
                let condition = self.expression(owner)?;
                Ok(format!(in self.alloc; "assume {condition}")?)
            }
            2..=3 => {
                let condition = self.expression(owner)?;
                Ok(format!(in self.alloc; "assert {condition}")?)
            }
            4 => self.goto(labels),
            5 => {
                let values = self.values(owner, owner.returns)?;
                Ok(format!(in self.alloc; "return {values}")?)
            }
            6..=10 => self.call(owner),
            _ => self.assignment(owner),
        }
    }

    // Writes a line with a label, which is asked.
    fn put(&mut self, statement: &str) -> Result<(), OutOfMemory> {
        let label = self.labels;
        self.labels = label.saturating_add(1);
        self.text.push_str(format!(in self.alloc; "  L{label}: {statement}\n")?.as_str())?;
        self.queries
            .push_str(format!(in self.alloc; "query reach L{label}\n")?.as_str())?;
        if statement.starts_with("assert") {
            self.queries
                .push_str(format!(in self.alloc; "query fails L{label}\n")?.as_str())?;
        }
        Ok(())
    }

    // Writes a line, which opens a block now and then where none is open.
    fn line(
        &mut self,
        owner: Procedure,
        labels: Labels,
        open: Block,
    ) -> Result<Block, OutOfMemory> {
        let (word, block) = match self.draws.below(6) {
            0 => ("if", Block::If),
            1 => ("while", Block::While),
            _ => ("", Block::Nothing),
        };
        if open != Block::Nothing || block == Block::Nothing {
            let statement = self.statement(owner, labels)?;
            self.put(statement.as_str())?;
            return Ok(open);
        }
        let condition = self.value(owner)?;
        self.put(format!(in self.alloc; "{word} {condition}")?.as_str())?;
        Ok(block)
    }

    // Closes a block, parts it, or leaves it open.
    fn go_on(&mut self, open: Block) -> Result<Block, OutOfMemory> {
        match (open, self.draws.below(4)) {
            (Block::If, 0) => {
                self.text.push_str("  else\n")?;
                Ok(Block::Else)
            }
            (Block::If | Block::Else | Block::While, 1) => {
                self.text.push_str("  end\n")?;
                Ok(Block::Nothing)
            }
            _ => Ok(open),
        }
    }

    fn procedure(&mut self, owner: Procedure) -> Result<(), OutOfMemory> {
        self.text.push_str(owner.head)?;
        let labels = Labels {
            first: self.labels,
            count: self.draws.below(4).saturating_add(3),
        };
        let mut open = Block::Nothing;
        for _ in 0..labels.count {
            open = self.line(owner, labels, open)?;
            open = self.go_on(open)?;
        }
        if open != Block::Nothing {
            self.text.push_str("  end\n")?;
        }
        self.text.push_str("end\n")?;
        Ok(())
    }
}

/// A program of two globals and three procedures of three to six lines that bear labels, of which each is asked. No
/// procedure calls itself, unless it is to be recursive.
pub(crate) fn program(alloc: Global, seed: u64, recursive: bool) -> Result<String, OutOfMemory> {
    let mut writer = Writer::new(alloc, seed, recursive);
    writer.text.push_str("bool 1\nglobal g h\n")?;
    for owner in [MAIN, ONE, TWO] {
        writer.procedure(owner)?;
    }
    writer.text.push_str(writer.queries.as_str())?;
    Ok(writer.text)
}
