//! Procedures, read line by line.

ghost use Rattle.std.specs.Prelude.{◌≡◌, [], ◌∷◌, ◌++◌, IfOk};
ghost use Rattle.document_reader.specs.NameLines.{names_in};
ghost use Rattle.program_forms.specs.Programs.{on_last, with_locals, with_body};
ghost use Rattle.boolean_syntax.specs.private.Opened.{proc_now};

use boolean_programs::{BodyLine, BodyList, Names, Proc, ProcList};
use std::alloc::Global;
use std::marker::Model;
use wpds_base::OutOfMemory;
use wpds_port::{Lexeme, Text, Words};

// The procedure that began last.
#[derive(Drop)]
struct OpenProc {
    name: Text,
    params: Names,
    locals: Vec<Text>,
    returns: u32,
    body: Vec<BodyLine>,
}

/// The procedures of the lines that were read. The last may go on.
#[derive(Drop)]
pub(crate) struct Procs {
    begun: Vec<OpenProc>,
}

impl Model for Procs {
    ghost use Rattle.std.specs.Prelude.{List, map};
    ghost use Rattle.boolean_programs.specs.declared.program.Proc.{Proc as ProcValue};
    ghost use Rattle.boolean_syntax.specs.private.Opened.{proc_now};
    ghost use Rattle.std.specs.Coded.{coded_list};
    ghost use Rattle.boolean_programs.specs.contracts.program.Proc as p;

    ghost Value = { List ProcValue };

    ghost coded = { coded_list p.the_row.coded };

    ghost view = { λ p. map proc_now p.begun.items };
}

// Adds the names among words to texts.
fn add_texts(alloc: Global, texts: &mut Vec<Text>, words: &Words<'_>) -> Result<(), OutOfMemory>
    ensures { IfOk result (λ _. texts.new.items ≡ texts.old.items ++ names_in words.now) }
{
    let mut left = words.reborrow();
    while let Some((lexeme, rest)) = left.split_first() {
        if let Lexeme::Name(name) = lexeme {
            texts.push(Text::of(alloc, name)?)?;
        }
        left = rest;
    }
    Ok(())
}

impl OpenProc {
    fn new(
        alloc: Global,
        name: &[u8],
        params: &Words<'_>,
        returns: u32,
    ) -> Result<OpenProc, OutOfMemory>
        ensures { IfOk result (λ p. proc_now p ≡ record {
          name = name.now;
          params = names_in params.now;
          locals = [];
          returns = returns;
          body = [];
        }) }
    {
        let mut texts = Vec::new(alloc);
        add_texts(alloc, &mut texts, params)?;
        Ok(OpenProc {
            name: Text::of(alloc, name)?,
            params: Names::from_vec(texts),
            locals: Vec::new(alloc),
            returns,
            body: Vec::new(alloc),
        })
    }

    fn into_proc(self) -> Proc
        ensures { result ≡ proc_now self }
    {
        Proc {
            name: self.name,
            params: self.params,
            locals: Names::from_vec(self.locals),
            returns: self.returns,
            body: BodyList::from_vec(self.body),
        }
    }
}

impl Procs {
    /// No procedures.
    pub(crate) fn new(alloc: Global) -> Procs
        ensures { result ≡ [] }
    {
        Procs {
            begun: Vec::new(alloc),
        }
    }

    /// Begins a procedure.
    pub(crate) fn begin(
        &mut self,
        alloc: Global,
        name: &[u8],
        params: &Words<'_>,
        returns: u32,
    ) -> Result<(), OutOfMemory>
        ensures { IfOk result (λ _. self.new ≡ self.old ++ record {
          name = name.now;
          params = names_in params.now;
          locals = [];
          returns = returns;
          body = [];
        } ∷ []) }
    {
        self.begun
            .push(OpenProc::new(alloc, name, params, returns)?)?;
        Ok(())
    }

    /// Adds the names among words to the locals of the last. After out of memory it may be gone.
    pub(crate) fn add_locals(&mut self, alloc: Global, names: &Words<'_>) -> Result<(), OutOfMemory>
        ensures { IfOk result (λ _. self.new
            ≡ on_last (with_locals (names_in names.now)) self.old) }
    {
        let Some(mut last) = self.begun.pop() else {
            return Ok(());
        };
        add_texts(alloc, &mut last.locals, names)?;
        self.begun.push(last)?;
        Ok(())
    }

    /// Adds a line to the body of the last. After out of memory it may be gone.
    pub(crate) fn add_line(&mut self, line: BodyLine) -> Result<(), OutOfMemory>
        ensures { IfOk result (λ _. self.new ≡ on_last (with_body (line ∷ [])) self.old) }
    {
        let Some(mut last) = self.begun.pop() else {
            return Ok(());
        };
        last.body.push(line)?;
        self.begun.push(last)?;
        Ok(())
    }

    /// The procedures.
    pub(crate) fn into_list(self, alloc: Global) -> Result<ProcList, OutOfMemory>
        ensures { IfOk result (λ list. list ≡ self) }
    {
        let mut list = Vec::with_capacity(alloc, self.begun.len())?;
        for open in self.begun {
            list.push(open.into_proc())?;
        }
        Ok(ProcList::from_vec(list))
    }
}
