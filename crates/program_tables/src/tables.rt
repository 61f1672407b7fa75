ghost use Rattle.std.specs.Prelude.{◌≡◌, ◌+◌, ℕ, List, [], ◌∷◌, ◌++◌, length, Some, option_map, IfOk};
ghost use Rattle.wpds_port.specs.Words.{word_of};
ghost use Rattle.document_reader.specs.NameLines.{names_in};
ghost use Rattle.program_forms.specs.Declared.{Whole, whole, proc_named, label_named, is_assert as is_assert_of};
ghost use Rattle.program_forms.specs.Forms.{StatementForm, ProcForm, Stating, params_of};
ghost use Rattle.program_forms.specs.Places.{Stated};
ghost use Rattle.program_lines.specs.Texts.{label_said, statement_said, line_said};
ghost use Rattle.program_tables.specs.Tables.{proc_row, label_row, AreTablesOf};

use crate::rows::NamedRows;
use document_reader::add_names;
use program_lines::{LineText, StatementText};
use rule_reader::NameTable;
use std::alloc::Global;
use wpds_base::OutOfMemory;
use wpds_port::{Lexeme, Words};

/// A procedure, as calls know it.
#[derive(Clone, Copy, Debug)]
pub struct ProcRow {
    /// Its place among the procedures, from 0.
    pub place: u32,
    /// How many parameters it has.
    pub params: u32,
    /// How many values it returns.
    pub returns: u32,
}

/// A label, as gotos and queries know it.
#[derive(Clone, Copy, Debug)]
pub struct LabelRow {
    /// The number of its line.
    pub line: u32,
    /// How many procedures have begun above its line: its own is the last of them.
    pub begun: u32,
    /// Whether it stands at an assert.
    pub asserts: bool,
}

/// What the lines of a program declare, those that may stand where they do. Of a name that stands
/// twice the first counts.
#[derive(Drop)]
pub struct Tables<'t> {
    pub globals: NameTable<'t>,
    procs: NamedRows<'t, ProcRow>,
    labels: NamedRows<'t, LabelRow>,
    /// How many values a procedure returns at most.
    pub slots: u32,
}

// The count with a word more, if that is a name.
fn with_word(count: u32, lexeme: Lexeme<'_>) -> Result<u32, OutOfMemory>
    ensures { IfOk result (λ more.
        more ≡ count + length (names_in (word_of lexeme.entry ∷ []))) }
{
    match lexeme {
        Lexeme::Name(_) => count.checked_add(1).ok_or(OutOfMemory),
        _ => Ok(count),
    }
}

// How many names there are among words.
fn count_names(words: &Words<'_>) -> Result<u32, OutOfMemory>
    ensures { IfOk result (λ count. count ≡ length (names_in words.now)) }
{
    let mut count = 0;
    let mut left = words.reborrow();
    while let Some((lexeme, rest)) = left.split_first() {
        count = with_word(count, lexeme)?;
        left = rest;
    }
    Ok(count)
}

fn is_assert(statement: &StatementText<'_>) -> bool
    ensures { (s : StatementForm) → statement_said statement.now ≡ Some s
        → result ≡ is_assert_of s }
{
    matches!(statement, StatementText::Assert(_))
}

impl<'t> Tables<'t> {
    /// Nothing is declared.
    pub(crate) fn new(alloc: Global) -> Tables<'t>
        ensures { AreTablesOf (whole []) result }
    {
        Tables {
            globals: NameTable::new(alloc),
            procs: NamedRows::new(alloc),
            labels: NamedRows::new(alloc),
            slots: 0,
        }
    }

    /// The procedure of a name.
    pub fn proc(&self, name: &[u8]) -> Option<ProcRow>
        ensures { (w : Whole) → AreTablesOf w self.now
            → result ≡ option_map proc_row (proc_named w.procs name.now) }
    {
        self.procs.get(name)
    }

    /// The label of a name.
    pub fn label(&self, name: &[u8]) -> Option<LabelRow>
        ensures { (w : Whole) → AreTablesOf w self.now
            → result ≡ option_map label_row (label_named w.labels name.now) }
    {
        self.labels.get(name)
    }

    // Takes a procedure that is the next behind so many.
    fn take_proc(
        &mut self,
        begun: u32,
        name: &'t [u8],
        params: &Words<'t>,
        returns: u32,
    ) -> Result<(), OutOfMemory>
        ensures { (ls : List Stated) (l : Stated) (ps : List (List ℕ))
            → AreTablesOf (whole ls) self.old → params_of params.now ≡ Some ps
            → l.form ≡ ProcForm name.now ps returns → l.place.begun ≡ begun
            → IfOk result (λ _. AreTablesOf (whole (ls ++ l ∷ [])) self.new) }
    {
        let row = ProcRow {
            place: begun,
            params: count_names(params)?,
            returns,
        };
        self.procs.add(name, row)?;
        self.slots = self.slots.max(returns);
        Ok(())
    }

    // Takes a label of a statement on this line, where so many procedures have begun.
    fn take_label(
        &mut self,
        begun: u32,
        line: u64,
        name: &'t [u8],
        statement: &StatementText<'t>,
    ) -> Result<(), OutOfMemory>
        ensures { (ls : List Stated) (l : Stated) (s : StatementForm)
            → AreTablesOf (whole ls) self.old → statement_said statement.now ≡ Some s
            → l.form ≡ Stating (Some name.now) s → l.number ≡ line → l.place.begun ≡ begun
            → IfOk result (λ _. AreTablesOf (whole (ls ++ l ∷ [])) self.new) }
    {
        let row = LabelRow {
            line: u32::try_from(line).map_err(|_| OutOfMemory)?,
            begun,
            asserts: is_assert(statement),
        };
        self.labels.add(name, row)?;
        Ok(())
    }

    // Takes the label of a statement on this line, if it has one, where so many procedures have
    // begun.
    fn take_statement(
        &mut self,
        begun: u32,
        line: u64,
        label: Option<&'t [u8]>,
        statement: &StatementText<'t>,
    ) -> Result<(), OutOfMemory>
        ensures { (ls : List Stated) (l : Stated) (s : StatementForm)
            → AreTablesOf (whole ls) self.old → statement_said statement.now ≡ Some s
            → l.form ≡ Stating (label_said label.entry) s → l.number ≡ line
            → l.place.begun ≡ begun
            → IfOk result (λ _. AreTablesOf (whole (ls ++ l ∷ [])) self.new) }
    {
        match label {
            Some(name) => self.take_label(begun, line, name, statement),
            None => Ok(()),
        }
    }

    /// Takes what a line declares, by its number and by how many procedures have begun above.
    pub(crate) fn take(
        &mut self,
        begun: u32,
        line: u64,
        text: &LineText<'t>,
    ) -> Result<(), OutOfMemory>
        ensures { (ls : List Stated) (l : Stated) → AreTablesOf (whole ls) self.old
            → line_said text.now ≡ Some l.form → l.number ≡ line → l.place.begun ≡ begun
            → IfOk result (λ _. AreTablesOf (whole (ls ++ l ∷ [])) self.new) }
    {
        match text {
            LineText::Global { names } => {
                add_names(&mut self.globals, names)?;
                Ok(())
            }
            LineText::Proc {
                name,
                params,
                returns,
            } => self.take_proc(begun, *name, params, *returns),
            LineText::Statement { label, statement } => {
                self.take_statement(begun, line, *label, statement)
            }
            _ => Ok(()),
        }
    }
}
