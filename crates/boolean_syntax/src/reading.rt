//! What is read of a program, line by line.

ghost use Rattle.std.specs.Prelude.{◌≡◌, ◌+◌, ◌≤◌, [], ◌∷◌, IfOk};
ghost use Rattle.wpds_base.specs.Limits.{most_symbols, most_rules};
ghost use Rattle.program_forms.specs.Declared.{Whole};
ghost use Rattle.program_forms.specs.Programs.{on_last, with_body};
ghost use Rattle.program_tables.specs.Tables.{AreTablesOf};
ghost use Rattle.boolean_syntax.specs.private.Readings.{HasRead, passes};

use crate::procs::Procs;
use boolean_programs::{BodyLine, Point};
use program_statements::Scope;
use program_tables::Tables;
use rule_reader::NameTable;
use std::alloc::Global;
use wpds_base::{MOST_RULES, MOST_SYMBOLS, OutOfMemory};

/// What the lines that were read say.
#[derive(Drop)]
pub(crate) struct Reading<'t> {
    pub globals: NameTable<'t>,
    /// The names of procedures and labels that stand above.
    pub seen_procs: NameTable<'t>,
    pub seen_labels: NameTable<'t>,
    /// The procedure that began last.
    pub scope: Scope<'t>,
    /// Body lines, and asserts once more.
    pub points: u32,
    pub rules: u32,
    /// How many procedures have ended.
    pub closed: u32,
    pub procs: Procs,
    pub queries: Vec<Point>,
}

impl<'t> Reading<'t> {
    /// Nothing is read yet.
    pub(crate) fn new(alloc: Global, tables: &Tables<'t>) -> Result<Reading<'t>, OutOfMemory>
        ensures { (w : Whole) → AreTablesOf w tables.now → IfOk result (HasRead w []) }
    {
        Ok(Reading {
            globals: NameTable::new(alloc),
            seen_procs: NameTable::new(alloc),
            seen_labels: NameTable::new(alloc),
            scope: Scope {
                names: tables.globals.copy(alloc)?,
                returns: 0,
            },
            points: 0,
            rules: 0,
            closed: 0,
            procs: Procs::new(alloc),
            queries: Vec::new(alloc),
        })
    }

    /// Whether so many more pass a limit.
    pub(crate) fn passes_limit(&self, points: u32, rules: u32) -> bool
        ensures { result ≡ passes (self.now.points + points) (self.now.rules + rules) }
    {
        self.points.saturating_add(points) as usize > MOST_SYMBOLS
            || self.rules.saturating_add(rules) as usize > MOST_RULES
    }

    /// Adds a line to the body of the procedure that began last, with what it counts for.
    pub(crate) fn add_line(
        &mut self,
        points: u32,
        rules: u32,
        line: BodyLine,
    ) -> Result<(), OutOfMemory>
        requires few_points { self.old.points + points ≤ most_symbols }
        requires few_rules { self.old.rules + rules ≤ most_rules }
        ensures { IfOk result (λ _. self.new ≡ record self.old {
          points = self.old.points + points;
          rules = self.old.rules + rules;
          procs = on_last (with_body (line ∷ [])) self.old.procs;
        }) }
    {
        self.points += points;
        self.rules += rules;
        self.procs.add_line(line)
    }
}
