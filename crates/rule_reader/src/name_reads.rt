//! Names in a row: their numbers in a table, and whether one stands twice.

ghost use Rattle.std.specs.Prelude.{◌≡◌, ℕ, List, [], ◌∷◌, ◌++◌, IfOk};
ghost use Rattle.rule_reader.specs.Names.{names_in_front, behind_names};
ghost use Rattle.rule_reader.specs.NameReads.{AreNumbersRead, HasNames};

use crate::lexemes::split_name;
use crate::names::NameTable;
use std::alloc::Global;
use wpds_base::OutOfMemory;
use wpds_port::Words;

/// Names by their numbers. In place of the number of one that is unknown 0 stands.
#[derive(Drop)]
pub struct NamesRead {
    pub numbers: Vec<u32>,
    /// Whether a name is not in the table.
    pub unknown: bool,
}

impl NamesRead {
    /// No names.
    pub fn new(alloc: Global) -> NamesRead
        ensures { (table : List (List ℕ)) → AreNumbersRead table [] result }
    {
        NamesRead {
            numbers: Vec::new(alloc),
            unknown: false,
        }
    }

    /// Adds a name by its number. After an answer out of memory these names are of no use.
    pub fn add(&mut self, table: &NameTable<'_>, name: &[u8]) -> Result<(), OutOfMemory>
        ensures { (names : List (List ℕ)) → AreNumbersRead table.now names self.old
            → IfOk result (λ _. AreNumbersRead table.now (names ++ name.now ∷ []) self.new) }
    {
        match table.number_of(name) {
            Some(number) => self.numbers.push(number)?,
            None => {
                self.numbers.push(0)?;
                self.unknown = true;
            }
        }
        Ok(())
    }
}

/// Reads the names with which words begin, and returns them with the words behind them.
pub fn read_names<'t>(
    alloc: Global,
    table: &NameTable<'_>,
    words: &Words<'t>,
) -> Result<(NamesRead, Words<'t>), OutOfMemory>
    ensures numbers { IfOk result
        (λ r. AreNumbersRead table.now (names_in_front words.now) r.0) }
    ensures rest { IfOk result (λ r. r.1 ≡ behind_names words.now) }
{
    let mut read = NamesRead::new(alloc);
    let mut left = words.reborrow();
    while let Some((name, rest)) = split_name(&left) {
        read.add(table, name)?;
        left = rest;
    }
    Ok((read, left))
}

/// Names that are to stand once each.
#[derive(Drop)]
pub struct NamesOnce<'t> {
    /// Those that were added, each once.
    pub seen: NameTable<'t>,
    /// Whether one of them stands twice.
    pub twice: bool,
}

impl<'t> NamesOnce<'t> {
    /// No names.
    pub fn new(alloc: Global) -> NamesOnce<'t>
        ensures { HasNames [] result }
    {
        NamesOnce {
            seen: NameTable::new(alloc),
            twice: false,
        }
    }

    /// Adds a name. After an answer out of memory these names are of no use.
    pub fn add(&mut self, name: &'t [u8]) -> Result<(), OutOfMemory>
        ensures { (names : List (List ℕ)) → HasNames names self.old
            → IfOk result (λ _. HasNames (names ++ name.now ∷ []) self.new) }
    {
        let added = self.seen.add(name)?;
        self.twice |= !added;
        Ok(())
    }

    /// Adds the names with which words begin. After an answer out of memory these names are of no use.
    pub fn add_names(&mut self, words: &Words<'t>) -> Result<(), OutOfMemory>
        ensures { (names : List (List ℕ)) → HasNames names self.old
            → IfOk result (λ _. HasNames (names ++ names_in_front words.now) self.new) }
    {
        let mut left = words.reborrow();
        while let Some((name, rest)) = split_name(&left) {
            self.add(name)?;
            left = rest;
        }
        Ok(())
    }
}
