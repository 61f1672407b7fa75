//! The labels of a goto, by their lines.

ghost use Rattle.std.specs.Prelude.{◌≡◌, ◌∷◌, ◌++◌, [], ℕ, List, Some, IfOk};
ghost use Rattle.document_forms.specs.Words.{name_of, each_of_some};
ghost use Rattle.program_forms.specs.Declared.{Whole};
ghost use Rattle.program_tables.specs.Tables.{AreTablesOf};
ghost use Rattle.program_statements.specs.Parts.{HasLabels};

use program_tables::Tables;
use rule_reader::split_name;
use std::alloc::Global;
use wpds_base::OutOfMemory;
use wpds_port::Words;

/// Labels that were read. In place of the line of one that is unknown 0 stands.
#[derive(Drop)]
pub(crate) struct LabelsRead {
    pub(crate) lines: Vec<u32>,
    /// Whether a label is declared nowhere.
    pub(crate) unknown: bool,
    /// Whether a label stands in another procedure.
    pub(crate) elsewhere: bool,
}

impl LabelsRead {
    fn new(alloc: Global) -> LabelsRead
        ensures { (w : Whole) (begun : ℕ) → HasLabels w begun [] result }
    {
        LabelsRead {
            lines: Vec::new(alloc),
            unknown: false,
            elsewhere: false,
        }
    }

    // Adds a label, in the procedure that is the last of so many that began.
    fn add(&mut self, tables: &Tables<'_>, begun: u32, name: &[u8]) -> Result<(), OutOfMemory>
        ensures { (w : Whole) (done : List (List ℕ)) → AreTablesOf w tables.now
            → HasLabels w begun done self.old
            → IfOk result (λ _. HasLabels w begun (done ++ name.now ∷ []) self.new) }
    {
        match tables.label(name) {
            Some(row) => {
                self.lines.push(row.line)?;
                self.elsewhere |= row.begun != begun;
            }
            None => {
                self.lines.push(0)?;
                self.unknown = true;
            }
        }
        Ok(())
    }
}

/// Reads names, which the words are, as labels.
pub(crate) fn read_labels(
    alloc: Global,
    tables: &Tables<'_>,
    begun: u32,
    words: &Words<'_>,
) -> Result<LabelsRead, OutOfMemory>
    ensures { (w : Whole) (xs : List (List ℕ)) → AreTablesOf w tables.now
        → each_of_some name_of words.now ≡ Some xs → IfOk result (HasLabels w begun xs) }
{
    let mut read = LabelsRead::new(alloc);
    let mut left = words.reborrow();
    while let Some((name, rest)) = split_name(&left) {
        read.add(tables, begun, name)?;
        left = rest;
    }
    Ok(read)
}
