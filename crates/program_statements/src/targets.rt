//! Targets, with numbers in place of names.

ghost use Rattle.std.specs.Prelude.{◌≡◌, ◌∷◌, ◌++◌, [], ℕ, List, Some, IfOk};
ghost use Rattle.document_forms.specs.Weights.{target_of};
ghost use Rattle.program_forms.specs.Forms.{list_of};
ghost use Rattle.program_lines.specs.Texts.{targets_said};
ghost use Rattle.program_statements.specs.Parts.{HasTargets};

use program_lines::single_name;
use rule_reader::{Cut, NameTable, NamesOnce, NamesRead, Pieces};
use std::alloc::Global;
use wpds_base::OutOfMemory;
use wpds_port::Words;

/// Targets that were read.
#[derive(Drop)]
pub(crate) struct TargetsRead<'t> {
    pub(crate) variables: NamesRead,
    pub(crate) once: NamesOnce<'t>,
}

impl<'t> TargetsRead<'t> {
    /// No targets.
    pub(crate) fn new(alloc: Global) -> TargetsRead<'t>
        ensures { (names : List (List ℕ)) → HasTargets names [] result }
    {
        TargetsRead {
            variables: NamesRead::new(alloc),
            once: NamesOnce::new(alloc),
        }
    }

    fn add(&mut self, names: &NameTable<'_>, name: &'t [u8]) -> Result<(), OutOfMemory>
        ensures { (done : List (List ℕ)) → HasTargets names.now done self.old
            → IfOk result (λ _. HasTargets names.now (done ++ name.now ∷ []) self.new) }
    {
        self.variables.add(names, name)?;
        self.once.add(name)
    }

    // Adds the name that the words are.
    fn take(&mut self, names: &NameTable<'_>, words: &Words<'t>) -> Result<(), OutOfMemory>
        ensures { (done : List (List ℕ)) (x : List ℕ) → HasTargets names.now done self.old
            → target_of words.now ≡ Some x
            → IfOk result (λ _. HasTargets names.now (done ++ x ∷ []) self.new) }
    {
        match single_name(words) {
            Some(name) => self.add(names, name),
            None => Ok(()),
        }
    }
}

/// Reads names with commas between, which the words are.
pub(crate) fn read_targets<'t>(
    alloc: Global,
    names: &NameTable<'_>,
    words: &Words<'t>,
) -> Result<TargetsRead<'t>, OutOfMemory>
    ensures { (xs : List (List ℕ)) → list_of words.now ≡ Some xs
        → IfOk result (HasTargets names.now xs) }
{
    let mut read = TargetsRead::new(alloc);
    let mut pieces = Pieces::new(Cut::Commas, words);
    while let Some(piece) = pieces.next() {
        read.take(names, &piece)?;
    }
    Ok(read)
}

/// Reads the targets of a call, if it has some.
pub(crate) fn read_call_targets<'t>(
    alloc: Global,
    names: &NameTable<'_>,
    targets: &Option<Words<'t>>,
) -> Result<TargetsRead<'t>, OutOfMemory>
    ensures { (xs : List (List ℕ)) → targets_said targets.now ≡ Some xs
        → IfOk result (HasTargets names.now xs) }
{
    match targets {
        Some(words) => read_targets(alloc, names, words),
        None => Ok(TargetsRead::new(alloc)),
    }
}
