//! Values, with numbers in place of names.

ghost use Rattle.std.specs.Prelude.{◌≡◌, ◌∷◌, ◌++◌, [], ℕ, List, Some, IfOk};
ghost use Rattle.document_forms.specs.Weights.{ValueForm, value_of};
ghost use Rattle.rule_reader.specs.TreeReads.{HasValue};
ghost use Rattle.program_forms.specs.Forms.{values_of, some_values_of};
ghost use Rattle.program_statements.specs.Parts.{choice_said, HasChoices};

use boolean_programs::{Choice, Expression};
use document_forms::{Expression as ReadExpression, ValueText};
use rule_reader::{Cut, NameTable, Pieces, ValueRead, WeightFaults, read_value};
use std::alloc::Global;
use wpds_base::OutOfMemory;
use wpds_port::Words;

/// Values that were read.
#[derive(Drop)]
pub(crate) struct ChoicesRead {
    pub(crate) choices: Vec<Choice>,
    pub(crate) faults: WeightFaults,
}

/// The expression as a program keeps it.
pub(crate) fn expression(alloc: Global, read: &ReadExpression) -> Result<Expression, OutOfMemory>
    ensures { IfOk result (λ e. e ≡ read.now) }
{
    Ok(Expression::from_expr(read.to_expr(alloc)?))
}

/// The value as a program keeps it.
pub(crate) fn choice(alloc: Global, value: &ValueText) -> Result<Choice, OutOfMemory>
    ensures { IfOk result (λ c. c ≡ choice_said value.now) }
{
    match value {
        ValueText::Free => Ok(Choice::Star),
        ValueText::Is(read) => Ok(Choice::Is(expression(alloc, read)?)),
    }
}

impl ChoicesRead {
    /// No values.
    pub(crate) fn new(alloc: Global) -> ChoicesRead
        ensures { (names : List (List ℕ)) → HasChoices names [] result }
    {
        ChoicesRead {
            choices: Vec::new(alloc),
            faults: WeightFaults::none(),
        }
    }

    fn add(&mut self, alloc: Global, read: ValueRead) -> Result<(), OutOfMemory>
        ensures { (names : List (List ℕ)) (done : List ValueForm) (v : ValueForm)
            → HasChoices names done self.old → HasValue names v read
            → IfOk result (λ _. HasChoices names (done ++ v ∷ []) self.new) }
    {
        self.faults = self.faults.or(read.faults);
        let choice = choice(alloc, &read.value)?;
        self.choices.push(choice)?;
        Ok(())
    }

    // Reads a value that the words are, and adds it.
    fn take(
        &mut self,
        alloc: Global,
        names: &NameTable<'_>,
        words: &Words<'_>,
    ) -> Result<(), OutOfMemory>
        ensures { (done : List ValueForm) (v : ValueForm) → HasChoices names.now done self.old
            → value_of words.now ≡ Some v
            → IfOk result (λ _. HasChoices names.now (done ++ v ∷ []) self.new) }
    {
        match read_value(alloc, names, words)? {
            Some(value) => self.add(alloc, value),
            None => Ok(()),
        }
    }
}

/// Reads values with commas between, which the words are.
pub(crate) fn read_choices(
    alloc: Global,
    names: &NameTable<'_>,
    words: &Words<'_>,
) -> Result<ChoicesRead, OutOfMemory>
    ensures { (vs : List ValueForm) → values_of words.now ≡ Some vs
        → IfOk result (HasChoices names.now vs) }
{
    let mut read = ChoicesRead::new(alloc);
    let mut pieces = Pieces::new(Cut::OutsideCommas, words);
    while let Some(piece) = pieces.next() {
        read.take(alloc, names, &piece)?;
    }
    Ok(read)
}

/// Reads no words, or values with commas between, which the words are.
pub(crate) fn read_some_choices(
    alloc: Global,
    names: &NameTable<'_>,
    words: &Words<'_>,
) -> Result<ChoicesRead, OutOfMemory>
    ensures { (vs : List ValueForm) → some_values_of words.now ≡ Some vs
        → IfOk result (HasChoices names.now vs) }
{
    match words.split_first() {
        Some(_) => read_choices(alloc, names, words),
        None => Ok(ChoicesRead::new(alloc)),
    }
}
