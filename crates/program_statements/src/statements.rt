//! Statements, made of their parts.

ghost use Rattle.std.specs.Prelude.{◌≡◌, ◌||◌, ℕ, List, false, IfOk, option_map};
ghost use Rattle.truth_tables.specs.Grammar.{Tree};
ghost use Rattle.document_forms.specs.Weights.{ValueForm};
ghost use Rattle.rule_reader.specs.TreeReads.{HasTree, HasValue};
ghost use Rattle.program_forms.specs.Declared.{Whole, proc_named};
ghost use Rattle.program_forms.specs.Forms.{SkipForm, AssignForm, GotoForm, AssumeForm, AssertForm, CallForm, ReturnForm, IfForm, WhileForm};
ghost use Rattle.program_tables.specs.Tables.{proc_row};
ghost use Rattle.program_statements.specs.Parts.{HasTargets, HasChoices, HasLabels};
ghost use Rattle.program_statements.specs.Statements.{HasStatement, call_misfits};

use crate::choices::{ChoicesRead, choice, expression};
use crate::labels::LabelsRead;
use crate::targets::TargetsRead;
use boolean_programs::{ChoiceList, Numbers, Statement};
use program_tables::ProcRow;
use rule_reader::{NamesRead, TreeRead, ValueRead, WeightFaults};
use std::alloc::Global;
use wpds_base::OutOfMemory;

/// What is amiss with a statement that has its form.
#[derive(Clone, Copy, Debug)]
pub struct StatementFaults {
    /// A target stands twice.
    pub twice: bool,
    /// A name is declared nowhere.
    pub unknown: bool,
    /// A table number is too large.
    pub large: bool,
    /// An expression is too deep. This is told only where no table number is too large.
    pub deep: bool,
    /// There are too many or too few values, arguments or targets. This is told only where no name
    /// is unknown.
    pub misfits: bool,
    /// A label stands in another procedure.
    pub leaves: bool,
}

/// A statement that was read: its value, if nothing is amiss, and what is.
#[derive(Debug, Drop)]
pub struct StatementRead {
    pub statement: Statement,
    pub faults: StatementFaults,
    /// How many rules it makes.
    pub rules: u32,
}

// What is amiss with the values of a statement, and nothing else.
fn with_values(faults: WeightFaults) -> StatementFaults
    ensures { result ≡ record {
      twice = false;
      unknown = faults.unknown;
      large = faults.unlawful;
      deep = faults.deep;
      misfits = false;
      leaves = false;
    } }
{
    StatementFaults {
        twice: false,
        unknown: faults.unknown,
        large: faults.unlawful,
        deep: faults.deep,
        misfits: false,
        leaves: false,
    }
}

// What is amiss with targets of which one stands twice or is unknown, and with values.
fn with_targets(twice: bool, unknown: bool, values: WeightFaults) -> StatementFaults
    ensures { result ≡ record {
      twice = twice;
      unknown = unknown || values.unknown;
      large = values.unlawful;
      deep = values.deep;
      misfits = false;
      leaves = false;
    } }
{
    let mut faults = with_values(values);
    faults.twice = twice;
    faults.unknown |= unknown;
    faults
}

/// `skip`.
pub(crate) fn skip() -> StatementRead
    ensures { (w : Whole) (names : List (List ℕ)) (begun returns : ℕ)
        → HasStatement w names begun returns SkipForm result }
{
    StatementRead {
        statement: Statement::Skip,
        faults: with_values(WeightFaults::none()),
        rules: 1,
    }
}

/// `X, .. := V, ..`.
pub(crate) fn assign(targets: TargetsRead<'_>, choices: ChoicesRead) -> StatementRead
    ensures { (w : Whole) (names : List (List ℕ)) (begun returns : ℕ) (xs : List (List ℕ))
        (vs : List ValueForm) → HasTargets names xs targets.entry → HasChoices names vs choices
        → HasStatement w names begun returns (AssignForm xs vs) result }
{
    let mut faults = with_targets(
        targets.once.twice,
        targets.variables.unknown,
        choices.faults,
    );
    faults.misfits = targets.variables.numbers.len() != choices.choices.len();
    StatementRead {
        statement: Statement::Assign {
            targets: Numbers::from_vec(targets.variables.numbers),
            values: ChoiceList::from_vec(choices.choices),
        },
        faults,
        rules: 1,
    }
}

/// `goto LABEL ..`.
pub(crate) fn goto(labels: LabelsRead) -> Result<StatementRead, OutOfMemory>
    ensures { IfOk result (λ read. (w : Whole) (names : List (List ℕ)) (begun returns : ℕ)
        (xs : List (List ℕ)) → HasLabels w begun xs labels
        → HasStatement w names begun returns (GotoForm xs) read) }
{
    let rules = u32::try_from(labels.lines.len()).map_err(|_| OutOfMemory)?;
    let mut faults = with_values(WeightFaults::none());
    faults.unknown = labels.unknown;
    faults.leaves = labels.elsewhere;
    Ok(StatementRead {
        statement: Statement::Goto {
            lines: Numbers::from_vec(labels.lines),
        },
        faults,
        rules,
    })
}

/// `assume E`.
pub(crate) fn assume(alloc: Global, tree: TreeRead) -> Result<StatementRead, OutOfMemory>
    ensures { IfOk result (λ read. (w : Whole) (names : List (List ℕ)) (begun returns : ℕ)
        (e : Tree) → HasTree names e tree
        → HasStatement w names begun returns (AssumeForm e) read) }
{
    Ok(StatementRead {
        statement: Statement::Assume(expression(alloc, &tree.expression)?),
        faults: with_values(tree.faults),
        rules: 1,
    })
}

/// `assert E`.
pub(crate) fn assert(alloc: Global, tree: TreeRead) -> Result<StatementRead, OutOfMemory>
    ensures { IfOk result (λ read. (w : Whole) (names : List (List ℕ)) (begun returns : ℕ)
        (e : Tree) → HasTree names e tree
        → HasStatement w names begun returns (AssertForm e) read) }
{
    Ok(StatementRead {
        statement: Statement::Assert(expression(alloc, &tree.expression)?),
        faults: with_values(tree.faults),
        rules: 2,
    })
}

// Whether a call with so many targets and arguments does not fit its callee.
fn misfits_callee(callee: Option<ProcRow>, targets: usize, arguments: usize) -> bool
    ensures { (w : Whole) (f : List ℕ) → callee ≡ option_map proc_row (proc_named w.procs f)
        → result ≡ call_misfits w f targets arguments }
{
    match callee {
        Some(row) => {
            arguments != row.params as usize || (targets != 0 && targets != row.returns as usize)
        }
        None => false,
    }
}

// Whether a target stands twice, and the variables, without the names that they were told apart by.
fn without_names(targets: TargetsRead<'_>) -> (bool, NamesRead)
    ensures twice { result.0 ≡ targets.entry.once.twice }
    ensures variables { result.1 ≡ targets.entry.variables }
{
    (targets.once.twice, targets.variables)
}

/// `[X, .. :=] call F ( [V, ..] )`, where this is known of `F`.
pub(crate) fn call(
    targets: TargetsRead<'_>,
    callee: Option<ProcRow>,
    arguments: ChoicesRead,
) -> StatementRead
    ensures { (w : Whole) (names : List (List ℕ)) (begun returns : ℕ) (xs : List (List ℕ))
        (f : List ℕ) (vs : List ValueForm) → HasTargets names xs targets.entry
        → callee ≡ option_map proc_row (proc_named w.procs f) → HasChoices names vs arguments
        → HasStatement w names begun returns (CallForm xs f vs) result }
{
    let (twice, variables) = without_names(targets);
    let mut faults = with_targets(twice, variables.unknown, arguments.faults);
    faults.unknown |= callee.is_none();
    faults.misfits = misfits_callee(callee, variables.numbers.len(), arguments.choices.len());
    let place = match callee {
        Some(row) => row.place,
        None => 0,
    };
    StatementRead {
        statement: Statement::Call {
            targets: Numbers::from_vec(variables.numbers),
            callee: place,
            arguments: ChoiceList::from_vec(arguments.choices),
        },
        faults,
        rules: 1,
    }
}

/// `return [V, ..]`, in a procedure that returns so many values.
pub(crate) fn returned(returns: u32, choices: ChoicesRead) -> StatementRead
    ensures { (w : Whole) (names : List (List ℕ)) (begun : ℕ) (vs : List ValueForm)
        → HasChoices names vs choices
        → HasStatement w names begun returns (ReturnForm vs) result }
{
    let mut faults = with_values(choices.faults);
    faults.misfits = choices.choices.len() != returns as usize;
    StatementRead {
        statement: Statement::Return {
            values: ChoiceList::from_vec(choices.choices),
        },
        faults,
        rules: 1,
    }
}

/// `if C`.
pub(crate) fn if_(alloc: Global, condition: ValueRead) -> Result<StatementRead, OutOfMemory>
    ensures { IfOk result (λ read. (w : Whole) (names : List (List ℕ)) (begun returns : ℕ)
        (c : ValueForm) → HasValue names c condition
        → HasStatement w names begun returns (IfForm c) read) }
{
    Ok(StatementRead {
        statement: Statement::If(choice(alloc, &condition.value)?),
        faults: with_values(condition.faults),
        rules: 2,
    })
}

/// `while C`.
pub(crate) fn while_(alloc: Global, condition: ValueRead) -> Result<StatementRead, OutOfMemory>
    ensures { IfOk result (λ read. (w : Whole) (names : List (List ℕ)) (begun returns : ℕ)
        (c : ValueForm) → HasValue names c condition
        → HasStatement w names begun returns (WhileForm c) read) }
{
    Ok(StatementRead {
        statement: Statement::While(choice(alloc, &condition.value)?),
        faults: with_values(condition.faults),
        rules: 2,
    })
}
