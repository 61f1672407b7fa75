ghost use Rattle.std.specs.Prelude.{◌≡◌, ℕ, List, Some, IfOk};
ghost use Rattle.truth_tables.specs.Grammar.{Tree};
ghost use Rattle.truth_tables.specs.Stacks.{tree_of};
ghost use Rattle.document_forms.specs.Weights.{ValueForm, value_of};
ghost use Rattle.program_forms.specs.Declared.{Whole};
ghost use Rattle.program_forms.specs.Forms.{StatementForm, AssignForm, AssumeForm, AssertForm, CallForm, IfForm, WhileForm, list_of, values_of, some_values_of};
ghost use Rattle.program_lines.specs.Texts.{statement_said, targets_said};
ghost use Rattle.program_tables.specs.Tables.{AreTablesOf};
ghost use Rattle.program_statements.specs.Statements.{HasStatement, IsReadAs};

use crate::choices::{read_choices, read_some_choices};
use crate::labels::read_labels;
use crate::statements::{
    StatementRead, assert, assign, assume, call, goto, if_, returned, skip, while_,
};
use crate::targets::{read_call_targets, read_targets};
use program_lines::StatementText;
use program_tables::Tables;
use rule_reader::{NameTable, read_tree, read_value};
use std::alloc::Global;
use wpds_base::OutOfMemory;
use wpds_port::Words;

/// The procedure in which a statement stands.
#[derive(Drop)]
pub struct Scope<'t> {
    /// The globals, and then the names of the procedure so far.
    pub names: NameTable<'t>,
    /// How many values it returns.
    pub returns: u32,
}

// An expression that is assumed.
fn read_assume(
    alloc: Global,
    names: &NameTable<'_>,
    words: &Words<'_>,
) -> Result<Option<StatementRead>, OutOfMemory>
    ensures { (w : Whole) (begun returns : ℕ) (e : Tree) → tree_of words.now ≡ Some e
        → IfOk result (IsReadAs w names.now begun returns (AssumeForm e)) }
{
    match read_tree(alloc, names, words)? {
        Some(tree) => Ok(Some(assume(alloc, tree)?)),
        None => Ok(None),
    }
}

// An expression that is asserted.
fn read_assert(
    alloc: Global,
    names: &NameTable<'_>,
    words: &Words<'_>,
) -> Result<Option<StatementRead>, OutOfMemory>
    ensures { (w : Whole) (begun returns : ℕ) (e : Tree) → tree_of words.now ≡ Some e
        → IfOk result (IsReadAs w names.now begun returns (AssertForm e)) }
{
    match read_tree(alloc, names, words)? {
        Some(tree) => Ok(Some(assert(alloc, tree)?)),
        None => Ok(None),
    }
}

// The condition of an `if`.
fn read_if(
    alloc: Global,
    names: &NameTable<'_>,
    words: &Words<'_>,
) -> Result<Option<StatementRead>, OutOfMemory>
    ensures { (w : Whole) (begun returns : ℕ) (c : ValueForm) → value_of words.now ≡ Some c
        → IfOk result (IsReadAs w names.now begun returns (IfForm c)) }
{
    match read_value(alloc, names, words)? {
        Some(condition) => Ok(Some(if_(alloc, condition)?)),
        None => Ok(None),
    }
}

// The condition of a `while`.
fn read_while(
    alloc: Global,
    names: &NameTable<'_>,
    words: &Words<'_>,
) -> Result<Option<StatementRead>, OutOfMemory>
    ensures { (w : Whole) (begun returns : ℕ) (c : ValueForm) → value_of words.now ≡ Some c
        → IfOk result (IsReadAs w names.now begun returns (WhileForm c)) }
{
    match read_value(alloc, names, words)? {
        Some(condition) => Ok(Some(while_(alloc, condition)?)),
        None => Ok(None),
    }
}

fn read_assign<'t>(
    alloc: Global,
    names: &NameTable<'_>,
    targets: &Words<'t>,
    values: &Words<'t>,
) -> Result<StatementRead, OutOfMemory>
    ensures { (w : Whole) (begun returns : ℕ) (xs : List (List ℕ)) (vs : List ValueForm)
        → list_of targets.now ≡ Some xs → values_of values.now ≡ Some vs
        → IfOk result (HasStatement w names.now begun returns (AssignForm xs vs)) }
{
    let targets = read_targets(alloc, names, targets)?;
    let choices = read_choices(alloc, names, values)?;
    Ok(assign(targets, choices))
}

fn read_call<'t>(
    alloc: Global,
    tables: &Tables<'_>,
    names: &NameTable<'_>,
    targets: &Option<Words<'t>>,
    callee: &[u8],
    arguments: &Words<'t>,
) -> Result<StatementRead, OutOfMemory>
    ensures { (w : Whole) (begun returns : ℕ) (xs : List (List ℕ)) (vs : List ValueForm)
        → AreTablesOf w tables.now → targets_said targets.now ≡ Some xs
        → some_values_of arguments.now ≡ Some vs
        → IfOk result (HasStatement w names.now begun returns (CallForm xs callee.now vs)) }
{
    let targets = read_call_targets(alloc, names, targets)?;
    let arguments = read_some_choices(alloc, names, arguments)?;
    Ok(call(targets, tables.proc(callee), arguments))
}

/// Reads a statement in the procedure that is the last of so many that began. What it gives for a text that
/// says none is not told.
///
/// It answers out of memory where it gets none.
pub fn read_statement<'t>(
    alloc: Global,
    tables: &Tables<'_>,
    scope: &Scope<'_>,
    begun: u32,
    text: &StatementText<'t>,
) -> Result<Option<StatementRead>, OutOfMemory>
    ensures { (w : Whole) (s : StatementForm) → AreTablesOf w tables.now
        → statement_said text.now ≡ Some s
        → IfOk result (IsReadAs w scope.now.names begun scope.now.returns s) }
{
    let names = &scope.names;
    match text {
        StatementText::Skip => Ok(Some(skip())),
        StatementText::Assign { targets, values } => {
            Ok(Some(read_assign(alloc, names, targets, values)?))
        }
        StatementText::Goto { labels } => {
            Ok(Some(goto(read_labels(alloc, tables, begun, labels)?)?))
        }
        StatementText::Assume(words) => read_assume(alloc, names, words),
        StatementText::Assert(words) => read_assert(alloc, names, words),
        StatementText::Call {
            targets,
            callee,
            arguments,
        } => Ok(Some(read_call(alloc, tables, names, targets, *callee, arguments)?)),
        StatementText::Return { values } => {
            let choices = read_some_choices(alloc, names, values)?;
            Ok(Some(returned(scope.returns, choices)))
        }
        StatementText::If(words) => read_if(alloc, names, words),
        StatementText::While(words) => read_while(alloc, names, words),
    }
}
