//! The actions of a relation.

ghost use Rattle.std.specs.Prelude.{◌≡◌, ◌==◌, not, length, ℕ, List, [], ◌∷◌, ◌++◌, IfOk, MatchOption, None, Some, option_map};
ghost use Rattle.truth_tables.specs.Stacks.{tree_of};
ghost use Rattle.document_forms.specs.Words.{is_comma, parted, parted_outside, name_of, each, each_of_some};
ghost use Rattle.document_forms.specs.Weights.{ValueForm, ActionForm, AssumeForm, ChooseForm, AssignForm, ActionsForm, value_of, target_of, assign_of, action_of, relation_of};
ghost use Rattle.rule_reader.specs.NameReads.{AreNumbersRead};
ghost use Rattle.rule_reader.specs.WeightReads.{IsRead, IsReadAs};
ghost use Rattle.rule_reader.specs.TreeReads.{HasValue};
ghost use Rattle.rule_reader.specs.private.ActionReads.{sides_of, HasTargets, HasValues, HasAction, IsActionRead, HasActions};

use super::exprs::{ValueRead, read_tree, read_value};
use super::pieces::{Cut, Pieces};
use super::{WeightFaults, WeightRead};
use crate::name_reads::{NamesOnce, NamesRead, read_names};
use crate::names::NameTable;
use document_forms::{Action, Actions, Assignment, Assignments, Numbers, WeightText};
use std::alloc::Global;
use wpds_base::OutOfMemory;
use wpds_port::{Lexeme, Mark, Words};

// The targets of an assignment.
#[derive(Drop)]
struct Targets<'t> {
    variables: NamesRead,
    names: NamesOnce<'t>,
}

impl<'t> Targets<'t> {
    fn new(alloc: Global) -> Targets<'t>
        ensures { (items : List (List ℕ)) → HasTargets items [] result }
    {
        Targets {
            variables: NamesRead::new(alloc),
            names: NamesOnce::new(alloc),
        }
    }

    fn add(&mut self, items: &NameTable<'_>, name: &'t [u8]) -> Result<(), OutOfMemory>
        ensures { (done : List (List ℕ)) → HasTargets items.now done self.old
            → IfOk result (λ _. HasTargets items.now (done ++ name.now ∷ []) self.new) }
    {
        self.variables.add(items, name)?;
        self.names.add(name)
    }
}

// The values of an assignment, each with its target.
#[derive(Drop)]
struct Values {
    assignments: Vec<Assignment>,
    // Whether there are more values than targets.
    more: bool,
    faults: WeightFaults,
}

impl Values {
    fn new(alloc: Global) -> Values
        ensures { (items : List (List ℕ)) (targets : List ℕ) → HasValues items targets [] result }
    {
        Values {
            assignments: Vec::new(alloc),
            more: false,
            faults: WeightFaults::none(),
        }
    }

    fn add(&mut self, targets: &[u32], value: ValueRead) -> Result<(), OutOfMemory>
        ensures { (items : List (List ℕ)) (done : List ValueForm) (v : ValueForm)
            → HasValues items targets.now done self.old → HasValue items v value
            → IfOk result (λ _. HasValues items targets.now (done ++ v ∷ []) self.new) }
    {
        self.faults = self.faults.or(value.faults);
        let place = self.assignments.len();
        if place < targets.len() {
            make_room(&mut self.assignments, targets.len())?;
            self.assignments.push(Assignment {
                variable: targets[place],
                value: value.value,
            })?;
        } else {
            self.more = true;
        }
        Ok(())
    }
}

// Makes room for one more of so many at most, or for as many more as there are, where none is left:
// the assignments of an even action take no room beside their own.
fn make_room(assignments: &mut Vec<Assignment>, most: usize) -> Result<(), OutOfMemory>
    ensures { assignments.new.items ≡ assignments.old.items }
{
    let len = assignments.len();
    if len == assignments.capacity() {
        let more = len.max(1).min(most.saturating_sub(len));
        assignments.reserve_exact(more)?;
    }
    Ok(())
}

// An action that was read.
#[derive(Drop)]
struct ActionRead {
    action: Action,
    faults: WeightFaults,
}

// The actions that were read so far.
#[derive(Drop)]
struct ActionsRead {
    actions: Vec<Action>,
    faults: WeightFaults,
}

impl ActionsRead {
    // No actions, and room for one, since most weights have no more.
    fn new(alloc: Global) -> Result<ActionsRead, OutOfMemory>
        ensures { IfOk result (λ read. (items : List (List ℕ)) → HasActions items [] read) }
    {
        Ok(ActionsRead {
            actions: Vec::with_capacity(alloc, 1)?,
            faults: WeightFaults::none(),
        })
    }

    fn add(&mut self, action: ActionRead) -> Result<(), OutOfMemory>
        ensures { (items : List (List ℕ)) (done : List ActionForm) (a : ActionForm)
            → HasActions items done self.old → HasAction items a action
            → IfOk result (λ _. HasActions items (done ++ a ∷ []) self.new) }
    {
        self.faults = self.faults.or(action.faults);
        self.actions.push(action.action)?;
        Ok(())
    }

    fn into_read(self) -> WeightRead
        ensures { (items : List (List ℕ)) (acts : List ActionForm) → HasActions items acts self
            → IsReadAs items (ActionsForm acts) result }
    {
        WeightRead {
            value: WeightText::Actions(Actions::from_vec(self.actions)),
            faults: self.faults,
        }
    }
}

/// Reads the actions of a relation.
pub(crate) fn read_actions<'t>(
    alloc: Global,
    items: &NameTable<'_>,
    words: &Words<'t>,
) -> Result<Option<WeightRead>, OutOfMemory>
    ensures { IfOk result (IsRead items.now (relation_of words.now)) }
{
    let mut actions = ActionsRead::new(alloc)?;
    let mut pieces = Pieces::new(Cut::Semicolons, words);
    while let Some(piece) = pieces.next() {
        match read_action(alloc, items, &piece)? {
            Some(action) => actions.add(action)?,
            None => return Ok(None),
        }
    }
    Ok(Some(actions.into_read()))
}

fn read_action<'t>(
    alloc: Global,
    items: &NameTable<'_>,
    words: &Words<'t>,
) -> Result<Option<ActionRead>, OutOfMemory>
    ensures { IfOk result (IsActionRead items.now (action_of words.now)) }
{
    let Some((word, rest)) = words.split_first() else {
        return Ok(None);
    };
    if Lexeme::Name(b"assume").is(word) {
        return read_assume(alloc, items, &rest);
    }
    if Lexeme::Name(b"choose").is(word) {
        return read_choose(alloc, items, &rest);
    }
    read_assign(alloc, items, words)
}

// What stands behind `assume`.
fn read_assume<'t>(
    alloc: Global,
    items: &NameTable<'_>,
    words: &Words<'t>,
) -> Result<Option<ActionRead>, OutOfMemory>
    ensures { IfOk result (IsActionRead items.now (option_map AssumeForm (tree_of words.now))) }
{
    match read_tree(alloc, items, words)? {
        Some(tree) => Ok(Some(ActionRead {
            action: Action::Assume(tree.expression),
            faults: tree.faults,
        })),
        None => Ok(None),
    }
}

// What stands behind `choose`.
fn read_choose<'t>(
    alloc: Global,
    items: &NameTable<'_>,
    words: &Words<'t>,
) -> Result<Option<ActionRead>, OutOfMemory>
    ensures { IfOk result
        (IsActionRead items.now (option_map ChooseForm (each_of_some name_of words.now))) }
{
    let (variables, rest) = read_names(alloc, items, words)?;
    if rest.split_first().is_some() {
        return Ok(None);
    }
    if variables.numbers.is_empty() {
        return Ok(None);
    }
    Ok(Some(choice(variables)))
}

fn choice(variables: NamesRead) -> ActionRead
    ensures { (items xs : List (List ℕ)) → AreNumbersRead items xs variables
        → HasAction items (ChooseForm xs) result }
{
    ActionRead {
        action: Action::Choose(Numbers::from_vec(variables.numbers)),
        faults: WeightFaults {
            unknown: variables.unknown,
            unlawful: false,
            deep: false,
        },
    }
}

fn read_assign<'t>(
    alloc: Global,
    items: &NameTable<'_>,
    words: &Words<'t>,
) -> Result<Option<ActionRead>, OutOfMemory>
    ensures { IfOk result (IsActionRead items.now (assign_of words.now)) }
{
    let (front, back) = words.split_once(Lexeme::Mark(Mark::Becomes));
    match back {
        Some(back) => read_sides(alloc, items, &front, &back),
        None => Ok(None),
    }
}

// The two sides of an assignment.
fn read_sides<'t>(
    alloc: Global,
    items: &NameTable<'_>,
    front: &Words<'t>,
    back: &Words<'t>,
) -> Result<Option<ActionRead>, OutOfMemory>
    ensures { IfOk result (IsActionRead items.now (sides_of front.now back.now)) }
{
    let Some(targets) = read_targets(alloc, items, front)? else {
        return Ok(None);
    };
    let Some(values) = read_values(alloc, items, &targets.variables.numbers, back)? else {
        return Ok(None);
    };
    Ok(Some(assignment(targets, values)))
}

fn read_targets<'t>(
    alloc: Global,
    items: &NameTable<'_>,
    words: &Words<'t>,
) -> Result<Option<Targets<'t>>, OutOfMemory>
    ensures { IfOk result (λ read.
        MatchOption read (each target_of (parted is_comma words.now) ≡ None)
        (λ t. (xs : List (List ℕ)) × (each target_of (parted is_comma words.now) ≡ Some xs)
        × HasTargets items.now xs t)) }
{
    let mut targets = Targets::new(alloc);
    let mut pieces = Pieces::new(Cut::Commas, words);
    while let Some(piece) = pieces.next() {
        match only_name(&piece) {
            Some(name) => targets.add(items, name)?,
            None => return Ok(None),
        }
    }
    Ok(Some(targets))
}

fn only_name<'t>(words: &Words<'t>) -> Option<&'t [u8]>
    ensures { target_of words.now ≡ option_map (λ name. name.now) result }
{
    match words.split_first() {
        Some((Lexeme::Name(name), rest)) if rest.split_first().is_none() => Some(name),
        _ => None,
    }
}

fn read_values<'t>(
    alloc: Global,
    items: &NameTable<'_>,
    targets: &[u32],
    words: &Words<'t>,
) -> Result<Option<Values>, OutOfMemory>
    ensures { IfOk result (λ read.
        MatchOption read (each value_of (parted_outside 0 is_comma words.now) ≡ None)
        (λ r. (vs : List ValueForm)
        × (each value_of (parted_outside 0 is_comma words.now) ≡ Some vs)
        × HasValues items.now targets.now vs r)) }
{
    let mut values = Values::new(alloc);
    let mut pieces = Pieces::new(Cut::OutsideCommas, words);
    while let Some(piece) = pieces.next() {
        match read_value(alloc, items, &piece)? {
            Some(value) => values.add(targets, value)?,
            None => return Ok(None),
        }
    }
    Ok(Some(values))
}

fn assignment(targets: Targets<'_>, values: Values) -> ActionRead
    ensures { (items xs : List (List ℕ)) (vs : List ValueForm) → HasTargets items xs targets.entry
        → HasValues items targets.entry.variables.numbers.items vs values
        → HasAction items (AssignForm xs vs) result }
{
    let mut faults = WeightFaults {
        unknown: targets.variables.unknown,
        unlawful: is_uneven(&targets.variables.numbers, &values),
        deep: false,
    };
    faults.unlawful |= targets.names.twice;
    ActionRead {
        action: Action::Assign(Assignments::from_vec(values.assignments)),
        faults: faults.or(values.faults),
    }
}

// Whether there are not as many values as targets.
fn is_uneven(targets: &[u32], values: &Values) -> bool
    ensures { (items : List (List ℕ)) (vs : List ValueForm)
        → HasValues items targets.now vs values.now
        → result ≡ not (length targets.now == length vs) }
{
    values.more || values.assignments.len() < targets.len()
}
