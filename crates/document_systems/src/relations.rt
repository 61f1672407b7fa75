//! Relations between variables as weights of a document.

ghost use Rattle.std.specs.Prelude.{◌≡◌, ◌<◌, ◌%◌, [], fold, map, All, IfOk, codes, nat_eq, if◌then◌else◌, refl};
ghost use Rattle.std.specs.List.{range_with_len};
ghost use Rattle.wpds_base.specs.Limits.{most_related};
ghost use Rattle.semiring_laws.specs.Semiring.{Fits};
ghost use Rattle.relation_laws.specs.Relations.{relation_of};
ghost use Rattle.relation_weights.specs.Relations.{relation_operations};
ghost use Rattle.document_forms.specs.Lawful.{AreBelow, IsAction};
ghost use Rattle.document_systems.specs.RelationWeights as spec;
ghost use Rattle.document_systems.specs.RelationWeights.{relation_kind, value_of, target_of, allowed, and_then};
ghost use Rattle.document_systems.specs.RelationLaws.{relation_weights_fit, relation_maps_fit, relation_tells, relation_zero};

use crate::row::{Row, name_of};
use crate::{DocumentWeights, Names};
use diagram_store::Branch;
use document_forms::{Action, Assignment, MapText, Move, ValueText, WeightText};
use relation_weights::{RelMap, Relation, Relations, Slot, Value};
use semiring_laws::Semiring;
use std::alloc::Global;
use wpds_base::OutOfMemory;
use wpds_port::Text;

// What a target becomes.
fn value_from(alloc: Global, text: &ValueText) -> Result<Value, OutOfMemory>
    ensures { IfOk result (λ v. v ≡ value_of text.now) }
{
    match text {
        ValueText::Free => Ok(Value::free()),
        ValueText::Is(expression) => {
            let tree = expression.to_expr(alloc)?;
            Ok(Value::of(tree))
        }
    }
}

fn targets_from(alloc: Global, texts: &[Assignment]) -> Result<Vec<(u32, Value)>, OutOfMemory>
    ensures { IfOk result (λ targets. targets.items ≡ map target_of texts.now) }
{
    let mut targets = Vec::with_capacity(alloc, texts.len())?;
    for text in texts {
        let value = value_from(alloc, &text.value)?;
        targets.push((text.variable, value))?;
    }
    Ok(targets)
}

// The relation of an action.
fn action_from(
    relations: &Relations,
    alloc: Global,
    action: &Action,
) -> Result<Relation, OutOfMemory>
    requires { IsAction relations.now action.now }
    ensures pairs { let n = relations.now in
        IfOk result (λ w. w ≡ relation_of n (allowed n action.now)) }
    ensures fits { IfOk result (λ w. Fits (relation_operations relations.now) w) }
{
    match action {
        Action::Assume(expression) => {
            let tree = expression.to_expr(alloc)?;
            relations.assume(alloc, &tree)
        }
        Action::Choose(variables) => relations.choose(alloc, variables.as_slice()),
        Action::Assign(texts) => {
            let targets = targets_from(alloc, texts.as_slice())?;
            relations.assign(alloc, &targets)
        }
    }
}

// The relation of actions that are done in their order.
fn actions_from(
    relations: &Relations,
    alloc: Global,
    actions: &[Action],
) -> Result<Relation, OutOfMemory>
    requires { All (IsAction relations.now) actions.now }
    ensures value { let s = relation_operations relations.now in
        IfOk result (λ w. w ≡ fold (and_then relations.now) s.one actions.now) }
    ensures fits { IfOk result (λ w. Fits (relation_operations relations.now) w) }
{
    let mut done = relations.one(alloc)?;
    for action in actions {
        let next = action_from(relations, alloc, action)?;
        done = relations.extend(alloc, &done, &next)?;
    }
    Ok(done)
}

// The variable that is moved to a variable, or that variable itself.
fn moved_from(moves: &[Move], variable: u32) -> u32
    ensures { result ≡ spec.moved_from moves.now variable }
{
    for m in moves {
        if m.to == variable {
            return m.from;
        }
    }
    variable
}

// Where a variable comes from behind a call.
fn slot_of(text: &MapText, variable: u32) -> Slot
    requires moves { AreBelow most_related (map (λ m. m.from) text.now.moves) }
    requires variable { variable < most_related }
    ensures { result ≡ spec.slot_of text.now variable }
{
    if text.restore.as_slice().contains(&variable) {
        return Slot::Caller;
    }
    Slot::Callee(moved_from(text.moves.as_slice(), variable) as u8)
}

// Where each variable comes from.
fn slots_of(text: &MapText) -> [Slot; 24]
    requires { AreBelow most_related (map (λ m. m.from) text.now.moves) }
    ensures { result ≡ map (spec.slot_of text.now) (range_with_len 0 most_related) }
{
    let mut slots = [Slot::Caller; 24];
    for variable in 0..24 {
        slots[variable as usize] = slot_of(text, variable);
    }
    slots
}

// What stands behind the name of a variable of a diagram.
fn mark(variable: u32) -> &'static [u8]
    ensures { result.now ≡ (if nat_eq (variable % 2) 1 then codes "'" else []) }
{
    if variable % 2 == 1 { b"'" } else { b"" }
}

// A variable of a diagram.
fn label(alloc: Global, items: &Names, variable: u32) -> Result<Vec<u8>, OutOfMemory>
    ensures { IfOk result (λ t. t.items ≡ spec.label items.now variable) }
{
    let mut text = Vec::from_slice(alloc, name_of(items, (variable / 2) as usize))?;
    text.extend_from_slice(mark(variable))?;
    Ok(text)
}

// A node of a diagram.
fn node_text(alloc: Global, items: &Names, node: &Branch) -> Result<Vec<u8>, OutOfMemory>
    ensures { IfOk result (λ t. t.items ≡ spec.node_text items.now node.now) }
{
    let low = node.low;
    let high = node.high;
    let places = format!(in alloc; " {low} {high}")?;
    let mut text = Vec::from_slice(alloc, b" ")?;
    text.extend_from_slice(&label(alloc, items, node.var)?)?;
    text.extend_from_slice(places.as_bytes())?;
    Ok(text)
}

// The nodes of a diagram that is not false.
fn diagram_text(alloc: Global, items: &Names, nodes: &[Branch]) -> Result<Text, OutOfMemory>
    ensures { IfOk result (λ t. t ≡ spec.diagram_text items.now nodes.now) }
{
    let mut row = Row::new(alloc, b';');
    for node in nodes {
        let text = node_text(alloc, items, node)?;
        row.push(&text)?;
    }
    row.push_if_none(b" true")?;
    let mut text = Vec::from_slice(alloc, b"relation")?;
    text.extend_from_slice(row.into_text().as_bytes())?;
    Ok(Text::from_vec(text))
}

impl DocumentWeights for Relations {
    ghost kind = { relation_kind };

    ghost computes = { refl };

    ghost weights_fit = { λ s t named taken. relation_weights_fit s t };

    ghost maps_fit = { λ s t named taken. relation_maps_fit s t taken };

    ghost tells = { relation_tells };

    ghost tells_zero = { relation_zero };

    fn weight_of(&self, alloc: Global, text: &WeightText) -> Result<Relation, OutOfMemory> {
        match text {
            WeightText::Zero => self.zero(alloc),
            WeightText::Actions(actions) => actions_from(self, alloc, actions.as_slice()),
            WeightText::One | WeightText::Number(_) | WeightText::Facts(_) | WeightText::Forms(_) =>
                self.one(alloc),
        }
    }

    fn map_of(&self, _alloc: Global, text: &MapText) -> Result<RelMap, OutOfMemory> {
        let _bits = self.bits();
        Ok(RelMap::Slots(slots_of(text)))
    }

    fn text_of(&self, alloc: Global, items: &Names, value: &Relation) -> Result<Text, OutOfMemory> {
        let diagram = value.diagram();
        if diagram.root == 0 {
            return Text::of(alloc, b"unreachable");
        }
        diagram_text(alloc, items, diagram.nodes())
    }
}
