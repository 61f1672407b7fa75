//! Copy constants as weights of a document.

ghost use Rattle.std.specs.Prelude.{◌≡◌, ◌++◌, ◌∷◌, ℕ, List, IfOk, refl, map, option_to_list, option_map};
ghost use Rattle.std.specs.Fmt.{signed_decimal};
ghost use Rattle.copy_weights.specs.Forms.{has, form};
ghost use Rattle.copy_weights.specs.declared.form.CopyW.TheVariants.{Map};
ghost use Rattle.document_systems.specs.CopyWeights.{copy_kind, copy_text, change_of, form_of, form_text, change_text};
ghost use Rattle.document_systems.specs.CopyLaws.{copy_weights_fit, copy_maps_fit, copy_tells, copy_zero};
ghost use Rattle.document_systems.specs.ValueTexts.{names_where};
ghost use Rattle.document_systems.specs.private.Rows.{IsRow};

use crate::row::{Row, name_of};
use crate::{DocumentWeights, Names};
use copy_weights::{CopyConst, CopyMap, CopyW, Form};
use document_forms::{FormText, MapText, VariableForm, WeightText};
use semiring_laws::Semiring;
use std::alloc::Global;
use wpds_base::OutOfMemory;
use wpds_port::Text;

fn form_from(text: FormText) -> Form
    ensures { result ≡ form_of text }
{
    match text {
        FormText::Varying => Form::Varying,
        FormText::Meet { constant, from } => Form::Meet { constant, from },
    }
}

fn changes_from(alloc: Global, texts: &[VariableForm]) -> Result<Vec<(u32, Form)>, OutOfMemory>
    ensures { IfOk result (λ changes. changes.items ≡ map change_of texts.now) }
{
    let mut changes = Vec::with_capacity(alloc, texts.len())?;
    for text in texts {
        changes.push((text.variable, form_from(text.form)))?;
    }
    Ok(changes)
}

// Whether a set of variables has one.
fn has_variable(from: u64, variable: usize) -> bool
    ensures { result ≡ has from variable }
{
    variable < 64 && (from >> variable) & 1 == 1
}

// Adds the names of a set of variables.
fn push_variables(row: &mut Row, items: &Names, from: u64) -> Result<(), OutOfMemory>
    ensures { (mark : ℕ) (texts : List (List ℕ)) → IsRow mark texts row.old
        → IfOk result (λ _. IsRow mark (texts ++ names_where items.now (has from)) row.new) }
{
    for variable in 0..items.len() {
        if !has_variable(from, variable) {
            continue;
        }
        row.push(name_of(items, variable))?;
    }
    Ok(())
}

// Adds a constant, if there is one.
fn push_constant(alloc: Global, row: &mut Row, constant: Option<i64>) -> Result<(), OutOfMemory>
    ensures { (mark : ℕ) (texts : List (List ℕ)) → IsRow mark texts row.old
        → let written = option_to_list (option_map signed_decimal constant) in
        IfOk result (λ _. IsRow mark (texts ++ written) row.new) }
{
    if let Some(constant) = constant {
        row.push(format!(in alloc; "{constant}")?.as_bytes())?;
    }
    Ok(())
}

// What a variable holds.
fn written_form(alloc: Global, items: &Names, form: Form) -> Result<Text, OutOfMemory>
    ensures { IfOk result (λ t. t ≡ form_text items.now form) }
{
    match form {
        Form::Varying => Text::of(alloc, b"?"),
        Form::Meet { constant, from } => {
            let mut row = Row::new(alloc, b',');
            push_constant(alloc, &mut row, constant)?;
            push_variables(&mut row, items, from)?;
            row.push_if_none(b"undef")?;
            Ok(row.into_text())
        }
    }
}

// The form of a variable.
fn form_at(forms: &[Form], variable: usize) -> Form
    ensures { result ≡ form forms.now variable }
{
    match forms.get(variable) {
        Some(form) => *form,
        None => Form::Varying,
    }
}

// A variable by its name, and what it holds.
fn written_change(
    alloc: Global,
    items: &Names,
    forms: &[Form],
    variable: usize,
) -> Result<Text, OutOfMemory>
    ensures { IfOk result (λ t. t ≡ change_text items.now forms.now variable) }
{
    let mut text = Vec::from_slice(alloc, name_of(items, variable))?;
    text.push(b'=')?;
    let form = written_form(alloc, items, form_at(forms, variable))?;
    text.extend_from_slice(form.as_bytes())?;
    Ok(Text::from_vec(text))
}

// The text of what each variable holds.
fn written_forms(alloc: Global, items: &Names, forms: &[Form]) -> Result<Text, OutOfMemory>
    ensures { IfOk result (λ t. t ≡ copy_text items.now (Map forms.now)) }
{
    let mut row = Row::new(alloc, b' ');
    for variable in 0..items.len() {
        let change = written_change(alloc, items, forms, variable)?;
        row.push(change.as_bytes())?;
    }
    row.push_if_none(b"-")?;
    Ok(row.into_text())
}

impl DocumentWeights for CopyConst {
    ghost kind = { copy_kind };

    ghost computes = { refl };

    ghost weights_fit = { λ s t named taken. copy_weights_fit s t named };

    ghost maps_fit = { λ s t named taken. copy_maps_fit s t named };

    ghost tells = { copy_tells };

    ghost tells_zero = { copy_zero };

    fn weight_of(&self, alloc: Global, text: &WeightText) -> Result<CopyW, OutOfMemory> {
        match text {
            WeightText::Zero => self.zero(alloc),
            WeightText::Forms(texts) => {
                let changes = changes_from(alloc, texts.as_slice())?;
                self.make(alloc, &changes)
            }
            WeightText::One
            | WeightText::Number(_)
            | WeightText::Facts(_)
            | WeightText::Actions(_) => self.one(alloc),
        }
    }

    fn map_of(&self, _alloc: Global, text: &MapText) -> Result<CopyMap, OutOfMemory> {
        Ok(self.restore(text.restore.as_slice()))
    }

    fn text_of(&self, alloc: Global, items: &Names, value: &CopyW) -> Result<Text, OutOfMemory> {
        match value {
            CopyW::Zero => Text::of(alloc, b"unreachable"),
            CopyW::Map { forms } => written_forms(alloc, items, forms.as_slice()),
        }
    }
}
