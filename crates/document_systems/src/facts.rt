//! Facts as weights of a document.

ghost use Rattle.std.specs.Prelude.{◌≡◌, ◌++◌, ℕ, List, IfOk, refl, codes};
ghost use Rattle.document_forms.specs.Writing.{spaced};
ghost use Rattle.document_systems.specs.FactWeights as spec;
ghost use Rattle.document_systems.specs.FactWeights.{genkill_kind};
ghost use Rattle.document_systems.specs.FactLaws.{genkill_weights_fit, genkill_maps_fit, genkill_tells, genkill_zero};
ghost use Rattle.document_systems.specs.ValueTexts.{names_where, or_one};
ghost use Rattle.document_systems.specs.private.Facts.{has_effect};
ghost use Rattle.document_systems.specs.private.Rows.{IsRow};

use crate::row::{Row, name_of};
use crate::{DocumentWeights, Names};
use document_forms::{FactSign, MapText, WeightText};
use genkill_weights::{GenKill, GenKillW, MaskMap};
use semiring_laws::Semiring;
use std::alloc::Global;
use wpds_base::OutOfMemory;
use wpds_port::Text;

// The facts behind a sign.
fn facts_behind(alloc: Global, signs: &[FactSign], plus: bool) -> Result<Vec<u32>, OutOfMemory>
    ensures { IfOk result (λ facts. facts.items ≡ spec.facts_behind plus signs.now) }
{
    let mut facts = Vec::new(alloc);
    for sign in signs {
        if sign.plus == plus {
            facts.push(sign.fact)?;
        }
    }
    Ok(facts)
}

/// What a weight does to a fact.
#[derive(Clone, Copy)]
enum Effect {
    Generated,
    Killed,
}

fn has<const N: usize>(weight: &GenKillW<N>, effect: Effect, fact: usize) -> bool
    ensures { result ≡ has_effect N effect weight.now fact }
{
    match effect {
        Effect::Generated => weight.generates(fact),
        Effect::Killed => weight.kills(fact),
    }
}

// Adds the names of the facts to which a weight does this, or `-` where there are none.
fn push_facts<const N: usize>(
    row: &mut Row,
    items: &Names,
    weight: &GenKillW<N>,
    effect: Effect,
) -> Result<(), OutOfMemory>
    ensures { (mark : ℕ) (texts : List (List ℕ)) → IsRow mark texts row.old
        → let found = names_where items.now (has_effect N effect weight.now) in
        IfOk result (λ _. IsRow mark (texts ++ or_one (codes "-") found) row.new) }
{
    let mut none = true;
    for number in 0..items.len() {
        if !has(weight, effect, number) {
            continue;
        }
        row.push(name_of(items, number))?;
        none = false;
    }
    if none {
        row.push(b"-")?;
    }
    Ok(())
}

// What a weight does to the facts.
fn effects_text<const N: usize>(
    alloc: Global,
    items: &Names,
    weight: &GenKillW<N>,
) -> Result<Text, OutOfMemory>
    ensures { IfOk result (λ t. t ≡ spaced (spec.effect_words N items.now weight.now)) }
{
    let mut row = Row::new(alloc, b' ');
    row.push(b"gen")?;
    push_facts(&mut row, items, weight, Effect::Generated)?;
    row.push(b"kill")?;
    push_facts(&mut row, items, weight, Effect::Killed)?;
    Ok(row.into_text())
}

impl<const N: usize> DocumentWeights for GenKill<N> {
    ghost kind = { genkill_kind N };

    ghost computes = { refl };

    ghost weights_fit = { λ s t named taken. genkill_weights_fit N t named };

    ghost maps_fit = { λ s t named taken. genkill_maps_fit N t named };

    ghost tells = { λ s. genkill_tells N };

    ghost tells_zero = { λ s. genkill_zero N };

    fn weight_of(&self, alloc: Global, text: &WeightText) -> Result<GenKillW<N>, OutOfMemory> {
        match text {
            WeightText::Zero => self.zero(alloc),
            WeightText::Facts(signs) => {
                let generated = facts_behind(alloc, signs.as_slice(), true)?;
                let killed = facts_behind(alloc, signs.as_slice(), false)?;
                Ok(self.make(&generated, &killed))
            }
            WeightText::One
            | WeightText::Number(_)
            | WeightText::Forms(_)
            | WeightText::Actions(_) => self.one(alloc),
        }
    }

    fn map_of(&self, _alloc: Global, text: &MapText) -> Result<MaskMap<N>, OutOfMemory> {
        Ok(self.restore(text.restore.as_slice()))
    }

    fn text_of(
        &self,
        alloc: Global,
        items: &Names,
        value: &GenKillW<N>,
    ) -> Result<Text, OutOfMemory> {
        if value.is_zero() {
            return Text::of(alloc, b"unreachable");
        }
        effects_text(alloc, items, value)
    }
}
