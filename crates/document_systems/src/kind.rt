ghost use Rattle.std.specs.Prelude.{◌≡◌, ◌↔◌, ℕ, List, IfOk, codes, refl};
ghost use Rattle.semiring_laws.specs.Semiring.{Fits, FitsMap};
ghost use Rattle.document_forms.specs.declared.weight.WeightText.{WeightText as WeightTextValue};
ghost use Rattle.document_forms.specs.declared.document.MapText.{MapText as MapTextValue};
ghost use Rattle.document_systems.specs.Kinds.{Kind};
ghost use Rattle.document_systems.specs.Weights.{reach_kind, cost_kind};
ghost use Rattle.document_systems.specs.WeightLaws.{reach_tells, cost_tells, reach_weights_fit, cost_weights_fit, reach_zero, cost_zero};

use cost_weights::Cost;
use document_forms::{MapText, WeightText};
use semiring_laws::{NoMap, Reach, Semiring};
use std::alloc::Global;
use wpds_base::{OutOfMemory, Sequence};
use wpds_port::Text;

/// The names of a class of a document, in the order in which they are declared.
pub type Names = Sequence<Text>;

/// A semiring that a document can name: what its weights are worth, and how a value is written.
pub trait DocumentWeights: Semiring {
    /// What this semiring means in a document.
    ghost kind: { Kind Self Self.W Self.Ret };

    /// What the weight of a rule is worth.
    fn weight_of(&self, alloc: Global, text: &WeightText) -> Result<Self::W, OutOfMemory>
        requires { kind.takes self.now text.now }
        ensures value { IfOk result (λ w. w ≡ kind.weight self.now text.now) }
        ensures fits { IfOk result (λ w. Fits (Self.operations self.now) w) };

    /// What the return map of a rule is worth.
    fn map_of(&self, alloc: Global, text: &MapText) -> Result<Self::Ret, OutOfMemory>
        requires { kind.takes_map self.now text.now }
        ensures value { IfOk result (λ m. m ≡ kind.map self.now text.now) }
        ensures fits { IfOk result (λ m. FitsMap (Self.operations self.now) m) };

    /// The text of a value, by the names of the document's facts or variables.
    fn text_of(&self, alloc: Global, items: &Names, value: &Self::W) -> Result<Text, OutOfMemory>
        ensures { IfOk result (λ t. t ≡ kind.written self.now items.now value.now) };

    /// The operations are those of the semiring.
    ghost computes: { kind.operations ≡ Self.Semiring.operations };

    /// The weight of a rule fits.
    ghost weights_fit: { (s : Self) (t : WeightTextValue)
        → kind.named s → kind.takes s t → Fits (kind.operations s) (kind.weight s t) };

    /// The return map of a rule fits.
    ghost maps_fit: { (s : Self) (t : MapTextValue)
        → kind.named s → kind.takes_map s t → FitsMap (kind.operations s) (kind.map s t) };

    /// The text of a value tells the value.
    ghost tells: { (s : Self) (items : List (List ℕ)) (v w : Self.W)
        → kind.named s → kind.told s items v → kind.told s items w
        → kind.written s items v ≡ kind.written s items w → v ≡ w };

    /// The text of zero is `unreachable`, and no other value's is.
    ghost tells_zero: { (s : Self) (items : List (List ℕ)) (v : Self.W)
        → kind.named s → Fits (kind.operations s) v
        → (kind.written s items v ≡ codes "unreachable") ↔ (v ≡ (kind.operations s).zero) };
}

impl DocumentWeights for Reach {
    ghost kind = { reach_kind };

    ghost computes = { refl };

    ghost weights_fit = { λ s t named taken. reach_weights_fit t named };

    ghost maps_fit = { λ s t named taken. refl };

    ghost tells = { λ s items. reach_tells };

    ghost tells_zero = { λ s items v named fit. reach_zero v };

    fn weight_of(&self, _alloc: Global, text: &WeightText) -> Result<bool, OutOfMemory> {
        match text {
            WeightText::Zero => Ok(false),
            _ => Ok(true),
        }
    }

    fn map_of(&self, _alloc: Global, _text: &MapText) -> Result<NoMap, OutOfMemory> {
        Ok(NoMap::Plain)
    }

    fn text_of(&self, alloc: Global, _items: &Names, value: &bool) -> Result<Text, OutOfMemory> {
        let text = if *value { "reachable" } else { "unreachable" };
        Text::of(alloc, text.as_bytes())
    }
}

impl DocumentWeights for Cost {
    ghost kind = { cost_kind };

    ghost computes = { refl };

    ghost weights_fit = { λ s t named taken. cost_weights_fit s t named };

    ghost maps_fit = { λ s t named taken. refl };

    ghost tells = { λ s items. cost_tells s };

    ghost tells_zero = { λ s items. cost_zero s };

    fn weight_of(&self, _alloc: Global, text: &WeightText) -> Result<Option<u64>, OutOfMemory> {
        match text {
            WeightText::Zero => Ok(None),
            WeightText::Number(n) => Ok(self.number(*n)),
            _ => Ok(self.number(0)),
        }
    }

    fn map_of(&self, _alloc: Global, _text: &MapText) -> Result<NoMap, OutOfMemory> {
        Ok(NoMap::Plain)
    }

    fn text_of(
        &self,
        alloc: Global,
        _items: &Names,
        value: &Option<u64>,
    ) -> Result<Text, OutOfMemory> {
        let Some(cost) = *value else {
            return Text::of(alloc, b"unreachable");
        };
        let more = if cost == self.cap() { " or more" } else { "" };
        let text = format!(in alloc; "{cost}{more}")?;
        Ok(Text::from_vec(text.into_bytes()))
    }
}
