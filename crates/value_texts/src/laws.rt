ghost use Rattle.std.specs.Prelude.{◌≡◌, ◌≢◌, ◌↔◌, ◌<◌, ℕ, All, Bool, List, IsTrue, codes, length};
ghost use Rattle.genkill_weights.specs.Effects.{generates, kills};
ghost use Rattle.genkill_weights.specs.GenKill.{genkill_operations};
ghost use Rattle.copy_weights.specs.declared.form.CopyW.{CopyW as CopyWeight};
ghost use Rattle.copy_weights.specs.declared.form.CopyMap.{CopyMap as CopyReturn};
ghost use Rattle.copy_weights.specs.CopyConst.{copy_operations};
ghost use Rattle.copy_weights.specs.Values.{Known, values};
ghost use Rattle.relation_laws.specs.Building.{Parts};
ghost use Rattle.relation_laws.specs.Relations.{leads};
ghost use Rattle.relation_weights.specs.declared.rel_map.RelMap.{RelMap as RelReturn};
ghost use Rattle.relation_weights.specs.Relations.{relation_operations};
ghost use Rattle.pushdown_rules.specs.Configuration.{Configuration};
ghost use Rattle.pushdown_rules.specs.Pushdown.{Pushdown, IsSystem};
ghost use Rattle.pushdown_rules.specs.Answers.{Answers, HasFeasibleRun};
ghost use Rattle.document_forms.specs.Documents.{Document};
ghost use Rattle.document_forms.specs.Lawful.{IsDocument};
ghost use Rattle.document_forms.specs.declared.weight.WeightsLine.TheVariants.{GenKill as GenKillLine, Copy as CopyLine, Relation as RelationLine};
ghost use Rattle.document_systems.specs.CopyWeights.{copy_kind, copy_text};
ghost use Rattle.document_systems.specs.FactWeights.{genkill_kind, genkill_text};
ghost use Rattle.document_systems.specs.RelationWeights.{relation_kind, relation_text};
ghost use Rattle.document_systems.specs.Systems.{system_of};
ghost use Rattle.value_texts.specs.Telling.{IsGenerated, IsKilled, TellsFacts, IsMeetOfRuns, TellsConstants, IsRelated, TellsRelations};

use copy_weights::{CopyConst, weights_map_values};
use document_systems::documents_are_systems;
use genkill_weights::{GenKill, GenKillW, MaskMap};
use relation_laws::one_diagram;
use relation_weights::Relations;

/// An answer over facts generates what some run generates, and kills what each feasible run kills, if there is one. Its
/// text names these facts.
pub fn facts_are_of_runs()
    ensures generated { (n : ℕ) (p : Pushdown (GenKill n) (GenKillW n) (MaskMap n)) →
        let s = genkill_operations n in
        (from to : Configuration → Bool) (v : GenKillW n) (runs : List (List ℕ)) →
        IsSystem (λ _. s) p → Answers s p from to v runs → (f : ℕ) →
        IsTrue (generates n v f) ↔ IsGenerated n p from to f }
    ensures killed { (n : ℕ) (p : Pushdown (GenKill n) (GenKillW n) (MaskMap n)) →
        let s = genkill_operations n in
        (from to : Configuration → Bool) (v : GenKillW n) (runs : List (List ℕ)) →
        IsSystem (λ _. s) p → Answers s p from to v runs → (f : ℕ) →
        IsTrue (kills n v f) ↔ (HasFeasibleRun s p from to × IsKilled n p from to f) }
    ensures text { (n : ℕ) (p : Pushdown (GenKill n) (GenKillW n) (MaskMap n)) →
        let s = genkill_operations n in
        (from to : Configuration → Bool) (v : GenKillW n) (runs : List (List ℕ)) →
        IsSystem (λ _. s) p → Answers s p from to v runs → (facts : List (List ℕ)) →
        TellsFacts n p from to facts (genkill_text n facts v) }
{}

/// An answer over copies and constants leaves in each variable the meet of what the runs leave there, whatever is known of
/// the old values. Its text gives each variable the form that says so.
pub fn constants_are_of_runs()
    ensures left { (p : Pushdown ℕ CopyWeight CopyReturn) → let s = copy_operations p.semiring in
        (from to : Configuration → Bool) (v : CopyWeight) (runs : List (List ℕ)) →
        Answers s p from to v runs → (old : ℕ → Known) (k : ℕ) → k < p.semiring →
        IsMeetOfRuns p from to old k (values p.semiring v old k) }
    ensures text { (p : Pushdown ℕ CopyWeight CopyReturn) → let s = copy_operations p.semiring in
        (from to : Configuration → Bool) (v : CopyWeight) (runs : List (List ℕ)) →
        IsSystem copy_operations p → Answers s p from to v runs → (variables : List (List ℕ)) →
        TellsConstants p from to variables (copy_text variables v) }
{
    weights_map_values();
}

/// An answer over relations leads from an old state to a new one exactly where the value of some run does. Its text has
/// the diagram of these pairs.
pub fn relations_are_of_runs()
    ensures pairs { (p : Pushdown ℕ Parts RelReturn) → let s = relation_operations p.semiring in
        (from to : Configuration → Bool) (v : Parts) (runs : List (List ℕ)) →
        IsSystem relation_operations p → Answers s p from to v runs → (old new : ℕ → Bool) →
        IsTrue (leads v old new) ↔ IsRelated p from to old new }
    ensures text { (p : Pushdown ℕ Parts RelReturn) → let s = relation_operations p.semiring in
        (from to : Configuration → Bool) (v : Parts) (runs : List (List ℕ)) →
        IsSystem relation_operations p → Answers s p from to v runs →
        (variables : List (List ℕ)) →
        TellsRelations p from to variables (relation_text variables v) }
{
    one_diagram();
}

/// The value of an answer over a document with `weights genkill` is told by its text, if no fact is named `kill`. With
/// facts `a`, `kill` and `b` the text `gen a kill kill b` can be read in two ways: `kill` is generated, or it is killed.
pub fn fact_values_are_told()
    ensures { (n : ℕ) (d : Document) → let kind = genkill_kind n in
        let p = system_of kind (record {}) d in
        (from to : Configuration → Bool) (v : GenKillW n) (runs : List (List ℕ)) →
        d.weights ≡ GenKillLine → IsDocument d → All (λ x. x ≢ codes "kill") d.items →
        Answers (kind.operations p.semiring) p from to v runs → kind.told p.semiring d.items v }
{}

/// The value of an answer over a document with `weights copy` is told by its text.
pub fn copy_values_are_told()
    ensures { (d : Document) → let kind = copy_kind in
        let p = system_of kind (length d.items) d in
        (from to : Configuration → Bool) (v : CopyWeight) (runs : List (List ℕ)) →
        d.weights ≡ CopyLine → IsDocument d →
        Answers (kind.operations p.semiring) p from to v runs → kind.told p.semiring d.items v }
{
    documents_are_systems::<CopyConst>();
}

/// The value of an answer over a document with `weights relation` is told by its text.
pub fn relation_values_are_told()
    ensures { (d : Document) → let kind = relation_kind in
        let p = system_of kind (length d.items) d in
        (from to : Configuration → Bool) (v : Parts) (runs : List (List ℕ)) →
        d.weights ≡ RelationLine → IsDocument d →
        Answers (kind.operations p.semiring) p from to v runs → kind.told p.semiring d.items v }
{
    documents_are_systems::<Relations>();
    one_diagram();
}
