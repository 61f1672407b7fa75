ghost use Rattle.std.specs.Prelude.{◌≡◌, ◌↔◌, ℕ, List, IsTrue, codes};
ghost use Rattle.semiring_laws.specs.Semiring.{Fits};
ghost use Rattle.pushdown_rules.specs.Configuration.{Configuration};
ghost use Rattle.pushdown_rules.specs.Pushdown.{IsSystem};
ghost use Rattle.config_patterns.specs.Membership.{has_member};
ghost use Rattle.document_forms.specs.Documents.{Document};
ghost use Rattle.document_forms.specs.Lawful.{IsDocument};
ghost use Rattle.document_systems.specs.Systems.{as_pattern, pattern_of, system_of, AreTaken};

use crate::DocumentWeights;

/// A side of a query that is written as one configuration has that configuration as its one member.
pub fn configurations_are_their_own_members()
    ensures { (symbols : ℕ) (c d : Configuration)
        → IsTrue (has_member (pattern_of symbols (as_pattern c)) d) ↔ (d ≡ c) }
{}

/// The text of zero is `unreachable`, and no other value's is.
pub fn unreachable_is_zero<S: DocumentWeights>()
    ensures { (s : S) (items : List (List ℕ)) (v : S.W) → S.kind.named s → Fits (S.operations s) v
        → (S.kind.written s items v ≡ codes "unreachable") ↔ (v ≡ (S.operations s).zero) }
{}

/// What a document means is a system, over each semiring that a document can name and that takes its rules.
pub fn documents_are_systems<S: DocumentWeights>()
    ensures { (s : S) (d : Document) → S.kind.named s → IsDocument d → AreTaken S.kind s d
        → IsSystem S.operations (system_of S.kind s d) }
{}
