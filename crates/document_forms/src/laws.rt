//! What the definitions say, as laws.

ghost use Rattle.std.specs.Prelude.{◌≡◌, ◌↔◌, ◌⊎◌, ℕ, Bool, true, false, List, [], ◌∷◌, ◌++◌, ◌≤◌, length, Option, Some, None, Ok, Err};
ghost use Rattle.std.specs.List.{list_any};
ghost use Rattle.wpds_base.specs.Faults.{first_fault};
ghost use Rattle.wpds_base.specs.Limits.{most_bytes, most_pushed};
ghost use Rattle.wpds_base.specs.Lists.{IsIn, IsOnce};
ghost use Rattle.wpds_port.specs.declared.Word.{Word};
ghost use Rattle.document_forms.specs.Above.{declared, names_on, Above, above_of, with_line};
ghost use Rattle.document_forms.specs.Documents.{Document, read_as, reads_as, rule_value, query_value};
ghost use Rattle.document_forms.specs.FirstRefusal.{Counted, kind_below, IsLowest, refusal_of, FirstRefusal};
ghost use Rattle.document_forms.specs.Forms.{Class, LineForm, RuleForm, WeightsForm, OfWeights, form_of};
ghost use Rattle.document_forms.specs.FormWords.{IsForm};
ghost use Rattle.document_forms.specs.Kinds.{conditions, rule_conditions, query_conditions};
ghost use Rattle.document_forms.specs.Lawful.{IsDocument, IsRuleLine, IsQueryLine};
ghost use Rattle.document_forms.specs.Lines.{pieces, IsCut};
ghost use Rattle.document_forms.specs.Names.{is_among, has_twice};
ghost use Rattle.document_forms.specs.Patterns.{ItemForm, PatternForm, items_of, AreItems};
ghost use Rattle.document_forms.specs.Writing.{written};
ghost use Rattle.wpds_port.specs.declared.Kind.{Kind};
ghost use Rattle.wpds_port.specs.declared.Refusal.{Refusal};

use truth_tables::one_tree;
use wpds_port::one_list_of_tokens;

/// Bytes have a document or a first refusal, never both, and one at most of each.
pub fn one_document_or_one_refusal()
    ensures one { (bytes : List ℕ)
        → ((d : Document) × reads_as bytes d) ⊎ ((r : Refusal) × FirstRefusal bytes r) }
    ensures never_both { (bytes : List ℕ) (d : Document) (r : Refusal)
        → reads_as bytes d → FirstRefusal bytes r → ⊥ }
    ensures one_document { (bytes : List ℕ) (d e : Document)
        → reads_as bytes d → reads_as bytes e → d ≡ e }
    ensures one_refusal { (bytes : List ℕ) (r q : Refusal)
        → FirstRefusal bytes r → FirstRefusal bytes q → r ≡ q }
{}

/// The document and the first refusal are what is found line by line.
pub fn found_line_by_line()
    ensures document { (bytes : List ℕ) (d : Document) → (read_as bytes ≡ Ok d) ↔ reads_as bytes d }
    ensures err { (bytes : List ℕ) (r : Refusal) → (read_as bytes ≡ Err r) ↔ FirstRefusal bytes r }
    ensures refusal { (bytes : List ℕ) (r : Refusal)
        → (refusal_of bytes ≡ Some r) ↔ FirstRefusal bytes r }
{}

/// Of the kinds that a line has the lowest counts.
pub fn lowest_kind_counts()
    ensures { (all : ℕ) (above : List Counted) (l : Counted) (k : Kind)
        → (kind_below all above l ≡ Some k) ↔ IsLowest all above l k }
{}

/// Bytes are cut into one list of pieces: none holds a line feed, and each but perhaps the last is
/// ended by one.
pub fn one_cutting_into_lines()
    ensures { (bytes : List ℕ) (ps : List (List ℕ)) → (pieces bytes ≡ ps) ↔ IsCut bytes ps }
{}

/// Words are read as items of a pattern exactly where the items write these words. So they are one
/// list of items at most.
pub fn one_list_of_items()
    ensures { (ws : List Word) (is : List ItemForm) → (items_of ws ≡ Some is) ↔ AreItems ws is }
{}

/// Words have a form exactly where it writes them and keeps to its limits. So a line has one form
/// at most, and a form is that of one list of words.
pub fn one_form_a_line()
    ensures { (ws : List Word) (f : LineForm) → (form_of ws ≡ Some f) ↔ IsForm ws f }
{}

/// A document that is read is over its own names and within the limits.
pub fn documents_are_lawful()
    ensures { (bytes : List ℕ) (d : Document) → reads_as bytes d → IsDocument d }
{
    one_list_of_tokens();
}

/// A document that is read is read again as it is written.
pub fn written_documents_read_back()
    ensures read { (bytes : List ℕ) (d : Document)
        → reads_as bytes d → length (written d) ≤ most_bytes → reads_as (written d) d }
    ensures lawful { (d : Document)
        → IsDocument d → length (written d) ≤ most_bytes → reads_as (written d) d }
{
    documents_are_lawful();
    one_list_of_tokens();
    one_tree();
}

/// An accepted rule or query is over the names above it.
pub fn accepted_lines_are_lawful()
    ensures rule { (a : Above) (r : RuleForm)
        → length r.right ≤ most_pushed → first_fault (rule_conditions a r) ≡ None
        → IsRuleLine a.weights (length a.controls) (length a.symbols) (length a.items)
        (rule_value a r) }
    ensures query { (all : ℕ) (a : Above) (p q : PatternForm)
        → first_fault (query_conditions all a p q) ≡ None
        → IsQueryLine all (length a.controls) (length a.symbols) (query_value a p q) }
{}

/// What the tests of names say.
pub fn tests_of_names()
    ensures among { (xs : List (List ℕ)) (x : List ℕ) → (is_among xs x ≡ true) ↔ IsIn x xs }
    ensures once { (xs : List (List ℕ)) → (has_twice xs ≡ false) ↔ IsOnce xs }
{}

/// The names of a class are those that lines declare, each once. Behind a line with new names they
/// are the names before, and then the new ones: so a name's number stays.
pub fn names_of_a_class()
    ensures once { (c : Class) (ls : List LineForm) → IsOnce (declared c ls) }
    ensures new { (c : Class) (ls : List LineForm) (l : LineForm)
        → list_any (is_among (declared c ls)) (names_on c l) ≡ false
        → has_twice (names_on c l) ≡ false
        → declared c (ls ++ l ∷ []) ≡ declared c ls ++ names_on c l }
{}

/// What is said above a line that is accepted, and with it.
pub fn above_with_a_line()
    ensures { (all : ℕ) (w : WeightsForm) (ls : List LineForm) (f : LineForm)
        → first_fault (conditions all (above_of (OfWeights w ∷ ls)) f) ≡ None
        → above_of ((OfWeights w ∷ ls) ++ f ∷ []) ≡ with_line (above_of (OfWeights w ∷ ls)) f }
{}
