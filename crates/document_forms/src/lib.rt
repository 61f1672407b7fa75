//! The text of pushdown systems, version 1: which bytes are which document, and which line of the
//! others is refused first.
#![tactic(auto)]

mod document;
mod expression;
mod language;
mod laws;
mod pattern;
mod symbols;
mod weight;

pub use document::{Document, MapText, Move, Moves, QueryLine, QueryLines, RuleLine, RuleLines};
pub use expression::Expression;
pub use language::Language;
pub use laws::{
    above_with_a_line, accepted_lines_are_lawful, documents_are_lawful, found_line_by_line,
    lowest_kind_counts, names_of_a_class, one_cutting_into_lines, one_document_or_one_refusal,
    one_form_a_line, one_list_of_items, tests_of_names, written_documents_read_back,
};
pub use pattern::{ItemText, ItemTexts, PatternText, SetText};
pub use symbols::Symbols;
pub use weight::{
    Action, Actions, Assignment, Assignments, FactSign, FactSigns, FormText, FormTexts, Numbers,
    ValueText, VariableForm, WeightText, WeightsLine,
};
