//! The lines of rules and queries.

ghost use Rattle.std.specs.Prelude.{◌≡◌, ◌++◌, OnOk, map};
ghost use Rattle.document_forms.specs.Writing.{rule_text, query_text};
ghost use Rattle.document_writer.specs.private.Documents.{step_text};
ghost use Rattle.document_writer.specs.private.Rows.{lines};

use crate::names::{push_name, push_names};
use crate::patterns::push_pattern;
use crate::rows::push;
use crate::weights::maps::push_map;
use crate::weights::push_weight;
use document_forms::{Document, QueryLine, RuleLine};
use wpds_base::{OutOfMemory, Sequence};
use wpds_port::Text;

// Adds a rule without what it is worth.
fn push_step(
    out: &mut Vec<u8>,
    document: &Document<Sequence<Text>>,
    rule: &RuleLine,
) -> Result<(), OutOfMemory>
    ensures { OnOk result (out.new.items ≡ out.old.items ++ step_text document.now rule.now) }
{
    let controls = document.controls.as_slice();
    let symbols = document.symbols.as_slice();
    push(out, b"rule ")?;
    push_name(out, controls, rule.control)?;
    push(out, b" ")?;
    push_name(out, symbols, rule.symbol)?;
    push(out, b" -> ")?;
    push_name(out, controls, rule.to)?;
    push_names(out, symbols, rule.right.as_slice())
}

// Adds a rule.
fn push_rule(
    out: &mut Vec<u8>,
    document: &Document<Sequence<Text>>,
    rule: &RuleLine,
) -> Result<(), OutOfMemory>
    ensures { OnOk result (out.new.items ≡ out.old.items ++ rule_text document.now rule.now) }
{
    let items = document.items.as_slice();
    push_step(out, document, rule)?;
    push_weight(out, items, &rule.weight)?;
    push_map(out, items, &rule.map)
}

/// Adds the lines of the rules.
pub(crate) fn push_rules(
    out: &mut Vec<u8>,
    document: &Document<Sequence<Text>>,
) -> Result<(), OutOfMemory>
    ensures { let d = document.now in
        OnOk result (out.new.items ≡ out.old.items ++ lines (map (rule_text d) d.rules)) }
{
    for rule in document.rules.as_slice() {
        push_rule(out, document, rule)?;
        push(out, b"\n")?;
    }
    Ok(())
}

// Adds a query.
fn push_query(
    out: &mut Vec<u8>,
    document: &Document<Sequence<Text>>,
    query: &QueryLine,
) -> Result<(), OutOfMemory>
    ensures { OnOk result (out.new.items ≡ out.old.items ++ query_text document.now query.now) }
{
    push(out, b"query ")?;
    push_pattern(out, document, &query.from)?;
    push(out, b" => ")?;
    push_pattern(out, document, &query.to)
}

/// Adds the lines of the queries.
pub(crate) fn push_queries(
    out: &mut Vec<u8>,
    document: &Document<Sequence<Text>>,
) -> Result<(), OutOfMemory>
    ensures { let d = document.now in
        OnOk result (out.new.items ≡ out.old.items ++ lines (map (query_text d) d.queries)) }
{
    for query in document.queries.as_slice() {
        push_query(out, document, query)?;
        push(out, b"\n")?;
    }
    Ok(())
}
