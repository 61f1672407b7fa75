ghost use Rattle.std.specs.Prelude.{◌≡◌, ◌≤◌, ◌+◌, ◌||◌, ◌++◌, is_some, option_map, IfOk, OnOk};
ghost use Rattle.std.specs.String.{string_bytes};
ghost use Rattle.report_text.specs.Listings as listings;
ghost use Rattle.report_text.specs.private.{then_text, part_text, rule_size, set_size, then_size, part_size, parts_size, before_size, node_size};

use crate::line::Line;
use std::alloc::Global;
use witness_graph::{Listing, Node, Side};
use wpds_base::{OutOfMemory, Text};

// Puts in a rule by its number in the text.
fn put_rule(line: &mut Line, rule: u32)
    requires { rule_size ≤ line.old.room }
    ensures text { line.new.text ≡ listings.rule_text rule ++ line.old.text }
    ensures room { line.old.room ≤ line.new.room + rule_size }
{
    line.put_number(u64::from(rule) + 1);
    line.put(b"rule ");
}

// Puts in a set of runs by its number.
fn put_set(line: &mut Line, set: u64)
    requires { set_size ≤ line.old.room }
    ensures text { line.new.text ≡ listings.set_text set ++ line.old.text }
    ensures room { line.old.room ≤ line.new.room + set_size }
{
    line.put_number(set);
    line.put(b"set ");
}

// Puts in what stands between a part and those behind it, if there are some.
fn put_then(line: &mut Line, more: bool)
    requires { then_size ≤ line.old.room }
    ensures text { line.new.text ≡ then_text more ++ line.old.text }
    ensures room { line.old.room ≤ line.new.room + then_size }
{
    if more {
        line.put(b" then ");
    }
}

// Puts in a rule, if there is one, before other parts, if there are some, and says whether there are some now.
fn put_rule_part(line: &mut Line, more: bool, rule: Option<u32>) -> bool
    requires { part_size ≤ line.old.room }
    ensures text { let rule = option_map listings.rule_text rule in
        line.new.text ≡ part_text rule more ++ line.old.text }
    ensures more { result ≡ (more || is_some rule) }
    ensures room { line.old.room ≤ line.new.room + part_size }
{
    let Some(rule) = rule else {
        return more;
    };
    put_then(line, more);
    put_rule(line, rule);
    true
}

// The same for a set of runs.
fn put_set_part(line: &mut Line, more: bool, set: Option<u64>) -> bool
    requires { part_size ≤ line.old.room }
    ensures text { let set = option_map listings.set_text set in
        line.new.text ≡ part_text set more ++ line.old.text }
    ensures more { result ≡ (more || is_some set) }
    ensures room { line.old.room ≤ line.new.room + part_size }
{
    let Some(set) = set else {
        return more;
    };
    put_then(line, more);
    put_set(line, set);
    true
}

// Puts in the parts of a node that are there, in the order of its runs.
fn put_parts(
    line: &mut Line,
    side: Side,
    rule: Option<u32>,
    first: Option<u64>,
    second: Option<u64>,
)
    requires { parts_size ≤ line.old.room }
    ensures text { line.new.text
        ≡ listings.parts_text side rule first second ++ line.old.text }
    ensures room { line.old.room ≤ line.new.room + parts_size }
{
    match side {
        Side::Pre => {
            let more = put_set_part(line, false, second);
            let more = put_set_part(line, more, first);
            put_rule_part(line, more, rule);
        }
        Side::Post => {
            let more = put_rule_part(line, false, rule);
            let more = put_set_part(line, more, second);
            put_set_part(line, more, first);
        }
    }
}

// Puts in the set before the parts of a node, if there is one.
fn put_before(line: &mut Line, before: Option<u64>)
    requires { before_size ≤ line.old.room }
    ensures text { line.new.text ≡ listings.before_text before ++ line.old.text }
    ensures room { line.old.room ≤ line.new.room + before_size }
{
    if let Some(set) = before {
        line.put(b" or ");
        put_set(line, set);
    }
}

// Puts in the runs of a node, by the sets that it names.
fn put_node(line: &mut Line, side: Side, node: Node)
    requires { node_size ≤ line.old.room }
    ensures text { line.new.text ≡ listings.node_text side node ++ line.old.text }
    ensures room { line.old.room ≤ line.new.room + node_size }
{
    match node {
        Node::Start => line.put(b"empty"),
        Node::Lower {
            before,
            rule,
            first,
            second,
        } => {
            put_parts(line, side, rule, first, second);
            put_before(line, before);
        }
    }
}

// Writes the line of a node.
fn write_set(line: &mut Line, side: Side, number: u64, node: Node)
    ensures { line.new.text ≡ listings.set_line side number node }
{
    line.clear();
    line.put(b"\n");
    put_node(line, side, node);
    line.put(b" = ");
    put_set(line, number);
    line.put(b"  ");
}

// Writes the line that says which of the sets the answer is.
fn write_answer(line: &mut Line, set: u64)
    ensures { line.new.text ≡ listings.answer_line set }
{
    line.clear();
    line.put(b"\n");
    put_set(line, set);
    line.put(b"  answer ");
}

// Adds the lines of nodes, each written in this one first.
fn add_sets(
    text: &mut Vec<u8>,
    line: &mut Line,
    side: Side,
    nodes: &[Node],
) -> Result<(), OutOfMemory>
    ensures { OnOk result (text.new.items
        ≡ text.old.items ++ listings.set_lines side 0 nodes.now) }
{
    for (number, node) in nodes.iter().enumerate() {
        write_set(line, side, number as u64, *node);
        text.extend_from_slice(line.text())?;
    }
    Ok(())
}

/// Adds the lines of a listing.
pub(crate) fn add_listing(text: &mut Vec<u8>, listing: &Listing) -> Result<(), OutOfMemory>
    ensures { let lines = listings.listing_text listing.now.side listing.now.nodes in
        OnOk result (text.new.items ≡ text.old.items ++ lines) }
{
    let nodes = listing.nodes.as_slice();
    let mut line = Line::new();
    add_sets(text, &mut line, listing.side, nodes)?;
    let last = nodes.len() - 1;
    write_answer(&mut line, last as u64);
    text.extend_from_slice(line.text())?;
    Ok(())
}

/// The lines of a listing: one for each of its nodes, the sets of runs, and last which of them the answer is.
pub fn listing_text(alloc: Global, listing: &Listing) -> Result<String, OutOfMemory>
    ensures { let l = listing.now in
        IfOk result (λ t. string_bytes t ≡ listings.listing_text l.side l.nodes) }
{
    let mut text = Vec::new(alloc);
    add_listing(&mut text, listing)?;
    Ok(String::from_utf8(text).unwrap())
}

/// The line of a query by its number, from 1, and the text of its value.
pub fn query_line(alloc: Global, number: u64, value: &Text) -> Result<Text, OutOfMemory>
    ensures { IfOk result (λ t. t ≡ listings.query_line number value.now) }
{
    let mut line = format!(in alloc; "query {number}: ")?.into_bytes();
    line.extend_from_slice(value.as_bytes())?;
    line.push(b'\n')?;
    Ok(Text::from_vec(line))
}
