//! Which form a line of a program has.

use program_lines::{LineText, StatementText, read_form};
use std::alloc::Global;
use wpds_base::OutOfMemory;
use wpds_port::Words;

// The kind of a line in one word.
fn kind(alloc: Global, line: &[u8]) -> Result<&'static str, OutOfMemory> {
    let Some(words) = Words::of(line) else {
        return Ok("no words");
    };
    let Some(text) = read_form(alloc, &words)? else {
        return Ok("none");
    };
    Ok(match text {
        LineText::Global { .. } => "global",
        LineText::Proc { .. } => "proc",
        LineText::Local { .. } => "local",
        LineText::Statement { statement, .. } => statement_kind(&statement),
        LineText::Else => "else",
        LineText::End => "end",
        LineText::Query { .. } => "query",
    })
}

fn statement_kind(statement: &StatementText) -> &'static str {
    match statement {
        StatementText::Skip => "skip",
        StatementText::Assign { .. } => "assign",
        StatementText::Goto { .. } => "goto",
        StatementText::Assume(_) => "assume",
        StatementText::Assert(_) => "assert",
        StatementText::Call { .. } => "call",
        StatementText::Return { .. } => "return",
        StatementText::If(_) => "if",
        StatementText::While(_) => "while",
    }
}

const ROWS: [(&[u8], &str); 30] = [
    (b"global locked busy", "global"),
    (b"global", "none"),
    (b"global if", "none"),
    (b"global := 1", "assign"),
    (b"proc work(hard)", "proc"),
    (b"proc request() returns 1", "proc"),
    (b"proc f() returns 24", "proc"),
    (b"proc f() returns 25", "none"),
    (b"proc f() returns 0", "none"),
    (b"proc f(a,)", "none"),
    (b"local ok", "local"),
    (b"A1: assert !locked", "assert"),
    (b"locked, busy := 0, tab2 8 (a, b)", "assign"),
    (b"x := y := 1", "none"),
    (b"got := call request()", "call"),
    (b"call acquire()", "call"),
    (b"call f(1, *)", "call"),
    (b"call f(1))", "none"),
    (b"call f(", "none"),
    (b"goto L", "goto"),
    (b"goto", "none"),
    (b"if *", "if"),
    (b"if", "none"),
    (b"K: while x & !y", "while"),
    (b"return b, *", "return"),
    (b"return", "return"),
    (b"L: else", "none"),
    (b"end", "end"),
    (b"query fails A1", "query"),
    (b"if: skip", "none"),
];

#[test]
fn lines_have_their_forms(rt: HostRuntime) -> Result<(), OutOfMemory> {
    for (line, wanted) in ROWS {
        assert_eq!(rt; kind(rt.alloc(), line)?, wanted);
    }
    Ok(())
}
