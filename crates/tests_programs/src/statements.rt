//! What is amiss with a statement.

use document_reader::Lines;
use program_lines::{LineText, read_form};
use program_statements::{Scope, read_statement};
use program_tables::read_tables;
use std::alloc::Global;
use wpds_base::OutOfMemory;
use wpds_port::Words;

const PROGRAM: &[u8] =
    b"global a b\nproc f(x, y) returns 2\nL: assert a\nend\nproc g()\nK: skip\nend\n";

const NONE: [bool; 6] = [false; 6];

// What is amiss with a statement below the program's first procedure, by the numbers of kinds: 5, 6,
// 7, 9, 11, 13.
fn faults(alloc: Global, line: &[u8]) -> Result<[bool; 6], OutOfMemory> {
    let (tables, _) = read_tables(alloc, Lines::new(PROGRAM))?;
    let scope = Scope {
        names: tables.globals.copy(alloc)?,
        returns: 2,
    };
    let Some(words) = Words::of(line) else {
        return Ok(NONE);
    };
    let Some(LineText::Statement { statement, .. }) = read_form(alloc, &words)? else {
        return Ok(NONE);
    };
    let Some(read) = read_statement(alloc, &tables, &scope, 1, &statement)? else {
        return Ok(NONE);
    };
    let faults = read.faults;
    Ok([
        faults.twice,
        faults.unknown,
        faults.large,
        faults.deep,
        faults.misfits,
        faults.leaves,
    ])
}

// Statements, and what is amiss with each.
const ROWS: [(&[u8], [bool; 6]); 13] = [
    (b"a, b := b, *", NONE),
    (b"a, a := b, *", [true, false, false, false, false, false]),
    (b"a, c := b, *", [false, true, false, false, false, false]),
    (
        b"a := tab2 16 (a, b)",
        [false, false, true, false, false, false],
    ),
    (b"a := 1, 1", [false, false, false, false, true, false]),
    (b"goto L L", NONE),
    (b"goto K L", [false, false, false, false, false, true]),
    (b"a, b := call f(1, 0)", NONE),
    (
        b"a := call f(1, 0)",
        [false, false, false, false, true, false],
    ),
    (b"call h()", [false, true, false, false, false, false]),
    (b"return 1, 1", NONE),
    (b"return", [false, false, false, false, true, false]),
    (b"while z", [false, true, false, false, false, false]),
];

#[test]
fn faults_are_told(rt: HostRuntime) -> Result<(), OutOfMemory> {
    for (place, (line, wanted)) in ROWS.into_iter().enumerate() {
        assert_eq!(rt; faults(rt.alloc(), line)?, wanted, "at row {place}");
    }
    Ok(())
}
