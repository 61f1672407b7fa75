//! Where lines of a program may stand, and what they declare.

use document_reader::Lines;
use program_tables::{Block, Place, judge, read_tables};
use std::alloc::Global;
use wpds_base::OutOfMemory;
use wpds_port::{Kind, Refusal};

// The lines of a program, one after the other, each with the kind by which it is refused for itself
// or for its place.
const LINES: [(&[u8], Option<Kind>); 36] = [
    (b"local a", Some(Kind::Form)),
    (b"global a", None),
    (b"skip", Some(Kind::Form)),
    (b"else", Some(Kind::Form)),
    (b"end", Some(Kind::Form)),
    (b"proc f(x) returns 25", Some(Kind::Form)),
    (b"proc f(x)", None),
    (b"global b", Some(Kind::Form)),
    (b"query reach L", Some(Kind::Form)),
    (b"local y", None),
    (b"skip skip", Some(Kind::Form)),
    (b"local z", None),
    (b"else", Some(Kind::Form)),
    (b"L: if *", None),
    (b"local w", Some(Kind::Form)),
    (b"while x", None),
    (b"else", Some(Kind::Form)),
    (b"end", None),
    (b"x := \x07", Some(Kind::NotText)),
    (b"else", None),
    (b"else", Some(Kind::Form)),
    (b"end", None),
    (b"x := 1", None),
    (b"end", None),
    (b"end", Some(Kind::Form)),
    (b"skip", Some(Kind::Form)),
    (b"query reach L", None),
    (b"proc g()", None),
    (b"if *", None),
    (b"proc h()", None),
    (b"else", Some(Kind::Form)),
    (b"local w", None),
    (b"end", None),
    (b"local w", Some(Kind::Form)),
    (b"else", Some(Kind::Form)),
    (b"global c", None),
];

// The kind of a line at a place, which goes behind it.
fn kind(alloc: Global, place: &mut Place, line: &[u8]) -> Result<Option<Kind>, OutOfMemory> {
    match judge(alloc, place, line)? {
        Ok(text) => {
            place.advance(&text)?;
            Ok(None)
        }
        Err(kind) => Ok(Some(kind)),
    }
}

#[test]
fn lines_stand_where_they_may(rt: HostRuntime) -> Result<(), OutOfMemory> {
    let mut place = Place::at_top(rt.alloc());
    for (line, wanted) in LINES {
        assert_eq!(rt; kind(rt.alloc(), &mut place, line)?, wanted);
    }
    assert_eq!(rt; place.begun(), 3);
    Ok(())
}

#[test]
fn the_newest_block_is_known(rt: HostRuntime) -> Result<(), OutOfMemory> {
    let rows: [(&[u8], Option<Block>); 8] = [
        (b"proc f()", None),
        (b"while *", Some(Block::While)),
        (b"if *", Some(Block::If)),
        (b"skip", Some(Block::If)),
        (b"else", Some(Block::Else)),
        (b"end", Some(Block::While)),
        (b"end", None),
        (b"end", None),
    ];
    let mut place = Place::at_top(rt.alloc());
    for (line, wanted) in rows {
        assert_eq!(rt; kind(rt.alloc(), &mut place, line)?, None);
        assert_eq!(rt; place.newest(), wanted);
    }
    Ok(())
}

// Lines behind the header. What is refused for itself or for its place declares nothing, and of a
// name that stands twice the first counts.
const PROGRAM: &[u8] = b"global a b a\n\
    proc f(x, y) returns 2\nL: assert a\nif *\nL: skip\nglobal c\nend\n\
    proc f()\nM: goto K\nK: end\nend\nN: skip\n\n# a remark\n\
    proc g(x, x, x) returns 1\nproc h() returns 25\nN: x := 1\nend\nglobal b d\n";

#[test]
fn tables_have_what_stands_first(rt: HostRuntime) -> Result<(), OutOfMemory> {
    let (tables, _) = read_tables(rt.alloc(), Lines::new(PROGRAM))?;
    let globals: [&[u8]; 4] = [b"a", b"b", b"c", b"d"];
    let numbers = [Some(0), Some(1), None, Some(2)];
    assert_eq!(rt; tables.globals.len(), 3);
    assert_eq!(rt; globals.map(|name| tables.globals.number_of(name)), numbers);
    assert_eq!(rt; tables.slots, 2);
    let procs: [(&[u8], Option<(u32, u32, u32)>); 3] = [
        (b"f", Some((0, 2, 2))),
        (b"g", Some((2, 3, 1))),
        (b"h", None),
    ];
    for (name, wanted) in procs {
        let row = tables.proc(name);
        assert_eq!(rt; row.map(|row| (row.place, row.params, row.returns)), wanted);
    }
    let labels: [(&[u8], Option<(u32, u32, bool)>); 4] = [
        (b"L", Some((3, 1, true))),
        (b"M", Some((9, 2, false))),
        (b"K", None),
        (b"N", Some((17, 3, false))),
    ];
    for (name, wanted) in labels {
        let row = tables.label(name);
        assert_eq!(rt; row.map(|row| (row.line, row.begun, row.asserts)), wanted);
    }
    Ok(())
}

#[test]
fn lines_are_kept_up_to_the_first_that_is_refused(rt: HostRuntime) -> Result<(), OutOfMemory> {
    let (_, kept) = read_tables(rt.alloc(), Lines::new(PROGRAM))?;
    assert_eq!(rt; kept.lines.len(), 5);
    assert_eq!(rt; kept.lines.last().map(|line| line.number), Some(5));
    let refused = Refusal {
        line: 6,
        kind: Kind::Form,
    };
    assert_eq!(rt; kept.refused, Some(refused));
    let (_, kept) = read_tables(rt.alloc(), Lines::new(b"global a\n\nproc f()\nend\n"))?;
    assert_eq!(rt; kept.lines.last().map(|line| line.number), Some(4));
    assert_eq!(rt; kept.refused, None);
    Ok(())
}
