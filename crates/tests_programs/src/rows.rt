//! Small texts, and how they are refused.

use crate::reading::refusal;
use std::alloc::Global;
use wpds_base::OutOfMemory;

// A row as a text, in which a line ends at each `/`.
fn text_of(alloc: Global, row: &[u8]) -> Result<Vec<u8>, OutOfMemory> {
    let mut text = Vec::new(alloc);
    for byte in row {
        text.push(if *byte == b'/' { b'\n' } else { *byte })?;
    }
    Ok(text)
}

// Texts with the line and the number of the kind by which they are refused; 0 where they are not.
const ROWS: [(&[u8], u64, u32); 94] = [
    // What each rule of a line refuses.
    (
        b"bool 1/proc main()/call f(1)/end/proc f()/skip/end/query reach L",
        3,
        11,
    ),
    (
        b"bool 1/global a0 a1 a2 a3 a4 a5 a6 a7 a8 a9 a10 a11 a12 a13 a14 a15 a16 a17 a18 a19 a20 a21 a22 a23 a24/proc main()",
        3,
        12,
    ),
    (
        b"bool 1/proc main()/goto L/end/proc f()/L: skip/end/query reach L",
        3,
        13,
    ),
    (b"bool 1/proc main()/L: skip/end/query fails L", 5, 13),
    (b"bool 1/proc main(a)/end", 2, 11),
    (b"bool 1/proc main() returns 1/end", 2, 11),
    (b"bool 1/global a b/proc main()/a, b := 1/end", 4, 11),
    (b"bool 1/global a b/proc main()/a, a := 1/end", 4, 5),
    (b"bool 1/proc main()/skip := 1/end", 3, 6),
    (
        b"bool 1/global a/proc main()/assume tab2 16 (a, a)/end",
        4,
        7,
    ),
    (
        b"bool 1/global a/proc main()/assume tab2 16 (a, b)/end",
        4,
        6,
    ),
    (
        b"bool 1/global a/proc main()/assume ((((((((((((((((((((((((((((((((((((((((((((((((((((((((((((((((a))))))))))))))))))))))))))))))))))))))))))))))))))))))))))))))))/end",
        4,
        9,
    ),
    (
        b"bool 1/proc main()/call f()/fails: skip/end/query fails reach",
        3,
        6,
    ),
    (b"bool 1/proc main()/skip\x07", 3, 2),
    (b"", 1, 3),
    (b"wpds 2", 1, 3),
    (b"bool 1/\r", 3, 6),
    (b"bool 1/proc main()/return 1", 3, 11),
    (
        b"bool 1/proc f()/end/proc main()/local x/x := call f()",
        6,
        11,
    ),
    (
        b"bool 1/proc f() returns 2/end/proc main()/local x/x := call f()",
        6,
        11,
    ),
    (
        b"bool 1/proc f() returns 2/end/proc main()/L: call f()/end/query reach L",
        0,
        0,
    ),
    (b"bool 1/proc main()/x := 1, 1", 3, 6),
    (b"bool 1/proc main()/L: skip/L: x, x := 1", 4, 5),
    (b"bool 1/proc main()/goto L K/end/proc f()/L: skip", 3, 6),
    (b"# first//bool 1 # x", 3, 3),
    (b"bool 2", 1, 3),
    (b"bool 1/proc main()/query reach L", 3, 4),
    (b"bool 1/proc main()/global a", 3, 4),
    (b"bool 1/local a", 2, 4),
    // What is missing behind the last line: an `end` before `main`, and that before a query.
    (b"bool 1/proc main()/while *", 4, 4),
    (b"bool 1/proc main()/end", 4, 10),
    (b"bool 1/query reach L", 2, 6),
    (
        b"bool 1/proc f()/skip/proc main()/L: skip/end/query reach L",
        8,
        4,
    ),
    (b"bool 1/proc f()/skip", 4, 4),
    (b"bool 1/proc f()/end", 4, 6),
    (b"bool 1\r/proc main()\r/end\r/", 4, 10),
    (b"bool 1", 2, 6),
    // Blocks.
    (b"bool 1/else", 2, 4),
    (b"bool 1/proc main()/end/end", 4, 4),
    (b"bool 1/proc main()/if */else/else/end/end", 5, 4),
    (b"bool 1/proc main()/while */else/end/end", 4, 4),
    (
        b"bool 1/proc main()/goto L/if/end/L: skip/end/query reach L",
        3,
        6,
    ),
    (b"bool 1/if *", 2, 4),
    (b"bool 1/while *", 2, 4),
    (b"bool 1/end", 2, 4),
    (b"bool 1/skip", 2, 4),
    (b"bool 1/proc main()/else", 3, 4),
    (b"bool 1/proc main()/end/else", 4, 4),
    (b"bool 1/proc main()/if */end/else", 5, 4),
    (b"bool 1/proc main()/if */while */else", 5, 4),
    (b"bool 1/proc main()/if */while */end/else/end/L: end", 8, 4),
    (b"bool 1/proc main()/if */proc f()/else", 5, 4),
    // The whole text is read before a name is refused. A line with a kind from 5 on declares its names.
    (
        b"bool 1/proc main()/call loop()/L: skip/end/proc loop()/call loop()/end/query reach L",
        0,
        0,
    ),
    (
        b"bool 1/proc main()/g := 1/call f()/goto L/L: skip/end/proc f()/end/global g/query reach L",
        0,
        0,
    ),
    (b"bool 1/proc main()/goto L/end/L: skip/query reach L", 3, 6),
    (b"bool 1/proc main()/c := 1/end/global a/global c a", 6, 5),
    (b"bool 1/proc main()/call f(1, 1)/end/proc f(a, a)", 5, 5),
    (b"bool 1/proc main()/call f()/end/proc f(a, a)", 3, 11),
    (b"bool 1/proc main()/goto L/L: x := 1", 4, 6),
    (b"bool 1/proc main()/goto L/L: x :=", 3, 6),
    // Labels.
    (b"bool 1/proc main()/if */L: else/end/end", 4, 4),
    (b"bool 1/proc main()/L: end", 3, 4),
    (
        b"bool 1/proc main()/L: if */end/K: while L | 0/end/end/query reach K",
        5,
        6,
    ),
    (
        b"bool 1/proc main()/L: goto L L/call main()/return/skip/end/query reach L",
        0,
        0,
    ),
    // Locals.
    (
        b"bool 1/global g/proc main()/  local x/  assume !g & !x/  x := 1/  g := call f(x)/  OUT: assert !g/end/proc f(a) returns 1/  return a/end/query fails OUT",
        0,
        0,
    ),
    (
        b"bool 1/proc main()/# x//local x/ # y/local y/L: x, y := y, x/end/query reach L",
        0,
        0,
    ),
    (b"bool 1/proc main()/skip/local x", 4, 4),
    // An `end` is a body line.
    (
        b"bool 1/proc main()/end/query reach L/proc f()/L: call main()/end",
        0,
        0,
    ),
    // Three classes of names. The later of two is refused, and uses mean the first.
    (
        b"bool 1/global a/proc a()/a: a := 0/end/proc main()/local main/a2: main := a/end/query reach a",
        0,
        0,
    ),
    (
        b"bool 1/proc main()/L: skip/L: skip/end/query reach L",
        4,
        5,
    ),
    (
        b"bool 1/global a b/global c a/proc main()/L: skip/end/query reach L",
        3,
        5,
    ),
    (
        b"bool 1/proc f(a)/L: skip/end/global a/proc main()/end/query reach L",
        2,
        5,
    ),
    (
        b"bool 1/proc main()/local b a/L: skip/end/global a/query reach L",
        3,
        5,
    ),
    (b"bool 1/proc f(a)/local a/end", 3, 5),
    (b"bool 1/proc f(a, a)/end", 2, 5),
    (
        b"bool 1/proc main()/call f(1)/end/proc f(a)/end/proc f()/end",
        7,
        5,
    ),
    (
        b"bool 1/proc main()/call f()/end/proc f(a)/end/proc f()/end",
        3,
        11,
    ),
    (
        b"bool 1/proc main()/goto L/L: skip/end/proc f()/L: skip",
        7,
        5,
    ),
    (
        b"bool 1/proc main()/local L/L: L := L/end/query reach L",
        0,
        0,
    ),
    // Names, return slots and globals are 24 at most.
    (
        b"bool 1/global a0 a1 a2 a3 a4 a5 a6 a7 a8 a9 a10 a11 a12 a13 a14 a15 a16 a17 a18 a19/proc main()/local x/L: skip/end/proc f() returns 4/end/query reach L",
        4,
        12,
    ),
    (
        b"bool 1/global a0 a1 a2 a3 a4 a5 a6 a7 a8 a9 a10 a11 a12 a13 a14 a15 a16 a17 a18 a19/proc main()/local x/L: skip/end/proc f() returns 3/end/query reach L",
        0,
        0,
    ),
    (
        b"bool 1/proc main()/local a0 a1 a2 a3 a4 a5 a6 a7 a8 a9 a10 a11 a12 a13 a14 a15 a16 a17 a18 a19 a20 a21 a22 a23/local x",
        4,
        12,
    ),
    (b"bool 1/proc f() returns 0/end", 2, 4),
    (b"bool 1/proc f() returns 25/skip", 2, 4),
    (b"bool 1/proc f() returns 24/L: end/end", 3, 4),
    (
        b"bool 1/global a0 a1 a2 a3 a4 a5 a6 a7 a8 a9 a10 a11 a12 a13 a14 a15 a16 a17 a18 a19 a20 a21 a22 a23/proc main()/L: skip/end/query reach L",
        0,
        0,
    ),
    (
        b"bool 1/proc main()/L: skip/end/proc f(a0, a1, a2, a3, a4, a5, a6, a7, a8, a9, a10, a11, a12, a13, a14, a15, a16, a17, a18, a19, a20, a21, a22, a23)/end/query reach L",
        0,
        0,
    ),
    (
        b"bool 1/proc f(a0, a1, a2, a3, a4, a5, a6, a7, a8, a9, a10, a11, a12, a13, a14, a15, a16, a17, a18, a19, a20, a21, a22, a23, a24)",
        2,
        12,
    ),
    (
        b"bool 1/proc f() returns 24/end/proc main()/L: skip/end/query reach L",
        0,
        0,
    ),
    (b"bool 1/proc f(a) returns 24", 2, 12),
    (
        b"bool 1/global a/proc main()/end/proc f() returns 24",
        3,
        12,
    ),
    // `*` stands for a whole value.
    (b"bool 1/proc main()/local x/x := * & x/end", 4, 4),
    (b"bool 1/proc main()/assume */end", 3, 4),
    (
        b"bool 1/proc f(a, b) returns 2/return b, */end/proc main()/local x y/L: y, x := call f(*, (x) => !y)/while */end/end/query reach L",
        0,
        0,
    ),
];

// Where lines may stand, with the kind of the first that may not.
const PLACES: [(&[u8], u64, u32); 24] = [
    (b"bool 1/bool 1", 2, 4),
    (b"bool 1/global a # x", 2, 4),
    (
        b"bool 1/# \x07\xff/proc main()/L: skip/end/query reach L",
        0,
        0,
    ),
    // A line of no form, or in a place where it may not stand, declares nothing.
    (b"bool 1/proc main()/g := 1/global g/end", 3, 6),
    (
        b"bool 1/proc main()/call f()/end/proc f() returns 0/end",
        3,
        6,
    ),
    (
        b"bool 1/proc main()/goto L/end/proc f() returns 25/L: skip/end",
        3,
        6,
    ),
    // A procedure begins anywhere, and an `end` is its own.
    (
        b"bool 1/proc f()/while */proc main()/L: skip/end/query reach L",
        8,
        4,
    ),
    (b"bool 1/proc f()/while */proc main()/L: skip/end/end", 7, 4),
    // `else` and `end` that fit nothing, and some that fit.
    (b"bool 1/proc main()/local x/else", 4, 4),
    (b"bool 1/proc main()/skip/else", 4, 4),
    (b"bool 1/proc main()/if */else/while */else", 6, 4),
    (b"bool 1/proc main()/if */else/end/else", 6, 4),
    (b"bool 1/proc main()/L: skip/end/query reach L/else", 6, 4),
    (b"bool 1/proc main()/L: skip/end/query reach L/end", 6, 4),
    (b"bool 1/proc main()/while */end/end/global a/end", 7, 4),
    (
        b"bool 1/proc main()/if */if */else/end/else/if */else/end/end/L: skip/end/query reach L",
        0,
        0,
    ),
    // Lines inside blocks.
    (b"bool 1/proc main()/while */query reach L", 4, 4),
    (b"bool 1/proc main()/if */else/global a", 5, 4),
    (b"bool 1/proc main()/while */local x", 4, 4),
    (b"bool 1/proc main()/while */end/local x", 5, 4),
    // Lines outside procedures.
    (b"bool 1/proc main()/end/local x", 4, 4),
    (b"bool 1/global a/local x", 3, 4),
    (b"bool 1/proc main()/end/L: goto L", 4, 4),
    (b"bool 1/proc main()/L: skip/end/query reach L/return", 6, 4),
];

// Names that are looked up, of which the first counts.
const NAMES: [(&[u8], u64, u32); 17] = [
    (
        b"bool 1/proc f()/L: skip/end/proc main()/goto L/L: skip/end",
        6,
        13,
    ),
    (
        b"bool 1/query fails L/proc main()/L: skip/L: assert 1/end",
        2,
        13,
    ),
    (
        b"bool 1/query fails L/proc main()/L: assert 1/L: skip/end",
        5,
        5,
    ),
    (
        b"bool 1/query fails L/query reach L/proc main()/L: assert 0/end",
        0,
        0,
    ),
    (
        b"bool 1/proc main()/goto L/while */L: skip/end/end/query reach L",
        0,
        0,
    ),
    (b"bool 1/proc main()/goto f/end/proc f()/end", 3, 6),
    (b"bool 1/proc main()/L: skip/call L()/end", 4, 6),
    (b"bool 1/proc main()/local x/end/proc f()/x := 1/end", 6, 6),
    (b"bool 1/proc main()/L: skip/assume L/end", 4, 6),
    // A reserved word is a name that is not declared, where a name may stand.
    (b"bool 1/proc main()/goto if/end", 3, 6),
    (b"bool 1/proc main()/call while()/end", 3, 6),
    (b"bool 1/proc main()/end/query reach goto", 4, 6),
    (b"bool 1/proc main()/assume one/end", 3, 6),
    (b"bool 1/global x/proc main()/x := return/end", 4, 4),
    (b"bool 1/proc main()/assume tab2/end", 3, 4),
    (b"bool 1/global skip", 2, 4),
    // Others can be declared.
    (
        b"bool 1/global bool wpds weights rule controls/proc main()/reach: bool := wpds/end/query reach reach",
        0,
        0,
    ),
];

// How wide procedures are. A global that stands twice counts once, and what lines declare counts where
// they are refused for it.
const WIDTHS: [(&[u8], u64, u32); 8] = [
    (
        b"bool 1/proc main()/end/global a0 a1 a2 a3 a4 a5 a6 a7 a8 a9 a10 a11 a12 a13 a14 a15 a16 a17 a18 a19 a20 a21 a22 a23/global a0",
        5,
        5,
    ),
    (
        b"bool 1/proc main()/end/global a0 a1 a2 a3 a4 a5 a6 a7 a8 a9 a10 a11 a12 a13 a14 a15 a16 a17 a18 a19 a20 a21 a22 a23/global a24 a0",
        2,
        12,
    ),
    (
        b"bool 1/proc main()/local x/L: skip/end/proc f(a, a) returns 24/end/query reach L",
        3,
        12,
    ),
    (
        b"bool 1/proc main()/local x/L: skip/end/proc f() returns 25/query reach L",
        6,
        4,
    ),
    (b"bool 1/proc f(a)/end/proc main() returns 24", 2, 12),
    (
        b"bool 1/global a0 a1 a2 a3 a4 a5 a6 a7 a8 a9 a10 a11 a12 a13 a14 a15 a16 a17 a18 a19/proc f(b, c)/local d e/local g/end",
        5,
        12,
    ),
    (
        b"bool 1/global a0 a1 a2 a3 a4 a5 a6 a7 a8 a9 a10 a11 a12 a13 a14 a15 a16 a17 a18 a19/proc f(b, c) returns 1/local d e/local g/end",
        4,
        12,
    ),
    (
        b"bool 1/global a0 a1 a2 a3 a4 a5 a6 a7 a8 a9 a10 a11 a12 a13 a14 a15 a16 a17 a18 a19/proc f(b) returns 1/local d e/L: skip/end/proc main()/end/query reach L",
        0,
        0,
    ),
];

// `*` stands for a whole value or a whole condition, and nowhere else.
const STARS: [(&[u8], u64, u32); 9] = [
    (b"bool 1/proc main()/if (*)/end/end", 3, 4),
    (b"bool 1/proc main()/while !*/end/end", 3, 4),
    (b"bool 1/proc main()/assert */end", 3, 4),
    (b"bool 1/proc main()/call f(!*)/end", 3, 4),
    (b"bool 1/proc main()/call f(* *)/end", 3, 4),
    (b"bool 1/proc main()/* := 1/end", 3, 4),
    (b"bool 1/proc main()/goto */end", 3, 4),
    (b"bool 1/proc main()/return *, 1/end", 3, 11),
    (
        b"bool 1/proc f(a) returns 1/return */end/proc main()/local x/if */x := call f(*)/else/x := */end/while */L: skip/end/end/query reach L",
        0,
        0,
    ),
];

// The number, from 1, of the first of the rows that is not right.
fn first_wrong(alloc: Global, rows: &[(&[u8], u64, u32)]) -> Result<Option<usize>, OutOfMemory> {
    for (place, (row, line, kind)) in rows.iter().enumerate() {
        let wanted = if *kind == 0 {
            None
        } else {
            Some((*line, *kind))
        };
        let text = text_of(alloc, row)?;
        if refusal(alloc, &text)? != wanted {
            return Ok(Some(place.saturating_add(1)));
        }
    }
    Ok(None)
}

#[test]
fn texts_are_programs_or_refused(rt: HostRuntime) -> Result<(), OutOfMemory> {
    for (what, rows) in [
        ("texts", ROWS.as_slice()),
        ("places", &PLACES),
        ("names", &NAMES),
        ("widths", &WIDTHS),
        ("stars", &STARS),
    ] {
        assert_eq!(rt; first_wrong(rt.alloc(), rows)?, None, "among {what}");
    }
    Ok(())
}
