//! Programs at the limits of the language, and past them.

use crate::reading::refusal;
use std::alloc::Global;
use wpds_base::OutOfMemory;

/// Pieces of text that stand so many times each, one behind the other; and the line and the number of
/// the kind by which the whole is refused, where it is.
struct Row {
    pieces: &'static [(&'static str, u32)],
    refused: Option<(u64, u32)>,
}

// Puts a text so many times behind another.
fn add(document: &mut String, piece: &str, count: u32) -> Result<(), OutOfMemory> {
    for _ in 0..count {
        document.push_str(piece)?;
    }
    Ok(())
}

// The text of a row.
fn text_of(alloc: Global, row: &Row) -> Result<String, OutOfMemory> {
    let mut document = String::new(alloc);
    for (piece, count) in row.pieces {
        add(&mut document, piece, *count)?;
    }
    Ok(document)
}

// The number, from 1, of the first of the rows that is not right.
fn first_wrong(alloc: Global, rows: &[Row]) -> Result<Option<usize>, OutOfMemory> {
    for (place, row) in rows.iter().enumerate() {
        let text = text_of(alloc, row)?;
        if refusal(alloc, text.as_bytes())? != row.refused {
            return Ok(Some(place.saturating_add(1)));
        }
    }
    Ok(None)
}

// 45 bytes
const WHOLE: &str = "bool 1\nproc main()\nL: skip\nend\nquery reach L\n";

// 64 bytes
const REMARK: &str = "################################################################";

// The limit is 4,194,304 bytes.
const BYTES: [Row; 5] = [
    Row {
        pieces: &[(WHOLE, 1), (REMARK, 65_535), ("#", 19)],
        refused: None,
    },
    Row {
        pieces: &[(WHOLE, 1), (REMARK, 65_535), ("#", 20)],
        refused: Some((0, 1)),
    },
    // the line feed counts
    Row {
        pieces: &[(WHOLE, 1), (REMARK, 65_535), ("#", 18), ("\n", 1)],
        refused: None,
    },
    Row {
        pieces: &[(WHOLE, 1), (REMARK, 65_535), ("#", 19), ("\n", 1)],
        refused: Some((0, 1)),
    },
    // a text that is too long is refused before its lines are
    Row {
        pieces: &[("wpds 2\n", 1), (REMARK, 65_536)],
        refused: Some((0, 1)),
    },
];

// The first body line is on line 3.
const HEAD: &str = "bool 1\nproc main()\nL: skip\n";

const TAIL: &str = "end\nquery reach L\n";

// The limit is 40,000 body lines and asserts together.
const POINTS: [Row; 9] = [
    Row {
        pieces: &[(HEAD, 1), ("skip\n", 39_998), (TAIL, 1)],
        refused: None,
    },
    Row {
        pieces: &[(HEAD, 1), ("skip\n", 39_999), (TAIL, 1)],
        refused: Some((40_003, 9)),
    },
    Row {
        pieces: &[(HEAD, 1), ("skip\n", 39_999), ("skip\n", 1), (TAIL, 1)],
        refused: Some((40_003, 9)),
    },
    // an assert is two of them
    Row {
        pieces: &[(HEAD, 1), ("assert 1\n", 19_999), (TAIL, 1)],
        refused: None,
    },
    Row {
        pieces: &[(HEAD, 1), ("assert 1\n", 20_000), (TAIL, 1)],
        refused: Some((20_003, 9)),
    },
    // an earlier kind of the line that passes the limit, and a later one
    Row {
        pieces: &[(HEAD, 1), ("skip\n", 39_999), ("x := 1\n", 1), (TAIL, 1)],
        refused: Some((40_003, 6)),
    },
    Row {
        pieces: &[(HEAD, 1), ("skip\n", 39_999), ("return 1\n", 1), (TAIL, 1)],
        refused: Some((40_003, 9)),
    },
    // those of all procedures count, also of one that is never called
    Row {
        pieces: &[
            ("bool 1\nproc f()\n", 1),
            ("skip\n", 19_999),
            ("end\nproc main()\nL: skip\n", 1),
            ("skip\n", 19_998),
            (TAIL, 1),
        ],
        refused: None,
    },
    Row {
        pieces: &[
            ("bool 1\nproc f()\n", 1),
            ("skip\n", 19_999),
            ("end\nproc main()\nL: skip\n", 1),
            ("skip\n", 19_999),
            (TAIL, 1),
        ],
        refused: Some((40_004, 9)),
    },
];

// Blocks nest as deep as body lines allow.
const BLOCKS: [Row; 4] = [
    Row {
        pieces: &[
            (HEAD, 1),
            ("while *\n", 19_999),
            ("end\n", 19_999),
            (TAIL, 1),
        ],
        refused: None,
    },
    Row {
        pieces: &[(HEAD, 1), ("if *\n", 19_999), ("end\n", 19_999), (TAIL, 1)],
        refused: None,
    },
    // an `end` is missing, and one is too many
    Row {
        pieces: &[(HEAD, 1), ("if *\n", 19_999), ("end\n", 19_999)],
        refused: Some((40_002, 4)),
    },
    Row {
        pieces: &[
            (HEAD, 1),
            ("while *\n", 19_998),
            ("end\n", 20_000),
            (TAIL, 1),
        ],
        refused: Some((40_001, 4)),
    },
];

const WAYS: &str = "bool 1\nproc main()\nL: assert 1\nif *\nwhile *\nend\nend\ngoto";

// The limit is 130,000 rules, one for each way that a line may go on.
const RULES: [Row; 7] = [
    Row {
        pieces: &[
            (HEAD, 1),
            ("goto", 1),
            (" L", 129_998),
            ("\n", 1),
            (TAIL, 1),
        ],
        refused: None,
    },
    Row {
        pieces: &[
            (HEAD, 1),
            ("goto", 1),
            (" L", 129_999),
            ("\n", 1),
            (TAIL, 1),
        ],
        refused: Some((5, 9)),
    },
    Row {
        pieces: &[
            (HEAD, 1),
            ("goto", 1),
            (" L", 130_000),
            ("\n", 1),
            (TAIL, 1),
        ],
        refused: Some((4, 9)),
    },
    // 13 each
    Row {
        pieces: &[
            (HEAD, 1),
            ("goto L L L L L L L L L L L L L\n", 9_999),
            ("goto L L L L L L L L L L L\n", 1),
            (TAIL, 1),
        ],
        refused: None,
    },
    Row {
        pieces: &[
            (HEAD, 1),
            ("goto L L L L L L L L L L L L L\n", 10_000),
            (TAIL, 1),
        ],
        refused: Some((10_003, 9)),
    },
    // two of an assert and of a condition, and one of an `end`
    Row {
        pieces: &[(WAYS, 1), (" L", 129_991), ("\n", 1), (TAIL, 1)],
        refused: None,
    },
    Row {
        pieces: &[(WAYS, 1), (" L", 129_992), ("\n", 1), (TAIL, 1)],
        refused: Some((9, 9)),
    },
];

// The first query is on line 5.
const ASKED: &str = "bool 1\nproc main()\nL: skip\nend\n";

const QUERIES: [Row; 5] = [
    Row {
        pieces: &[(ASKED, 1), ("query reach L\n", 1_000)],
        refused: None,
    },
    Row {
        pieces: &[(ASKED, 1), ("query reach L\n", 1_001)],
        refused: Some((1_005, 9)),
    },
    // lines between them do not count
    Row {
        pieces: &[
            (ASKED, 1),
            ("query reach L\n", 500),
            ("proc f()\nK: assert 1\nend\nglobal a\n", 1),
            ("query fails K\n", 500),
        ],
        refused: None,
    },
    // an earlier kind of the line that passes the limit, and a later one
    Row {
        pieces: &[
            (ASKED, 1),
            ("query reach L\n", 1_000),
            ("query reach K\n", 1),
        ],
        refused: Some((1_005, 6)),
    },
    Row {
        pieces: &[
            (ASKED, 1),
            ("query reach L\n", 1_000),
            ("query fails L\n", 1),
        ],
        refused: Some((1_005, 9)),
    },
];

const LOCAL: &str = "bool 1\nproc main()\nlocal x\nL: assume ";

// An expression is 64 deep at most, where a variable is one deep.
const DEPTHS: [Row; 6] = [
    Row {
        pieces: &[
            (LOCAL, 1),
            ("(", 63),
            ("x", 1),
            (")", 63),
            ("\n", 1),
            (TAIL, 1),
        ],
        refused: None,
    },
    Row {
        pieces: &[
            (LOCAL, 1),
            ("(", 64),
            ("x", 1),
            (")", 64),
            ("\n", 1),
            (TAIL, 1),
        ],
        refused: Some((4, 9)),
    },
    Row {
        pieces: &[(LOCAL, 1), ("!", 63), ("x\n", 1), (TAIL, 1)],
        refused: None,
    },
    Row {
        pieces: &[(LOCAL, 1), ("!", 64), ("x\n", 1), (TAIL, 1)],
        refused: Some((4, 9)),
    },
    Row {
        pieces: &[
            (LOCAL, 1),
            ("tab2 8 (x, ", 63),
            ("x", 1),
            (")", 63),
            ("\n", 1),
            (TAIL, 1),
        ],
        refused: None,
    },
    Row {
        pieces: &[
            (LOCAL, 1),
            ("tab2 8 (x, ", 64),
            ("x", 1),
            (")", 64),
            ("\n", 1),
            (TAIL, 1),
        ],
        refused: Some((4, 9)),
    },
];

// A name has 64 bytes at most.
const NAMES: [Row; 3] = [
    Row {
        pieces: &[
            ("bool 1\nproc main()\n", 1),
            ("L", 64),
            (": skip\nend\nquery reach ", 1),
            ("L", 64),
        ],
        refused: None,
    },
    Row {
        pieces: &[
            ("bool 1\nproc main()\n", 1),
            ("L", 65),
            (": skip\nend\nquery reach ", 1),
            ("L", 65),
        ],
        refused: Some((3, 4)),
    },
    Row {
        pieces: &[
            ("bool 1\nproc main()\n", 1),
            ("L", 64),
            (": skip\nend\nquery reach ", 1),
            ("L", 63),
        ],
        refused: Some((5, 6)),
    },
];

#[test]
fn bytes(rt: HostRuntime) -> Result<(), OutOfMemory> {
    assert_eq!(rt; first_wrong(rt.alloc(), &BYTES)?, None);
    Ok(())
}

#[test]
fn lines(rt: HostRuntime) -> Result<(), OutOfMemory> {
    assert_eq!(rt; first_wrong(rt.alloc(), &POINTS)?, None);
    assert_eq!(rt; first_wrong(rt.alloc(), &BLOCKS)?, None);
    Ok(())
}

#[test]
fn what_lines_have(rt: HostRuntime) -> Result<(), OutOfMemory> {
    assert_eq!(rt; first_wrong(rt.alloc(), &RULES)?, None);
    assert_eq!(rt; first_wrong(rt.alloc(), &QUERIES)?, None);
    assert_eq!(rt; first_wrong(rt.alloc(), &DEPTHS)?, None);
    assert_eq!(rt; first_wrong(rt.alloc(), &NAMES)?, None);
    Ok(())
}
