use document_forms::{ItemText, PatternText, SetText};
use document_reader::{QueryFaults, QueryRead, read_query};
use rule_reader::NameTable;
use std::alloc::Global;
use wpds_base::OutOfMemory;
use wpds_port::Words;

const FINE: QueryFaults = QueryFaults {
    twice: false,
    unknown: false,
    count: false,
};

const TWICE: QueryFaults = QueryFaults {
    twice: true,
    unknown: false,
    count: false,
};

const UNKNOWN: QueryFaults = QueryFaults {
    twice: false,
    unknown: true,
    count: false,
};

const TOO_LARGE: QueryFaults = QueryFaults {
    twice: false,
    unknown: false,
    count: true,
};

// A query over the controls `p q` and the symbols `a b c`, in a document that declares so many
// symbols in all.
fn query(alloc: Global, all: usize, text: &[u8]) -> Result<Option<QueryRead>, OutOfMemory> {
    let mut controls = NameTable::new(alloc);
    for name in [b"p".as_slice(), b"q"] {
        controls.add(name)?;
    }
    let mut symbols = NameTable::new(alloc);
    for name in [b"a".as_slice(), b"b", b"c"] {
        symbols.add(name)?;
    }
    match Words::of(text) {
        Some(words) => read_query(alloc, all, &controls, &symbols, &words),
        None => Ok(None),
    }
}

// What is amiss with a query, where it has its form.
fn faults(alloc: Global, all: usize, text: &[u8]) -> Result<Option<QueryFaults>, OutOfMemory> {
    match query(alloc, all, text)? {
        Some(read) => Ok(Some(read.faults)),
        None => Ok(None),
    }
}

// Whether this is amiss with the query on each of the lines; of none, that it has no form.
fn each_is(alloc: Global, lines: &[u8], answer: Option<QueryFaults>) -> Result<bool, OutOfMemory> {
    for line in lines.split(|byte| *byte == b'\n') {
        if faults(alloc, 3, line)? != answer {
            return Ok(false);
        }
    }
    Ok(true)
}

// Items as they are written, one after another, between `p :` and `=> q :`.
fn many_items(alloc: Global, item: &[u8], count: u32) -> Result<Vec<u8>, OutOfMemory> {
    let mut text = b"p :".to_vec(alloc)?;
    for _ in 0..count {
        text.extend_from_slice(item)?;
    }
    text.extend_from_slice(b"=> q :")?;
    Ok(text)
}

// Adds an item by the numbers of its symbols, as `[1, 0]*`, or by `.` where it is all of them.
fn push_item(alloc: Global, text: &mut String, item: &ItemText) -> Result<(), OutOfMemory> {
    match &item.set {
        SetText::All => text.push_str(" .")?,
        SetText::Listed(symbols) => {
            let numbers = format!(in alloc; " {:?}", symbols.as_slice())?;
            text.push_str(numbers.as_str())?;
        }
    }
    if item.star {
        text.push('*')?;
    }
    Ok(())
}

// A pattern by its numbers, as `1 : . [1, 0]*`.
fn written(alloc: Global, pattern: &PatternText) -> Result<String, OutOfMemory> {
    let mut text = format!(in alloc; "{} :", pattern.control)?;
    for item in pattern.items.as_slice() {
        push_item(alloc, &mut text, item)?;
    }
    Ok(text)
}

// Whether nothing is amiss with a query, and its two patterns have these numbers.
fn reads_as(alloc: Global, text: &[u8], from: &str, to: &str) -> Result<bool, OutOfMemory> {
    let Some(read) = query(alloc, 3, text)? else {
        return Ok(false);
    };
    let same_from = written(alloc, &read.query.from)?.as_str() == from;
    let same_to = written(alloc, &read.query.to)?.as_str() == to;
    Ok(read.faults == FINE && same_from && same_to)
}

// A query with each kind of item, and one whose sides have their own items.
const READ: [(&[u8], &str, &str); 2] = [
    (
        b"q : . b {c} {b a} .* a* {c}* { b c a } * => p :",
        "1 : . [1] [2] [1, 0] .* [0]* [2]* [1, 2, 0]*",
        "0 :",
    ),
    (b"p:a=>q:.*b", "0 : [0]", "1 : .* [1]"),
];

#[test]
fn queries_have_their_items(rt: HostRuntime) -> Result<(), OutOfMemory> {
    for (text, from, to) in READ {
        assert!(rt; reads_as(rt.alloc(), text, from, to)?, "{from} to {to}");
    }
    Ok(())
}

const TWICE_AND_UNKNOWN: QueryFaults = QueryFaults {
    twice: true,
    unknown: true,
    count: false,
};

// Lines of queries, and what is amiss with each; of none, that it has no form.
const AMISS: [(&[u8], Option<QueryFaults>); 5] = [
    (
        b"p : => q : { }
p : => q : { } *
p : a * * => q :
p : * a => q :
p : { a => q :
p : a } => q :
p : { * } => q :
p : { a . } => q :
p : { { a } } => q :
p : a , b => q :
p : 7 => q :
p : p : => q :
p => q :
: a => q :
p : a q : b
p : => q : => q :
p : =>
",
        None,
    ),
    // a symbol twice in a set
    (
        b"p : { a b a } => q :
p : => q : a { c c } *
p : { a b c b } { a } => q : a",
        Some(TWICE),
    ),
    // in two sets it may stand once in each
    (b"p : a { a b } => q : { b a } a", Some(FINE)),
    (
        b"r : => q :
p : => r :
a : => q :
p : d => q :
p : => q : { a d }
p : { d } { d } => q : d",
        Some(UNKNOWN),
    ),
    // one that is not declared, twice in a set, is both
    (b"p : { d a d } => q :", Some(TWICE_AND_UNKNOWN)),
];

#[test]
fn what_is_amiss_is_told(rt: HostRuntime) -> Result<(), OutOfMemory> {
    for (lines, answer) in AMISS {
        assert!(rt; each_is(rt.alloc(), lines, answer)?, "at {answer:?}");
    }
    Ok(())
}

const TWICE_AND_TOO_LARGE: QueryFaults = QueryFaults {
    twice: true,
    unknown: false,
    count: true,
};

// An item so many times, and what is amiss then. What stands behind too many items is read all the same.
const MANY: [(&[u8], u32, Option<QueryFaults>); 4] = [
    (b" a", 1_000, Some(FINE)),
    (b" a", 1_001, Some(TOO_LARGE)),
    (b" a* *", 1_001, None),
    (b" {a a}", 1_001, Some(TWICE_AND_TOO_LARGE)),
];

#[test]
fn as_many_items_as_there_may_be(rt: HostRuntime) -> Result<(), OutOfMemory> {
    for (item, count, answer) in MANY {
        let text = many_items(rt.alloc(), item, count)?;
        assert!(rt; each_is(rt.alloc(), &text, answer)?, "at {answer:?}");
    }
    Ok(())
}

// Whether a query is too large where the document declares one symbol more than this, and fine
// where it declares so many.
fn turns_large(alloc: Global, text: &[u8], all: usize) -> Result<bool, OutOfMemory> {
    let fine = faults(alloc, all, text)? == Some(FINE);
    Ok(fine && faults(alloc, all.saturating_add(1), text)? == Some(TOO_LARGE))
}

const EDGES: [(&[u8], usize); 4] = [
    (b"p : . => q :", 1_000_000),
    (b"p : . a => q :", 999_999),
    (b"p : a* . => q :", 499_999),
    (b"p : => q : .* b .", 333_332),
];

#[test]
fn as_many_edges_as_there_may_be(rt: HostRuntime) -> Result<(), OutOfMemory> {
    for (text, all) in EDGES {
        assert!(rt; turns_large(rt.alloc(), text, all)?, "at {all} symbols");
    }
    // more than a word counts
    let far = faults(rt.alloc(), usize::MAX, b"p : .* .* => q :")?;
    assert!(rt; far == Some(TOO_LARGE));
    Ok(())
}
