use document_forms::WeightsLine;
use rule_reader::{NameTable, RuleRead, Scope, read_rule};
use std::alloc::Global;
use wpds_base::OutOfMemory;
use wpds_port::{Kind, Words};

// A table of names, each of one letter.
fn table<'t>(alloc: Global, letters: &'t [u8]) -> Result<NameTable<'t>, OutOfMemory> {
    let mut table = NameTable::new(alloc);
    for letter in letters.chunks(1) {
        let _ = table.add(letter)?;
    }
    Ok(table)
}

// A rule behind so many others, with the controls `p q`, the symbols `a b` and the variables `x y`
// of a relation.
fn rule(alloc: Global, rules: usize, text: &[u8]) -> Result<Option<RuleRead>, OutOfMemory> {
    let scope = Scope {
        weights: WeightsLine::Relation,
        controls: table(alloc, b"pq")?,
        symbols: table(alloc, b"ab")?,
        items: table(alloc, b"xy")?,
    };
    match Words::of(text) {
        Some(words) => read_rule(alloc, &scope, rules, &words),
        None => Ok(None),
    }
}

// What the rule on a line is; nothing where it is refused or has no form.
fn shown(alloc: Global, rules: usize, text: &[u8]) -> Result<Option<String>, OutOfMemory> {
    match rule(alloc, rules, text)? {
        Some(read) if read.kind.is_none() => Ok(Some(format!(in alloc; "{:?}", read.rule)?)),
        _ => Ok(None),
    }
}

// Whether the rule on each line is refused by this kind; of none, that it has no form.
fn each_is(alloc: Global, lines: &[u8], kind: Option<Kind>) -> Result<bool, OutOfMemory> {
    for line in lines.split(|byte| *byte == b'\n') {
        let read = rule(alloc, 0, line)?;
        let refused = read.is_some();
        let same = read.and_then(|read| read.kind) == kind;
        if !same || refused != kind.is_some() {
            return Ok(false);
        }
    }
    Ok(true)
}

#[test]
fn a_rule_is_read(rt: HostRuntime) -> Result<(), OutOfMemory> {
    let text = b"p a -> q b a : x := y return restore x move y = x";
    let want =
        "RuleLine { control: 0, symbol: 0, to: 1, right: Symbols { held: Two([1, 0]) }, weight: Actions(Sequence { items: [Assign(Sequence { items: [Assignment { variable: 0, value: Is(Expression { held: Var(1) }) }] })] }), map: Some(MapText { restore: Sequence { items: [0] }, moves: Sequence { items: [Move { to: 1, from: 0 }] } }) }";
    let read = shown(rt.alloc(), 129_999, text)?;
    assert!(rt; read.is_some_and(|read| read.as_str() == want));
    assert!(rt; shown(rt.alloc(), 130_000, text)?.is_none());
    Ok(())
}

// Lines of rules, and the kind by which each is refused; of none, that it has no form.
const REFUSED: [(&[u8], Option<Kind>); 5] = [
    (
        b"p a
p a q
p a -> q a b a
p a -> q , a
p a -> q return",
        None,
    ),
    (
        b"r a -> q
p c -> q
p a -> r
p a -> q b c
p a -> q : z := x
p a -> q a b return restore z",
        Some(Kind::Unknown),
    ),
    (
        b"p a -> q a b return restore x x
r a -> q a b return restore x move x = y",
        Some(Kind::Twice),
    ),
    (
        b"p a -> q : 1
p a -> q : x, y := x",
        Some(Kind::WeightText),
    ),
    (b"p a -> q b return plain", Some(Kind::Return)),
];

#[test]
fn rules_are_refused(rt: HostRuntime) -> Result<(), OutOfMemory> {
    for (lines, kind) in REFUSED {
        assert!(rt; each_is(rt.alloc(), lines, kind)?, "by {kind:?}");
    }
    Ok(())
}
