use std::alloc::Global;
use std::process::Abort;
use std::test::Fail;
use truth_tables::{
    Expr, ExprRead, Part, Postfix, eval, instance2, instance3, is_variable, read_expr, value2,
    value3,
};
use wpds_base::OutOfMemory;
use wpds_port::{Lexeme, Mark, Words};

// Each operator by its table, in front of its operands in brackets.
fn show(expr: &Expr, names: &[&[u8]], alloc: Global) -> Result<String, OutOfMemory> {
    Ok(match expr {
        Expr::Const(value) => String::from_str(alloc, if *value { "1" } else { "0" })?,
        Expr::Var(place) => {
            let name = names.get(*place as usize).copied().unwrap_or(b"?");
            String::from_utf8_lossy(alloc, name)?
        }
        Expr::Not(inner) => {
            let inner = show(inner, names, alloc)?;
            format!(in alloc; "!{inner}")?
        }
        Expr::Two { table, left, right } => {
            let left = show(left, names, alloc)?;
            let right = show(right, names, alloc)?;
            format!(in alloc; "{table}({left},{right})")?
        }
        Expr::Three { table, a, b, c } => {
            let a = show(a, names, alloc)?;
            let b = show(b, names, alloc)?;
            let c = show(c, names, alloc)?;
            format!(in alloc; "{table}({a},{b},{c})")?
        }
    })
}

// The variables among words.
fn variables_among<'t>(alloc: Global, words: &Words<'t>) -> Result<Vec<&'t [u8]>, OutOfMemory> {
    let mut names = Vec::new(alloc);
    let mut left = words.reborrow();
    while let Some((lexeme, rest)) = left.split_first() {
        if is_variable(lexeme) {
            names.push(lexeme.text())?;
        }
        left = rest;
    }
    Ok(names)
}

// The expression that was read from words.
fn shown(alloc: Global, words: &Words, parts: &Postfix) -> Result<String, OutOfMemory> {
    let names = variables_among(alloc, words)?;
    match parts.to_expr(alloc)? {
        Some(expr) => show(&expr, &names, alloc),
        None => Ok(String::from_str(alloc, "no expression")?),
    }
}

// What reading words answers.
fn answer_on(alloc: Global, words: &Words, depth: u32) -> Result<String, OutOfMemory> {
    match read_expr(alloc, words, depth)? {
        ExprRead::Read(parts) => shown(alloc, words, &parts),
        ExprRead::Form => Ok(String::from_str(alloc, "form")?),
        ExprRead::Table => Ok(String::from_str(alloc, "table")?),
        ExprRead::Deep => Ok(String::from_str(alloc, "deep")?),
    }
}

// What reading a text answers.
fn answer(alloc: Global, text: &[u8], depth: u32) -> Result<String, OutOfMemory> {
    match Words::of(text) {
        Some(words) => answer_on(alloc, &words, depth),
        None => Ok(String::from_str(alloc, "no words")?),
    }
}

// How texts group: each operator by its table.
const GROUPS: &str = "\
a & b ~ 8(a,b)
a ^ b ~ 6(a,b)
a | b ~ 14(a,b)
a = b ~ 9(a,b)
a != b ~ 6(a,b)
a => b ~ 11(a,b)
a & b ^ c ~ 6(8(a,b),c)
a ^ b & c ~ 6(a,8(b,c))
a ^ b | c ~ 14(6(a,b),c)
a | b ^ c ~ 14(a,6(b,c))
a | b = c ~ 9(14(a,b),c)
a != b | c ~ 6(a,14(b,c))
a = b => c ~ 11(9(a,b),c)
a => b != c ~ 11(a,6(b,c))
a => b => c ~ 11(a,11(b,c))
a = b != c ~ 6(9(a,b),c)
a & b & c ~ 8(8(a,b),c)
!a & b ~ 8(!a,b)
a & !!b ~ 8(a,!!b)
!(a & b) ~ !8(a,b)
(a => b) => 1 ~ 11(11(a,b),1)
tab2 7 (a, 0 | b) ~ 7(a,14(0,b))
tab3 202 (a, b, c) ~ 202(a,b,c)
!tab2 15 (0, 1) ~ !15(0,1)
tab3 255 (x, y, (z)) ~ 255(x,y,z)
assume = skip ~ 9(assume,skip)";

// Texts that are refused.
const REFUSED: &str = "\
a, b ~ form
a; b ~ form
a -> b ~ form
a) b ~ form
a return b ~ form
return ~ form
(a)) b ~ form
tab2 6 (a, b), c ~ form
(a; b) ~ form
(a return) ~ form
, a ~ form
2 ~ form
00 ~ no words
a b ~ form
a & ~ form
& a ~ form
a ! b ~ form
(a ~ form
() ~ form
tab2 ~ form
tab2 & a ~ form
tab2 x (a, b) ~ form
tab2 06 (a, b) ~ no words
tab2 6 a, b ~ form
tab2 6 (a) ~ form
tab2 6 (a, b, c) ~ form
tab3 6 (a, b) ~ form
a : b ~ form
tab2 16 (a, b) ~ table
tab3 256 (a, b, c) ~ table
tab2 99999999999999999999 (a, b) ~ table";

// Texts that may be three deep.
const DEPTHS: &str = "\
!!a ~ !!a
!!!a ~ deep
((a)) ~ a
(((a))) ~ deep
a & (b) ~ 8(a,b)
(a) & (b & c) ~ deep
tab2 1 (!a, b) ~ 1(!a,b)
tab2 1 (a, !!b) ~ deep
tab3 1 (a, b, !!c) ~ deep
tab2 16 (!!!a, b) ~ table
!!!tab2 16 (a, b) ~ table
!!!a & tab2 16 (a, b) ~ table
!!!a & tab2 16 (a) ~ form";

// Texts that may be three deep, and have more than three parts open at once: they are not built.
const UNBUILT: &str = "\
!!!!a ~ deep
!!!!1 ~ deep
!!!!2 ~ form
!!!!return ~ form
!!!!a b ~ form
!!!!a : b ~ form
!!!! ~ form
((((a)))) ~ deep
((((a))) ~ form
((((a))))) ~ form
a => b => c => d => e ~ deep
a => b => c => d => ~ form
!!!!(a & b) | c = d ~ deep
!!!!(a, b) ~ form
!!!!tab2 1 (a, !b) ~ deep
!!!!tab2 1 (a) ~ form
!!!!tab2 1 (a, b, c) ~ form
!!!!tab2 1 (a, (b, c)) ~ form
!!!!tab2 1 a ~ form
!!!!tab2 (a, b) ~ form
!!!!tab3 1 (a, b, c ^ d) ~ deep
!!!!tab3 1 (a, b) ~ form
!!!!tab2 1 (tab3 1 (a, b, c), d) ~ deep
!!!!tab2 15 (a, b) ~ deep
!!!!tab2 16 (a, b) ~ table
!!!!tab3 255 (a, b, c) ~ deep
!!!!tab3 256 (a, b, c) ~ table
tab2 16 (a, !!!!b) ~ table
!!!!tab2 16 (a, tab2 1 (b, c)) ~ table
!!!!tab2 16 (a, b ~ form";

// Whether each line of a table is a text and its answer.
fn answers_are(rt: &impl Abort, alloc: Global, table: &str, depth: u32) -> Result<(), OutOfMemory> {
    for line in table.lines() {
        if let Some((text, want)) = line.split_once(" ~ ") {
            let got = answer(alloc, text.as_bytes(), depth)?;
            assert_eq!(rt; got.as_str(), want, "{text}");
        }
    }
    Ok(())
}

#[test]
fn expressions_group_by_their_levels(rt: HostRuntime) -> Result<(), Fail> {
    answers_are(&rt, rt.alloc(), GROUPS, 64)?;
    Ok(())
}

#[test]
fn texts_are_refused(rt: HostRuntime) -> Result<(), Fail> {
    let alloc = rt.alloc();
    answers_are(&rt, alloc, REFUSED, 64)?;
    answers_are(&rt, alloc, DEPTHS, 3)?;
    answers_are(&rt, alloc, UNBUILT, 3)?;
    for (text, depth, want) in [("", 64, "form"), ("a", 1, "a"), ("a", 0, "deep")] {
        assert_eq!(rt;
            answer(alloc, text.as_bytes(), depth)?.as_str(),
            want,
            "{text}"
        );
    }
    Ok(())
}

// What reading the words before a word outside brackets answers, and reading those behind it.
fn answers_around(alloc: Global, text: &[u8], at: Lexeme) -> Result<String, OutOfMemory> {
    let Some(words) = Words::of(text) else {
        return Ok(String::from_str(alloc, "no words")?);
    };
    let (before, behind) = words.split_outside(at);
    let before = answer_on(alloc, &before, 64)?;
    let Some(behind) = behind else {
        return Ok(before);
    };
    let behind = answer_on(alloc, &behind, 64)?;
    Ok(format!(in alloc; "{before} and {behind}")?)
}

#[test]
fn expressions_are_cut_out(rt: HostRuntime) -> Result<(), Fail> {
    let alloc = rt.alloc();
    for (text, at, want) in [
        ("a, b", Lexeme::Mark(Mark::Comma), "a and b"),
        ("a; b", Lexeme::Mark(Mark::Semicolon), "a and b"),
        ("a -> b", Lexeme::Mark(Mark::Arrow), "a and b"),
        ("a) b", Lexeme::Mark(Mark::Close), "a and b"),
        ("a return b", Lexeme::Name(b"return"), "a and b"),
        ("(a)) b", Lexeme::Mark(Mark::Close), "a and b"),
        (
            "tab2 6 (a, b), c",
            Lexeme::Mark(Mark::Comma),
            "6(a,b) and c",
        ),
        ("x := a & b", Lexeme::Mark(Mark::Becomes), "x and 8(a,b)"),
        ("a,", Lexeme::Mark(Mark::Comma), "a and form"),
    ] {
        assert_eq!(rt;
            answers_around(alloc, text.as_bytes(), at)?.as_str(),
            want,
            "{text}"
        );
    }
    Ok(())
}

// The variables among the words of a text, each behind a blank.
fn variables(alloc: Global, text: &[u8]) -> Result<String, OutOfMemory> {
    let mut names = String::new(alloc);
    let Some(mut left) = Words::of(text) else {
        return Ok(names);
    };
    for _ in 0..text.len() {
        let Some((lexeme, rest)) = left.split_first() else {
            return Ok(names);
        };
        if is_variable(lexeme) {
            let name = String::from_utf8_lossy(alloc, lexeme.text())?;
            names = format!(in alloc; "{names} {name}")?;
        }
        left = rest;
    }
    Ok(names)
}

#[test]
fn variables_stand_among_the_words(rt: HostRuntime) -> Result<(), Fail> {
    let alloc = rt.alloc();
    for (text, want) in [
        ("1", ""),
        ("x", " x"),
        ("a & !b | a", " a b a"),
        ("tab3 202 (c, (b), tab2 6 (tab, tab4))", " c b tab tab4"),
    ] {
        assert_eq!(rt; variables(alloc, text.as_bytes())?.as_str(), want, "{text}");
    }
    Ok(())
}

// So many bytes of one kind, and then a text.
fn repeated(alloc: Global, byte: u8, count: usize, text: &[u8]) -> Result<Vec<u8>, OutOfMemory> {
    let mut bytes = vec![in alloc; byte; count]?;
    bytes.extend_from_slice(text)?;
    Ok(bytes)
}

#[test]
fn long_texts(rt: HostRuntime) -> Result<(), Fail> {
    let alloc = rt.alloc();
    let name = repeated(alloc, b'n', 64, b"")?;
    assert!(rt; answer(alloc, name.as_slice(), 64)?.as_str().ends_with("nn"));
    let long = repeated(alloc, b'n', 65, b"")?;
    assert_eq!(rt; answer(alloc, long.as_slice(), 64)?.as_str(), "no words");
    for (byte, count, text, want) in [
        (b'!', 64, "a", "deep"),
        (b'!', 1_000_000, "a", "deep"),
        (b'(', 1_000_000, "a", "form"),
    ] {
        let bytes = repeated(alloc, byte, count, text.as_bytes())?;
        assert_eq!(rt;
            answer(alloc, bytes.as_slice(), 64)?.as_str(),
            want,
            "{count} of {byte}"
        );
    }
    let mut brackets = repeated(alloc, b'(', 100_000, b"a")?;
    brackets.extend_from_slice(repeated(alloc, b')', 100_000, b"")?.as_slice())?;
    assert_eq!(rt; answer(alloc, brackets.as_slice(), 64)?.as_str(), "deep");
    let deepest = repeated(alloc, b'!', 63, b"a")?;
    assert!(rt;
        answer(alloc, deepest.as_slice(), 64)?
            .as_str()
            .ends_with("!a")
    );
    Ok(())
}

#[test]
fn tables_and_values(rt: HostRuntime) -> Result<(), Fail> {
    for (a, b) in [(false, false), (false, true), (true, false), (true, true)] {
        for (table, want) in [
            (11, !a || b),
            (9, a == b),
            (6, a != b),
            (14, a || b),
            (8, a && b),
            (2, !a && b),
        ] {
            assert_eq!(rt; value2(table, a, b), want, "table {table}");
            assert_eq!(rt; instance2(table, a, b), want, "table {table}");
        }
        for c in [false, true] {
            assert_eq!(rt; value3(202, a, b, c), if a { b } else { c });
            assert_eq!(rt; instance3(202, a, b, c), if a { b } else { c });
        }
    }
    let alloc = rt.alloc();
    let expr = Expr::Three {
        table: 202,
        a: Box::new(alloc, Expr::Var(0))?,
        b: Box::new(alloc, Expr::Not(Box::new(alloc, Expr::Var(1))?))?,
        c: Box::new(alloc, Expr::Const(true))?,
    };
    assert_eq!(rt; eval(&expr, &[true, true]), false);
    assert_eq!(rt; eval(&expr, &[false, true]), true);
    Ok(())
}

#[test]
fn expressions_as_parts(rt: HostRuntime) -> Result<(), Fail> {
    let alloc = rt.alloc();
    assert_eq!(rt; size_of::<Part>(), 8);
    let mut parts = Postfix::new(alloc);
    assert!(rt; parts.to_expr(alloc)?.is_none());
    for part in [
        Part::Var(1),
        Part::Not,
        Part::Var(0),
        Part::Const(true),
        Part::Three(202),
        Part::Var(3),
        Part::Two(8),
    ] {
        parts.push(part)?;
    }
    parts.renumber(&[2, 0, 1]);
    // Place 1 has number 0, place 0 has 2, and place 3 is behind the end.
    let expr = parts.to_expr(alloc)?;
    let text = format!(in alloc; "{expr:?}")?;
    let inner = "Three { table: 202, a: Not(Var(0)), b: Var(2), c: Const(true) }";
    let want = format!(in alloc; "Some(Two {{ table: 8, left: {inner}, right: Var(0) }})")?;
    assert_eq!(rt; text.as_str(), want.as_str());
    Ok(())
}
