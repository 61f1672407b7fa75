use document_forms::WeightsLine;
use document_reader::read_system;
use std::alloc::Global;
use wpds_base::OutOfMemory;
use wpds_port::{Kind, ReadFault, Refusal};

// The refusal of a text, if it is refused.
fn refusal(alloc: Global, text: &[u8]) -> Result<Option<Refusal>, OutOfMemory> {
    match read_system(alloc, text) {
        Ok(_) => Ok(None),
        Err(ReadFault::Refused(refusal)) => Ok(Some(refusal)),
        Err(ReadFault::Memory) => Err(OutOfMemory),
    }
}

// Whether a text is refused on this line by this kind.
fn is_refused(alloc: Global, text: &[u8], line: u64, kind: Kind) -> Result<bool, OutOfMemory> {
    Ok(refusal(alloc, text)? == Some(Refusal { line, kind }))
}

// The lines of a case, at each `/` of which a line ends, below such weights, a control `p` and a
// symbol `a`.
fn lines_of(alloc: Global, weights: &[u8], case: &[u8]) -> Result<Vec<u8>, OutOfMemory> {
    let mut text = b"wpds 1\nweights ".to_vec(alloc)?;
    text.extend_from_slice(weights)?;
    text.extend_from_slice(b"\ncontrols p\nsymbols a\n")?;
    for byte in case {
        text.push(if *byte == b'/' { b'\n' } else { *byte })?;
    }
    Ok(text)
}

// Whether the last line of each case is refused by this kind. A case is a line of these.
fn each_is_refused(
    alloc: Global,
    weights: &[u8],
    cases: &[u8],
    kind: Kind,
) -> Result<bool, OutOfMemory> {
    for case in cases.split(|byte| *byte == b'\n') {
        let text = lines_of(alloc, weights, case)?;
        let line = text.split(|byte| *byte == b'\n').count() as u64;
        if !is_refused(alloc, &text, line, kind)? {
            return Ok(false);
        }
    }
    Ok(true)
}

// How many controls, symbols, variables, rules and queries a text of copies has.
fn counts(alloc: Global, text: &[u8]) -> Result<Option<[usize; 5]>, OutOfMemory> {
    let Ok(document) = read_system(alloc, text) else {
        return Ok(None);
    };
    if document.weights != WeightsLine::Copy {
        return Ok(None);
    }
    Ok(Some([
        document.controls.len(),
        document.symbols.len(),
        document.items.len(),
        document.rules.len(),
        document.queries.len(),
    ]))
}

#[test]
fn a_system_is_read(rt: HostRuntime) -> Result<(), OutOfMemory> {
    let text = b"wpds 1\nweights copy\ncontrols p q\nsymbols a b c\nvariables x y\nsymbols d\n\
        query p : a => q : { b d } .*\n# asked twice\nquery p : . => p : .\n";
    assert!(rt; counts(rt.alloc(), text)? == Some([2, 4, 2, 0, 2]));
    Ok(())
}

// Weights, cases, and the kind by which the last line of each is refused.
const REFUSED: [(&[u8], &[u8], Kind); 12] = [
    // names that stand twice
    (
        b"reach",
        b"controls q/controls r q\nsymbols b b",
        Kind::Twice,
    ),
    (b"genkill", b"facts x/facts y x", Kind::Twice),
    (b"copy", b"variables x/variables y y", Kind::Twice),
    // names without form, and of other weights
    (b"reach", b"symbols\nsymbols one\nfacts x", Kind::Form),
    (b"copy", b"facts x", Kind::Form),
    (b"genkill", b"variables x", Kind::Form),
    (b"cost 1", b"variables x", Kind::Form),
    // more variables than a relation has
    (
        b"relation",
        b"variables b c d e f g h i j k l m n o p q r s t u v w x y z",
        Kind::Count,
    ),
    // lines that say something twice, that have no form, and queries of what is not declared
    (
        b"reach",
        b"weights reach\nweights cost 0\nquery p : { a a } => q : b",
        Kind::Twice,
    ),
    (
        b"reach",
        b"weights cost\ncontrol q\n7\nquery p : a",
        Kind::Form,
    ),
    (b"reach", b"controls q/\xc3", Kind::NotText),
    (
        b"reach",
        b"query p : a => q : a\nquery p : a => p : b",
        Kind::Unknown,
    ),
];

#[test]
fn lines_are_refused(rt: HostRuntime) -> Result<(), OutOfMemory> {
    for (place, (weights, cases, kind)) in REFUSED.into_iter().enumerate() {
        assert!(rt;
            each_is_refused(rt.alloc(), weights, cases, kind)?,
            "at row {place}"
        );
    }
    Ok(())
}

#[test]
fn queries_are_counted(rt: HostRuntime) -> Result<(), OutOfMemory> {
    let mut text = Vec::new(rt.alloc());
    text.extend_from_slice(b"wpds 1\nweights reach\ncontrols p\nsymbols a\n")?;
    for _ in 0..1_000 {
        text.extend_from_slice(b"query p : a => p : a\n")?;
    }
    assert_eq!(rt; refusal(rt.alloc(), &text)?, None);
    text.extend_from_slice(b"query p : a => p : a\n")?;
    assert!(rt; is_refused(rt.alloc(), &text, 1_005, Kind::Count)?);
    Ok(())
}
