ghost use Rattle.std.specs.Prelude.{◌≤◌};

use std::alloc::Global;
use std::io::Write;
use std::test::Fail;
use wpds_port::{
    Failed, InputFault, Kind, MemSink, MemSource, OutOfMemory, ReadFault, Refusal, Sink, Source,
    StdSink, StdSource, SureSink, SureSource, Token, Word, read_up_to, tokens, write_all,
};

const TEN: &[u8] = b"ten bytes.";

fn source(alloc: Global, piece: usize, fail: u64) -> Result<MemSource, OutOfMemory>
    requires { 1 ≤ piece }
{
    let bytes = Vec::from_slice(alloc, TEN)?;
    Ok(MemSource::new(bytes, piece, vec![in alloc; fail]?))
}

fn sink(alloc: Global, room: usize, piece: usize, fail: u64) -> Result<MemSink, OutOfMemory>
    requires { 1 ≤ piece }
{
    let fails = vec![in alloc; fail]?;
    MemSink::new(alloc, room, piece, fails)
}

fn send<W: Sink>(sink: &mut W) -> Result<(), Failed> {
    write_all(sink, TEN)?;
    sink.flush()
}

// How many bytes one read into a buffer of five gives.
fn first_count<R: Source>(source: &mut R) -> Result<usize, Failed> {
    let mut buf = [0u8; 5];
    source.read(&mut buf)
}

#[test]
fn reads_in_pieces_until_a_call_fails(rt: HostRuntime) -> Result<(), Fail> {
    let alloc = rt.alloc();
    // how many calls it takes to read ten bytes and their end
    for (piece, calls) in [(1, 11u64), (3, 5), (16, 2)] {
        assert!(rt; piece >= 1);
        for fail in 0..=calls {
            let mut source = source(alloc, piece, fail)?;
            match read_up_to(alloc, &mut source, 100) {
                Ok(bytes) => {
                    assert_eq!(rt; fail, calls);
                    assert_eq!(rt; bytes.as_slice(), TEN);
                }
                Err(fault) => {
                    assert!(rt; fail < calls);
                    assert_eq!(rt; fault, InputFault::Read);
                }
            }
        }
    }
    Ok(())
}

#[test]
fn reads_on_after_a_failure_and_stops_at_the_limit(rt: HostRuntime) -> Result<(), Fail> {
    let alloc = rt.alloc();
    let mut source = source(alloc, 3, 1)?;
    assert_eq!(rt; first_count(&mut source), Ok(3));
    assert_eq!(rt; first_count(&mut source), Err(Failed));
    assert_eq!(rt; first_count(&mut source), Ok(3));
    let rest = read_up_to(alloc, &mut source, 2)?;
    assert_eq!(rt; rest.as_slice(), b"te".as_slice());
    assert_eq!(rt; first_count(&mut source), Ok(2));
    assert_eq!(rt; first_count(&mut source), Ok(0));
    Ok(())
}

#[test]
fn writes_in_pieces_until_a_call_fails(rt: HostRuntime) -> Result<(), Fail> {
    let alloc = rt.alloc();
    // how many calls it takes to write ten bytes and to flush, and what is written before each
    let cases = [
        (1, 11u64, [0usize, 1, 2, 3, 4, 5, 6, 7, 8, 9, 10]),
        (3, 5, [0, 3, 6, 9, 10, 10, 10, 10, 10, 10, 10]),
        (16, 2, [0, 10, 10, 10, 10, 10, 10, 10, 10, 10, 10]),
    ];
    for (piece, calls, written) in cases {
        assert!(rt; piece >= 1);
        for (count, fail) in written.into_iter().zip(0..=calls) {
            let mut sink = sink(alloc, 10, piece, fail)?;
            let result = send(&mut sink);
            assert_eq!(rt; result.is_ok(), fail == calls);
            assert_eq!(rt; sink.written().len(), count);
            assert!(rt; TEN.starts_with(sink.written()));
        }
    }
    Ok(())
}

#[test]
fn writes_what_has_room(rt: HostRuntime) -> Result<(), Fail> {
    let alloc = rt.alloc();
    // what a sink takes of ten bytes that has room for 0, 1, 2 and so on
    let cases = [
        (1, [0usize, 1, 2, 3, 4, 5, 6, 7, 8, 9, 10]),
        (3, [0, 0, 0, 3, 3, 3, 6, 6, 6, 9, 10]),
        (16, [0, 0, 0, 0, 0, 0, 0, 0, 0, 0, 10]),
    ];
    for (piece, taken) in cases {
        assert!(rt; piece >= 1);
        for (room, count) in taken.into_iter().enumerate() {
            let mut sink = sink(alloc, room, piece, 99)?;
            assert_eq!(rt; write_all(&mut sink, TEN).is_ok(), room == 10);
            assert_eq!(rt; sink.written().len(), count);
            assert!(rt; TEN.starts_with(sink.written()));
        }
    }
    Ok(())
}

#[test]
fn other_ends(rt: HostRuntime) -> Result<(), Fail> {
    let alloc = rt.alloc();
    let mut sure = SureSource::new(Vec::from_slice(alloc, TEN)?);
    assert_eq!(rt; first_count(&mut sure), Ok(5));
    assert_eq!(rt;
        read_up_to(alloc, &mut sure, 100)?.as_slice(),
        b"ytes.".as_slice()
    );
    send(&mut SureSink::new())?;
    let mut reader = StdSource::new(TEN);
    assert_eq!(rt; first_count(&mut reader), Ok(5));
    assert_eq!(rt;
        read_up_to(alloc, &mut reader, 100)?.as_slice(),
        b"ytes.".as_slice()
    );
    let mut bytes = Vec::new(alloc);
    send(&mut StdSink::new(&mut bytes))?;
    assert_eq!(rt; bytes.as_slice(), TEN);
    // a writer that is full takes none of a piece
    let mut full = [0u8; 4];
    assert_eq!(rt; send(&mut StdSink::new(full.as_mut_slice())), Err(Failed));
    Ok(())
}

#[test]
fn texts(rt: HostRuntime) -> Result<(), Fail> {
    let alloc = rt.alloc();
    for (line, kind, text) in [
        (7, Kind::TooLong, "refused: line 7: 1 TooLong"),
        (7, Kind::NotText, "refused: line 7: 2 NotText"),
        (7, Kind::Header, "refused: line 7: 3 Header"),
        (7, Kind::Form, "refused: line 7: 4 Form"),
        (7, Kind::Twice, "refused: line 7: 5 Twice"),
        (7, Kind::Unknown, "refused: line 7: 6 Unknown"),
        (7, Kind::WeightText, "refused: line 7: 7 WeightText"),
        (7, Kind::Return, "refused: line 7: 8 Return"),
        (7, Kind::Count, "refused: line 7: 9 Count"),
        (7, Kind::NothingAsked, "refused: line 7: 10 NothingAsked"),
        (7, Kind::Arity, "refused: line 7: 11 Arity"),
        (7, Kind::TooWide, "refused: line 7: 12 TooWide"),
        (7, Kind::Label, "refused: line 7: 13 Label"),
        (
            u64::MAX,
            Kind::TooLong,
            "refused: line 18446744073709551615: 1 TooLong",
        ),
    ] {
        let refusal = Refusal { line, kind };
        assert_eq!(rt; refusal.text(alloc)?.as_str(), text);
        let fault = ReadFault::Refused(refusal);
        assert_eq!(rt; format!(in alloc; "{fault}")?.as_str(), text);
    }
    assert_eq!(rt;
        format!(in alloc; "{}", ReadFault::from(OutOfMemory))?.as_str(),
        "out of memory"
    );
    Ok(())
}

fn kind_of(token: &Token) -> &'static str {
    match &token.word {
        Word::Name(_) => "name",
        Word::Number(_) => "number",
        Word::Mark(_) => "mark",
    }
}

#[test]
fn lines_are_cut_into_tokens(rt: HostRuntime) -> Result<(), Fail> {
    let alloc = rt.alloc();
    // each token with its kind and its text between bars, or what begins no token
    let cases: [(&str, &str); 10] = [
        ("", ""),
        (" \t ", ""),
        ("a_1$@b->c", "name a_1$@b|mark ->|name c|"),
        ("_x 007 7x", "name _x|number 007|number 7|name x|"),
        (
            "=>=!=!: :=:",
            "mark =>|mark =|mark !=|mark !|mark :|mark :=|mark :|",
        ),
        ("->->- >", "unknown"),
        (
            ";,.*+-?",
            "mark ;|mark ,|mark .|mark *|mark +|mark -|mark ?|",
        ),
        (
            "&|^(){}",
            "mark &|mark ||mark ^|mark (|mark )|mark {|mark }|",
        ),
        ("a $b", "unknown"),
        ("x \u{e9}", "unknown"),
    ];
    for (line, want) in cases {
        let mut text = String::new(alloc);
        match tokens(alloc, line.as_bytes())? {
            None => text.push_str("unknown")?,
            Some(found) => {
                for token in found.as_slice() {
                    let word = String::from_utf8_lossy(alloc, token.word.text())?;
                    text.push_str(format!(in alloc; "{} {}|", kind_of(token), word)?.as_str())?;
                    assert_eq!(rt;
                        line.as_bytes().get(token.start..token.end),
                        Some(token.word.text())
                    );
                }
            }
        }
        assert_eq!(rt; text.as_str(), want);
    }
    Ok(())
}

// A writer that takes all and only counts its flushes.
#[derive(Drop)]
struct Flushes(u64);

impl Write for Flushes {
    fn write(&mut self, buf: &[u8]) -> std::io::Result<usize> {
        Ok(buf.len())
    }

    fn flush(&mut self) -> std::io::Result<()> {
        self.0 = self.0.saturating_add(1);
        Ok(())
    }
}

#[test]
fn flushes_are_handed_on(rt: HostRuntime) -> Result<(), Fail> {
    let mut writer = Flushes(0);
    send(&mut StdSink::new(&mut writer))?;
    assert_eq!(rt; writer.0, 1);
    Ok(())
}
