use command_words::{Generation, Request, read_words};
use report_text::Options;
use std::alloc::{AllocError, Global};
use witness_graph::Side;

// What these words ask for. A word that the host could not hold asks for nothing.
fn asked(alloc: Global, words: &[&str]) -> Result<Option<Request>, AllocError> {
    let mut owned = Vec::new(alloc);
    for word in words {
        let mut text = String::new(alloc);
        text.push_str(word)?;
        owned.push(text)?;
    }
    match read_words(alloc, owned.as_slice()) {
        Ok(request) => Ok(request),
        Err(_) => Err(AllocError),
    }
}

fn check(brief: bool, by: Side, workers: u32) -> Option<Request> {
    Some(Request::Check(Options {
        brief,
        traces: false,
        by,
        workers,
    }))
}

fn trace(brief: bool, by: Side, workers: u32) -> Option<Request> {
    Some(Request::Check(Options {
        brief,
        traces: true,
        by,
        workers,
    }))
}

fn generate(rungs: u32, by: Side, workers: u32) -> Option<Request> {
    Some(Request::Generate(Generation { rungs, by, workers }))
}

#[test]
fn takes_commands(rt: HostRuntime) -> Result<(), AllocError> {
    let rows: [(&[&str], Option<Request>); 21] = [
        (&["check"], check(false, Side::Pre, 1)),
        (&["check", "--brief"], check(true, Side::Pre, 1)),
        (&["--brief", "check"], check(true, Side::Pre, 1)),
        (&["check", "--by", "post"], check(false, Side::Post, 1)),
        (&["check", "--by=post"], check(false, Side::Post, 1)),
        (&["--workers", "3", "check"], check(false, Side::Pre, 3)),
        (
            &["check", "--workers=64", "--by", "pre"],
            check(false, Side::Pre, 64),
        ),
        (
            &["--workers", "8", "check", "--by", "post", "--brief"],
            check(true, Side::Post, 8),
        ),
        (&["--", "check"], check(false, Side::Pre, 1)),
        (&["check", "--traces"], trace(false, Side::Pre, 1)),
        (&["check", "--brief", "--traces"], trace(true, Side::Pre, 1)),
        (&["check", "--traces", "--brief"], trace(true, Side::Pre, 1)),
        (&["--traces", "--brief", "check"], trace(true, Side::Pre, 1)),
        (
            &[
                "--brief",
                "check",
                "--by",
                "post",
                "--traces",
                "--workers",
                "8",
            ],
            trace(true, Side::Post, 8),
        ),
        (&["gen", "1"], generate(1, Side::Pre, 1)),
        (
            &["gen", "10000", "--by", "post", "--workers", "8"],
            generate(10_000, Side::Post, 8),
        ),
        (
            &["--by=post", "gen", "--workers=2", "20"],
            generate(20, Side::Post, 2),
        ),
        (&["--help"], Some(Request::Help)),
        (&["-h", "check", "--nothing"], Some(Request::Help)),
        (&["check", "--help"], Some(Request::Help)),
        (&["--version"], Some(Request::Version)),
    ];
    for (words, request) in rows {
        assert_eq!(rt; asked(rt.alloc(), words)?, request);
    }
    Ok(())
}

#[test]
fn refuses_other_words(rt: HostRuntime) -> Result<(), AllocError> {
    let rows: [&[&str]; 27] = [
        &[],
        &[""],
        &["verify"],
        &["Check"],
        &["check", ""],
        &["check", "3"],
        &["check", "check"],
        &["check", "--", "--brief"],
        &["check", "--nothing"],
        &["check", "--brief", "--brief"],
        &["check", "--brief=yes"],
        &["check", "--by"],
        &["check", "--by", "both"],
        &["check", "--by", "pre", "--by", "post"],
        &["check", "--workers"],
        &["check", "--workers", "0"],
        &["check", "--workers", "65"],
        &["check", "--workers", "07"],
        &["check", "--workers", "+3"],
        &["gen"],
        &["gen", "0"],
        &["gen", "10001"],
        &["gen", "07"],
        &["gen", "3", "--brief"],
        &["gen", "3", "--traces"],
        &["check", "--traces", "--traces"],
        &["check", "--traces=yes"],
    ];
    for words in rows {
        assert_eq!(rt; asked(rt.alloc(), words)?, None);
    }
    Ok(())
}
