//! The program `wpds`: hands its words, standard input and standard output to the top call.
#![tactic(auto)]

ghost use Rattle.std.specs.Prelude.{◌≡◌};
ghost use Rattle.std.specs.Process.{exit_status as exit_status_of};
ghost use Rattle.wpds_app.specs.Statuses.{status_code};

mod later_words;

use later_words::words;
use std::process::ExitCode;
use wpds_app::{Status, run};
use wpds_base::OutOfMemory;
use wpds_port::{OpenGate, StdSink, StdSource};

// The exit status of a status.
fn exit_status(status: Status) -> ExitCode
    ensures { exit_status_of result ≡ status_code status }
{
    ExitCode::from(status.code())
}

// What standard error is told of a status that leaves nothing, or a part alone, on standard output.
fn complaint(status: Status) -> Option<&'static str> {
    match status {
        Status::ReadFault => Some("standard input cannot be read"),
        Status::WriteFault => Some("standard output cannot be written"),
        Status::OutOfMemory => Some("out of memory"),
        Status::Answered | Status::WordsRefused | Status::DocumentRefused => None,
    }
}

fn main(rt: HostRuntime) -> ExitCode {
    let status = match words(&rt) {
        Ok(words) => {
            let mut source = StdSource::new(rt.stdin());
            let mut sink = StdSink::new(rt.stdout());
            run(&rt, rt.alloc(), &words, &mut source, &mut sink, &OpenGate)
        }
        Err(OutOfMemory) => Status::OutOfMemory,
    };
    if let Some(text) = complaint(status) {
        // A standard error that fails too changes no status.
        let _ = eprintln!(rt; "wpds: {text}");
    }
    exit_status(status)
}
