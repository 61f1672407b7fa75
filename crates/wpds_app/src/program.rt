ghost use Rattle.std.specs.Prelude.{◌≡◌, ◌≢◌, ◌↔◌, ◌+◌, ℕ, List, Some, OnOk, OnErr, map, take};
ghost use Rattle.std.specs.String.{string_bytes};
ghost use Rattle.std.specs.Io.KnownBytes.{Appends};
ghost use Rattle.wpds_base.specs.Limits.{most_bytes};
ghost use Rattle.wpds_port.specs.Causes.{Rose};
ghost use Rattle.wpds_port.specs.Reading.{ConsumesPart};
ghost use Rattle.wpds_port.specs.Writing.{AppendsPart};
ghost use Rattle.wpds_app.specs.Running.{Replies, IsCutShort, IsDecided, IsDecidedBy};
ghost use Rattle.report_text.specs.declared.options.Options.{Options};
ghost use Rattle.wpds_app.specs.Commands.{IsCheck, IsCommand};

use crate::Status;
use crate::crew::Crew;
use crate::laws::no_input_is_accepted_and_refused;
use crate::request::reply_to_request;
use command_words::read_words;
use std::alloc::Global;
use std::sync::Wait;
use std::thread::Threads;
use wpds_base::OutOfMemory;
use wpds_port::{Failed, Gate, InputFault, Sink, Source, write_all};

// Writes a text and flushes it.
fn send<W: Sink>(sink: &mut W, text: &[u8]) -> Result<(), Failed>
    ensures ok { OnOk result (Appends (W.written sink.old) (W.written sink.new) text.now) }
    ensures err { OnErr result (AppendsPart (W.written sink.old) (W.written sink.new) text.now) }
    ensures cause { OnErr result (Rose (W.faults sink.old) (W.faults sink.new)) }
{
    write_all(sink, text)?;
    sink.flush()
}

// Writes the text of a status, which is the answer unless the sink fails.
fn finish<W: Sink>(sink: &mut W, status: Status, text: &[u8]) -> Status
    requires { status ≢ Status.WriteFault }
    ensures status { result ≢ Status.WriteFault → result ≡ status }
    ensures whole { result ≢ Status.WriteFault
        → Appends (W.written sink.old) (W.written sink.new) text.now }
    ensures part { result ≡ Status.WriteFault
        → AppendsPart (W.written sink.old) (W.written sink.new) text.now }
    ensures cause { result ≡ Status.WriteFault → Rose (W.faults sink.old) (W.faults sink.new) }
{
    match send(sink, text) {
        Ok(()) => status,
        Err(Failed) => Status::WriteFault,
    }
}

/// Does all that the program does: takes the words after its name, does what they ask for, and writes the outcome.
///
/// The words are `check` or `gen N`, with the options `--workers N`, `--by pre` or `--by post`, and `--brief`, or `--help` or
/// `--version` (docs/FORMATS.md). `check` reads a document to its end, or to one byte more than a document has; no other command reads.
/// A document is refused by its first refusal. What is written stands in memory before its first byte is written.
///
/// Whatever is asked, two workers and more have a thread each, and take turns at one automaton. Each worker, one alone too, calls
/// the gate between taking a transition and settling it; what the gate does changes no answer, and
/// [`OpenGate`](wpds_port::OpenGate) does nothing.
pub fn run<H: Threads + Wait + Sync, R: Source, W: Sink, G: Gate>(
    rt: &H,
    alloc: Global,
    words: &[String],
    source: &mut R,
    sink: &mut W,
    gate: &G,
) -> Status
    // Words are refused exactly if they are no command, no write fault came, and there was memory to read them.
    ensures words_refused { (result ≡ Status.WordsRefused)
        ↔ ((IsCommand (map string_bytes words.now) → ⊥)
        × ((result ≢ Status.WriteFault) × (result ≢ Status.OutOfMemory))) }
    ensures words_accepted { result ≢ Status.WordsRefused → result ≢ Status.WriteFault
        → result ≢ Status.OutOfMemory → IsCommand (map string_bytes words.now) }
    ensures unread { ((o : Options) → IsCheck (map string_bytes words.now) o → ⊥)
        → R.left source.new ≡ R.left source.old }

    // Of what was left at most its first 4,194,305 bytes are read, whatever comes of it.
    ensures read_at_most { ConsumesPart (R.left source.old) (R.left source.new) (most_bytes + 1) }

    // A fault comes only if the count of its side's faults rose in this call, or stands at its end.
    ensures read_fault { result ≡ Status.ReadFault
        → Rose (R.faults source.old) (R.faults source.new) }
    ensures write_fault { result ≡ Status.WriteFault
        → Rose (W.faults sink.old) (W.faults sink.new) }

    // A fault of reading comes only where the words have a document read.
    ensures reading { result ≡ Status.ReadFault
        → (o : Options) × IsCheck (map string_bytes words.now) o }

    // What is written: all of the outcome, a beginning of it, or nothing.
    ensures replied { result ≢ Status.ReadFault → result ≢ Status.WriteFault
        → result ≢ Status.OutOfMemory
        → Replies (map string_bytes words.now) (R.left source.old) (R.left source.new)
        (W.written sink.old) (W.written sink.new) result }
    ensures cut_short { result ≡ Status.WriteFault
        → IsCutShort (map string_bytes words.now) (R.left source.old) (R.left source.new)
        (W.written sink.old) (W.written sink.new) }
    ensures read_fault_unwritten { result ≡ Status.ReadFault
        → W.written sink.new ≡ W.written sink.old }
    ensures memory_unwritten { result ≡ Status.OutOfMemory
        → W.written sink.new ≡ W.written sink.old }

    // Accepted words, no fault and memory enough give what they ask for. If the source tells
    // its bytes, the answer to a document is exactly the answer to them.
    ensures complete { IsCommand (map string_bytes words.now)
        → result ≢ Status.ReadFault → result ≢ Status.WriteFault → result ≢ Status.OutOfMemory
        → IsDecided result }
    ensures exactly { (options : Options) (bytes : List ℕ)
        → IsCheck (map string_bytes words.now) options
        → R.left source.old ≡ Some bytes → IsDecided result
        → IsDecidedBy (take (most_bytes + 1) bytes) result }
{
    no_input_is_accepted_and_refused();
    let request = match read_words(alloc, words) {
        Ok(request) => request,
        Err(OutOfMemory) => return Status::OutOfMemory,
    };
    let crew = Crew { rt, gate };
    match reply_to_request(&crew, alloc, source, request) {
        Ok(reply) => finish(sink, reply.status, reply.text.as_bytes()),
        Err(InputFault::Read) => Status::ReadFault,
        Err(InputFault::Memory) => Status::OutOfMemory,
    }
}
