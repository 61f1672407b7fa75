ghost use Rattle.std.specs.Prelude.{◌≡◌, ◌≤◌, ◌+◌, ◌++◌, ◌∷◌, [], IfOk, IsErrOf};
ghost use Rattle.wpds_base.specs.Limits.{most_bytes};
ghost use Rattle.wpds_port.specs.Causes.{Rose};
ghost use Rattle.wpds_port.specs.Reading.{ConsumesPart};
ghost use Rattle.wpds_port.specs.Refusals.{refusal_text};
ghost use Rattle.document_forms.specs.Documents.{reads_as};
ghost use Rattle.worker_pool.specs.Workers.{IsWorkerCount};
ghost use Rattle.wpds_app.specs.Running.{HasReply, IsReply, Means};

use crate::crew::Crew;
use crate::input::meaning_of;
use crate::report::report;
use crate::{Input, Status};
use boolean_programs::Program;
use document_forms::{Document, documents_are_lawful};
use document_systems::Names;
use program_laws::read_programs_are_lawful;
use program_reports::report_on_program;
use report_text::Options;
use std::alloc::Global;
use std::sync::Wait;
use std::thread::Threads;
use wpds_base::{MOST_BYTES, OutOfMemory};
use wpds_port::{Gate, InputFault, ReadFault, Refusal, Source, Text, read_up_to};

/// A status and the text that is written with it.
#[derive(Drop)]
pub(crate) struct Reply {
    pub(crate) status: Status,
    pub(crate) text: Text,
}

// The line of a refusal.
fn refused(alloc: Global, refusal: Refusal) -> Result<Reply, OutOfMemory>
    ensures status { IfOk result (λ r. r.status ≡ Status.DocumentRefused) }
    ensures text { IfOk result (λ r. r.text ≡ refusal_text refusal ++ 10 ∷ []) }
{
    let mut text = refusal.text(alloc)?.into_bytes();
    text.push(b'\n')?;
    Ok(Reply {
        status: Status::DocumentRefused,
        text: Text::from_vec(text),
    })
}

// What is answered to the document of a system.
fn reply_on_system<H: Threads + Wait + Sync, G: Gate>(
    crew: &Crew<'_, H, G>,
    alloc: Global,
    input: &[u8],
    document: &Document<Names>,
    options: Options,
) -> Result<Reply, OutOfMemory>
    requires document { reads_as input.now document.now }
    requires workers { IsWorkerCount options.workers }
    ensures { IfOk result (λ r. IsReply input.now options r.status r.text) }
{
    documents_are_lawful();
    let text = report(crew, alloc, document, options)?;
    Ok(Reply {
        status: Status::Answered,
        text,
    })
}

// What is answered to a Boolean program.
fn reply_on_program<H: Threads + Wait + Sync, G: Gate>(
    crew: &Crew<'_, H, G>,
    alloc: Global,
    input: &[u8],
    program: &Program,
    options: Options,
) -> Result<Reply, OutOfMemory>
    requires program { Means input.now (Input.Program program.now) }
    requires workers { IsWorkerCount options.workers }
    ensures { IfOk result (λ r. IsReply input.now options r.status r.text) }
{
    read_programs_are_lawful();
    let text = report_on_program(crew.rt, alloc, program, options, crew.gate)?;
    Ok(Reply {
        status: Status::Answered,
        text,
    })
}

// What is answered to an input.
fn reply_to<H: Threads + Wait + Sync, G: Gate>(
    crew: &Crew<'_, H, G>,
    alloc: Global,
    input: &[u8],
    options: Options,
) -> Result<Reply, OutOfMemory>
    requires { IsWorkerCount options.workers }
    ensures { IfOk result (λ r. IsReply input.now options r.status r.text) }
{
    match meaning_of(alloc, input) {
        Ok(Input::System(document)) => reply_on_system(crew, alloc, input, &document, options),
        Ok(Input::Program(program)) => reply_on_program(crew, alloc, input, &program, options),
        Err(ReadFault::Refused(refusal)) => refused(alloc, refusal),
        Err(ReadFault::Memory) => Err(OutOfMemory),
    }
}

/// Reads an input, and answers it.
pub(crate) fn read_and_reply<H: Threads + Wait + Sync, R: Source, G: Gate>(
    crew: &Crew<'_, H, G>,
    alloc: Global,
    source: &mut R,
    options: Options,
) -> Result<Reply, InputFault>
    requires { IsWorkerCount options.workers }
    ensures reply { IfOk result (λ r.
        HasReply (R.left source.old) (R.left source.new) options r.status r.text) }
    ensures fault { IsErrOf result InputFault.Read
        → Rose (R.faults source.old) (R.faults source.new) }
    ensures read_at_most { ConsumesPart (R.left source.old) (R.left source.new) (most_bytes + 1) }
{
    let input = read_up_to(alloc, source, MOST_BYTES + 1)?;
    Ok(reply_to(crew, alloc, &input, options)?)
}
