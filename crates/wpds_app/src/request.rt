ghost use Rattle.std.specs.Prelude.{◌≡◌, ◌≢◌, ◌+◌, ◌++◌, ◌∷◌, [], IfOk, IfSome, IsErrOf, OnOk, Some};
ghost use Rattle.wpds_base.specs.Limits.{most_bytes};
ghost use Rattle.wpds_port.specs.Causes.{Rose};
ghost use Rattle.wpds_port.specs.Reading.{ConsumesPart};
ghost use Rattle.command_words.specs.Commands.{IsWithin};
ghost use Rattle.report_text.specs.declared.options.Options.{Options};
ghost use Rattle.command_words.specs.declared.options.Request.TheVariants.{Check as CheckOf};
ghost use Rattle.wpds_app.specs.Running.{IsOutcome};

use crate::Status;
use crate::crew::Crew;
use crate::generate::answer_ladder;
use crate::reply::{Reply, read_and_reply};
use crate::texts::{help, usage, version};
use command_words::Request;
use std::alloc::Global;
use std::sync::Wait;
use std::thread::Threads;
use wpds_base::OutOfMemory;
use wpds_port::{Gate, InputFault, Source, Text};

// A status with a text that stands fast.
fn fixed(alloc: Global, status: Status, text: &str) -> Result<Reply, OutOfMemory>
    ensures { IfOk result (λ r. r ≡ record { status = status; text = text.now }) }
{
    Ok(Reply {
        status,
        text: Text::of(alloc, text.as_bytes())?,
    })
}

/// Does what the words ask for, up to the writing. Nothing is read but for the answers to a document.
pub(crate) fn reply_to_request<H: Threads + Wait + Sync, R: Source, G: Gate>(
    crew: &Crew<'_, H, G>,
    alloc: Global,
    source: &mut R,
    request: Option<Request>,
) -> Result<Reply, InputFault>
    requires { IfSome request IsWithin }
    ensures outcome { IfOk result (λ r.
        IsOutcome request (R.left source.old) (R.left source.new) r.status r.text) }
    ensures fault { IsErrOf result InputFault.Read
        → Rose (R.faults source.old) (R.faults source.new) }
    ensures reading { IsErrOf result InputFault.Read
        → (o : Options) × (request ≡ Some (CheckOf o)) }
    ensures read_at_most { ConsumesPart (R.left source.old) (R.left source.new) (most_bytes + 1) }
    ensures unread { ((o : Options) → request ≡ Some (CheckOf o) → ⊥)
        → R.left source.new ≡ R.left source.old }
{
    match request {
        None => Ok(fixed(alloc, Status::WordsRefused, usage())?),
        Some(Request::Help) => Ok(fixed(alloc, Status::Answered, help())?),
        Some(Request::Version) => Ok(fixed(alloc, Status::Answered, version())?),
        Some(Request::Check(options)) => read_and_reply(crew, alloc, source, options),
        Some(Request::Generate(generation)) => Ok(Reply {
            status: Status::Answered,
            text: answer_ladder(crew, alloc, generation)?,
        }),
    }
}
