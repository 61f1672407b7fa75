ghost use Rattle.std.specs.Prelude.{◌≡◌, IfOk, false};
ghost use Rattle.clap.specs.Words.{app_of, rule_of};
ghost use Rattle.command_words.specs.Commands.{bare, command, task, size, workers, by, brief, traces};

use clap::{Arg, ArgAction, Command};
use std::alloc::{AllocError, Global};

// The task, which has to be there.
fn task_argument<'a>(alloc: Global) -> Arg<'a>
    ensures rule { rule_of result ≡ task }
    ensures local { result.global ≡ false }
{
    Arg::new(alloc, "task").required(true)
}

// The number of rungs of a ladder.
fn size_argument<'a>(alloc: Global) -> Arg<'a>
    ensures rule { rule_of result ≡ size }
    ensures local { result.global ≡ false }
{
    Arg::new(alloc, "size")
}

// How many workers there are.
fn workers_argument<'a>(alloc: Global) -> Arg<'a>
    ensures rule { rule_of result ≡ workers }
    ensures local { result.global ≡ false }
{
    Arg::new(alloc, "workers")
        .long("workers")
        .default_value("1")
}

// Which way the saturation goes.
fn by_argument<'a>(alloc: Global) -> Arg<'a>
    ensures rule { rule_of result ≡ by }
    ensures local { result.global ≡ false }
{
    Arg::new(alloc, "by").long("by").default_value("pre")
}

// Whether the listings are left out.
fn brief_argument<'a>(alloc: Global) -> Arg<'a>
    ensures rule { rule_of result ≡ brief }
    ensures local { result.global ≡ false }
{
    Arg::new(alloc, "brief")
        .long("brief")
        .action(ArgAction::SetTrue)
}

// The command without its arguments.
fn bare_command<'a>(alloc: Global) -> Command<'a>
    ensures { app_of result ≡ bare }
{
    Command::new(alloc, "wpds")
        .no_binary_name(true)
        .version("1")
}

// Whether the runs are written, too.
fn traces_argument<'a>(alloc: Global) -> Arg<'a>
    ensures rule { rule_of result ≡ traces }
    ensures local { result.global ≡ false }
{
    Arg::new(alloc, "traces")
        .long("traces")
        .action(ArgAction::SetTrue)
}

/// The command as `clap` reads it, with help and version as `clap` adds them.
pub(crate) fn the_command<'a>(alloc: Global) -> Result<Command<'a>, AllocError>
    ensures { IfOk result (λ c. app_of c ≡ command) }
{
    bare_command(alloc)
        .arg(task_argument(alloc))?
        .arg(size_argument(alloc))?
        .arg(workers_argument(alloc))?
        .arg(by_argument(alloc))?
        .arg(brief_argument(alloc))?
        .arg(traces_argument(alloc))
}
