ghost use Rattle.std.specs.Prelude.{◌≡◌, ◌<◌, ◌≤◌, IfOk, IfSome, map, option_map};
ghost use Rattle.std.specs.String.{string_bytes};
ghost use Rattle.clap.specs.Words.{first_of, found_of, rows_of};
ghost use Rattle.wpds_base.specs.Limits.{most_rungs, most_seats};
ghost use Rattle.command_words.specs.Commands as meant;

use crate::command::the_command;
use crate::{Generation, Request};
use clap::ArgMatches;
use clap::error::ErrorKind;
use itoa::Buffer;
use report_text::Options;
use std::alloc::Global;
use witness_graph::Side;
use wpds_base::{MOST_RUNGS, MOST_SEATS, OutOfMemory};

// The number from 1 to the most that a text writes, without a sign or a zero in front.
fn number_up_to(most: u32, text: &str) -> Option<u32>
    requires { most ≤ most_rungs }
    ensures value { result ≡ meant.number_up_to most text.now }
    ensures within { IfSome result (λ n. (0 < n) × (n ≤ most)) }
{
    let Ok(number) = text.parse::<u32>() else {
        return None;
    };
    if number == 0 || number > most {
        return None;
    }
    if Buffer::new().format(number) != text {
        return None;
    }
    Some(number)
}

fn side_named(text: &str) -> Option<Side>
    ensures { result ≡ meant.side_named text.now }
{
    match text {
        "pre" => Some(Side::Pre),
        "post" => Some(Side::Post),
        _ => None,
    }
}

// The value of an argument, if it has one.
fn given<'a>(matches: &ArgMatches<'a>, id: &str) -> Option<&'a str>
    ensures { option_map (λ text. text.now) result
        ≡ first_of id.now (rows_of (found_of matches.now)) }
{
    matches.get_str(id)
}

// How many workers are asked for.
fn worker_count(matches: &ArgMatches<'_>) -> Option<u32>
    ensures value { result ≡ meant.worker_count (rows_of (found_of matches.now)) }
    ensures within { IfSome result (λ n. (0 < n) × (n ≤ most_seats)) }
{
    number_up_to(MOST_SEATS, given(matches, "workers")?)
}

// Which way the saturation is to go.
fn direction(matches: &ArgMatches<'_>) -> Option<Side>
    ensures { result ≡ meant.direction (rows_of (found_of matches.now)) }
{
    side_named(given(matches, "by")?)
}

// Whether a flag is given.
fn is_set(matches: &ArgMatches<'_>, flag: &str) -> bool
    ensures { result ≡ meant.is_set (rows_of (found_of matches.now)) flag.now }
{
    match given(matches, flag) {
        Some(text) => text == "true",
        None => false,
    }
}

// Whether the listings are left out.
fn is_brief(matches: &ArgMatches<'_>) -> bool
    ensures { result ≡ meant.is_brief (rows_of (found_of matches.now)) }
{
    is_set(matches, "brief")
}

// Whether the runs are written, too.
fn has_traces(matches: &ArgMatches<'_>) -> bool
    ensures { result ≡ meant.has_traces (rows_of (found_of matches.now)) }
{
    is_set(matches, "traces")
}

// What `check` asks for, which takes no size.
fn checking(matches: &ArgMatches<'_>) -> Option<Request>
    ensures request { result ≡ meant.checking (rows_of (found_of matches.now)) }
    ensures within { IfSome result meant.IsWithin }
{
    if given(matches, "size").is_some() {
        return None;
    }
    let by = direction(matches)?;
    let workers = worker_count(matches)?;
    Some(Request::Check(Options {
        brief: is_brief(matches),
        traces: has_traces(matches),
        by,
        workers,
    }))
}

// What `gen` asks for, which needs a size, and has neither a listing to leave out nor runs to write.
fn generating(matches: &ArgMatches<'_>) -> Option<Request>
    ensures request { result ≡ meant.generating (rows_of (found_of matches.now)) }
    ensures within { IfSome result meant.IsWithin }
{
    if is_brief(matches) || has_traces(matches) {
        return None;
    }
    let rungs = number_up_to(MOST_RUNGS, given(matches, "size")?)?;
    let by = direction(matches)?;
    let workers = worker_count(matches)?;
    Some(Request::Generate(Generation { rungs, by, workers }))
}

// What is asked for where `clap` gives these matches.
fn asked(matches: &ArgMatches<'_>) -> Option<Request>
    ensures request { result ≡ meant.asked (rows_of (found_of matches.now)) }
    ensures within { IfSome result meant.IsWithin }
{
    match given(matches, "task")? {
        "check" => checking(matches),
        "gen" => generating(matches),
        _ => None,
    }
}

// What is asked for where it gives none.
fn asked_instead(kind: ErrorKind) -> Option<Request>
    ensures request { result ≡ meant.asked_instead kind }
    ensures within { IfSome result meant.IsWithin }
{
    match kind {
        ErrorKind::DisplayHelp => Some(Request::Help),
        ErrorKind::DisplayVersion => Some(Request::Version),
        _ => None,
    }
}

/// What the words behind the program's name ask for, if they are a command, as `clap` reads them. It
/// is refused only when out of memory.
///
/// The command has a task, `check` or `gen`, and a size, which `gen` needs and `check` does not take. The
/// options may stand anywhere: `--workers N`, from 1 to 64, `--by pre` or `--by post`, and `--brief` and
/// `--traces`, which `gen` does not take. A number has no sign and no zero in front. `--help` or `--version` is asked for
/// where `clap` meets it before a fault.
pub fn read_words(alloc: Global, words: &[String]) -> Result<Option<Request>, OutOfMemory>
    ensures request { IfOk result (λ r. r ≡ meant.request_of (map string_bytes words.now)) }
    ensures within { IfOk result (λ r. IfSome r meant.IsWithin) }
{
    let command = the_command(alloc)?;
    match command.try_get_matches_from(words) {
        Ok(matches) => Ok(asked(&matches)),
        Err(error) => match error.kind() {
            ErrorKind::OutOfMemory => Err(OutOfMemory),
            kind => Ok(asked_instead(kind)),
        },
    }
}
