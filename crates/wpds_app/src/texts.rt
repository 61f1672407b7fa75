//! What is written for words alone.

ghost use Rattle.std.specs.Prelude.{◌≡◌};
ghost use Rattle.wpds_app.specs.Commands.{help_text, usage_text, version_text};

const USAGE: &str =
    "usage: wpds check [--workers N] [--by pre|post] [--brief] [--traces]\nusage: wpds gen N [--workers N] [--by pre|post]\n";

const VERSION: &str = "wpds 0.1.0\n";

const HELP: &str =
    "Says what the runs of a pushdown system are worth, or which points of a Boolean program
are reached, with runs that show it.

usage: wpds check [--workers N] [--by pre|post] [--brief] [--traces]
usage: wpds gen N [--workers N] [--by pre|post]

check            answers the queries of the document on standard input
gen N            answers a ladder of N rungs, from 1 to 10000, that it makes itself

--workers N      how many workers saturate, from 1 to 64 (1 if it is not given): two and
                 more have a thread each, and are quicker only where single weights are
                 heavy to work with (relations between many variables, Boolean programs
                 with large relations)
--by pre|post    backwards from where runs end, or forwards from where they begin
                 (pre if it is not given)
--brief          without the listing of the runs that a value combines; not with gen
--traces         these runs rule by rule, or of a program the states of one; not with gen
-h, --help       writes this text
-V, --version    writes the version

example: wpds check --by post --brief < examples/cost.wpds
";

/// What is written for words that are no command.
pub(crate) fn usage() -> &'static str
    ensures { result.now ≡ usage_text }
{
    USAGE
}

/// What `--version` writes.
pub(crate) fn version() -> &'static str
    ensures { result.now ≡ version_text }
{
    VERSION
}

/// What `--help` writes.
pub(crate) fn help() -> &'static str
    ensures { result.now ≡ help_text }
{
    HELP
}
