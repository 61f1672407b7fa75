ghost use Rattle.std.specs.Prelude.{◌≡◌, ◌↔◌, IsTrue, MatchResult};
ghost use Rattle.wpds_app.specs.Running.{Means, IsProgram, IsUnread};

use boolean_programs::Program;
use boolean_syntax::read_program;
use document_forms::{Document, Language};
use document_reader::{language, read_system};
use document_systems::Names;
use program_laws::programs_are_refused_by_lines;
use std::alloc::Global;
use wpds_base::MOST_BYTES;
use wpds_port::ReadFault;

/// What an input means that is read.
#[derive(Drop)]
pub enum Input {
    /// The document of a system.
    System(Document<Names>),
    /// A Boolean program.
    Program(Program),
}

// Whether the input is a program, by its header.
fn is_program(input: &[u8]) -> bool
    ensures { IsTrue result ↔ IsProgram input.now }
{
    input.len() <= MOST_BYTES && language(input) == Some(Language::Program)
}

// What a program means, or why it is refused.
fn program_of(alloc: Global, input: &[u8]) -> Result<Input, ReadFault>
    requires { IsProgram input.now }
    ensures { MatchResult result (Means input.now) (IsUnread input.now) }
{
    programs_are_refused_by_lines();
    match read_program(alloc, input) {
        Ok(program) => Ok(Input::Program(program)),
        Err(fault) => Err(fault),
    }
}

/// What an input means, or why it is refused.
pub(crate) fn meaning_of(alloc: Global, input: &[u8]) -> Result<Input, ReadFault>
    ensures { MatchResult result (Means input.now) (IsUnread input.now) }
{
    if is_program(input) {
        return program_of(alloc, input);
    }
    match read_system(alloc, input) {
        Ok(document) => Ok(Input::System(document)),
        Err(fault) => Err(fault),
    }
}
