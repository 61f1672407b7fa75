//! What a walk says of the points that a program asks.

ghost use Rattle.boolean_programs.specs.Programs.{program_of};
ghost use Rattle.boolean_programs.specs.Structure.{IsRead};

use crate::walk::walk_through;
use boolean_programs::Program;
use std::alloc::Global;
use wpds_base::OutOfMemory;

/// What the walk through a program says of its queries; nothing where it did not come to an end.
pub(crate) fn report(alloc: Global, program: &Program) -> Result<Option<String>, OutOfMemory>
    requires { IsRead (program_of program.now) }
{
    let walk = walk_through(alloc, program)?;
    if !walk.is_whole() {
        return Ok(None);
    }
    let mut text = String::new(alloc);
    for (place, point) in program.queries.as_slice().iter().enumerate() {
        let number = place.saturating_add(1);
        let value = if walk.reaches(*point) {
            "reachable"
        } else {
            "unreachable"
        };
        text.push_str(format!(in alloc; "query {number}: {value}\n")?.as_str())?;
    }
    Ok(Some(text))
}
