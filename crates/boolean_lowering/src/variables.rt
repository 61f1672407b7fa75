ghost use Rattle.std.specs.Prelude.{◌≡◌, ◌≤◌};
ghost use Rattle.wpds_base.specs.Limits.{most_related};
ghost use Rattle.boolean_programs.specs.Programs.{program_of};
ghost use Rattle.boolean_programs.specs.Structure.{IsRead};
ghost use Rattle.lowering_laws.specs.Lowering.{first_local, variables};

use crate::layout::Layout;
use boolean_programs::Program;

/// The variables of a lowered program: the globals, then the returned values, then the names of the
/// procedure at work.
#[derive(Clone, Copy, Debug)]
pub struct Variables {
    /// The variable of a procedure's first name.
    pub first_local: u32,
    /// How many variables there are.
    pub count: u32,
}

/// The variables of a program's lowering. It looks at each procedure once.
pub fn variables_of(program: &Program) -> Variables
    requires { IsRead (program_of program.now) }
    ensures first_local { result.first_local ≡ first_local (program_of program.now) }
    ensures count { result.count ≡ variables (program_of program.now) }
    ensures few { result.count ≤ most_related }
{
    let layout = Layout::of(program);
    Variables {
        first_local: layout.first_local(),
        count: layout.variables(),
    }
}
