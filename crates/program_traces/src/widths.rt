//! How many names the procedure of each body line has.

ghost use Rattle.std.specs.Prelude.{◌≡◌, ◌≤◌, ◌++◌, map, replicate, IfOk, OnOk};
ghost use Rattle.wpds_base.specs.Limits.{most_related};
ghost use Rattle.boolean_programs.specs.Lines.{code};
ghost use Rattle.boolean_programs.specs.Programs.{procedure_of, program_of, width};
ghost use Rattle.boolean_programs.specs.Structure.{IsRead};
ghost use Rattle.program_traces.specs.private.Readers.{line_width};

use boolean_programs::{Proc, Program};
use std::alloc::Global;
use wpds_base::OutOfMemory;

// How many names a procedure has.
fn width(owner: &Proc) -> usize
    requires { width (procedure_of owner.now) ≤ most_related }
    ensures { result ≡ width (procedure_of owner.now) }
{
    owner.params.len() + owner.locals.len()
}

fn push_copies(list: &mut Vec<usize>, value: usize, count: usize) -> Result<(), OutOfMemory>
    ensures { OnOk result (list.new.items ≡ list.old.items ++ replicate count value) }
{
    for _done in 0..count {
        list.push(value)?;
    }
    Ok(())
}

/// For each body line, in order, how many names its procedure has.
pub(crate) fn widths_of(alloc: Global, program: &Program) -> Result<Vec<usize>, OutOfMemory>
    requires { IsRead (program_of program.now) }
    ensures { let p = program_of program.now in
        IfOk result (λ v. v.items ≡ map (line_width p) (code p)) }
{
    let mut widths = Vec::new(alloc);
    for owner in program.procs.as_slice() {
        push_copies(&mut widths, width(owner), owner.body.len())?;
    }
    Ok(widths)
}
