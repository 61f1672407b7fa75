//! The variables of a lowered program: the globals, then the return slots, then the local slots.

ghost use Rattle.std.specs.Prelude.{◌≡◌, ◌+◌, ◌≤◌, IsTrue, map};
ghost use Rattle.wpds_base.specs.Limits.{most_related};
ghost use Rattle.boolean_programs.specs.Lists.{Each};
ghost use Rattle.boolean_programs.specs.Programs.{Procedure, program_of, procedure_of, width};
ghost use Rattle.boolean_programs.specs.Structure.{IsRead, largest};
ghost use Rattle.boolean_lowering.specs.private.Layouts.{variables_in, slot_in, IsLayout};

use crate::layout::Layout;
use boolean_programs::{Proc, Program};
use lowering_laws::plans_are_within;

// How many values a procedure returns at most.
fn most_returned(procs: &[Proc]) -> u32
    ensures { result ≡ largest (map (λ (q : Procedure). q.returns) (map procedure_of procs.now)) }
{
    let mut most = 0;
    for owner in procs {
        most = most.max(owner.returns);
    }
    most
}

// How many names a procedure has at most.
fn most_names(procs: &[Proc]) -> usize
    requires { Each (λ (q : Procedure). width q ≤ most_related) (map procedure_of procs.now) }
    ensures { result ≡ largest (map width (map procedure_of procs.now)) }
{
    let mut most = 0;
    for owner in procs {
        most = most.max(owner.params.len() + owner.locals.len());
    }
    most
}

impl Layout {
    /// The variables of a program.
    pub(crate) fn of(program: &Program) -> Layout
        requires { IsRead (program_of program.now) }
        ensures { IsLayout (program_of program.now) result }
    {
        plans_are_within();
        let procs = program.procs.as_slice();
        Layout {
            globals: program.globals.len() as u32,
            returns: most_returned(procs),
            locals: most_names(procs) as u32,
        }
    }

    /// The first local slot.
    pub(crate) fn first_local(self) -> u32
        ensures { result ≡ self.globals + self.returns }
    {
        self.globals + self.returns
    }

    /// How many variables there are.
    pub(crate) fn variables(self) -> u32
        ensures value { result ≡ variables_in self }
        ensures few { result ≤ most_related }
    {
        self.globals + self.returns + self.locals
    }

    /// Whether two layouts are the same.
    pub(crate) fn is_same(self, other: Layout) -> bool
        ensures variables { IsTrue result → variables_in self ≡ variables_in other }
        ensures slots { IsTrue result → slot_in self ≡ slot_in other }
    {
        self.globals == other.globals
            && self.returns == other.returns
            && self.locals == other.locals
    }

    /// The variable of a name.
    pub(crate) fn slot(self, name: u32) -> u64
        ensures { result ≡ slot_in self name }
    {
        if name < self.globals {
            u64::from(name)
        } else {
            u64::from(name) + u64::from(self.returns)
        }
    }
}
