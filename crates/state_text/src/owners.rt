//! Which procedure a body line belongs to.

ghost use Rattle.std.specs.Prelude.{◌≡◌, ◌++◌, replicate, length, slice_get, IfOk, OnOk, option_map};
ghost use Rattle.boolean_programs.specs.Programs.{program_of};
ghost use Rattle.boolean_programs.specs.Structure.{IsRead};
ghost use Rattle.lowering_laws.specs.Lowering.{symbol_points};
ghost use Rattle.state_text.specs.States.{proc_at};
ghost use Rattle.state_text.specs.private.Owners.{owners_of};

use boolean_lowering::PointTable;
use boolean_programs::{Point, Proc, Program};
use lowering_laws::plans_are_within;
use std::alloc::Global;
use wpds_base::OutOfMemory;

// Adds a place so many times.
fn add_times(owners: &mut Vec<usize>, place: usize, times: usize) -> Result<(), OutOfMemory>
    ensures { OnOk result (owners.new.items ≡ owners.old.items ++ replicate times place) }
{
    for _time in 0..times {
        owners.push(place)?;
    }
    Ok(())
}

/// The places of the procedures of all body lines, in order.
pub(crate) fn owners_of(alloc: Global, program: &Program) -> Result<Vec<usize>, OutOfMemory>
    ensures { IfOk result (λ v. v.items ≡ owners_of (program_of program.now)) }
{
    let mut owners = Vec::new(alloc);
    for (place, owner) in program.procs.as_slice().iter().enumerate() {
        add_times(&mut owners, place, owner.body.len())?;
    }
    Ok(owners)
}

/// The procedure of a body line, by these places.
pub(crate) fn owner_at<'p>(
    program: &'p Program,
    points: &PointTable,
    owners: &[usize],
    line: u32,
) -> Option<&'p Proc>
    requires read { IsRead (program_of program.now) }
    requires points { points.now ≡ symbol_points (program_of program.now) }
    requires owners { owners.now ≡ owners_of (program_of program.now) }
    ensures { option_map (λ q. q.now) result ≡ proc_at program.now line }
{
    plans_are_within();
    let failed = false;
    let Some(place) = points.symbol(Point { line, failed }) else {
        return None;
    };
    let Some(owner) = owners.get(place as usize) else {
        return None;
    };
    program.procs.as_slice().get(*owner)
}
