ghost use Rattle.std.specs.Prelude.{◌≡◌, IfOk, IfSome};
ghost use Rattle.semiring_laws.specs.Semiring.{Fits};
ghost use Rattle.saturation_laws.specs.Jobs.{InputsFit};
ghost use Rattle.saturation_laws.specs.Views.{seen, seen_input};

use saturation_laws::{Input, Job, JobView};
use semiring_laws::Semiring;
use std::alloc::Global;
use weighted_automata::Entry;
use wpds_base::OutOfMemory;

// A copy of an input, where there is one.
fn copy_input<S: Semiring>(
    alloc: Global,
    semiring: &S,
    input: Option<&Input<S>>,
) -> Result<Option<Input<S>>, OutOfMemory>
    requires { IfSome (seen_input input) (λ t. Fits (S.operations semiring.now) t.weight) }
    ensures { IfOk result (λ copy. copy ≡ seen_input input.entry) }
{
    let Some(entry) = input else {
        return Ok(None);
    };
    Ok(Some(Entry {
        place: entry.place,
        weight: semiring.copy(alloc, &entry.weight)?,
        node: entry.node,
    }))
}

/// The job that a view shows, with copies of its inputs.
pub(crate) fn copy_job<S: Semiring>(
    alloc: Global,
    semiring: &S,
    job: &JobView<'_, S>,
) -> Result<Job<S>, OutOfMemory>
    requires { InputsFit (S.operations semiring.now) (seen job.now) }
    ensures { IfOk result (λ j. j ≡ seen job.now) }
{
    Ok(Job {
        kind: job.kind,
        rule: job.rule,
        frame: job.frame,
        first: copy_input(alloc, semiring, job.first)?,
        second: copy_input(alloc, semiring, job.second)?,
        goal: job.goal,
    })
}
