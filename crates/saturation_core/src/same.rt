ghost use Rattle.std.specs.Prelude.{◌≡◌, ◌↔◌, IsTrue, All, IfSome, slice_get, Some};
ghost use Rattle.semiring_laws.specs.Semiring.{Fits};
ghost use Rattle.saturation_laws.specs.Jobs.{InputsFit};
ghost use Rattle.saturation_laws.specs.Directions.{AgreeOn};
ghost use Rattle.saturation_core.specs.Settled.{jobs_out};

use pushdown_rules::{System, same_rule};
use saturation_laws::{Holding, Job};
use semiring_laws::Semiring;
use weighted_automata::Entry;
use witness_graph::Side;

/// Whether two sides are one.
pub(crate) fn same_side(one: Side, other: Side) -> bool
    ensures { IsTrue result ↔ (one ≡ other) }
{
    one == other
}

// Whether two inputs of jobs are equal.
fn same_input<S: Semiring>(semiring: &S, one: &Option<Entry<S>>, other: &Option<Entry<S>>) -> bool
    requires one { IfSome one.now (λ t. Fits (S.operations semiring.now) t.weight) }
    requires other { IfSome other.now (λ t. Fits (S.operations semiring.now) t.weight) }
    ensures { IsTrue result ↔ (one.now ≡ other.now) }
{
    match (one, other) {
        (None, None) => true,
        (Some(x), Some(y)) => {
            x.place == y.place && semiring.same(&x.weight, &y.weight) && x.node == y.node
        }
        _ => false,
    }
}

// Whether two jobs are equal.
fn same_job<S: Semiring>(semiring: &S, one: &Job<S>, other: &Job<S>) -> bool
    requires one { InputsFit (S.operations semiring.now) one.now }
    requires other { InputsFit (S.operations semiring.now) other.now }
    ensures { IsTrue result ↔ (one.now ≡ other.now) }
{
    one.kind == other.kind
        && one.rule == other.rule
        && one.frame == other.frame
        && same_input(semiring, &one.first, &other.first)
        && same_input(semiring, &one.second, &other.second)
        && one.goal == other.goal
}

// Whether two lists of jobs are equal.
fn same_jobs<S: Semiring>(semiring: &S, one: &[Job<S>], other: &[Job<S>]) -> bool
    requires one { All (InputsFit (S.operations semiring.now)) one.now }
    requires other { All (InputsFit (S.operations semiring.now)) other.now }
    ensures { IsTrue result ↔ (one.now ≡ other.now) }
{
    if one.len() != other.len() {
        return false;
    }
    for i in 0..one.len() {
        if !same_job(semiring, &one[i], &other[i]) {
            return false;
        }
    }
    true
}

/// Whether a seat's hand lists these jobs.
pub(crate) fn lists<S: Semiring>(
    semiring: &S,
    out: &[Option<Holding<S>>],
    seat: usize,
    jobs: &[Job<S>],
) -> bool
    requires out { IfSome (jobs_out seat out.now) (All (InputsFit (S.operations semiring.now))) }
    requires jobs { All (InputsFit (S.operations semiring.now)) jobs.now }
    ensures { IsTrue result ↔ (jobs_out seat out.now ≡ Some jobs.now) }
{
    if seat >= out.len() {
        return false;
    }
    match &out[seat] {
        Some(held) => same_jobs(semiring, held.jobs.as_list().as_slice(), jobs),
        None => false,
    }
}

// Whether two systems over one semiring have the same rule of this number, or neither has one.
fn same_at<S: Semiring>(one: &System<S>, other: &System<S>, k: u32) -> bool
    requires { one.now.semiring ≡ other.now.semiring }
    ensures { IsTrue result ↔ (slice_get one.now.rules k ≡ slice_get other.now.rules k) }
{
    match (k < one.rules(), k < other.rules()) {
        (true, true) => same_rule(one.semiring(), one.rule(k), other.rule(k)),
        (false, false) => true,
        _ => false,
    }
}

// The same where a number is given.
fn same_named<S: Semiring>(one: &System<S>, other: &System<S>, k: Option<u32>) -> bool
    requires { one.now.semiring ≡ other.now.semiring }
    ensures { IsTrue result
        ↔ IfSome k (λ j. slice_get one.now.rules j ≡ slice_get other.now.rules j) }
{
    match k {
        Some(k) => same_at(one, other, k),
        None => true,
    }
}

// Whether two systems over one semiring have the same rules where a job names one.
fn agrees<S: Semiring>(one: &System<S>, other: &System<S>, job: &Job<S>) -> bool
    requires { one.now.semiring ≡ other.now.semiring }
    ensures { IsTrue result ↔ AgreeOn one.now other.now job.now }
{
    same_named(one, other, job.rule) && same_named(one, other, job.frame)
}

/// Whether two systems over one semiring have the same rules where one of the jobs names one. No other rule is compared.
pub(crate) fn agree<S: Semiring>(one: &System<S>, other: &System<S>, jobs: &[Job<S>]) -> bool
    requires { one.now.semiring ≡ other.now.semiring }
    ensures { IsTrue result ↔ All (AgreeOn one.now other.now) jobs.now }
{
    for job in jobs {
        if !agrees(one, other, job) {
            return false;
        }
    }
    true
}
