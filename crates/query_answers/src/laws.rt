ghost use Rattle.std.specs.Prelude.{◌≡◌, ◌<◌, ◌≤◌, ℕ, All, List, length};
ghost use Rattle.wpds_base.specs.Limits.{most_items};
ghost use Rattle.config_patterns.specs.Membership.{PatternValue};
ghost use Rattle.pattern_openings.specs.PatternOpenings.{IsOver};
ghost use Rattle.pushdown_rules.specs.Pushdown.{Pushdown, IsSystem};
ghost use Rattle.witness_graph.specs.declared.node.Side.{Side as SideValue};
ghost use Rattle.worker_pool.specs.Workers.{IsWorkerCount};
ghost use Rattle.query_answers.specs.Answering.{AreValues};
ghost use Rattle.query_answers.specs.private.Answered.{AreAnswered};

use path_sum::sums_have_answers;
use pattern_openings::openings_read_members;
use poststar::Post;
use prestar::Pre;
use pushdown_rules::answers_agree;
use semiring_laws::Semiring;
use worker_pool::one_worker_closes;

/// What answers queries is the values of their answers, by either side and any count of workers: values are unique, and each query
/// has an answer.
pub(crate) fn answers_are_values<S: Semiring>()
    ensures { (p : Pushdown S S.W S.Ret) (side : SideValue) (workers : ℕ) (from : PatternValue)
        (tos : List PatternValue) (values : List S.W) →
        IsSystem S.operations p → IsWorkerCount workers →
        length from.items ≤ most_items → IsOver p.controls p.symbols from →
        All (IsOver p.controls p.symbols) tos →
        AreAnswered S.operations p from tos values →
        AreValues S.operations p side workers from tos values }
{
    openings_read_members();
    answers_agree::<S>();
    sums_have_answers::<S, Pre>();
    sums_have_answers::<S, Post>();
    one_worker_closes::<S, Pre>();
    one_worker_closes::<S, Post>();
}
