ghost use Rattle.std.specs.Prelude.{◌<◌};
ghost use Rattle.config_patterns.specs.Membership.{PatternValue};
ghost use Rattle.saturation_laws.specs.Books.{BookValue, IsBook, IsClosed};
ghost use Rattle.saturation_laws.specs.Searches.{SearchValue, IsSearch, IsDone};
ghost use Rattle.path_sum.specs.declared.answer.Answer.{Answer as AnswerValue};
ghost use Rattle.path_sum.specs.Results.{IsSumOf};
ghost use Rattle.path_sum.specs.Saturated.{IsSaturatedAutomaton};

use saturation_laws::Direction;
use semiring_laws::Semiring;

/// Over a closed book there is an answer of a sum from each pattern, whether it is made or not.
pub fn sums_have_answers<S: Semiring, D: Direction<S>>()
    ensures { (b : BookValue S S.W S.Ret D) (pattern : PatternValue) →
        IsBook S.operations D.way b → IsClosed b → pattern.control < b.system.controls →
        (a : AnswerValue S S.W S.Ret) × IsSumOf S.operations D.way b pattern a }
{}

/// A search in which nothing waits is a finished saturation, which [`crate::sum_parts`] sums over.
pub fn finished_searches_are_saturated<S: Semiring, D: Direction<S>>()
    ensures { (v : SearchValue S S.W S.Ret D) → IsSearch S.operations D.way v → IsDone v →
        IsSaturatedAutomaton S.operations D.way v.system v.direction v.opening
        v.state.transitions v.state.nodes }
{}
