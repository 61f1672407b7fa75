ghost use Rattle.std.specs.Prelude.{◌≡◌};
ghost use Rattle.poststar.specs.private.Passes.{kind_of, pops_of, pushed_by};

use saturation_laws::JobKind;

/// A pass over the rules, for jobs of one kind.
#[derive(Clone, Copy, Debug, PartialEq, Eq)]
pub(crate) enum Pass {
    /// Step rules.
    Steps,
    /// Pop rules that return to a push rule.
    Returns,
    /// All other pop rules.
    Pops,
    /// What push rules leave on top.
    Enters,
    /// What push rules leave below.
    Leaves,
}

impl Pass {
    /// The pass over the pop rules of a transition, which leads to the middle of a push rule where one is given. The other
    /// pass over them draws nothing from it.
    pub(crate) fn pops_of(frame: Option<u32>) -> Pass
        ensures { result ≡ pops_of frame }
    {
        match frame {
            Some(_) => Pass::Returns,
            None => Pass::Pops,
        }
    }

    /// How many symbols the rules of the pass have on the right.
    pub(crate) fn pushed(self) -> usize
        ensures { result ≡ pushed_by self }
    {
        match self {
            Pass::Returns | Pass::Pops => 0,
            Pass::Steps => 1,
            Pass::Enters | Pass::Leaves => 2,
        }
    }

    pub(crate) fn kind(self) -> JobKind
        ensures { result ≡ kind_of self }
    {
        match self {
            Pass::Steps => JobKind::PostStep,
            Pass::Returns => JobKind::PostPopMiddle,
            Pass::Pops => JobKind::PostPopOther,
            Pass::Enters => JobKind::PostEnter,
            Pass::Leaves => JobKind::PostLeave,
        }
    }
}
