ghost use Rattle.std.specs.Prelude.{◌≡◌, ◌<◌, ℕ, Some, IfOk, length, slice_get};
ghost use Rattle.relation_weights.specs.RelationNodes.{HasMore, IsReference, IsReturnBy, relation_at};

use key_rows::Keyed;
use relation_weights::ReturnNodes;

/// The reference of the weight of a rule.
#[derive(Clone, Copy, Debug)]
pub(crate) struct RuleWeight {
    pub(crate) rule: u32,
    pub(crate) weight: u32,
}

impl Keyed<u32> for RuleWeight {
    ghost key_of = { λ w. w.rule };

    fn key(&self) -> u32 {
        self.rule
    }
}

/// The references by which the return map of a rule is applied.
#[derive(Clone, Copy, Debug)]
pub(crate) struct RuleReturn {
    pub(crate) rule: u32,
    pub(crate) by: ReturnNodes,
}

impl Keyed<u32> for RuleReturn {
    ghost key_of = { λ r. r.rule };

    fn key(&self) -> u32 {
        self.rule
    }
}
