/// What new runs of a place are made of: a rule, and runs of earlier nodes.
#[derive(Clone, Copy, Debug)]
pub(crate) struct Parts {
    pub(crate) rule: Option<u32>,
    pub(crate) first: Option<u64>,
    pub(crate) second: Option<u64>,
}
