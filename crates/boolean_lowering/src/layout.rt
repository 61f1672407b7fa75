//! How many variables of each kind a lowered program has.

ghost use Rattle.std.specs.Prelude.{◌+◌, ◌≤◌};
ghost use Rattle.wpds_base.specs.Limits.{most_related};

/// How many variables of each kind there are, at most 24 together.
#[derive(Clone, Copy)]
pub(crate) struct Layout {
    pub(crate) globals: u32,
    pub(crate) returns: u32,
    pub(crate) locals: u32,
    ghost few: { globals + returns + locals ≤ most_related },
}
