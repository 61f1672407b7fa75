ghost use Rattle.std.specs.Prelude.{◌≡◌, option_map};
ghost use Rattle.saturation_laws.specs.Jobs.{node_of, named_rule, named_first};
ghost use Rattle.saturation_laws.specs.Views.{seen, seen_input, change_worth};

use crate::{Change, Job, JobKind};
use semiring_laws::Semiring;
use weighted_automata::{Entry, Place};

/// A job whose inputs stand where they are: no weight is copied. Its fields are those of `Job`.
#[derive(Drop)]
pub struct JobView<'t, S: Semiring> {
    pub kind: JobKind,
    pub rule: Option<u32>,
    pub frame: Option<u32>,
    pub first: Option<&'t Entry<S>>,
    pub second: Option<&'t Entry<S>>,
    pub goal: Place,
}

// An input where it stands.
fn input_view<S: Semiring>(input: &Option<Entry<S>>) -> Option<&Entry<S>>
    ensures { seen_input result ≡ input.now }
{
    match input {
        Some(entry) => Some(entry),
        None => None,
    }
}

// The node of an input.
fn input_node<S: Semiring>(input: Option<&Entry<S>>) -> Option<u64>
    ensures { result ≡ option_map node_of (seen_input input.entry) }
{
    match input {
        Some(entry) => Some(entry.node),
        None => None,
    }
}

impl<S: Semiring> Job<S> {
    /// The same job, with its inputs where they stand.
    pub fn view(&self) -> JobView<'_, S>
        ensures { seen result ≡ self.now }
    {
        JobView {
            kind: self.kind,
            rule: self.rule,
            frame: self.frame,
            first: input_view(&self.first),
            second: input_view(&self.second),
            goal: self.goal,
        }
    }
}

impl<'t, S: Semiring> JobView<'t, S> {
    /// The rule that its node names.
    pub fn named_rule(&self) -> Option<u32>
        ensures { result ≡ named_rule (seen self.now) }
    {
        match self.kind {
            JobKind::PostLeave => None,
            JobKind::PreStep
            | JobKind::PrePushControl
            | JobKind::PrePushOther
            | JobKind::PostStep
            | JobKind::PostPopMiddle
            | JobKind::PostPopOther
            | JobKind::PostEnter
            | JobKind::PostGlue => self.rule,
        }
    }

    /// The node that its node names first.
    pub fn first_node(&self) -> Option<u64>
        ensures { result ≡ option_map node_of (named_first (seen self.now)) }
    {
        match self.kind {
            JobKind::PostEnter => None,
            JobKind::PreStep
            | JobKind::PrePushControl
            | JobKind::PrePushOther
            | JobKind::PostStep
            | JobKind::PostPopMiddle
            | JobKind::PostPopOther
            | JobKind::PostLeave
            | JobKind::PostGlue => input_node(self.first),
        }
    }

    /// The node of its other input.
    pub fn second_node(&self) -> Option<u64>
        ensures { result ≡ option_map node_of (seen self.now).second }
    {
        input_node(self.second)
    }

    /// The change that it makes, where it is worth this weight.
    pub fn change(&self, weight: S::W) -> Change<S>
        ensures { result ≡ change_worth (seen self.now) weight }
    {
        Change {
            goal: self.goal,
            weight,
            rule: self.named_rule(),
            first: self.first_node(),
            second: self.second_node(),
        }
    }
}
