ghost use Rattle.std.specs.Prelude.{◌≡◌};

use semiring_laws::Semiring;
use weighted_automata::{Entry, Place};
use wpds_base::Sequence;

/// The rows of the two tables of saturation rules, backwards and forwards (Schwoon 2002; Reps, Schwoon, Jha, Melski 2005).
#[derive(Clone, Copy, Debug, PartialEq, Eq)]
pub enum JobKind {
    /// Backwards, a step rule.
    PreStep,
    /// Backwards, a push rule whose callee comes to a control, from which the second input goes on.
    PrePushControl,
    /// Backwards, a push rule whose callee comes to any other state.
    PrePushOther,
    /// Forwards, a step rule.
    PostStep,
    /// Forwards, a pop rule over a transition to the middle state of a push rule, to which it returns.
    PostPopMiddle,
    /// Forwards, a pop rule over any other transition.
    PostPopOther,
    /// Forwards, what a push rule leaves on top, which leads to its middle state.
    PostEnter,
    /// Forwards, what a push rule leaves below, from its middle state on.
    PostLeave,
    /// Forwards, an empty transition and one from the state that it leads to.
    PostGlue,
}

/// A transition as it was when a job was listed.
pub type Input<S> = Entry<S>;

/// A consequence that is still to be drawn: a row of a table, with the transitions that it starts from.
#[derive(Drop)]
pub struct Job<S: Semiring> {
    /// Which row it is.
    pub kind: JobKind,
    /// The number of the row's rule, where it has one.
    pub rule: Option<u32>,
    /// The number of the push rule that a pop returns to, in the row where a pop meets one.
    pub frame: Option<u32>,
    /// Its input. Where two transitions meet, the one that is read first; in a glue, the one that reads a symbol.
    pub first: Option<Entry<S>>,
    /// The other input, where two transitions meet.
    pub second: Option<Entry<S>>,
    /// The place that it gives a weight to.
    pub goal: Place,
}

/// Jobs, in order.
pub type JobList<S> = Sequence<Job<S>>;
