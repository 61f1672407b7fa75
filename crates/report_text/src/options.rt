ghost use Rattle.std.specs.Prelude.{◌↔◌, IsTrue};
ghost use Rattle.report_text.specs.Reports.{IsBrief};

use witness_graph::Side;

/// How a document is answered.
#[derive(Clone, Copy, Debug, PartialEq, Eq)]
pub struct Options {
    /// Whether the listings are left out.
    pub brief: bool,
    /// Whether the runs are written, too.
    pub traces: bool,
    /// Which way the saturation goes.
    pub by: Side,
    /// How many workers saturate, from 1 to 64.
    pub workers: u32,
}

impl Options {
    /// Whether values alone are written, so that no listing has to be made.
    pub fn is_brief(self) -> bool
        ensures { IsTrue result ↔ IsBrief self }
    {
        self.brief && !self.traces
    }
}
