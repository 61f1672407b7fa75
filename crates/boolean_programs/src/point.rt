use wpds_base::Sequence;

/// A body line, or the failure of the assert on it.
#[derive(Clone, Copy, Debug, PartialEq, Eq)]
pub struct Point {
    /// The number of the line in the document.
    pub line: u32,
    pub failed: bool,
}

/// The points that a program's queries ask for, in the order of their lines.
pub type ProgramQueries = Sequence<Point>;
