ghost use Rattle.std.specs.Prelude.{◌≡◌};
ghost use Rattle.wpds_app.specs.Statuses.{status_code};

/// How a run of the program ended.
#[derive(Clone, Copy, Debug, PartialEq, Eq)]
pub enum Status {
    /// The document was read and answered, and the whole report is written.
    Answered,
    /// The words are no command, and the usage lines are written.
    WordsRefused,
    /// The source failed, and nothing is written.
    ReadFault,
    /// The sink failed, and a beginning of the text is written.
    WriteFault,
    /// The document is refused, and the line that says so is written.
    DocumentRefused,
    /// There was no memory, and nothing is written.
    OutOfMemory,
}

impl Status {
    /// The status with which the program ends.
    pub fn code(self) -> u8
        ensures { result ≡ status_code self }
    {
        match self {
            Status::Answered => 0,
            Status::WordsRefused => 2,
            Status::ReadFault => 3,
            Status::WriteFault => 4,
            Status::DocumentRefused => 5,
            Status::OutOfMemory => 6,
        }
    }
}
