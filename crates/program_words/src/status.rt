ghost use Rattle.std.specs.Prelude.{◌≡◌};
ghost use Rattle.program_words.specs.Status.{number_of};

/// How a call of a program ends. What was written by then is told by the program's top call, clause
/// by clause.
#[derive(Clone, Copy)]
pub enum Status {
    /// All was written that was asked for.
    Done,
    /// The words are none of the program's forms. Nothing was read or written.
    Usage,
    /// The input, or the line of it that comes first, is no JSON text. Nothing was written.
    Unreadable,
    /// A rule refuses what was read. Its line was written behind what was written before, or a
    /// prefix of it where the output failed.
    Refused,
    /// The input failed.
    ReadFault,
    /// The output failed. A prefix was written.
    WriteFault,
    /// There was no memory.
    NoMemory,
    /// The input, or a line of it, is too long.
    TooLong,
}

impl Status {
    /// The number with which the program ends.
    pub fn number(self) -> u8
        ensures { result ≡ number_of self }
    {
        match self {
            Status::Done => 0,
            Status::Usage => 2,
            Status::Unreadable => 3,
            Status::Refused => 4,
            Status::ReadFault => 5,
            Status::WriteFault => 6,
            Status::NoMemory => 7,
            Status::TooLong => 8,
        }
    }
}
