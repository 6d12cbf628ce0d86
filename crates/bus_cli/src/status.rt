//! How the program ended.
ghost use Rattle.std.specs.Prelude.{◌≡◌};
ghost use Rattle.bus_cli.specs.Ends.{code_of};

/// How the program ended.
#[derive(Clone, Copy, PartialEq, Eq, Debug)]
pub enum Status {
    /// What was asked for was written: the report, the answer that the trace is lawful, the transcript, the dump or the
    /// trace text.
    Done = 0,
    /// The words are none of the program's.
    Words = 1,
    /// The input is no scenario: the line tells its first line with a reason, and the lowest reason there.
    Refused = 2,
    /// A read failed.
    Read = 3,
    /// A write of what was asked for failed.
    Write = 4,
    /// There was no memory left.
    Memory = 5,
    /// The trace breaks a rule: the line tells its first row that does, and the lowest rule there.
    Broken = 6,
    /// The input is no trace text: the line tells its first line that breaks the form.
    BadTrace = 7,
    /// The input is no value change dump: the line tells the line of the first token that breaks its form.
    BadDump = 10,
}

impl Status {
    /// The exit status of the program.
    pub fn code(self) -> u8
        ensures { result ≡ code_of self }
    {
        match self {
            Status::Done => 0,
            Status::Words => 1,
            Status::Refused => 2,
            Status::Read => 3,
            Status::Write => 4,
            Status::Memory => 5,
            Status::Broken => 6,
            Status::BadTrace => 7,
            Status::BadDump => 10,
        }
    }
}
