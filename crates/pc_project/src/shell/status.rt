//! How a top call can end.

ghost use Rattle.std.specs.Prelude.{◌≡◌};

/// How a top call ends. Each call has some of these statuses.
#[derive(Clone, Copy, Debug, PartialEq, Eq)]
pub enum Status {
    /// The complete answer was written; for a check, the certificate is certified.
    Done = 0,
    /// The deck is refused.
    Refused = 1,
    /// The words have none of the forms that the call accepts.
    Usage = 2,
    /// Memory ran out.
    OutOfMemory = 3,
    /// The deck, or what was read after it, could not be read.
    ReadFault = 4,
    /// The answer, or the line that explains why there is none, could not be written.
    WriteFault = 5,
    /// The certificate has a failing point.
    NotCertified = 6,
    /// The input is longer than an input may be.
    TooLong = 8,
}

impl Status {
    ghost use Rattle.pc_project.specs.inside.shell.Status.{exit_code_of};

    /// Returns the exit status of the program.
    pub fn code(self) -> u8
        ensures { result ≡ exit_code_of self }
    {
        self as u8
    }
}
