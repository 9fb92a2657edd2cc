//! Why a command didn't do its work: the status, and the line that is told.

ghost use Rattle.std.specs.Prelude.{◌≡◌};
ghost use Rattle.text_output.specs.Failures.{line_of, status_of};

use std::alloc::AllocError;

/// Why a command didn't do its work.
#[derive(Drop)]
pub enum Failure {
    /// A file couldn't be read, or is too long; the line names it.
    Input(Vec<u8>),
    /// A file couldn't be written; the line names it.
    NotWritten(Vec<u8>),
    /// The executable is refused; the line says why.
    Refused(Vec<u8>),
    /// The layout is refused; the line says where.
    Layout(Vec<u8>),
    /// The record is refused; the line says where.
    Record(Vec<u8>),
    /// The assembly text is refused; the line says where.
    Text(Vec<u8>),
    /// The output failed.
    Output,
    OutOfMemory,
}

impl From<AllocError> for Failure {
    ghost use Rattle.std.specs.Prelude.{◌≡◌};
    ghost use Rattle.text_output.specs.declared.failure.Failure.TheVariants.{OutOfMemory};

    ghost from_gives = { λ _ f. f ≡ OutOfMemory };

    fn from(_: AllocError) -> Failure {
        Failure::OutOfMemory
    }
}

impl Failure {
    /// The status that the program ends with.
    pub fn status(&self) -> u8
        ensures value { result ≡ status_of self.now }
    {
        match self {
            Failure::Input(_) | Failure::NotWritten(_) | Failure::Output => 3,
            Failure::Refused(_) => 4,
            Failure::OutOfMemory => 5,
            Failure::Layout(_) => 6,
            Failure::Record(_) => 7,
            Failure::Text(_) => 8,
        }
    }

    /// The line that is told, with its line feed.
    pub fn line(&self) -> &[u8]
        ensures value { result.now ≡ line_of self.now }
    {
        match self {
            Failure::Input(line)
            | Failure::NotWritten(line)
            | Failure::Refused(line)
            | Failure::Layout(line)
            | Failure::Record(line)
            | Failure::Text(line) => line,
            Failure::Output => b"shasta: cannot write output\n",
            Failure::OutOfMemory => b"shasta: out of memory\n",
        }
    }
}
