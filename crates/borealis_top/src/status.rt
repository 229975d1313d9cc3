//! How a command ends.
ghost use Rattle.std.specs.Prelude.{◌≡◌};
ghost use Rattle.std.specs.Process.{exit_status};
ghost use Rattle.borealis_top.specs.Codes.{code_of};

use std::process::ExitCode;

/// How a command ended.
#[derive(Clone, Copy, PartialEq, Eq, Debug)]
pub enum Status {
    /// The whole text was written.
    Done,
    /// The words are no command.
    Words,
    /// The input is refused.
    Refused,
    NoMemory,
    /// A client is not settled after all quiet phases.
    NotSettled,
    /// The input could not be read.
    ReadFault,
    /// A sink did not take the text or the line.
    WriteFault,
    /// The run passed a limit.
    TooLong,
}

impl Status {
    /// The exit status of the program.
    pub fn exit(&self) -> ExitCode
        ensures { exit_status result ≡ code_of self.now }
    {
        ExitCode::from(self.code())
    }

    /// Its number: 0 to 7 in the order of the variants.
    fn code(&self) -> u8
        ensures { result ≡ code_of self.now }
    {
        match self {
            Status::Done => 0,
            Status::Words => 1,
            Status::Refused => 2,
            Status::NoMemory => 3,
            Status::NotSettled => 4,
            Status::ReadFault => 5,
            Status::WriteFault => 6,
            Status::TooLong => 7,
        }
    }
}
