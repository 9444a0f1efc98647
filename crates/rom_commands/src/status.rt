//! The program's exit status.
ghost use Rattle.std.specs.Prelude.{◌≡◌, ◌≤◌};
ghost use Rattle.rom_commands.specs.Endings.{code_of};

/// The status of a command. Standard error already has what there is to say.
#[derive(Debug, Clone, Copy, PartialEq, Eq)]
pub enum Status {
    /// What was asked for was done.
    Done,
    /// It was refused, and standard output says why.
    Refused,
    /// The words of the command line ask for nothing.
    Usage,
    /// A file, memory or a stream failed.
    Failed,
}

impl Status {
    /// Returns the exit status of the program.
    pub fn code(self) -> u8
        ensures value { result ≡ code_of self }
        ensures small { result ≤ 3 }
    {
        match self {
            Status::Done => 0,
            Status::Refused => 1,
            Status::Usage => 2,
            Status::Failed => 3,
        }
    }
}
