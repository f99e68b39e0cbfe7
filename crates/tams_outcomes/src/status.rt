//! The program's statuses.
ghost use Rattle.std.specs.Prelude.{◌≡◌};

/// What the program's status says of a run.
#[derive(Clone, Copy, Debug, PartialEq, Eq)]
pub enum Status {
    /// 0: the command is done.
    Done,
    /// 1: the words are no command.
    BadWords,
    /// 2: the file refuses the command.
    Refused,
    /// 3: a call of the disk failed.
    DiskFault,
    /// 4: there was no memory.
    NoMemory,
    /// 5: a call of the link failed.
    LinkFault,
    /// 6: the input ended within a request.
    Cut,
    /// 7: a named refusal of `manifest`.
    NamedRefusal,
}

impl Status {
    ghost use Rattle.tams_outcomes.specs.Statuses.{number_of};

    /// The number with which the program exits.
    pub fn number(self) -> u8
        ensures { result ≡ number_of self }
    {
        match self {
            Status::Done => 0,
            Status::BadWords => 1,
            Status::Refused => 2,
            Status::DiskFault => 3,
            Status::NoMemory => 4,
            Status::LinkFault => 5,
            Status::Cut => 6,
            Status::NamedRefusal => 7,
        }
    }
}
