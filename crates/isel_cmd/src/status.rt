//! How a run of the program ends. The numbers of the statuses stand here alone.

ghost use Rattle.std.specs.Prelude.{◌≡◌};
ghost use Rattle.isel_cmd.specs.Status.{number_of};

/// How a run ended.
#[derive(Clone, Copy)]
pub enum Status {
    /// The library was written, and lists no claim as undecided.
    Done,
    /// The library was written, and lists an undecided claim.
    Open,
    /// The words have no form.
    NoForm,
    /// The file is not of the accepted form.
    Refused,
    /// The file could not be read.
    ReadFailed,
    /// A write failed.
    WriteFailed,
    /// Memory ran out.
    NoMemory,
}

impl Status {
    /// The exit status of the program.
    pub fn number(self) -> u8
        ensures { result ≡ number_of self }
    {
        match self {
            Status::Done => 0,
            Status::Open => 1,
            Status::NoForm => 2,
            Status::Refused => 3,
            Status::ReadFailed => 4,
            Status::WriteFailed => 5,
            Status::NoMemory => 6,
        }
    }
}
