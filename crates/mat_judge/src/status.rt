//! How a call ends.

ghost use Rattle.std.specs.Prelude.{◌≡◌};
ghost use Rattle.mat_judge.specs.Statuses.{status_number};

/// How a call ended.
#[derive(Clone, Copy, Debug, PartialEq, Eq)]
pub enum Status {
    /// The command was done.
    Done,
    /// The answer in the certificate isn't right, or the witness doesn't show its rung.
    No,
    /// The words are no command.
    Usage,
    /// The description has a fault.
    BadDescription,
    /// The certificate has a fault.
    BadCertificate,
    /// A file could not be opened or read.
    ReadFault,
    /// The answer could not be written whole.
    WriteFault,
    /// There was not enough memory.
    Memory,
    /// A file has more bytes than its limit.
    TooLong,
    /// The form of the problem is not the command's or the certificate's, or the certificate has no such rung.
    WrongShape,
    /// A matroid is not of a kind that has witnesses.
    Unwitnessed,
    /// The witness has a fault.
    BadWitness,
    /// A cost is below 0 or has a tie, so that no weights of vertex sets can pay for it.
    BadCost,
    /// The list of jobs has a line that is not the needed one.
    BadList,
}

impl Status {
    /// The number by which the program ends.
    pub fn number(self) -> u8
        ensures { result ≡ status_number self }
    {
        match self {
            Status::Done => 0,
            Status::No => 1,
            Status::Usage => 2,
            Status::BadDescription => 3,
            Status::BadCertificate => 4,
            Status::ReadFault => 5,
            Status::WriteFault => 6,
            Status::Memory => 7,
            Status::TooLong => 8,
            Status::WrongShape => 9,
            Status::Unwitnessed => 11,
            Status::BadWitness => 12,
            Status::BadCost => 13,
            Status::BadList => 14,
        }
    }
}
