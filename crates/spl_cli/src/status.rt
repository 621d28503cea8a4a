// How a run ends.
ghost use Rattle.std.specs.Prelude.{◌≡◌};

/// How a run ends.
#[derive(Clone, Copy, Debug, PartialEq, Eq)]
pub enum Status {
    /// The work is done, and the whole report is written.
    Done,
    /// The claim fails: `no C` is written.
    No,
    /// The words are of no form: the usage text is written.
    Usage,
    /// The input is refused: its first fault is written.
    Refused,
    /// A read failed. Nothing is written.
    ReadFault,
    /// A write failed. A proper prefix of the report is written.
    WriteFault,
    /// There was not enough memory. Nothing is written.
    Memory,
}

impl Status {
    ghost use Rattle.spl_cli.specs.Code.{code_of};

    /// The exit status of the program, from 0 to 6.
    pub fn code(&self) -> u8
        ensures { result ≡ code_of self.now }
    {
        match self {
            Status::Done => 0,
            Status::No => 1,
            Status::Usage => 2,
            Status::Refused => 3,
            Status::ReadFault => 4,
            Status::WriteFault => 5,
            Status::Memory => 6,
        }
    }
}
