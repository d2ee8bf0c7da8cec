// How a command ends.
ghost use Rattle.std.specs.Prelude.{◌≡◌};
ghost use Rattle.dart_sites.specs.Top.{code_of};

/// How a command ends.
#[derive(Clone, Copy, Debug, PartialEq, Eq)]
pub enum Status {
    /// The text is written, and every entry ended done.
    Done,
    /// The text is written, and some entry ended otherwise.
    EntryFault,
    /// The words are no request.
    BadWords,
    /// A read failed.
    ReadFault,
    /// The source has more than 1,048,576 bytes.
    TooLarge,
    /// The bytes are no source of the language.
    SyntaxRefused,
    /// The source breaks a static rule, or has no entry point of a name.
    NameRefused,
    /// A count of the source is over its limit.
    LimitRefused,
    /// A write of the text failed.
    WriteFault,
    /// Memory was wanting.
    NoMemory,
}

impl Status {
    /// The exit code of the program.
    pub fn code(self) -> u8
        ensures { result ≡ code_of self }
    {
        match self {
            Status::Done => 0,
            Status::EntryFault => 1,
            Status::BadWords => 2,
            Status::ReadFault => 3,
            Status::TooLarge => 4,
            Status::SyntaxRefused => 5,
            Status::NameRefused => 6,
            Status::LimitRefused => 7,
            Status::WriteFault => 8,
            Status::NoMemory => 9,
        }
    }
}
