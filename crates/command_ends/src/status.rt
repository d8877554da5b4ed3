ghost use Rattle.std.specs.Prelude.{◌≡◌};
ghost use Rattle.command_ends.specs.Status.{code_of};

/// How a run of the program ends. Each way has an exit status.
#[derive(Clone, Copy, Debug, PartialEq, Eq)]
pub enum Status {
    /// The command came to its defined end: 0.
    Done,
    /// The words name no command: 2.
    Usage,
    /// A document is missing, or none of the collections takes entries: 3.
    Incomplete,
    /// The documents don't cover the certificate that is audited: 3, as for a mirror that isn't complete. No command
    /// ends with both.
    Rejected,
    /// A call on the disk failed: 4.
    DiskFault,
    /// Memory ran out: 5.
    NoMemory,
    /// The disk has no store or no mirror that opens, or has a store already: 6.
    BadStore,
    /// A call on the door failed: 7.
    DoorFault,
    /// A call on the source of documents failed: 7, as for the door. No command uses both.
    FetchFault,
    /// A call on the output failed: 8.
    OutputFault,
    /// A call on the input failed: 9.
    InputFault,
    /// The input or the document of the source isn't in the command's grammar, or the input is over its limit: 10.
    BadInput,
    /// An area of the store has no room: 11.
    Full,
    /// The rules of the feed refuse a line of the input, the store doesn't have the document that the words name, or
    /// the mirror has another base: 12.
    Refused,
}

impl Status {
    /// The exit status.
    pub fn code(self) -> u8
        ensures { result ≡ code_of self }
    {
        match self {
            Status::Done => 0,
            Status::Usage => 2,
            Status::Incomplete | Status::Rejected => 3,
            Status::DiskFault => 4,
            Status::NoMemory => 5,
            Status::BadStore => 6,
            Status::DoorFault | Status::FetchFault => 7,
            Status::OutputFault => 8,
            Status::InputFault => 9,
            Status::BadInput => 10,
            Status::Full => 11,
            Status::Refused => 12,
        }
    }
}
