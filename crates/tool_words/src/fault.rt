use atom_values::NoMemory;
use std::alloc::AllocError;
use std::error::Error;
use std::fmt;

/// Why `read_words` returns no command.
#[derive(Clone, Copy, Debug, PartialEq, Eq)]
pub enum WordsFault {
    /// The words spell no command.
    Usage,
    /// Out of memory.
    NoMemory,
}

impl fmt::Display for WordsFault {
    fn fmt<W: fmt::Write>(&self, f: &mut fmt::Formatter<W>) -> fmt::Result {
        match self {
            WordsFault::Usage => write!(f, "the words are those of no command"),
            WordsFault::NoMemory => write!(f, "out of memory"),
        }
    }
}

impl Error for WordsFault {}

impl From<NoMemory> for WordsFault {
    ghost use Rattle.std.specs.Prelude.{◌≡◌};
    ghost use Rattle.tool_words.specs.declared.fault.WordsFault.TheVariants.{NoMemory};

    ghost from_gives = { λ _ fault. fault ≡ NoMemory };

    fn from(_error: NoMemory) -> WordsFault {
        WordsFault::NoMemory
    }
}

impl From<AllocError> for WordsFault {
    ghost use Rattle.std.specs.Prelude.{◌≡◌};
    ghost use Rattle.tool_words.specs.declared.fault.WordsFault.TheVariants.{NoMemory};

    ghost from_gives = { λ _ fault. fault ≡ NoMemory };

    fn from(_error: AllocError) -> WordsFault {
        WordsFault::NoMemory
    }
}

/// Why `read_line` returns nothing that the line asks for.
#[derive(Clone, Copy, Debug, PartialEq, Eq)]
pub enum LineFault {
    /// The line has none of the forms of a line.
    BadLine,
    /// Out of memory.
    NoMemory,
}

impl fmt::Display for LineFault {
    fn fmt<W: fmt::Write>(&self, f: &mut fmt::Formatter<W>) -> fmt::Result {
        match self {
            LineFault::BadLine => write!(f, "the line has none of the forms of a line"),
            LineFault::NoMemory => write!(f, "out of memory"),
        }
    }
}

impl Error for LineFault {}
