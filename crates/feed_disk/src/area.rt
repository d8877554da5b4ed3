use std::fmt;

/// One of the three areas of a disk. Each is a sequence of bytes.
#[derive(Clone, Copy, Debug, PartialEq, Eq, Hash)]
pub enum Area {
    /// The log of the accepted operations.
    Journal,
    /// The log of the sealed archive documents.
    Sealed,
    /// The log of the documents that a mirror holds.
    Mirror,
}

impl fmt::Display for Area {
    fn fmt<W: fmt::Write>(&self, f: &mut fmt::Formatter<W>) -> fmt::Result {
        f.write_str(match self {
            Area::Journal => "journal",
            Area::Sealed => "sealed",
            Area::Mirror => "mirror",
        })
    }
}
