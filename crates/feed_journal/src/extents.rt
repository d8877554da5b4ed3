ghost use Rattle.std.specs.Prelude.{◌≡◌, List, [], ◌∷◌, ◌++◌, take};
ghost use Rattle.std.specs.Borrow.{ftrue};
ghost use Rattle.feed_journal.specs.declared.extent.Extent.{Extent as ExtentValue};

use crate::extent::Extent;
use std::fmt;
use std::marker::Model;

/// Where the payloads of some frames are. It takes no bytes, and only contracts see it.
#[derive(Drop)]
pub struct Extents {
    pub ghost list: { List ExtentValue },
}

impl Model for Extents {
    // It owns nothing. The member is here because only a type with it may have a ghost field that is data.
    ghost also_owns = { λ _. ftrue };
}

impl Extents {
    /// No extents.
    pub(crate) fn new() -> Extents
        ensures { result.list ≡ [] }
    {
        Extents {}
    }

    /// The first `_count` of these extents.
    pub(crate) fn first(_count: u32, _of: &Extents) -> Extents
        ensures { result.list ≡ take _count _of.now.list }
    {
        Extents {}
    }

    /// These extents, and then this one.
    pub(crate) fn with(_before: &Extents, _extent: &Extent) -> Extents
        ensures { result.list ≡ _before.now.list ++ _extent.now ∷ [] }
    {
        Extents {}
    }
}

impl fmt::Debug for Extents {
    fn fmt<W: fmt::Write>(&self, f: &mut fmt::Formatter<W>) -> fmt::Result {
        f.write_str("Extents")
    }
}
