ghost use Rattle.std.specs.Prelude.{◌≡◌};
ghost use Rattle.std.specs.Borrow.{ftrue};
ghost use Rattle.atom_writer.specs.Doc.{DocValue};

use atom_writer::Doc;
use std::marker::Model;

/// The document that a `Kept` was made from. It takes no memory: only contracts and proofs see the document.
#[derive(Drop)]
pub(crate) struct Origin {
    pub(crate) ghost document: { DocValue },
}

impl Model for Origin {
    // An origin owns nothing. The member is here because only a type with it may have a ghost field that is
    // data.
    ghost also_owns = { λ _. ftrue };
}

impl Origin {
    /// The origin of what is made from this document.
    pub(crate) fn of(_document: &Doc) -> Origin
        ensures { result.document ≡ _document.now }
    {
        Origin {}
    }
}
