ghost use Rattle.std.specs.Prelude.{◌≡◌, ℕ, List, [], ◌∷◌, ◌++◌};
ghost use Rattle.std.specs.Borrow.{ftrue};
ghost use Rattle.member_rules.specs.declared.operation.Op.{Op as Operation};

use atom_values::AtomText;
use member_rules::Op;
use std::fmt;
use std::marker::Model;

/// What a window began with, and the operations that it was given. It takes no bytes, and only contracts see it.
#[derive(Drop)]
pub struct Past {
    pub ghost first: { ℕ },
    pub ghost title: { List ℕ },
    pub ghost operations: { List Operation },
}

impl Model for Past {
    // A past owns nothing. The member is here because only a type with it may have a ghost field that is data.
    ghost also_owns = { λ _. ftrue };
}

impl Past {
    /// No operations, of a feed whose first window has this size and whose first title is this one.
    pub(crate) fn new(_first: u32, _title: &AtomText) -> Past
        ensures { result ≡ record { first = _first; title = _title.now; operations = [] } }
    {
        Past {}
    }

    /// These operations, and then this one.
    pub(crate) fn with(_before: &Past, _operation: &Op) -> Past
        ensures { result ≡ record _before.now { operations = _before.now.operations ++ _operation.now ∷ [] } }
    {
        Past {}
    }
}

impl fmt::Debug for Past {
    fn fmt<W: fmt::Write>(&self, f: &mut fmt::Formatter<W>) -> fmt::Result {
        f.write_str("Past")
    }
}
