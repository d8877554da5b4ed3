ghost use Rattle.std.specs.Prelude.{◌↔◌, IsTrue};
ghost use Rattle.chain_links.specs.Address.{IsAddress};
ghost use Rattle.chain_links.specs.Place.{Adjoins};

use crate::address::Address;

/// The range of operations that a document covers: operations are numbered from 1, and `first` and `last` are both
/// included. An empty history has the span from 1 to 0.
#[derive(Clone, Copy, Debug, PartialEq, Eq)]
pub struct Span {
    pub first: u32,
    pub last: u32,
}

/// A document's place in the chain: its own address, its span, and the number of the archive before it, or 0.
#[derive(Clone, Copy, Debug, PartialEq, Eq)]
pub struct Place {
    pub address: Address,
    pub span: Span,
    pub prev: u32,
}

/// Whether `older` comes right before `newer` in the chain (RFC 5005 section 4): `older` is the archive that
/// `newer.prev` names, and its span ends right before that of `newer` begins. The clause says nothing of an archive
/// with number 0, which has no address.
pub fn follows(older: &Place, newer: &Place) -> bool
    ensures { IsAddress older.now.address → IsTrue result ↔ Adjoins older.now newer.now }
{
    let first = newer.span.first;
    let last = older.span.last;
    older.address == Address::Archive(newer.prev) && last < first && first - last == 1
}
