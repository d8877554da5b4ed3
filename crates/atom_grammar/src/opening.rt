use atom_values::Stamp;
use atom_writer::{FeedName, Kind};
use chain_links::Base;

/// The base and the kind of document that the document's own address names.
#[derive(Drop)]
pub(crate) struct Own {
    pub base: Base,
    pub kind: Kind,
}

/// The values in the pieces up to the document's own address.
#[derive(Drop)]
pub(crate) struct Opening {
    pub name: FeedName,
    pub kind: Kind,
    pub updated: Stamp,
}
