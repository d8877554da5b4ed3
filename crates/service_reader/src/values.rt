use atom_values::Bytes;

/// The greatest number of collections of a service document.
pub const MAX_COLLECTIONS: u32 = 64;

/// A collection of another server (RFC 5023 section 8.3.3).
#[derive(Debug, Drop)]
pub struct Collection {
    /// The address of the collection's feed.
    pub href: Bytes,
    /// Whether the collection takes new entries (RFC 5023 section 8.3.4).
    pub entries: bool,
}
