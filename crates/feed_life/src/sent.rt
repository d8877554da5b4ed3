use atom_values::Bytes;

/// A document that the store sent in a reply: its address, its bytes, and the number of operations of the history
/// then.
#[derive(Debug, Drop)]
pub struct SentDoc {
    pub address: Bytes,
    pub bytes: Bytes,
    pub version: u32,
}
