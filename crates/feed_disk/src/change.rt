use atom_values::Bytes;

/// A device call that changed an area or synced it.
#[derive(Debug, Drop)]
pub enum Change {
    /// The bytes were written from offset `at` on.
    Write { call: u64, at: u64, bytes: Bytes },
    /// The call that was to write them failed.
    FailedWrite { call: u64, at: u64, bytes: Bytes },
    /// The area was synced.
    Sync { call: u64 },
}
