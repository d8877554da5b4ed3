use atom_values::Bytes;

/// The bytes and the size of a simulated crash: how `MemoryDisk::image` fills what is not synced.
///
/// The old bytes and the old size are those of the last sync. The new ones are those after each write since,
/// failed writes included. A byte is uncertain if the range of one of these writes has it, or if it is past the old
/// end.
#[derive(Debug, Drop)]
pub enum Choice {
    /// The old bytes and the old size.
    Old,
    /// The new bytes and the new size.
    New,
    /// This byte for each uncertain one, and the new size.
    Fill(u8),
    /// The given bytes for the uncertain ones, in order of area and offset. Each area has `size` bytes past
    /// its old end, or as many as it may have. After the last given byte the new bytes stay.
    Given { size: u64, bytes: Bytes },
}
