ghost use Rattle.std.specs.Prelude.{◌≡◌, Some, IfOk, IfSome};
ghost use Rattle.atom_values.specs.Entry.{EntryValue, IsEntry};
ghost use Rattle.atom_writer.specs.Pieces.{entry_piece};

use crate::part_fault::PartFault;
use crate::reader::Reader;
use atom_values::{Entry, NoMemory};
use atom_writer::FeedName;
use std::alloc::Global;

/// Reads the piece of one entry of a document that belongs to the feed with this name. `None` if the bytes are the
/// piece of no entry. Of the name only the base and the identifier are looked at.
///
/// The only error is out of memory.
pub fn read_entry(alloc: Global, name: &FeedName, piece: &[u8]) -> Result<Option<Entry>, NoMemory>
    // The bytes are the piece of the entry that is returned.
    ensures found { IfOk result (λ found. IfSome found (λ entry.
        IsEntry entry × (piece.now ≡ entry_piece name.now entry))) }
    // Each entry's piece is read as that entry, unless memory runs out.
    ensures only { (entry : EntryValue) → IsEntry entry → piece.now ≡ entry_piece name.now entry
        → IfOk result (λ found. found ≡ Some entry) }
{
    let mut reader = Reader::new(piece);
    match reader.entry(alloc, name) {
        Ok(entry) => {
            if reader.rest.is_empty() {
                Ok(Some(entry))
            } else {
                drop(entry);
                Ok(None)
            }
        }
        Err(PartFault::Mismatch) => Ok(None),
        Err(PartFault::NoMemory) => Err(NoMemory),
    }
}
