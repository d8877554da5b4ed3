ghost use Rattle.std.specs.Prelude.{◌≡◌, ◌≢◌, ◌⊎◌, ℕ, false, Err, IfErr, IfOk, IsSome, IsTrue, List, Ok};
ghost use Rattle.atom_values.specs.Counts.{CountsFault};
ghost use Rattle.atom_values.specs.Entry.{EntryValue, IsEntry};
ghost use Rattle.atom_writer.specs.Pieces.{entry_piece};
ghost use Rattle.feed_disk.specs.Moments.{LeavesAlone};
ghost use Rattle.feed_disk.specs.declared.area.Area.{Area as AreaValue};
ghost use Rattle.member_rules.specs.Head.{HeadValue};
ghost use Rattle.member_rules.specs.declared.operation.Op.{Op};
ghost use Rattle.published_rule.specs.Counts.{Counts};
ghost use Rattle.mirror_walk.specs.Holding.{chain_of};
ghost use Rattle.mirror_walk.specs.Listing.{IsShownAt, live_at};
ghost use Rattle.mirror_walk.specs.Mirror.{StandsFor, is_spent};
ghost use Rattle.mirror_walk.specs.Published.{HoldsServed};
ghost use Rattle.mirror_walk.specs.Rereading.{HasReadBack};

use crate::mirror::Mirror;
use atom_grammar::read_entry;
use atom_values::Entry;
use atom_writer::FeedName;
use feed_disk::Disk;
use feed_journal::LogFault;
use std::alloc::Global;

impl Mirror {
    /// A copy of the entry of a live member. `outcome` has listed the live entries, and no document was taken
    /// since.
    ///
    /// If one feed served all documents held, it is the entry that counts by the published rule for
    /// duplicates, in the chain of the best subscription document.
    ///
    /// Reads the entry's piece alone back from the log, in one device call. The cost is that of the piece,
    /// wherever its neighbours by number are.
    ///
    /// Errors:
    ///
    /// - `DiskFault` if the disk's count of faults rose. Then the mirror is spent.
    /// - `Changed` with the index, counted from 0, of the document that shows the member, if the disk gave
    ///   less of it than there was, or bytes that aren't the piece of an entry of the member. Never on a disk
    ///   whose content contracts see.
    /// - `NoMemory`.
    pub fn entry<D: Disk>(&mut self, disk: &mut D, number: u32) -> Result<Entry, LogFault>
        requires unspent { is_spent self.old ≡ false }
        requires listed { IsTrue self.old.listed }
        requires live { IsSome (live_at self.old.kept number) }
        requires stands { D.observable → StandsFor (D.state disk.old) self.old }
        ensures entry { IfOk result (λ entry. D.observable → live_at self.old.kept number ≡ Some entry) }
        // If one feed served all documents held, the entry counts in the chain of the best one.
        ensures published { IfOk result (λ entry. D.observable → (head : HeadValue) (history : List Op)
            → self.old.base ≡ head.name.base → HoldsServed head history self.old.kept
            → Counts (chain_of self.old.kept) number entry) }
        // On any disk, the entry has this member's number.
        ensures number { IfOk result (λ entry. entry.number ≡ number) }
        ensures never { D.observable → (index : ℕ) → result ≢ Err (LogFault.Changed index) }
        // On any disk, the index is that of the document that shows the member.
        ensures changed { (index : ℕ) → result ≡ Err (LogFault.Changed index)
            → IsShownAt self.old.kept number index }

        // No area changes, and of the mirror only the count of calls. After `DiskFault` it is spent.
        ensures areas { (a : AreaValue) → LeavesAlone (D.state disk.old) (D.state disk.new) a }
        ensures mirror { HasReadBack D.observable (D.state disk.new) self.old self.new
            (result ≡ Err LogFault.DiskFault) }

        ensures faults { CountsFault (D.state disk.old).faults (D.state disk.new).faults
            (result ≡ Err LogFault.DiskFault) }
    {
        let place = self.documents.entry_place(number);
        let index = place.document;
        let piece_place = self.documents.piece_place(place);
        let piece = self
            .log
            .read_part(disk, index, piece_place.at, piece_place.length)?;
        // No document is missing, so there is a best subscription document, and with it a name.
        let name = self.documents.name().unwrap();
        entry_of(self.alloc, name, piece.as_slice(), index, number)
    }
}

/// Reads the piece of the member's entry. `Changed` with this index if the bytes are none.
fn entry_of(
    alloc: Global,
    name: &FeedName,
    piece: &[u8],
    index: u32,
    number: u32,
) -> Result<Entry, LogFault>
    ensures only { (entry : EntryValue) → IsEntry entry → entry.number ≡ number
        → piece.now ≡ entry_piece name.now entry → (result ≡ Ok entry) ⊎ (result ≡ Err LogFault.NoMemory) }
    ensures number { IfOk result (λ entry. entry.number ≡ number) }
    ensures refused { IfErr result (λ fault. (fault ≡ LogFault.NoMemory)
        ⊎ (fault ≡ LogFault.Changed index)) }
{
    let Some(entry) = read_entry(alloc, name, piece)? else {
        return Err(LogFault::Changed { index });
    };
    if entry.number == number {
        Ok(entry)
    } else {
        drop(entry);
        Err(LogFault::Changed { index })
    }
}
