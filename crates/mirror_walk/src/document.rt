ghost use Rattle.std.specs.Prelude.{◌≡◌, ◌≢◌, ◌≤◌, ℕ, false, Err, IfOk, IfSome, List, None, Some, length};
ghost use Rattle.std.specs.Prelude.{option_map, slice_get, vec_len};
ghost use Rattle.atom_values.specs.Counts.{CountsFault};
ghost use Rattle.chain_links.specs.Address.{printed};
ghost use Rattle.feed_disk.specs.Moments.{LeavesAlone};
ghost use Rattle.feed_disk.specs.declared.area.Area.{Area as AreaValue};
ghost use Rattle.member_rules.specs.Head.{HeadValue};
ghost use Rattle.member_rules.specs.Served.{Served};
ghost use Rattle.member_rules.specs.declared.operation.Op.{Op};
ghost use Rattle.mirror_walk.specs.Holding.{document_at, text_at};
ghost use Rattle.mirror_walk.specs.Mirror.{StandsFor, is_spent};
ghost use Rattle.mirror_walk.specs.Published.{HoldsServed};
ghost use Rattle.mirror_walk.specs.Rereading.{HasReadBack};

use crate::mirror::Mirror;
use atom_grammar::MAX_DOCUMENT;
use chain_links::Address;
use feed_disk::Disk;
use feed_journal::LogFault;

impl Mirror {
    /// The bytes of the document held at an address: of the best subscription document for `Feed`, and of the
    /// held archive for an archive. `None` for a document that isn't held, and for a member.
    ///
    /// If one feed served all documents held, it served these bytes at this address.
    ///
    /// Reads the document back from the log, in one device call. `None` makes no call.
    ///
    /// Errors:
    ///
    /// - `DiskFault` if the disk's count of faults rose. Then the mirror is spent.
    /// - `Changed` with the index, counted from 0, of the document, if the disk gave less of it than there
    ///   was. Never on a disk whose content contracts see.
    /// - `NoMemory`.
    pub fn document<D: Disk>(
        &mut self,
        disk: &mut D,
        address: Address,
    ) -> Result<Option<Vec<u8>>, LogFault>
        requires unspent { is_spent self.old ≡ false }
        requires stands { D.observable → StandsFor (D.state disk.old) self.old }
        ensures document { IfOk result (λ found. D.observable
            → option_map (λ bytes. bytes.items) found ≡ text_at self.old.kept address) }
        // If one feed served all documents held, it served this one.
        ensures served { IfOk result (λ found. D.observable → (head : HeadValue) (history : List Op)
            → HoldsServed head history self.old.kept
            → IfSome found (λ bytes. Served head history (printed self.old.base address) bytes.items)) }
        // On any disk, bytes are returned exactly where a document is held, and are as many as it has.
        ensures length { IfOk result (λ found.
            option_map (λ bytes. length bytes.items) found ≡ option_map length (text_at self.old.kept address)) }
        ensures limit { IfOk result (λ found. IfSome found (λ bytes. vec_len bytes ≤ MAX_DOCUMENT)) }
        ensures never { D.observable → (index : ℕ) → result ≢ Err (LogFault.Changed index) }
        // On any disk, the index is that of the document.
        ensures changed { (index : ℕ) → result ≡ Err (LogFault.Changed index)
            → slice_get self.old.kept index ≡ document_at self.old.kept address }

        // No area changes, and of the mirror only the count of calls. After `DiskFault` it is spent.
        ensures areas { (a : AreaValue) → LeavesAlone (D.state disk.old) (D.state disk.new) a }
        ensures mirror { HasReadBack D.observable (D.state disk.new) self.old self.new
            (result ≡ Err LogFault.DiskFault) }
        // Where no document is held, neither memory nor the disk is needed.
        ensures absent { document_at self.old.kept address ≡ None → result ≡ Ok None }
        ensures untouched { document_at self.old.kept address ≡ None → disk.new ≡ disk.old }

        ensures faults { CountsFault (D.state disk.old).faults (D.state disk.new).faults
            (result ≡ Err LogFault.DiskFault) }
    {
        let Some(index) = self.documents.index(address) else {
            return Ok(None);
        };
        Ok(Some(self.log.read(disk, index)?))
    }
}
