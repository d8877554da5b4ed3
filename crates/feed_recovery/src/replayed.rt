ghost use Rattle.std.specs.Prelude.{◌≡◌, ◌↔◌, length, IfOk, IfErr, IfSome, OnOk, IsTrue};
ghost use Rattle.feed_disk.specs.declared.area.Area.TheVariants.{Journal, Sealed};
ghost use Rattle.feed_journal.specs.Records.{records};
ghost use Rattle.feed_recovery.specs.Loading.{AreCompared, FailsBy, IsAtFirst, IsReadable, IsReader, IsSealOf};
ghost use Rattle.feed_recovery.specs.Loading.{ListsAll, LogsHistory, OnlyReads, WorkedBoth};
ghost use Rattle.feed_recovery.specs.Opening.{IsJournal, IsSealCount};
ghost use Rattle.feed_recovery.specs.Refused.{IsJournalRefusal};
ghost use Rattle.feed_recovery.specs.Replayed.{KeepsReplayed};
ghost use Rattle.member_rules.specs.Windows.{windows_of};

use crate::fault::LoadFault;
use crate::places::Places;
use crate::replay::{head_of, replay};
use archive_sealer::Window;
use feed_disk::Disk;
use feed_journal::{FrameReader, Log};
use member_rules::{Head, Members};
use std::alloc::Global;
use std::marker::Model;

/// The history of a journal, read by [`Replayed::read`], and the first seal that isn't the text of its archive.
/// [`crate::Store::load`] makes its store of it.
#[derive(Debug, Drop)]
pub struct Replayed {
    pub(crate) head: Head,
    pub(crate) members: Members,
    pub(crate) window: Window,
    pub(crate) places: Places,
    wrong: Option<u32>,
}

impl Model for Replayed {
    ghost use Rattle.feed_recovery.specs.Loading.{HasReplayed};
    ghost use Rattle.feed_recovery.specs.Replayed.{ReplayedValue};

    ghost Value = { ReplayedValue };

    ghost view = { λ r. record {
      head = r.head;
      history = r.window.history;
      members = r.members;
      places = r.places.extents;
      wrong = r.wrong;
    } };

    ghost invariant = { λ r. HasReplayed r.head r.members r.window };
}

impl Replayed {
    /// Reads the journal to its end, and returns its history. When a window is full, and `seals` has its seal, the seal is
    /// compared with its archive. This refuses neither the number of the seals nor a wrong seal. It writes and syncs
    /// nothing.
    ///
    /// Errors: `NotInit` if the journal has no payload. `BadRecord` for its first payload that can't be there. `DiskFault`
    /// if the disk's count of faults rose. `NoMemory`, which hides no failed device call. Never `SealCount` or `BadSeal`.
    ///
    /// Cost: the calls of `reader`, and one for each seal. Each operation is looked at once, and each archive is made
    /// once.
    pub fn read<D: Disk>(
        alloc: Global,
        disk: &mut D,
        reader: &mut FrameReader,
        seals: &mut Log,
    ) -> Result<Replayed, LoadFault>
        requires reader { IsAtFirst D.observable (D.state disk.old) reader.old }
        requires seals { IsReadable D.observable (D.state disk.old) Sealed seals.old }
        ensures rules { IfOk result KeepsReplayed }
        ensures journal { IfOk result (λ replayed. D.observable
            → IsJournal (records ((D.state disk.old).content Journal)) replayed.head replayed.history) }
        ensures compared { IfOk result (λ replayed. D.observable → AreCompared replayed.head replayed.history
            (records ((D.state disk.old).content Sealed)) replayed.wrong) }
        // With any disk, a wrong seal is one of the log.
        ensures wrong { IfOk result (λ replayed. IfSome replayed.wrong (IsSealOf seals.old.extents)) }

        // The reader is at its end.
        ensures logs { IfOk result (λ replayed. LogsHistory reader.new.log replayed.history replayed.places) }
        ensures lists { OnOk result (D.observable → ListsAll reader.new.log ((D.state disk.new).content Journal)) }
        ensures reader { OnOk result (IsReader D.observable (D.state disk.new) reader.new) }

        ensures worked { OnOk result (WorkedBoth (D.state disk.old) (D.state disk.new)
            reader.old reader.new seals.old seals.new) }
        ensures reads { OnlyReads (D.state disk.old) (D.state disk.new) }
        ensures fault { IfErr result (FailsBy D.observable (D.state disk.old) (D.state disk.new)) }
        ensures refused { IfErr result IsJournalRefusal }
    {
        let head = head_of(alloc, disk, reader)?;
        match replay(alloc, disk, reader, seals, &head) {
            Ok(progress) => Ok(Replayed {
                head,
                members: progress.members,
                window: progress.window,
                places: progress.places,
                wrong: progress.wrong,
            }),
            Err(fault) => {
                drop(head);
                Err(fault)
            }
        }
    }

    /// Returns the head, the journal's first payload.
    pub fn head(&self) -> &Head
        ensures { result.now ≡ self.now.head }
    {
        &self.head
    }

    /// Returns the number of operations.
    pub fn operations(&self) -> u32
        ensures { result ≡ length self.now.history }
    {
        self.window.operations()
    }

    /// Returns how many windows are sealed: each full one, but not the last one if no operation follows it.
    pub fn sealed(&self) -> u32
        ensures { result ≡ (windows_of self.now.head self.now.history).sealed }
    {
        self.window.sealed()
    }

    /// Returns how many windows are full. Each has an archive.
    pub fn full(&self) -> u32
        ensures { result ≡ (windows_of self.now.head self.now.history).full }
    {
        let sealed = self.window.sealed();
        if self.window.is_full() {
            sealed + 1
        } else {
            sealed
        }
    }

    /// Returns whether a store with these operations may have this number of seals.
    pub fn may_have_seals(&self, found: u32) -> bool
        ensures { IsTrue result ↔ IsSealCount self.now.head self.now.history found }
    {
        found == self.sealed() || found == self.full()
    }

    /// Returns the number, from 1, of the first seal that isn't the text of its archive.
    pub fn wrong_seal(&self) -> Option<u32>
        ensures { result ≡ self.now.wrong }
    {
        self.wrong
    }
}
