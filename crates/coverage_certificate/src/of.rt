//! The certificate of what a mirror holds.

ghost use Rattle.std.specs.Prelude.{◌≡◌, ◌≢◌, ◌++◌, ℕ, false, Err, IfOk, IsSome, IsTrue, List, None, OnOk, Some};
ghost use Rattle.std.specs.Prelude.{option_map, take};
ghost use Rattle.std.specs.Option.{option_to_list};
ghost use Rattle.atom_values.specs.Counts.{CountsFault};
ghost use Rattle.feed_disk.specs.Moments.{LeavesAlone};
ghost use Rattle.feed_disk.specs.declared.area.Area.{Area as AreaValue};
ghost use Rattle.member_rules.specs.Head.{HeadValue};
ghost use Rattle.member_rules.specs.Shows.{live_count_of};
ghost use Rattle.member_rules.specs.declared.operation.Op.{Op};
ghost use Rattle.mirror_walk.specs.Holding.{best_of, chain_of, first_missing, name_of_best, payloads_of};
ghost use Rattle.mirror_walk.specs.Listing.{ShowsSome, live_entries};
ghost use Rattle.mirror_walk.specs.Loaded.{IsLoadedOf};
ghost use Rattle.mirror_walk.specs.Mirror.{StandsFor, is_spent};
ghost use Rattle.mirror_walk.specs.Published.{HoldsServed};
ghost use Rattle.mirror_walk.specs.Rereading.{HasReadBack};
ghost use Rattle.coverage_certificate.specs.Certificate.{AreCoverLines};
ghost use Rattle.coverage_certificate.specs.Held.{certificate_of, line_at, lines_of, with_digest};
ghost use Rattle.coverage_certificate.specs.Live.{live_digest_of};
ghost use Rattle.coverage_certificate.specs.Served.{served_certificate};

use crate::certificate::{Certificate, MAX_COVER_LINES};
use crate::cover_line::CoverLine;
use crate::live::Live;
use atom_values::{Copies, Many, NoMemory};
use atom_writer::{FeedName, write_member};
use chain_links::Address;
use feed_disk::Disk;
use feed_journal::LogFault;
use mirror_walk::Mirror;
use sha2::{Digest, Sha256};
use std::alloc::Global;

impl Certificate {
    /// The certificate of what a mirror holds. `outcome` has found the mirror complete and listed the live
    /// entries, and no document was taken since.
    ///
    /// Reads each live entry back from the log, as [`Mirror::entry`] does. One entry and its member document at a
    /// time are in memory.
    ///
    /// Errors:
    ///
    /// - `DiskFault` if the disk's count of faults rose. Then the mirror is spent.
    /// - `Changed` with the index, counted from 0, of the document that shows a live member, if the disk gave
    ///   other bytes of it than there were. Never on a disk whose content contracts see.
    /// - `NoMemory`.
    pub fn of<D: Disk>(
        alloc: Global,
        mirror: &mut Mirror,
        disk: &mut D,
    ) -> Result<Certificate, LogFault>
        requires unspent { is_spent mirror.old ≡ false }
        requires listed { IsTrue mirror.old.listed }
        requires best { IsSome (best_of mirror.old.kept) }
        requires stands { D.observable → StandsFor (D.state disk.old) mirror.old }
        ensures certificate { IfOk result (λ made. D.observable
            → certificate_of made.base mirror.old.kept ≡ Some made) }
        // On any disk, all but the digest of the live entries is that of what is held.
        ensures parts { IfOk result (λ made. option_map (with_digest made.live_digest)
            (certificate_of made.base mirror.old.kept) ≡ Some made) }
        ensures base { IfOk result (λ made. option_map (λ name. name.base) (name_of_best mirror.old.kept)
            ≡ Some made.base) }
        // If one feed served all documents held, it is the feed's own certificate at this version.
        ensures served { IfOk result (λ made. D.observable → (head : HeadValue) (history : List Op)
            → mirror.old.base ≡ head.name.base → HoldsServed head history mirror.old.kept
            → made ≡ served_certificate head (take made.version history)) }
        ensures never { D.observable → (index : ℕ) → result ≢ Err (LogFault.Changed index) }
        // On any disk, the index is that of the document that shows a live member.
        ensures changed { (index : ℕ) → result ≡ Err (LogFault.Changed index)
            → ShowsSome mirror.old.kept index }

        // No area changes, and of the mirror only the count of calls. After `DiskFault` it is spent.
        ensures areas { (a : AreaValue) → LeavesAlone (D.state disk.old) (D.state disk.new) a }
        ensures mirror { HasReadBack D.observable (D.state disk.new) mirror.old mirror.new
            (result ≡ Err LogFault.DiskFault) }

        ensures faults { CountsFault (D.state disk.old).faults (D.state disk.new).faults
            (result ≡ Err LogFault.DiskFault) }
    {
        // A complete mirror has a best subscription document, and with it a name.
        let best = mirror.best().unwrap();
        let name = mirror.name().unwrap().copy(alloc)?;
        let lines = held_lines(alloc, mirror, best.prev)?;
        let live = digest_live(alloc, &name, mirror, disk)?;
        let FeedName {
            base,
            id,
            title: _,
            author: _,
        } = name;
        let digest = live.digest;
        Ok(Certificate {
            feed: id,
            base,
            version: best.span.last,
            lines,
            live_count: live.count,
            live_digest: digest,
        })
    }
}

/// The lines of the best subscription document and of the archives from `prev` down to 1, as far as they are
/// held.
fn held_lines(
    alloc: Global,
    mirror: &Mirror,
    prev: u32,
) -> Result<Many<CoverLine, MAX_COVER_LINES>, NoMemory>
    requires unspent { is_spent mirror.now ≡ false }
    requires best { IsSome (best_of mirror.now.kept) }
    ensures lines { IfOk result (λ lines. lines.items ≡ lines_of mirror.now.kept prev) }
    ensures placed { IfOk result (λ lines. AreCoverLines lines.items) }
{
    let mut lines = Many::new(alloc);
    push_held(&mut lines, mirror, Address::Feed)?;
    for before in 0..prev {
        push_held(&mut lines, mirror, Address::Archive(prev - before))?;
    }
    Ok(lines)
}

/// Adds the line of the document held at this address, if there is one.
fn push_held(
    lines: &mut Many<CoverLine, MAX_COVER_LINES>,
    mirror: &Mirror,
    address: Address,
) -> Result<(), NoMemory>
    requires { is_spent mirror.now ≡ false }
    ensures { OnOk result (lines.new.items
        ≡ lines.old.items ++ option_to_list (line_at mirror.now.kept address)) }
{
    if let Some(digest) = mirror.digest(address) {
        // The list is never full: a chain has fewer documents than there are numbers.
        lines
            .push(CoverLine { address, digest })
            .map_err(|_| NoMemory)?;
    }
    Ok(())
}

/// The number of live entries, and the digest of their member documents.
fn digest_live<D: Disk>(
    alloc: Global,
    name: &FeedName,
    mirror: &mut Mirror,
    disk: &mut D,
) -> Result<Live, LogFault>
    requires unspent { is_spent mirror.old ≡ false }
    requires listed { IsTrue mirror.old.listed }
    requires stands { D.observable → StandsFor (D.state disk.old) mirror.old }
    ensures count { IfOk result (λ live. live.count ≡ live_count_of (chain_of mirror.old.kept)) }
    ensures digest { IfOk result (λ live. D.observable
        → live.digest ≡ live_digest_of name.now (live_entries mirror.old.kept)) }
    ensures whole { IfOk result (λ live. first_missing mirror.old.kept ≡ None) }
    ensures loaded { IfOk result (λ live.
        IsLoadedOf mirror.old.base (payloads_of mirror.old.kept) mirror.old.kept) }
    ensures never { D.observable → (index : ℕ) → result ≢ Err (LogFault.Changed index) }
    ensures changed { (index : ℕ) → result ≡ Err (LogFault.Changed index)
        → ShowsSome mirror.old.kept index }
    ensures areas { (a : AreaValue) → LeavesAlone (D.state disk.old) (D.state disk.new) a }
    ensures mirror { HasReadBack D.observable (D.state disk.new) mirror.old mirror.new
        (result ≡ Err LogFault.DiskFault) }
    ensures faults { CountsFault (D.state disk.old).faults (D.state disk.new).faults
        (result ≡ Err LogFault.DiskFault) }
{
    let mut hasher = Sha256::new();
    let mut count = 0;
    let mut after = 0;
    while let Some(number) = mirror.next_live(after) {
        let entry = mirror.entry(disk, number)?;
        let written = write_member(alloc, name, &entry);
        // Before the exit, which would drop it a second time.
        drop(entry);
        let document = written?;
        hasher.update(document.as_slice());
        count += 1;
        after = number;
    }
    let digest = hasher.finalize();
    Ok(Live { count, digest })
}
