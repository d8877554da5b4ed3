ghost use Rattle.std.specs.Prelude.{◌≡◌, ◌≢◌, ◌⊎◌, ◌≤◌, ◌+◌, ◌++◌, ◌∷◌, [], false, true, List, length};
ghost use Rattle.std.specs.Prelude.{Err, IfErr, IfOk, Ok, OnOk};
ghost use Rattle.atom_values.specs.Counts.{CountsFault};
ghost use Rattle.feed_disk.specs.Moments.{AlwaysLeaves};
ghost use Rattle.feed_disk.specs.declared.area.Area.TheVariants.{Mirror as MirrorArea};
ghost use Rattle.feed_journal.specs.Limits.{header_length};
ghost use Rattle.member_rules.specs.Head.{HeadValue};
ghost use Rattle.member_rules.specs.Served.{Served};
ghost use Rattle.member_rules.specs.declared.operation.Op.{Op};
ghost use Rattle.mirror_walk.specs.Accept.{IsAnswerWithin, IsForRoom, IsKeptOf, IsTakeable, accept_within};
ghost use Rattle.mirror_walk.specs.Holding.{KeptValue};
ghost use Rattle.mirror_walk.specs.Mirror.{IsAtRest, IsOfferStep, KeepsSetting, StandsFor, StaysSound, is_spent};
ghost use Rattle.mirror_walk.specs.Offers.{AreServed, AreTakenOf, Offering};
ghost use Rattle.mirror_walk.specs.Taking.{HasOnlyMoreRoom, IsChecked, IsNoRoom, IsTakenNext, IsTakeStep};

use crate::answer::{Accepted, Offered};
use crate::kept::{Given, read_given};
use crate::mirror::Mirror;
use atom_grammar::MAX_DOCUMENT;
use feed_disk::Disk;
use feed_journal::{Framed, begun_images_are_whole};

/// The result of the checks of an offered document.
#[derive(Drop)]
pub(crate) enum Checked {
    /// The document isn't taken.
    Answered(Accepted),
    /// The document is to be taken, with its text as the payload.
    New(Given, Framed),
}

impl Mirror {
    /// Offers the mirror a document: bytes that were found at an address. Returns whether the mirror took it.
    ///
    /// The answer is the first of these that fits:
    ///
    /// - `NotADocument` if the bytes are the text of no document.
    /// - `WrongAddress` if the document's own address isn't `address`, or has another base than the mirror.
    /// - `WrongFeed` if a document is held and has another feed identifier.
    /// - `Known` if the archive, or the best subscription document with the same `last`, is held with the
    ///   same digest.
    /// - `Stale` if the document is a subscription document with a lower `last` than the best one.
    /// - `Conflict` if the archive, or the best subscription document with the same `last`, is held with
    ///   another digest.
    /// - `Break` if a held neighbour in the chain doesn't adjoin the document. The neighbours of an archive
    ///   are, in the order in which they are looked at, the archives before and after it and the best
    ///   subscription document if that comes right after it. The neighbour of a subscription document is the
    ///   archive before it.
    /// - `Full` if the area has no room for the document within the mirror's capacity.
    /// - `Taken`: the document is on the disk. This is the only answer that changes what is held.
    ///
    /// Any other answer but `DiskFault` leaves the mirror as it was, with its log and the list of the live
    /// entries.
    ///
    /// `NoMemory` may come in place of any answer. `DiskFault` may come in place of
    /// `Taken`, if the disk's count of faults rose. Then the mirror is spent, and a crash leaves the
    /// documents held before, or those and the new one.
    ///
    /// Reads the bytes once, passes over them for the places of the items, and digests and copies them once.
    /// `Taken` makes four device calls, and no other answer but `DiskFault` makes one.
    pub fn offer<D: Disk>(
        &mut self,
        disk: &mut D,
        address: &[u8],
        bytes: &[u8],
    ) -> Result<Accepted, Offered>
        requires unspent { is_spent self.old ≡ false }
        requires stands { D.observable → StandsFor (D.state disk.old) self.old }
        requires size { length bytes.now ≤ MAX_DOCUMENT }
        // The answer, and what is held afterwards, unless memory runs out or a device call fails.
        ensures answer { (result ≡ Err Offered.NoMemory) ⊎ (result ≡ Err Offered.DiskFault)
            ⊎ IsAnswerWithin self.old.capacity self.old.base self.old.kept address.now bytes.now
            result self.new.kept }
        // A document gets the first answer that fits it, unless memory runs out or a device call fails.
        ensures first_fit { (given : KeptValue) → IsKeptOf bytes.now given
            → (result ≡ accept_within self.old.capacity self.old.base self.old.kept address.now given)
            ⊎ (result ≡ Err Offered.NoMemory) ⊎ (result ≡ Err Offered.DiskFault) }
        // A device call fails only while a document is taken, so a failure hides no refusal.
        ensures failed_taking { result ≡ Err Offered.DiskFault → IsTakeable self.old.capacity
            self.old.base self.old.kept address.now bytes.now }
        // Only the room that the log has for one more payload may differ. What is held stays, and what `entry`
        // reads by: the places of the payloads and the list of the live entries.
        ensures unchanged { result ≢ Ok Accepted.Taken → result ≢ Err Offered.DiskFault
            → HasOnlyMoreRoom self.old self.new × (disk.new ≡ disk.old) }
        ensures setting { KeepsSetting (D.state disk.old) (D.state disk.new) self.old self.new }
        // The mirror can go on unless a device call failed.
        ensures sound { result ≢ Err Offered.DiskFault
            → StaysSound D.observable (D.state disk.old) (D.state disk.new) self.old self.new }
        ensures spent { result ≡ Err Offered.DiskFault → is_spent self.new ≡ true }

        // A crash at any moment of the call leaves the documents held before, or those and the new one.
        // `Mirror::load` of a whole area and each offer without a failed device call leave the disk at rest.
        ensures moments { D.observable → IsAtRest (D.state disk.old) self.old.kept
            → AlwaysLeaves (D.state disk.old) (D.state disk.new) MirrorArea
            (IsOfferStep self.old address.now bytes.now) }
        ensures faults { CountsFault (D.state disk.old).faults (D.state disk.new).faults
            (result ≡ Err Offered.DiskFault) }

        // If one feed served all documents that were offered, none is refused.
        ensures served { (head : HeadValue) (history : List Op) (offers : List Offering)
            → self.old.base ≡ head.name.base → AreServed head history offers
            → AreTakenOf self.old.base offers self.old.kept
            → Served head history address.now bytes.now → IfErr result IsForRoom }
    {
        begun_images_are_whole();
        // The value isn't used: the access opens the mirror, so that the proof knows its rules.
        let _ = &self.alloc;
        match self.check(address, bytes)? {
            Checked::Answered(accepted) => Ok(accepted),
            Checked::New(given, framed) => self.take(disk, given, &framed),
        }
    }

    /// Checks bytes that were offered under this address.
    fn check(&self, address: &[u8], bytes: &[u8]) -> Result<Checked, Offered>
        requires unspent { is_spent self.now ≡ false }
        requires size { length bytes.now ≤ MAX_DOCUMENT }
        ensures { IsChecked self.now address.now bytes.now result }
    {
        let given = read_given(self.alloc, bytes)?;
        if let Some(accepted) = self.documents.check(address, &given.name, &given.kept)? {
            return Ok(Checked::Answered(accepted));
        }
        let framed = self.framed(bytes)?;
        Ok(Checked::New(given, framed))
    }

    /// Returns the payload in the form in which it is appended. `Full` if it doesn't fit into the area.
    fn framed(&self, payload: &[u8]) -> Result<Framed, Offered>
        requires unspent { is_spent self.now ≡ false }
        requires size { length payload.now ≤ MAX_DOCUMENT }
        ensures framed { IfOk result (λ framed. framed ≡ payload.now) }
        ensures fits { OnOk result
            (self.now.log.size + (length payload.now + header_length) ≤ self.now.capacity) }
        ensures full { IfErr result (IsNoRoom self.now (length payload.now + header_length)) }
    {
        let framed = Framed::of(self.alloc, payload)?;
        if self.log.fits(&framed, self.capacity) {
            Ok(framed)
        } else {
            Err(Offered::Full {
                size: self.log.size(),
                needed: framed.needed(),
                capacity: self.capacity,
            })
        }
    }

    /// Holds a document that is to be taken, and appends it to the log. All memory is taken before the
    /// append. If the append fails, the mirror is spent, so nothing is undone.
    fn take<D: Disk>(
        &mut self,
        disk: &mut D,
        given: Given,
        framed: &Framed,
    ) -> Result<Accepted, Offered>
        requires unspent { is_spent self.old ≡ false }
        requires stands { D.observable → StandsFor (D.state disk.old) self.old }
        requires taken { IsTakenNext self.old given.kept framed.now }
        requires name { given.name ≡ given.kept.document.name }
        ensures answers { (result ≡ Ok Accepted.Taken) ⊎ (result ≡ Err Offered.NoMemory)
            ⊎ (result ≡ Err Offered.DiskFault) }
        ensures kept { OnOk result (self.new.kept ≡ self.old.kept ++ given.kept ∷ []) }
        ensures unchanged { result ≡ Err Offered.NoMemory
            → HasOnlyMoreRoom self.old self.new × (disk.new ≡ disk.old) }
        ensures setting { KeepsSetting (D.state disk.old) (D.state disk.new) self.old self.new }
        ensures sound { result ≢ Err Offered.DiskFault
            → StaysSound D.observable (D.state disk.old) (D.state disk.new) self.old self.new }
        ensures spent { result ≡ Err Offered.DiskFault → is_spent self.new ≡ true }
        ensures moments { D.observable → IsAtRest (D.state disk.old) self.old.kept
            → AlwaysLeaves (D.state disk.old) (D.state disk.new) MirrorArea (IsTakeStep self.old given.kept) }
        ensures faults { CountsFault (D.state disk.old).faults (D.state disk.new).faults
            (result ≡ Err Offered.DiskFault) }
    {
        begun_images_are_whole();
        self.log.reserve()?;
        self.documents.take(given)?;
        self.log.append(disk, framed)?;
        Ok(Accepted::Taken)
    }
}
