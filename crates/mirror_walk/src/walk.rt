ghost use Rattle.std.specs.Prelude.{◌≡◌, ◌≢◌, ◌+◌, ◌-◌, ◌<◌, ◌^◌, List, None, Err, IfOk, IsTrue};
ghost use Rattle.std.specs.Prelude.{IfSome, false, true};
ghost use Rattle.chain_links.specs.Address.{IsAddress};
ghost use Rattle.feed_disk.specs.Moments.{AlwaysLeaves};
ghost use Rattle.feed_disk.specs.declared.area.Area.TheVariants.{Mirror as MirrorArea};
ghost use Rattle.member_rules.specs.Head.{HeadValue};
ghost use Rattle.member_rules.specs.declared.operation.Op.{Op};
ghost use Rattle.mirror_walk.specs.Listing.{is_complete, outcome_of};
ghost use Rattle.mirror_walk.specs.Mirror.{IsAtRest, KeepsSetting, StandsFor, StaysSound, is_spent};
ghost use Rattle.mirror_walk.specs.Offers.{AreServed, AreTakenOf, Offering};
ghost use Rattle.mirror_walk.specs.Visit.{CountsFaults, VisitsByAnswer};
ghost use Rattle.mirror_walk.specs.Visit.{VisitsByAnswers, counted_answer, visit_of};
ghost use Rattle.mirror_walk.specs.Walk.{HasWalked, IsServedBy, IsWalkStep, NamesAddresses, WalksByAnswers, setting_of};

use crate::answer::{Accepted, Offered, Outcome};
use crate::mirror::Mirror;
use atom_values::NoMemory;
use chain_links::Address;
use doc_source::{Fetch, GetFault};
use feed_disk::Disk;
use feed_journal::begun_images_are_whole;
use std::error::Error;
use std::fmt;

/// A document that a mirror refused in a walk.
#[derive(Debug, PartialEq, Eq, Drop)]
pub struct Refusal {
    /// The address that was asked.
    pub address: Address,
    pub why: Offered,
}

/// How a walk went: the addresses asked, the mirror's answers to the documents found, and what the mirror
/// shows afterwards.
#[derive(Debug, PartialEq, Eq, Drop)]
pub struct Walked {
    /// The number of addresses asked.
    pub asked: u32,
    /// The number of documents that were new.
    pub taken: u32,
    /// The number of documents that were held already.
    pub known: u32,
    /// The number of subscription documents that were older than the best one.
    pub stale: u32,
    /// The refusal at which the walk ended, if it ended at one.
    pub refused: Option<Refusal>,
    pub outcome: Outcome,
}

/// Why a walk has no result. The documents that it took stay held.
#[derive(Clone, Copy, Debug, PartialEq, Eq)]
pub enum WalkFault {
    /// A call of the source failed.
    FetchFault,
    /// The last document doesn't fit: the area has `size` bytes and may have `capacity`, and the document
    /// takes `needed` more.
    Full {
        size: u64,
        needed: u64,
        capacity: u64,
    },
    /// A device call failed. The mirror is spent: drop it and load it again.
    DiskFault,
    /// Out of memory.
    NoMemory,
}

impl fmt::Display for WalkFault {
    fn fmt<W: fmt::Write>(&self, f: &mut fmt::Formatter<W>) -> fmt::Result {
        match self {
            WalkFault::FetchFault => write!(f, "fetch fault"),
            WalkFault::Full {
                size,
                needed,
                capacity,
            } => write!(
                f,
                "no room for {needed} bytes after the {size} of the mirror area, of {capacity}"
            ),
            WalkFault::DiskFault => write!(f, "disk fault"),
            WalkFault::NoMemory => write!(f, "out of memory"),
        }
    }
}

impl Error for WalkFault {}

impl From<NoMemory> for WalkFault {
    ghost use Rattle.std.specs.Prelude.{◌≡◌};
    ghost use Rattle.mirror_walk.specs.declared.walk.WalkFault.TheVariants.{NoMemory as LackOfMemory};

    ghost from_gives = { λ _ fault. fault ≡ LackOfMemory };

    fn from(_error: NoMemory) -> WalkFault {
        WalkFault::NoMemory
    }
}

impl From<GetFault> for WalkFault {
    ghost use Rattle.mirror_walk.specs.Visit.{get_fault};
    ghost use Rattle.std.specs.Prelude.{◌≡◌};

    ghost from_gives = { λ fault given. given ≡ get_fault fault };

    fn from(fault: GetFault) -> WalkFault {
        match fault {
            GetFault::Failed => WalkFault::FetchFault,
            GetFault::NoMemory => WalkFault::NoMemory,
        }
    }
}

/// The numbers of a walk's addresses and answers so far.
#[derive(Clone, Copy, Debug, PartialEq, Eq, Default)]
struct Tally {
    asked: u32,
    taken: u32,
    known: u32,
    stale: u32,
}

impl Tally {
    /// Counts an answer.
    fn count(&mut self, answer: Accepted)
        requires { self.old.taken + self.old.known + self.old.stale < 2 ^ 32 - 1 }
        ensures { self.new ≡ counted_answer self.old answer }
    {
        match answer {
            Accepted::Taken => self.taken += 1,
            Accepted::Known => self.known += 1,
            Accepted::Stale => self.stale += 1,
        }
    }
}

/// How an address was found that a walk asked.
#[derive(Drop)]
enum Visit {
    /// The source has no document there.
    NotThere,
    /// The mirror refused the document.
    Refused(Offered),
    /// The mirror accepted the document.
    Accepted(Accepted),
}

/// A walk up to its end: its numbers, and the refusal at which it ended, if it ended at one.
#[derive(Drop)]
struct Visits {
    tally: Tally,
    refused: Option<Refusal>,
}

/// Turns the mirror's answer to a document that was found into the visit's result: the walk goes on, or ends.
fn visit_by(answer: Result<Accepted, Offered>) -> Result<Visit, WalkFault>
    ensures { result ≡ visit_of answer }
{
    match answer {
        Ok(accepted) => Ok(Visit::Accepted(accepted)),
        Err(
            Offered::Full {
                size,
                needed,
                capacity,
            },
        ) => Err(WalkFault::Full {
            size,
            needed,
            capacity,
        }),
        Err(Offered::DiskFault) => Err(WalkFault::DiskFault),
        Err(Offered::NoMemory) => Err(WalkFault::NoMemory),
        Err(refusal) => Ok(Visit::Refused(refusal)),
    }
}

impl Mirror {
    /// Walks a feed: asks the source for the feed's document, and then for the first missing one, as `wanted`
    /// returns it, again and again (RFC 5005 section 4). Each document found is offered to the mirror.
    ///
    /// The walk ends if nothing is missing, if the source has no document at the address, or if the mirror
    /// refuses the document. It asks for no document twice, and for none that is held but the feed's.
    ///
    /// Errors, after which the documents that were taken stay held:
    ///
    /// - `FetchFault` if the source's count of faults rose.
    /// - `Full` if the last document doesn't fit into the area within the mirror's capacity.
    /// - `DiskFault` if the disk's count of faults rose. Then the mirror is spent, and a crash leaves the
    ///   documents held before and the first few of those that the walk took.
    /// - `NoMemory`.
    ///
    /// Holds one document's bytes at a time. Each document that is taken makes four device calls.
    pub fn walk<D: Disk, F: Fetch>(
        &mut self,
        disk: &mut D,
        fetch: &mut F,
    ) -> Result<Walked, WalkFault>
        requires unspent { is_spent self.old ≡ false }
        requires stands { D.observable → StandsFor (D.state disk.old) self.old }
        // Over a source whose answers contracts can see: the addresses asked, what is held, and the result.
        ensures walked { F.observable → HasWalked (setting_of self.old (F.state fetch.old))
            self.old.kept self.new.kept (F.state fetch.old).asked (F.state fetch.new).asked result }
        // Over any source: the outcome is that of the documents held afterwards.
        ensures outcome { IfOk result (λ walked. walked.outcome ≡ outcome_of self.new.kept) }
        ensures listed { IfOk result (λ walked.
            IsTrue (is_complete walked.outcome) → IsTrue self.new.listed) }
        ensures addresses { IfOk result NamesAddresses }
        ensures setting { KeepsSetting (D.state disk.old) (D.state disk.new) self.old self.new }
        // The mirror can go on unless a device call failed.
        ensures sound { result ≢ Err WalkFault.DiskFault
            → StaysSound D.observable (D.state disk.old) (D.state disk.new) self.old self.new }
        ensures spent { result ≡ Err WalkFault.DiskFault → is_spent self.new ≡ true }

        // A crash at any moment leaves the documents held before and the first few of those that are taken.
        ensures moments { D.observable → F.observable → IsAtRest (D.state disk.old) self.old.kept
            → AlwaysLeaves (D.state disk.old) (D.state disk.new) MirrorArea
            (IsWalkStep (setting_of self.old (F.state fetch.old)) self.old.kept) }
        // Over any source: the same, by what the source answered in this call.
        ensures by_answers { WalksByAnswers D.observable F.observable (D.state disk.old) (D.state disk.new)
            (F.state fetch.old) (F.state fetch.new) self.old self.new.kept result }

        // The source's answers stay. The counts of faults rose exactly where a call failed.
        ensures answers { (F.state fetch.new).answers ≡ (F.state fetch.old).answers }
        ensures faults { CountsFaults (D.state disk.old).faults (D.state disk.new).faults
            (F.state fetch.old).faults (F.state fetch.new).faults result }

        // If one feed served all documents held and all that the source has, the walk ends without a refusal.
        ensures served { F.observable → (head : HeadValue) (history : List Op) (offers : List Offering)
            → self.old.base ≡ head.name.base → AreServed head history offers
            → AreTakenOf self.old.base offers self.old.kept
            → IsServedBy head history (F.state fetch.old).answers
            → IfOk result (λ walked. walked.refused ≡ None) }
    {
        let Visits { tally, refused } = self.visit_all(disk, fetch)?;
        let outcome = self.outcome()?;
        Ok(Walked {
            asked: tally.asked,
            taken: tally.taken,
            known: tally.known,
            stale: tally.stale,
            refused,
            outcome,
        })
    }

    /// Walks without the outcome.
    fn visit_all<D: Disk, F: Fetch>(
        &mut self,
        disk: &mut D,
        fetch: &mut F,
    ) -> Result<Visits, WalkFault>
        requires unspent { is_spent self.old ≡ false }
        requires stands { D.observable → StandsFor (D.state disk.old) self.old }
        ensures visited { VisitsByAnswers D.observable F.observable (D.state disk.old) (D.state disk.new)
            (F.state fetch.old) (F.state fetch.new) self.old self.new.kept result }
        ensures address { IfOk result (λ made.
            IfSome made.refused (λ refusal. IsAddress refusal.address)) }
        ensures setting { KeepsSetting (D.state disk.old) (D.state disk.new) self.old self.new }
        ensures sound { result ≢ Err WalkFault.DiskFault
            → StaysSound D.observable (D.state disk.old) (D.state disk.new) self.old self.new }
        ensures spent { result ≡ Err WalkFault.DiskFault → is_spent self.new ≡ true }
        ensures answers { (F.state fetch.new).answers ≡ (F.state fetch.old).answers }
        ensures faults { CountsFaults (D.state disk.old).faults (D.state disk.new).faults
            (F.state fetch.old).faults (F.state fetch.new).faults result }
    {
        let mut tally = Tally::default();
        let mut address = Address::Feed;
        'addresses: loop {
            tally.asked += 1;
            match self.visit(disk, fetch, address)? {
                Visit::Accepted(answer) => tally.count(answer),
                Visit::NotThere => return Ok(Visits {
                    tally,
                    refused: None,
                }),
                Visit::Refused(why) => {
                    let refused = Some(Refusal { address, why });
                    return Ok(Visits { tally, refused });
                }
            }
            match self.wanted() {
                Some(next) => address = next,
                None => return Ok(Visits {
                    tally,
                    refused: None,
                }),
            }
        }
    }

    /// Asks the source for the document of an address, and offers it to the mirror.
    fn visit<D: Disk, F: Fetch>(
        &mut self,
        disk: &mut D,
        fetch: &mut F,
        address: Address,
    ) -> Result<Visit, WalkFault>
        requires unspent { is_spent self.old ≡ false }
        requires stands { D.observable → StandsFor (D.state disk.old) self.old }
        requires address { IsAddress address }
        ensures visited { VisitsByAnswer D.observable F.observable (D.state disk.old) (D.state disk.new)
            (F.state fetch.old) (F.state fetch.new) self.old address self.new.kept result }
        ensures setting { KeepsSetting (D.state disk.old) (D.state disk.new) self.old self.new }
        ensures sound { result ≢ Err WalkFault.DiskFault
            → StaysSound D.observable (D.state disk.old) (D.state disk.new) self.old self.new }
        ensures spent { result ≡ Err WalkFault.DiskFault → is_spent self.new ≡ true }
        ensures answers { (F.state fetch.new).answers ≡ (F.state fetch.old).answers }
        ensures faults { CountsFaults (D.state disk.old).faults (D.state disk.new).faults
            (F.state fetch.old).faults (F.state fetch.new).faults result }
    {
        // Its contract is a law that the proof uses.
        begun_images_are_whole();
        let text = self.documents.base.print(self.alloc, address)?;
        let Some(bytes) = fetch.get(self.alloc, text.as_slice())? else {
            return Ok(Visit::NotThere);
        };
        visit_by(self.offer(disk, text.as_slice(), bytes.as_slice()))
    }
}
