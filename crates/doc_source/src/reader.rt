//! The reader of a pile.

ghost use Rattle.std.specs.Prelude.{◌≡◌, ℕ, ◌+◌, ◌-◌, ◌≤◌, ◌++◌, [], length, Ok, Err, None, Some, Option, Result, IfOk, IfSome, OnOk};
ghost use Rattle.atom_values.specs.Counts.{CountsFault};
ghost use Rattle.feed_disk.specs.Raised.{RisesAtMost};
ghost use Rattle.doc_source.specs.declared.fault.PileFault.{PileFault as PileFaultValue};
ghost use Rattle.doc_source.specs.declared.offer.Offer.{Offer as OfferValue};
ghost use Rattle.doc_source.specs.Pile.{IsAnswer, IsOfBytes, IsOffer, IsOpen, refusal_after, taken_by, taken_past};
ghost use Rattle.doc_source.specs.Pile.{TakesRead, unused, used_text};

use crate::fault::PileFault;
use crate::intake::Intake;
use crate::offer::Offer;
use crate::outside::Source;
use crate::part::{Part, next_part};
use atom_values::NoMemory;
use std::alloc::Global;
use std::marker::Model;

/// A reader of a pile. It reads its source once and in order, and keeps one offer and one buffer of 65,536 bytes in
/// memory.
#[derive(Debug, Drop)]
pub struct PileReader {
    alloc: Global,
    intake: Intake,
    /// The offer that was being read when a call of the source failed.
    part: Option<Part>,
    /// The offset in the pile at which the offers that were returned end.
    used: u64,
    refusal: Option<PileFault>,
}

impl Model for PileReader {
    ghost use Rattle.doc_source.specs.Part.{KeepsReader, with_part};
    ghost use Rattle.doc_source.specs.Pile.{PileState};

    ghost Value = { PileState };

    ghost view = { λ r. record {
      ahead = (with_part r.used r.part r.intake).ahead;
      used = r.used;
      limit = r.intake.limit;
      refusal = r.refusal;
    } };

    ghost invariant = { λ r. KeepsReader r.used r.part r.intake r.refusal };
}

impl PileReader {
    /// A reader before the first byte, of a pile that may have `limit` bytes. `NoMemory` if there is no memory for its
    /// buffer.
    pub fn new(alloc: Global, limit: u64) -> Result<PileReader, NoMemory>
        ensures { IfOk result (λ reader.
            reader ≡ record { ahead = []; used = 0; limit = limit; refusal = None }) }
    {
        Ok(PileReader {
            alloc,
            intake: Intake::new(alloc, limit)?,
            part: None,
            used: 0,
            refusal: None,
        })
    }

    /// Reads the next offer. `None` at the end of the source, if the pile ends there.
    ///
    /// Errors:
    ///
    /// - `TooLong`: the next offer isn't whole within the first `limit` bytes, these bytes are a prefix of some pile,
    ///   and the source has more bytes.
    /// - `BadPile`: in all other cases in which no offer follows and the pile doesn't end. `at` is the offset at which
    ///   the line or the offer begins that can't be read.
    /// - `SourceFault`: a call of the source failed. What was read before is the beginning of a pile's next offer, so
    ///   bytes that can't be read come to `BadPile`, also if the next read would fail. A further call reads on.
    /// - `NoMemory`: memory ran out.
    ///
    /// After `TooLong`, `BadPile` or `NoMemory` each further call returns the same error and reads nothing.
    ///
    /// At most `limit` bytes of the source are taken. One byte more may be taken before `TooLong` or `BadPile`,
    /// to learn whether the source goes on.
    pub fn next<S: Source>(&mut self, source: &mut S) -> Result<Option<Offer>, PileFault>
        ensures answer { self.old.refusal ≡ None → S.observable
            → IsAnswer self.old.used self.old.limit
            (unused self.old (S.state source.old)) result }

        // No other answer fits the bytes.
        ensures only { self.old.refusal ≡ None → S.observable
            → (answer : Result (Option OfferValue) PileFaultValue)
            → IsAnswer self.old.used self.old.limit
            (unused self.old (S.state source.old)) answer
            → IsOfBytes answer → IsOfBytes result → result ≡ answer }

        // A refusal is given again and again, and nothing is read.
        ensures again { IfSome self.old.refusal (λ fault. (result ≡ Err fault) × (self.new ≡ self.old)
            × (S.state source.new ≡ S.state source.old)) }
        ensures refusal { self.old.refusal ≡ None → self.new.refusal ≡ refusal_after result }

        // Any other answer but an offer leaves all bytes unused.
        ensures stays { self.new.refusal ≡ None → S.observable → unused self.old (S.state source.old)
            ≡ used_text self.old.used result ++ unused self.new (S.state source.new) }
        ensures used { self.new.used ≡ self.old.used + length (used_text self.old.used result) }
        ensures limit { self.new.limit ≡ self.old.limit }
        ensures bound { self.new.used + length self.new.ahead ≤ self.new.limit }
        ensures read { RisesAtMost
            (self.old.limit - taken_by self.old + taken_past result)
            (S.state source.old).bytes_read (S.state source.new).bytes_read }
        // While no refusal is kept, each byte that was read is used or ahead.
        ensures kept { self.new.refusal ≡ None
            → TakesRead self.old self.new (S.state source.old).bytes_read (S.state source.new).bytes_read }
        ensures rules { IfOk result (λ found. IfSome found IsOffer) }

        // Bytes from which no pile goes on are refused before more are asked for.
        ensures open { result ≡ Err PileFault.SourceFault → IsOpen self.old.used self.new.ahead }
        ensures faults { CountsFault (S.state source.old).faults (S.state source.new).faults
            (result ≡ Err PileFault.SourceFault) }
    {
        if let Some(fault) = self.refusal {
            return Err(fault);
        }
        match self.read_offer(source) {
            Ok(found) => Ok(found),
            Err(fault) => {
                self.refusal = fault.lasting();
                Err(fault)
            }
        }
    }

    /// Reads the next offer. After an error but `SourceFault` nothing is known of the bytes ahead.
    fn read_offer<S: Source>(&mut self, source: &mut S) -> Result<Option<Offer>, PileFault>
        requires { self.old.refusal ≡ None }
        ensures answer { S.observable → IsAnswer self.old.used self.old.limit
            (unused self.old (S.state source.old)) result }
        ensures refusal { self.new.refusal ≡ None }
        ensures stays { refusal_after result ≡ None → S.observable → unused self.old (S.state source.old)
            ≡ used_text self.old.used result ++ unused self.new (S.state source.new) }
        ensures used { self.new.used ≡ self.old.used + length (used_text self.old.used result) }
        ensures limit { self.new.limit ≡ self.old.limit }
        ensures bound { self.new.used + length self.new.ahead ≤ self.new.limit }
        ensures read { RisesAtMost
            (self.old.limit - taken_by self.old + taken_past result)
            (S.state source.old).bytes_read (S.state source.new).bytes_read }
        ensures kept { refusal_after result ≡ None
            → TakesRead self.old self.new (S.state source.old).bytes_read (S.state source.new).bytes_read }
        ensures rules { IfOk result (λ found. IfSome found IsOffer) }
        ensures open { result ≡ Err PileFault.SourceFault → IsOpen self.old.used self.new.ahead }
        ensures faults { CountsFault (S.state source.old).faults (S.state source.new).faults
            (result ≡ Err PileFault.SourceFault) }
    {
        let kept = self.part.take();
        let Some(mut part) = next_part(self.alloc, kept, &mut self.intake, source, self.used)?
        else {
            return Ok(None);
        };
        if let Err(fault) = part.read_on(&mut self.intake, source, self.used) {
            self.part = Some(part);
            return Err(fault);
        }
        self.used = self.intake.taken() - self.intake.ahead().len() as u64;
        Ok(Some(part.into_offer()))
    }
}
