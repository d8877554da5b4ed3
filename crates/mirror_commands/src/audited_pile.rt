//! The pile of an audit.

ghost use Rattle.std.specs.Prelude.{◌≡◌, ◌+◌, ◌≤◌, All, Err, IfErr, IfOk, None, Ok, length};
ghost use Rattle.atom_values.specs.Counts.{CountsFault};
ghost use Rattle.doc_source.specs.Pile.{IsOffer};
ghost use Rattle.feed_disk.specs.Raised.{RisesAtMost};
ghost use Rattle.mirror_commands.specs.Audit.{audited_limit};
ghost use Rattle.mirror_commands.specs.AuditEnds.{MayStopAudit};
ghost use Rattle.mirror_commands.specs.AuditedPile.{RefusesPile, StopsAmidPile};
ghost use Rattle.command_ends.specs.Fault.{IsRefusal};
ghost use Rattle.mirror_commands.specs.Mirror.{ReadsToWithin};

use command_ends::{Fault, Refusal};
use doc_source::{Offer, PileReader, Source};
use std::alloc::Global;

/// How many offers a pile that is audited may have.
const MAX_AUDITED_OFFERS: usize = 100_000;

/// Returns the offers of the pile that is the rest of the input, of at most `limit` bytes.
pub(crate) fn read_pile<I: Source>(
    alloc: Global,
    limit: u64,
    input: &mut I,
) -> Result<Vec<Offer>, Fault>
    ensures offers { IfOk result (λ offers. I.observable
        → ReadsToWithin limit (I.state input.old).left offers.items (Ok None)) }
    ensures few { IfOk result (λ offers. length offers.items ≤ audited_limit) }
    ensures rules { IfOk result (λ offers. All IsOffer offers.items) }
    ensures refused { IfErr result (λ fault. IsRefusal fault → I.observable
        → RefusesPile limit (I.state input.old).left fault) }
    ensures only_errors { IfErr result MayStopAudit }
    ensures input { CountsFault (I.state input.old).faults (I.state input.new).faults
        (result ≡ Err Fault.Input) }
    ensures within { result ≡ Err Fault.Input → I.observable
        → StopsAmidPile limit (I.state input.old) (I.state input.new) }
    ensures read { RisesAtMost (limit + 1) (I.state input.old).bytes_read (I.state input.new).bytes_read }
{
    let mut reader = PileReader::new(alloc, limit)?;
    let mut offers = Vec::new(alloc);
    while let Some(offer) = reader.next(input)? {
        if offers.len() == MAX_AUDITED_OFFERS {
            drop(offer);
            drop(offers);
            drop(reader);
            return Err(Fault::Refused(Refusal::TooManyOffers));
        }
        offers.push(offer)?;
    }
    drop(reader);
    Ok(offers)
}
